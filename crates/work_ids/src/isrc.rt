//! The ISRC, the standard recording code.
ghost use Rattle.std.specs.Prelude.{◌≡◌, Ok, length, true};
ghost use Rattle.work_ids.specs.Isrc.{has_isrc_form, has_isrc_marks, is_isrc, isrc_field_of, isrc_of, isrc_of_text, printed_isrc, without_isrc_marks};

use crate::IdFault;
use crate::blanks::are_blank;
use crate::characters::{
    are_capitals, are_capitals_or_digits, are_digits, is_hyphen, make_capitals,
};
use std::marker::Model;

/// Characters of an ISRC without hyphens.
pub const ISRC_LENGTH: usize = 12;

/// Characters of a printed ISRC.
pub const ISRC_TEXT_LENGTH: usize = 15;

/// The standard code of a recording: two letters, three letters or digits, and seven digits (ISO 3901).
#[derive(Clone, Copy, Debug, PartialEq, Eq, PartialOrd, Ord)]
pub struct Isrc {
    bytes: [u8; 12],
}

impl Model for Isrc {
    ghost use Rattle.std.specs.Prelude.{◌≡◌, List, ℕ, true};
    ghost use Rattle.work_ids.specs.Isrc.{is_isrc};

    ghost Value = { List ℕ };

    ghost view = { λ i. i.bytes };

    ghost invariant = { λ i. is_isrc i.bytes ≡ true };

    ghost inverse = { λ bytes. record { bytes = bytes } };
}

// Whether twelve characters are two letters, three letters or digits, and seven digits.
#[tactic(auto, unfolding(crate::specs::Isrc::has_isrc_form))]
fn has_isrc_form(characters: &[u8]) -> bool
    requires { length characters.now ≡ 12 }
    ensures { result ≡ has_isrc_form characters.now }
{
    are_capitals(&characters[..2])
        && are_capitals_or_digits(&characters[2..5])
        && are_digits(&characters[5..])
}

// Whether a printed form has its hyphens.
#[tactic(auto, unfolding(crate::specs::Isrc::has_isrc_marks))]
fn has_isrc_marks(text: &[u8; 15]) -> bool
    ensures { result ≡ has_isrc_marks text.now }
{
    // (all three are looked at: a test by itself costs less than a branch, here and in the proof)
    is_hyphen(text[2]) & is_hyphen(text[6]) & is_hyphen(text[9])
}

// The characters of a printed form without its hyphens.
fn without_isrc_marks(text: &[u8; 15]) -> [u8; 12]
    ensures { result ≡ without_isrc_marks text.now }
{
    [
        text[0], text[1], text[3], text[4], text[5], text[7], text[8], text[10], text[11],
        text[12], text[13], text[14],
    ]
}

impl Isrc {
    // The ISRC that twelve characters are, or the least refusal that holds.
    #[tactic(auto, unfolding(crate::specs::Isrc::isrc_of))]
    fn from_characters(bytes: &[u8]) -> Result<Isrc, IdFault>
        ensures { result ≡ isrc_of bytes.now }
    {
        if bytes.len() != ISRC_LENGTH {
            return Err(IdFault::Length);
        }
        if !has_isrc_form(bytes) {
            return Err(IdFault::Character);
        }
        let mut isrc = [0; 12];
        isrc.copy_from_slice(bytes);
        Ok(Isrc { bytes: isrc })
    }

    /// What a field of twelve bytes has, none where all are blanks; else the least of `Length` and `Character` that
    /// holds (ISO 3901; that blanks mean none: profile).
    pub fn from_field(field: &[u8]) -> Result<Option<Isrc>, IdFault>
        ensures { result ≡ isrc_field_of field.now }
    {
        if field.len() == ISRC_LENGTH && are_blank(field) {
            return Ok(None);
        }
        Ok(Some(Isrc::from_characters(field)?))
    }

    /// The ISRC of a text of 12 characters, or of 15 as in `AT-ABC-26-00001`, small letters read as capitals; else the
    /// least of `Length` and `Character` (a wrong hyphen too) that holds (ISO 3901; the texts: profile).
    #[tactic(auto, unfolding(crate::specs::Isrc::isrc_of_text))]
    pub fn from_text(text: &[u8]) -> Result<Isrc, IdFault>
        ensures { result ≡ isrc_of_text text.now }
    {
        if text.len() == ISRC_TEXT_LENGTH {
            let mut printed = [0; 15];
            printed.copy_from_slice(text);
            if !has_isrc_marks(&printed) {
                return Err(IdFault::Character);
            }
            let mut characters = without_isrc_marks(&printed);
            make_capitals(&mut characters);
            return Isrc::from_characters(&characters);
        }
        if text.len() != ISRC_LENGTH {
            return Err(IdFault::Length);
        }
        let mut characters = [0; 12];
        characters.copy_from_slice(text);
        make_capitals(&mut characters);
        Isrc::from_characters(&characters)
    }

    /// The printed form, as in `AT-ABC-26-00001` (ISO 3901); `from_text` reads it back as the same ISRC.
    pub fn to_text(&self) -> [u8; 15]
        ensures text { result ≡ printed_isrc self.now }
        ensures back { isrc_of_text result ≡ Ok self.now }
    {
        let b = &self.bytes;
        [
            b[0], b[1], b'-', b[2], b[3], b[4], b'-', b[5], b[6], b'-', b[7], b[8], b[9], b[10],
            b[11],
        ]
    }

    /// The twelve characters without hyphens.
    pub fn as_bytes(&self) -> &[u8]
        ensures bytes { result.now ≡ self.now }
        ensures len { length result.now ≡ 12 }
        ensures isrc { is_isrc self.now ≡ true }
    {
        &self.bytes
    }
}
