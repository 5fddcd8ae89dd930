//! The ISWC, the standard musical work code.
ghost use Rattle.std.specs.Prelude.{◌≡◌, Ok, length, true};
ghost use Rattle.work_ids.specs.Iswc.{has_iswc_form, has_iswc_marks, has_right_check_digit, is_iswc, iswc_field_of, iswc_of, iswc_of_text, printed, without_iswc_marks};

use crate::IdFault;
use crate::blanks::are_blank;
use crate::characters::are_digits;
use crate::checksum::is_check_digit;
use std::marker::Model;

/// Characters of an ISWC without hyphens and points.
pub const ISWC_LENGTH: usize = 11;

/// Characters of a printed ISWC.
pub const ISWC_TEXT_LENGTH: usize = 15;

/// The standard code of a musical work: a T, nine digits and their check digit (ISO 15707).
#[derive(Clone, Copy, Debug, PartialEq, Eq, PartialOrd, Ord)]
pub struct Iswc {
    bytes: [u8; 11],
}

impl Model for Iswc {
    ghost use Rattle.std.specs.Prelude.{◌≡◌, List, ℕ, true};
    ghost use Rattle.work_ids.specs.Iswc.{is_iswc};

    ghost Value = { List ℕ };

    ghost view = { λ i. i.bytes };

    ghost invariant = { λ i. is_iswc i.bytes ≡ true };

    ghost inverse = { λ bytes. record { bytes = bytes } };
}

// Whether eleven characters are a T and ten digits.
#[tactic(auto, unfolding(crate::specs::Iswc::has_iswc_form))]
fn has_iswc_form(characters: &[u8]) -> bool
    requires { length characters.now ≡ 11 }
    ensures { result ≡ has_iswc_form characters.now }
{
    characters[0] == b'T' && are_digits(&characters[1..])
}

// Whether the last of eleven characters is the check digit of the nine before it.
#[tactic(auto, unfolding(crate::specs::Iswc::has_right_check_digit))]
fn has_right_check_digit(characters: &[u8]) -> bool
    requires { length characters.now ≡ 11 }
    ensures { result ≡ has_right_check_digit characters.now }
{
    let mut digits = [0; 9];
    digits.copy_from_slice(&characters[1..10]);
    is_check_digit(&digits, characters[10])
}

// Whether a printed form has its hyphens and points.
#[tactic(auto, unfolding(crate::specs::Iswc::has_iswc_marks))]
fn has_iswc_marks(text: &[u8; 15]) -> bool
    ensures { result ≡ has_iswc_marks text.now }
{
    text[1] == b'-' && text[5] == b'.' && text[9] == b'.' && text[13] == b'-'
}

// The characters of a printed form without its hyphens and points.
fn without_iswc_marks(text: &[u8; 15]) -> [u8; 11]
    ensures { result ≡ without_iswc_marks text.now }
{
    [
        text[0], text[2], text[3], text[4], text[6], text[7], text[8], text[10], text[11],
        text[12], text[14],
    ]
}

impl Iswc {
    // The ISWC that eleven characters are, or the least refusal that holds.
    #[tactic(auto, unfolding(crate::specs::Iswc::iswc_of))]
    fn from_characters(bytes: &[u8]) -> Result<Iswc, IdFault>
        ensures { result ≡ iswc_of bytes.now }
    {
        if bytes.len() != ISWC_LENGTH {
            return Err(IdFault::Length);
        }
        if !has_iswc_form(bytes) {
            return Err(IdFault::Character);
        }
        if !has_right_check_digit(bytes) {
            return Err(IdFault::CheckDigit);
        }
        let mut iswc = [0; 11];
        iswc.copy_from_slice(bytes);
        Ok(Iswc { bytes: iswc })
    }

    /// What a field of eleven bytes has, none where all are blanks; else the least of `Length`, `Character` and
    /// `CheckDigit` that holds (ISO 15707; that blanks mean none: profile).
    pub fn from_field(field: &[u8]) -> Result<Option<Iswc>, IdFault>
        ensures { result ≡ iswc_field_of field.now }
    {
        if field.len() == ISWC_LENGTH && are_blank(field) {
            return Ok(None);
        }
        Ok(Some(Iswc::from_characters(field)?))
    }

    /// The ISWC of a text of 11 characters, or of 15 as in `T-034.524.680-1`; else the least of `Length`, `Character`
    /// (a wrong hyphen or point too) and `CheckDigit` that holds (ISO 15707).
    #[tactic(auto, unfolding(crate::specs::Iswc::iswc_of_text))]
    pub fn from_text(text: &[u8]) -> Result<Iswc, IdFault>
        ensures { result ≡ iswc_of_text text.now }
    {
        if text.len() != ISWC_TEXT_LENGTH {
            return Iswc::from_characters(text);
        }
        let mut printed = [0; 15];
        printed.copy_from_slice(text);
        if !has_iswc_marks(&printed) {
            return Err(IdFault::Character);
        }
        Iswc::from_characters(&without_iswc_marks(&printed))
    }

    /// The printed form, as in `T-034.524.680-1` (ISO 15707); `from_text` reads it back as the same ISWC.
    pub fn to_text(&self) -> [u8; 15]
        ensures text { result ≡ printed self.now }
        ensures back { iswc_of_text result ≡ Ok self.now }
    {
        let b = &self.bytes;
        [
            b[0], b'-', b[1], b[2], b[3], b'.', b[4], b[5], b[6], b'.', b[7], b[8], b[9], b'-',
            b[10],
        ]
    }

    /// The eleven characters without hyphens and points.
    pub fn as_bytes(&self) -> &[u8]
        ensures bytes { result.now ≡ self.now }
        ensures len { length result.now ≡ 11 }
        ensures iswc { is_iswc self.now ≡ true }
    {
        &self.bytes
    }
}
