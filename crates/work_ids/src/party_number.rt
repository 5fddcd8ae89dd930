//! The number that a sender gives a party.
ghost use Rattle.std.specs.Prelude.{◌≡◌, ◌≤◌, length, true};
ghost use Rattle.std.specs.List.{list_all};
ghost use Rattle.work_ids.specs.Blanks.{fill, is_blank_byte, without_trailing_blanks};
ghost use Rattle.work_ids.specs.Characters.{is_printable};
ghost use Rattle.work_ids.specs.PartyNumber.{begins_printed, is_party_number, party_number_of};

use crate::IdFault;
use crate::blanks::{are_blank, fill, trim, without_trailing_blanks};
use crate::characters::are_printable;
use std::marker::Model;

/// Bytes of a party number with the blanks behind it.
pub const PARTY_NUMBER_LENGTH: usize = 9;

/// What a sender calls a party: up to 9 bytes of printable ASCII with no blank at either end, or none at all (CISAC CWR
/// 2.2, interested party number; the characters: profile). Clauses see it filled with blanks to 9 bytes.
#[derive(Clone, Copy, Debug, PartialEq, Eq, PartialOrd, Ord)]
pub struct PartyNumber {
    bytes: [u8; 9],
}

impl Model for PartyNumber {
    ghost use Rattle.std.specs.Prelude.{◌≡◌, List, ℕ, true};
    ghost use Rattle.work_ids.specs.PartyNumber.{is_party_number};

    ghost Value = { List ℕ };

    ghost view = { λ n. n.bytes };

    ghost invariant = { λ n. is_party_number n.bytes ≡ true };

    ghost inverse = { λ bytes. record { bytes = bytes } };
}

impl PartyNumber {
    /// The number of at most nine printable bytes with no blank in front.
    #[tactic(auto, using(crate::proofs::lemmas::PartyNumbers::number_filled))]
    pub(crate) fn from_trimmed(number: &[u8]) -> PartyNumber
        requires room { length number.now ≤ 9 }
        requires printable { list_all is_printable number.now ≡ true }
        requires front { begins_printed number.now ≡ true }
        ensures { result ≡ fill 9 number.now }
    {
        PartyNumber {
            bytes: fill(number),
        }
    }

    /// The number that a field has, blanks at both ends aside, a blank one too; else the least of `Length` (over nine
    /// bytes) and `Character` that holds (profile).
    #[tactic(auto, using(crate::proofs::lemmas::PartyNumbers::begins_printed_of_trimmed))]
    pub fn from_field(field: &[u8]) -> Result<PartyNumber, IdFault>
        ensures { result ≡ party_number_of field.now }
    {
        let number = trim(field);
        if number.len() > PARTY_NUMBER_LENGTH {
            return Err(IdFault::Length);
        }
        if !are_printable(number) {
            return Err(IdFault::Character);
        }
        Ok(PartyNumber::from_trimmed(number))
    }

    /// Whether the number is blank.
    pub fn is_blank(&self) -> bool
        ensures { result ≡ list_all is_blank_byte self.now }
    {
        are_blank(&self.bytes)
    }

    /// The number without blanks at its end, up to nine bytes.
    pub fn as_bytes(&self) -> &[u8]
        ensures bytes { result.now ≡ without_trailing_blanks self.now }
        ensures number { is_party_number self.now ≡ true }
    {
        without_trailing_blanks(&self.bytes)
    }
}
