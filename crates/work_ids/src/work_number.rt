//! What a sender calls a work.
ghost use Rattle.std.specs.Prelude.{◌≡◌, Ok};
ghost use Rattle.work_ids.specs.Blanks.{without_trailing_blanks};
ghost use Rattle.work_ids.specs.WorkNumber.{work_number_of};

use crate::IdFault;
use crate::blanks::{fill, without_trailing_blanks};
use crate::characters::are_printable;
use std::marker::Model;

/// Bytes of a work number with the blanks behind it.
pub const WORK_NUMBER_LENGTH: usize = 14;

/// What a sender calls a work: 1 to 14 bytes of printable ASCII with no blank at the end (CISAC CWR 2.2,
/// submitter work number; the characters: profile). Clauses see it filled with blanks to 14 bytes.
#[derive(Clone, Copy, Debug, PartialEq, Eq, PartialOrd, Ord)]
pub struct WorkNumber {
    bytes: [u8; 14],
}

impl Model for WorkNumber {
    ghost use Rattle.std.specs.Prelude.{◌≡◌, List, ℕ, Ok};
    ghost use Rattle.work_ids.specs.Blanks.{without_trailing_blanks};
    ghost use Rattle.work_ids.specs.WorkNumber.{work_number_of};

    ghost Value = { List ℕ };

    ghost view = { λ n. n.bytes };

    // It is what its own text is read as.
    ghost invariant = { λ n. work_number_of (without_trailing_blanks n.bytes) ≡ Ok n.bytes };

    ghost inverse = { λ bytes. record { bytes = bytes } };
}

impl WorkNumber {
    /// The number that the bytes spell, blanks at their end aside; else the least of `Length` (nothing left, or over 14
    /// bytes) and `Character` that holds (profile).
    #[tactic(auto, using(crate::proofs::lemmas::Refilled::work_number_back))]
    pub fn from_bytes(bytes: &[u8]) -> Result<WorkNumber, IdFault>
        ensures { result ≡ work_number_of bytes.now }
    {
        let number = without_trailing_blanks(bytes);
        if number.is_empty() || number.len() > WORK_NUMBER_LENGTH {
            return Err(IdFault::Length);
        }
        if !are_printable(number) {
            return Err(IdFault::Character);
        }
        Ok(WorkNumber {
            bytes: fill(number),
        })
    }

    /// The number without blanks at its end, 1 to 14 bytes; `from_bytes` reads it back as the same number.
    pub fn as_bytes(&self) -> &[u8]
        ensures bytes { result.now ≡ without_trailing_blanks self.now }
        ensures back { work_number_of result.now ≡ Ok self.now }
    {
        without_trailing_blanks(&self.bytes)
    }
}
