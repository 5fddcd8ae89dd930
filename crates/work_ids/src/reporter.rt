//! Who sends performance returns.
ghost use Rattle.std.specs.Prelude.{◌≡◌, Ok};
ghost use Rattle.work_ids.specs.Blanks.{without_trailing_blanks};
ghost use Rattle.work_ids.specs.Reporter.{reporter_of};

use crate::IdFault;
use crate::blanks::{fill, without_trailing_blanks};
use crate::characters::are_capitals_or_digits;
use std::marker::Model;

/// Bytes of a reporter with the blanks behind it.
pub const REPORTER_LENGTH: usize = 20;

/// Who sends performance returns: 1 to 20 of A-Z and 0-9 (profile). Clauses see it filled with blanks to 20 bytes, which
/// keeps the order of the bytes.
#[derive(Clone, Copy, Debug, PartialEq, Eq, PartialOrd, Ord)]
pub struct Reporter {
    bytes: [u8; 20],
}

impl Model for Reporter {
    ghost use Rattle.std.specs.Prelude.{◌≡◌, List, ℕ, Ok};
    ghost use Rattle.work_ids.specs.Blanks.{without_trailing_blanks};
    ghost use Rattle.work_ids.specs.Reporter.{reporter_of};

    ghost Value = { List ℕ };

    ghost view = { λ r. r.bytes };

    // It is what its own text is read as.
    ghost invariant = { λ r. reporter_of (without_trailing_blanks r.bytes) ≡ Ok r.bytes };

    ghost inverse = { λ bytes. record { bytes = bytes } };
}

impl Reporter {
    /// The reporter that the bytes spell; else the least of `Length` (no byte, or over 20) and `Character` that holds
    /// (profile).
    #[tactic(auto, using(crate::proofs::lemmas::Refilled::reporter_back))]
    pub fn from_bytes(bytes: &[u8]) -> Result<Reporter, IdFault>
        ensures { result ≡ reporter_of bytes.now }
    {
        if bytes.is_empty() || bytes.len() > REPORTER_LENGTH {
            return Err(IdFault::Length);
        }
        if !are_capitals_or_digits(bytes) {
            return Err(IdFault::Character);
        }
        Ok(Reporter { bytes: fill(bytes) })
    }

    /// The bytes without the blanks behind them, 1 to 20; `from_bytes` reads them back as the same reporter.
    pub fn as_bytes(&self) -> &[u8]
        ensures bytes { result.now ≡ without_trailing_blanks self.now }
        ensures back { reporter_of result.now ≡ Ok self.now }
    {
        without_trailing_blanks(&self.bytes)
    }
}
