//! How long a recording was played.
ghost use Rattle.std.specs.Prelude.{◌≡◌, ◌≤◌};
ghost use Rattle.perf_returns.specs.Numbers.{are_seconds, seconds_of};
ghost use Rattle.work_ids.specs.Numbers.{number_where};

use crate::digits::number_of_width;
use std::marker::Model;

/// Most decimal digits of a number of seconds (profile).
const DIGITS: usize = 5;

/// Greatest number of seconds; the least is 1 (profile).
const GREATEST: u32 = 10_000;

/// The seconds of each play of a recording, 1 to 10,000 (profile). Clauses see the number.
#[derive(Clone, Copy, Debug, PartialEq, Eq, PartialOrd, Ord)]
pub struct Seconds {
    number: u32,
}

impl Model for Seconds {
    ghost use Rattle.std.specs.Prelude.{◌≡◌, ℕ, true};
    ghost use Rattle.perf_returns.specs.Numbers.{are_seconds};

    ghost Value = { ℕ };

    ghost view = { λ n. n.number };

    ghost invariant = { λ n. are_seconds n.number ≡ true };

    ghost inverse = { λ number. record { number = number } };
}

impl Seconds {
    /// The number, where it is within the limits.
    pub fn from_u32(number: u32) -> Option<Seconds>
        ensures { result ≡ number_where are_seconds number }
    {
        if 1 <= number && number <= GREATEST {
            Some(Seconds { number })
        } else {
            None
        }
    }

    /// The number that 1 to 5 decimal digits spell, where it is within the limits (profile).
    pub(crate) fn from_field(field: &[u8]) -> Option<Seconds>
        ensures { result ≡ seconds_of field.now }
    {
        Seconds::from_u32(number_of_width(field, DIGITS)?)
    }

    /// The number as it is, 1 to 10,000.
    pub fn value(self) -> u32
        ensures value { result ≡ self }
        ensures limits { (1 ≤ self) × (self ≤ 10000) }
    {
        self.number
    }
}
