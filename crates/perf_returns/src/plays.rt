//! How often a recording was played.
ghost use Rattle.std.specs.Prelude.{◌≡◌, ◌≤◌};
ghost use Rattle.perf_returns.specs.Numbers.{are_plays, plays_of};
ghost use Rattle.work_ids.specs.Numbers.{number_where};

use crate::digits::number_of_width;
use std::marker::Model;

/// Most decimal digits of a number of plays (profile).
const DIGITS: usize = 7;

/// Greatest number of plays; the least is 1 (profile).
const GREATEST: u32 = 1_000_000;

/// How often a recording was played, 1 to 1,000,000 times (profile). Clauses see the number.
#[derive(Clone, Copy, Debug, PartialEq, Eq, PartialOrd, Ord)]
pub struct Plays {
    number: u32,
}

impl Model for Plays {
    ghost use Rattle.std.specs.Prelude.{◌≡◌, ℕ, true};
    ghost use Rattle.perf_returns.specs.Numbers.{are_plays};

    ghost Value = { ℕ };

    ghost view = { λ n. n.number };

    ghost invariant = { λ n. are_plays n.number ≡ true };

    ghost inverse = { λ number. record { number = number } };
}

impl Plays {
    /// The number, where it is within the limits.
    pub fn from_u32(number: u32) -> Option<Plays>
        ensures { result ≡ number_where are_plays number }
    {
        if 1 <= number && number <= GREATEST {
            Some(Plays { number })
        } else {
            None
        }
    }

    /// The number that 1 to 7 decimal digits spell, where it is within the limits (profile).
    pub(crate) fn from_field(field: &[u8]) -> Option<Plays>
        ensures { result ≡ plays_of field.now }
    {
        Plays::from_u32(number_of_width(field, DIGITS)?)
    }

    /// The number as it is, 1 to 1,000,000.
    pub fn value(self) -> u32
        ensures value { result ≡ self }
        ensures limits { (1 ≤ self) × (self ≤ 1000000) }
    {
        self.number
    }
}
