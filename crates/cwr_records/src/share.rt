//! Shares.
use crate::Field;
use std::marker::Model;

/// The share that is all of a right, in hundredths of a percent (profile).
pub const WHOLE: u64 = 10_000;

/// A share of a right in a work, in hundredths of a percent, 0 to 10000.
#[derive(Clone, Copy, Debug, PartialEq, Eq, PartialOrd, Ord)]
pub struct Share {
    hundredths: u16,
}

impl Model for Share {
    ghost use Rattle.std.specs.Prelude.{ℕ, ◌≤◌};

    ghost Value = { ℕ };

    ghost view = { λ s. s.hundredths };

    ghost invariant = { λ s. s.hundredths ≤ 10000 };

    ghost inverse = { λ n. record { hundredths = n } };
}

impl Share {
    ghost use Rattle.std.specs.Prelude.{◌≡◌, ◌≤◌, length};
    ghost use Rattle.cwr_records.specs.Typed.{share_of};

    /// The share of a field: five digits up to 10000, or blanks for 0; else none.
    #[tactic(auto, unfolding(crate::specs::Typed::share_of))]
    pub fn from_field(field: &Field<'_>) -> Option<Share>
        requires { length field.now ≡ 5 }
        ensures { result ≡ share_of field.now }
    {
        if field.is_blank() {
            return Some(Share::none());
        }
        let hundredths = field.number()?;
        if hundredths > WHOLE {
            return None;
        }
        Some(Share {
            hundredths: hundredths as u16,
        })
    }

    /// The share of nothing.
    pub fn none() -> Share
        ensures { result ≡ 0 }
    {
        Share { hundredths: 0 }
    }

    /// How much it is, in hundredths of a percent.
    pub fn hundredths(self) -> u16
        ensures value { result ≡ self }
        ensures limit { self ≤ 10000 }
    {
        self.hundredths
    }
}
