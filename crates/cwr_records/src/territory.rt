//! Territories.
use crate::Field;
use std::marker::Model;
use work_ids::number;

/// A TIS code: the number of a territory, 0 to 9999.
#[derive(Clone, Copy, Debug, PartialEq, Eq)]
pub struct TisCode {
    value: u16,
}

impl Model for TisCode {
    ghost use Rattle.std.specs.Prelude.{ℕ, ◌<◌};

    ghost Value = { ℕ };

    ghost view = { λ t. t.value };

    ghost invariant = { λ t. t.value < 10000 };

    ghost inverse = { λ n. record { value = n } };
}

impl TisCode {
    ghost use Rattle.std.specs.Prelude.{◌≡◌, ◌<◌, length};
    ghost use Rattle.cwr_records.specs.Typed.{territory_of};

    /// The territory of a field: one to four digits once the blanks at both ends are off; else none.
    #[tactic(auto, unfolding(crate::specs::Typed::territory_of))]
    pub fn from_field(field: &Field<'_>) -> Option<TisCode>
        requires { length field.now ≡ 4 }
        ensures { result ≡ territory_of field.now }
    {
        let value = number(field.trim())?;
        Some(TisCode {
            value: value as u16,
        })
    }

    /// The number.
    pub fn value(self) -> u16
        ensures value { result ≡ self }
        ensures limit { self < 10000 }
    {
        self.value
    }
}
