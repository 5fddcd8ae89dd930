//! A field of a record, with its width in its type.
ghost use Rattle.std.specs.Prelude.{◌≡◌, ◌≤◌, ◌-◌, ◌++◌, ℕ, List, length, replicate};
ghost use Rattle.cwr_records.specs.Lines.{fill_field};

use crate::Field;
use std::marker::Model;

/// A field of `WIDTH` bytes: lent bytes, and blanks after them.
#[derive(Drop)]
pub struct Fixed<'a, const WIDTH: usize> {
    present: &'a [u8],
}

impl<'a, const WIDTH: usize> Model for Fixed<'a, WIDTH> {
    ghost Value = { List ℕ };

    ghost view = { λ f. f.present.now ++ replicate (WIDTH - length f.present.now) 32 };

    ghost invariant = { λ f. length f.present.now ≤ WIDTH };
}

impl<'a, const WIDTH: usize> Fixed<'a, WIDTH> {
    /// These bytes, filled with blanks.
    pub fn new(present: &'a [u8]) -> Fixed<'a, WIDTH>
        requires { length present.now ≤ WIDTH }
        ensures value { result ≡ fill_field WIDTH present.now }
        ensures len { length result ≡ WIDTH }
    {
        Fixed { present }
    }

    /// The field, as one of any width.
    pub fn field(&self) -> Field<'a>
        ensures value { result ≡ self.now }
        ensures width { length result ≡ WIDTH }
    {
        Field::new(self.present, WIDTH)
    }

    /// The same field once more.
    pub fn again(&self) -> Fixed<'a, WIDTH>
        ensures { result ≡ self.now }
    {
        Fixed {
            present: self.present,
        }
    }

    /// All bytes of the field.
    pub fn to_bytes(&self) -> [u8; WIDTH]
        ensures { result ≡ self.now }
    {
        let mut bytes = [b' '; WIDTH];
        bytes[..self.present.len()].copy_from_slice(self.present);
        bytes
    }
}
