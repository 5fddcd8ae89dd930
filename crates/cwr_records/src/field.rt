//! A field of a line: lent bytes, and blanks up to the field's width.
ghost use Rattle.std.specs.Prelude.{◌≡◌, ◌<◌, ◌≤◌, ◌+◌, ◌-◌, ◌↔◌, ◌==◌, ◌++◌, ℕ, List, length, get_or, replicate, IsTrue, IfSome, ◌^◌};
ghost use Rattle.work_ids.specs.Blanks.{trimmed, without_trailing_blanks};
ghost use Rattle.work_ids.specs.Digits.{decimal_value};
ghost use Rattle.cwr_records.specs.Lines.{fill_field, is_blank};

use crate::Fixed;
use std::marker::Model;
use work_ids::{are_blank, number, trim, without_trailing_blanks};

/// A field: the bytes that its line has there, lent, and blanks past the line's end.
#[derive(Drop)]
pub struct Field<'a> {
    present: &'a [u8],
    width: usize,
}

impl<'a> Model for Field<'a> {
    ghost Value = { List ℕ };

    ghost view = { λ f. f.present.now ++ replicate (f.width - length f.present.now) 32 };

    ghost invariant = { λ f. length f.present.now ≤ f.width };
}

impl<'a> Field<'a> {
    /// These bytes, filled with blanks up to the width.
    pub fn new(present: &'a [u8], width: usize) -> Field<'a>
        requires { length present.now ≤ width }
        ensures value { result ≡ fill_field width present.now }
        ensures len { length result ≡ width }
    {
        Field { present, width }
    }

    /// All of these bytes.
    pub(crate) fn whole(bytes: &'a [u8]) -> Field<'a>
        ensures value { result ≡ bytes.now }
        ensures width { length result ≡ length bytes.now }
    {
        Field::new(bytes, bytes.len())
    }

    /// The field, as one with its width in its type.
    pub fn to_fixed<const WIDTH: usize>(&self) -> Fixed<'a, WIDTH>
        requires { length self.now ≡ WIDTH }
        ensures { result ≡ self.now }
    {
        Fixed::new(self.present)
    }

    /// What the line has there, without the blanks past its end.
    pub(crate) fn present(&self) -> &'a [u8]
        ensures within { length result.now ≤ length self.now }
        ensures rest { self.now ≡ result.now ++ replicate (length self.now - length result.now) 32 }
    {
        self.present
    }

    /// The same field once more.
    pub fn again(&self) -> Field<'a>
        ensures { result ≡ self.now }
    {
        Field {
            present: self.present,
            width: self.width,
        }
    }

    /// How many bytes the field has, blanks included.
    pub fn len(&self) -> usize
        ensures { result ≡ length self.now }
    {
        self.width
    }

    /// The byte at an index from 0.
    pub fn byte(&self, index: usize) -> u8
        requires { index < length self.now }
        ensures { result ≡ get_or self.now index 0 }
    {
        if index < self.present.len() {
            self.present[index]
        } else {
            b' '
        }
    }

    /// Whether the field has blanks alone.
    pub fn is_blank(&self) -> bool
        ensures { result ≡ is_blank self.now }
    {
        are_blank(self.present)
    }

    /// Whether the field holds exactly this text.
    pub fn is(&self, text: &[u8]) -> bool
        ensures { IsTrue result ↔ (self.now ≡ text.now) }
    {
        if text.len() != self.width {
            return false;
        }
        let (front, blanks) = text.split_at(self.present.len());
        if front == self.present {
            are_blank(blanks)
        } else {
            false
        }
    }

    /// The bytes without the blanks at both ends.
    pub fn trim(&self) -> &'a [u8]
        ensures value { result.now ≡ trimmed self.now }
        ensures within { length result.now ≤ length self.now }
    {
        trim(self.present)
    }

    /// The bytes without the blanks at their end.
    pub fn trimmed_end(&self) -> &'a [u8]
        ensures value { result.now ≡ without_trailing_blanks self.now }
        ensures within { length result.now ≤ length self.now }
    {
        without_trailing_blanks(self.present)
    }

    /// The field with more blanks behind it.
    pub fn widen<const WIDTH: usize>(&self) -> Fixed<'a, WIDTH>
        requires { length self.now ≤ WIDTH }
        ensures { result ≡ fill_field WIDTH self.now }
    {
        Fixed::new(self.present)
    }

    /// The decimal value, where the field is digits alone, and has at least one; else none.
    pub fn number(&self) -> Option<u64>
        requires { length self.now ≤ 19 }
        ensures { result ≡ decimal_value self.now }
    {
        if self.present.len() < self.width {
            return None;
        }
        number(self.present)
    }
}
