//! Record kinds: what is read and written by one layout.
ghost use Rattle.std.specs.Prelude.{◌≡◌};

use crate::{Field, Line, LineFields, Position};

/// A kind of record: its layout, the record that a line is by it, and what a record has at its places.
pub trait RecordKind<'a>: Sized {
    ghost use Rattle.std.specs.Prelude.{◌≡◌, ◌<◌, [], length, get_or};
    ghost use Rattle.cwr_records.specs.Kinds.{Kind};
    ghost use Rattle.cwr_records.specs.Layouts.{nowhere, positions_of, width_of};

    ghost kind: { Kind Self };

    /// The positions of the fields, in order.
    fn positions() -> &'static [Position]
        ensures { result.now ≡ positions_of kind.places };

    /// The record with these fields.
    fn from_fields(fields: &LineFields<'a>) -> Self
        requires { fields.now.positions.now ≡ positions_of kind.places }
        ensures { result ≡ kind.of_line fields.now.line };

    /// What the record has at the place with an index.
    fn content(&self, index: usize) -> Field<'a>
        requires { index < length kind.places }
        ensures value { result ≡ get_or (kind.contents self.now) index [] }
        ensures width { length result ≡ width_of (get_or (positions_of kind.places) index nowhere) };
}

/// The record of a line by the layout of a kind, whatever its record type.
pub fn read_as<'a, K: RecordKind<'a>>(line: &Line<'a>) -> K
    ensures { result ≡ K.kind.of_line line.now }
{
    K::from_fields(&LineFields {
        line: line.again(),
        positions: K::positions(),
    })
}
