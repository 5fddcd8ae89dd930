//! The layouts of the record types: where each field stands.
ghost use Rattle.std.specs.Prelude.{◌≡◌, ◌<◌, length, get_or, IsTrue};
ghost use Rattle.cwr_records.specs.Layouts.{is_wide, field_at, nowhere};

use crate::{Fixed, Line};

/// Where a field stands in its line, both ends counted from 1.
#[derive(Clone, Copy)]
pub struct Position {
    pub from: usize,
    pub to: usize,
}

/// Where every record has its record type (CISAC CWR 2.2).
pub(crate) const RECORD_TYPE: Position = Position { from: 1, to: 3 };

/// Where a record of a transaction has its transaction sequence number (CISAC CWR 2.2).
pub(crate) const TRANSACTION_SEQUENCE: Position = Position { from: 4, to: 11 };

/// Where a record of a transaction has its record sequence number (CISAC CWR 2.2).
pub(crate) const RECORD_SEQUENCE: Position = Position { from: 12, to: 19 };

/// The fields of a line at the positions of a layout.
#[derive(Drop)]
pub struct LineFields<'a> {
    pub line: Line<'a>,
    pub positions: &'static [Position],
}

impl<'a> LineFields<'a> {
    /// The field at an index of the layout.
    pub fn at<const WIDTH: usize>(&self, index: usize) -> Fixed<'a, WIDTH>
        requires { IsTrue (is_wide self.now.positions.now index WIDTH) }
        ensures { result ≡ field_at self.now.positions.now index self.now.line }
    {
        let position = position_at(self.positions, index);
        self.line.at(position).to_fixed()
    }
}

// The position at an index. It is a function so that its clause stands at the call: the prover wants it.
fn position_at(positions: &[Position], index: usize) -> Position
    requires { index < length positions.now }
    ensures { result ≡ get_or positions.now index nowhere }
{
    positions[index]
}
