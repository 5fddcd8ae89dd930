//! The trailer of a transmission.
use crate::layout::RECORD_TYPE;
use crate::{Field, Fixed, LineFields, Position, RecordKind};

/// TRL, the trailer of a transmission, with its counts.
#[derive(Drop)]
pub struct TransmissionTrailer<'a> {
    pub group_count: Fixed<'a, 5>,
    pub transaction_count: Fixed<'a, 8>,
    pub record_count: Fixed<'a, 8>,
}

const TRAILER: [Position; 4] = [
    RECORD_TYPE,
    Position { from: 4, to: 8 }, // group count
    Position { from: 9, to: 16 }, // transaction count
    Position { from: 17, to: 24 }, // record count
];

impl<'a> RecordKind<'a> for TransmissionTrailer<'a> {
    ghost use Rattle.std.specs.Prelude.{◌≡◌};
    ghost use Rattle.cwr_records.specs.Layouts.{positions_of};
    ghost use Rattle.cwr_records.specs.Kinds.{trailer};

    ghost kind = { trailer };

    fn positions() -> &'static [Position]
        ensures { result.now ≡ positions_of trailer.places }
    {
        &TRAILER
    }

    fn from_fields(fields: &LineFields<'a>) -> TransmissionTrailer<'a> {
        TransmissionTrailer {
            group_count: fields.at(1),
            transaction_count: fields.at(2),
            record_count: fields.at(3),
        }
    }

    fn content(&self, index: usize) -> Field<'a> {
        match index {
            0 => Field::whole(b"TRL"),
            1 => self.group_count.field(),
            2 => self.transaction_count.field(),
            _ => self.record_count.field(),
        }
    }
}
