//! The trailer of a group.
use crate::layout::RECORD_TYPE;
use crate::{Field, Fixed, LineFields, Position, RecordKind};

/// GRT, the trailer of a group, with its counts.
#[derive(Drop)]
pub struct GroupTrailer<'a> {
    pub group_id: Fixed<'a, 5>,
    pub transaction_count: Fixed<'a, 8>,
    pub record_count: Fixed<'a, 8>,
}

const GROUP_TRAILER: [Position; 4] = [
    RECORD_TYPE,
    Position { from: 4, to: 8 }, // group ID
    Position { from: 9, to: 16 }, // transaction count
    Position { from: 17, to: 24 }, // record count
];

impl<'a> RecordKind<'a> for GroupTrailer<'a> {
    ghost use Rattle.std.specs.Prelude.{◌≡◌};
    ghost use Rattle.cwr_records.specs.Layouts.{positions_of};
    ghost use Rattle.cwr_records.specs.Kinds.{group_trailer};

    ghost kind = { group_trailer };

    fn positions() -> &'static [Position]
        ensures { result.now ≡ positions_of group_trailer.places }
    {
        &GROUP_TRAILER
    }

    fn from_fields(fields: &LineFields<'a>) -> GroupTrailer<'a> {
        GroupTrailer {
            group_id: fields.at(1),
            transaction_count: fields.at(2),
            record_count: fields.at(3),
        }
    }

    fn content(&self, index: usize) -> Field<'a> {
        match index {
            0 => Field::whole(b"GRT"),
            1 => self.group_id.field(),
            2 => self.transaction_count.field(),
            _ => self.record_count.field(),
        }
    }
}
