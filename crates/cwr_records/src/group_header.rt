//! The header of a group.
use crate::layout::RECORD_TYPE;
use crate::{Field, Fixed, LineFields, Position, RecordKind};

/// GRH, the header of a group.
#[derive(Drop)]
pub struct GroupHeader<'a> {
    pub transaction_type: Fixed<'a, 3>,
    pub group_id: Fixed<'a, 5>,
    pub version: Fixed<'a, 5>,
    pub batch_request: Fixed<'a, 10>,
    pub submission_type: Fixed<'a, 2>,
}

const GROUP_HEADER: [Position; 6] = [
    RECORD_TYPE,
    Position { from: 4, to: 6 }, // transaction type
    Position { from: 7, to: 11 }, // group ID
    Position { from: 12, to: 16 }, // version
    Position { from: 17, to: 26 }, // batch request
    Position { from: 27, to: 28 }, // submission type
];

impl<'a> RecordKind<'a> for GroupHeader<'a> {
    ghost use Rattle.std.specs.Prelude.{◌≡◌};
    ghost use Rattle.cwr_records.specs.Layouts.{positions_of};
    ghost use Rattle.cwr_records.specs.Kinds.{group_header};

    ghost kind = { group_header };

    fn positions() -> &'static [Position]
        ensures { result.now ≡ positions_of group_header.places }
    {
        &GROUP_HEADER
    }

    fn from_fields(fields: &LineFields<'a>) -> GroupHeader<'a> {
        GroupHeader {
            transaction_type: fields.at(1),
            group_id: fields.at(2),
            version: fields.at(3),
            batch_request: fields.at(4),
            submission_type: fields.at(5),
        }
    }

    fn content(&self, index: usize) -> Field<'a> {
        match index {
            0 => Field::whole(b"GRH"),
            1 => self.transaction_type.field(),
            2 => self.group_id.field(),
            3 => self.version.field(),
            4 => self.batch_request.field(),
            _ => self.submission_type.field(),
        }
    }
}
