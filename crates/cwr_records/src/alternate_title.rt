//! A further title of a work.
use crate::layout::{RECORD_SEQUENCE, RECORD_TYPE, TRANSACTION_SEQUENCE};
use crate::{Field, Fixed, LineFields, Position, RecordKind};

/// ALT, a further title of a work.
#[derive(Drop)]
pub struct AlternateTitle<'a> {
    pub transaction_sequence: Fixed<'a, 8>,
    pub record_sequence: Fixed<'a, 8>,
    pub title: Fixed<'a, 60>,
    pub title_type: Fixed<'a, 2>,
    pub language: Fixed<'a, 2>,
}

const ALTERNATE_TITLE: [Position; 6] = [
    RECORD_TYPE,
    TRANSACTION_SEQUENCE,
    RECORD_SEQUENCE,
    Position { from: 20, to: 79 }, // title
    Position { from: 80, to: 81 }, // title type
    Position { from: 82, to: 83 }, // language
];

impl<'a> RecordKind<'a> for AlternateTitle<'a> {
    ghost use Rattle.std.specs.Prelude.{◌≡◌};
    ghost use Rattle.cwr_records.specs.Layouts.{positions_of};
    ghost use Rattle.cwr_records.specs.Kinds.{alternate_title};

    ghost kind = { alternate_title };

    fn positions() -> &'static [Position]
        ensures { result.now ≡ positions_of alternate_title.places }
    {
        &ALTERNATE_TITLE
    }

    fn from_fields(fields: &LineFields<'a>) -> AlternateTitle<'a> {
        AlternateTitle {
            transaction_sequence: fields.at(1),
            record_sequence: fields.at(2),
            title: fields.at(3),
            title_type: fields.at(4),
            language: fields.at(5),
        }
    }

    fn content(&self, index: usize) -> Field<'a> {
        match index {
            0 => Field::whole(b"ALT"),
            1 => self.transaction_sequence.field(),
            2 => self.record_sequence.field(),
            3 => self.title.field(),
            4 => self.title_type.field(),
            _ => self.language.field(),
        }
    }
}
