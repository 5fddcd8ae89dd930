//! The collection shares of a writer.
use crate::layout::{RECORD_SEQUENCE, RECORD_TYPE, TRANSACTION_SEQUENCE};
use crate::{Field, Fixed, LineFields, Position, RecordKind};

/// SWT, the collection shares of a writer in a territory, each five digits, in hundredths of a percent. The indicator is I
/// (included) or E (excluded).
#[derive(Drop)]
pub struct WriterTerritory<'a> {
    pub transaction_sequence: Fixed<'a, 8>,
    pub record_sequence: Fixed<'a, 8>,
    pub party: Fixed<'a, 9>,
    pub pr_share: Fixed<'a, 5>,
    pub mr_share: Fixed<'a, 5>,
    pub sr_share: Fixed<'a, 5>,
    pub indicator: Fixed<'a, 1>,
    pub territory: Fixed<'a, 4>,
    pub shares_change: Fixed<'a, 1>,
    pub sequence: Fixed<'a, 3>,
}

const WRITER_TERRITORY: [Position; 11] = [
    RECORD_TYPE,
    TRANSACTION_SEQUENCE,
    RECORD_SEQUENCE,
    Position { from: 20, to: 28 }, // IP #
    Position { from: 29, to: 33 }, // PR share
    Position { from: 34, to: 38 }, // MR share
    Position { from: 39, to: 43 }, // SR share
    Position { from: 44, to: 44 }, // indicator
    Position { from: 45, to: 48 }, // TIS code
    Position { from: 49, to: 49 }, // shares change
    Position { from: 50, to: 52 }, // sequence
];

impl<'a> RecordKind<'a> for WriterTerritory<'a> {
    ghost use Rattle.std.specs.Prelude.{◌≡◌};
    ghost use Rattle.cwr_records.specs.Layouts.{positions_of};
    ghost use Rattle.cwr_records.specs.Kinds.{writer_territory};

    ghost kind = { writer_territory };

    fn positions() -> &'static [Position]
        ensures { result.now ≡ positions_of writer_territory.places }
    {
        &WRITER_TERRITORY
    }

    fn from_fields(fields: &LineFields<'a>) -> WriterTerritory<'a> {
        WriterTerritory {
            transaction_sequence: fields.at(1),
            record_sequence: fields.at(2),
            party: fields.at(3),
            pr_share: fields.at(4),
            mr_share: fields.at(5),
            sr_share: fields.at(6),
            indicator: fields.at(7),
            territory: fields.at(8),
            shares_change: fields.at(9),
            sequence: fields.at(10),
        }
    }

    fn content(&self, index: usize) -> Field<'a> {
        match index {
            0 => Field::whole(b"SWT"),
            1 => self.transaction_sequence.field(),
            2 => self.record_sequence.field(),
            3 => self.party.field(),
            4 => self.pr_share.field(),
            5 => self.mr_share.field(),
            6 => self.sr_share.field(),
            7 => self.indicator.field(),
            8 => self.territory.field(),
            9 => self.shares_change.field(),
            _ => self.sequence.field(),
        }
    }
}
