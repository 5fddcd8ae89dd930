//! The record of an acknowledgement.
use crate::layout::{RECORD_SEQUENCE, RECORD_TYPE, TRANSACTION_SEQUENCE};
use crate::{Field, Fixed, LineFields, Position, RecordKind};

/// ACK, what became of a transaction. Its dates are YYYYMMDD, its time is HHMMSS, its status is AS (accepted) or RJ
/// (rejected).
#[derive(Drop)]
pub struct AcknowledgementRecord<'a> {
    pub transaction_sequence: Fixed<'a, 8>,
    pub record_sequence: Fixed<'a, 8>,
    pub creation_date: Fixed<'a, 8>,
    pub creation_time: Fixed<'a, 6>,
    pub original_group: Fixed<'a, 5>,
    pub original_sequence: Fixed<'a, 8>,
    pub original_type: Fixed<'a, 3>,
    pub title: Fixed<'a, 60>,
    pub submitter_number: Fixed<'a, 20>,
    pub recipient_number: Fixed<'a, 20>,
    pub processing_date: Fixed<'a, 8>,
    pub status: Fixed<'a, 2>,
}

const ACKNOWLEDGEMENT: [Position; 13] = [
    RECORD_TYPE,
    TRANSACTION_SEQUENCE,
    RECORD_SEQUENCE,
    Position { from: 20, to: 27 }, // original creation date
    Position { from: 28, to: 33 }, // original creation time
    Position { from: 34, to: 38 }, // original group ID
    Position { from: 39, to: 46 }, // original transaction sequence
    Position { from: 47, to: 49 }, // original transaction type
    Position { from: 50, to: 109 }, // creation title
    Position { from: 110, to: 129 }, // submitter creation number
    Position { from: 130, to: 149 }, // recipient creation number
    Position { from: 150, to: 157 }, // processing date
    Position { from: 158, to: 159 }, // status
];

impl<'a> RecordKind<'a> for AcknowledgementRecord<'a> {
    ghost use Rattle.std.specs.Prelude.{◌≡◌};
    ghost use Rattle.cwr_records.specs.Layouts.{positions_of};
    ghost use Rattle.cwr_records.specs.Kinds.{acknowledgement};

    ghost kind = { acknowledgement };

    fn positions() -> &'static [Position]
        ensures { result.now ≡ positions_of acknowledgement.places }
    {
        &ACKNOWLEDGEMENT
    }

    fn from_fields(fields: &LineFields<'a>) -> AcknowledgementRecord<'a> {
        AcknowledgementRecord {
            transaction_sequence: fields.at(1),
            record_sequence: fields.at(2),
            creation_date: fields.at(3),
            creation_time: fields.at(4),
            original_group: fields.at(5),
            original_sequence: fields.at(6),
            original_type: fields.at(7),
            title: fields.at(8),
            submitter_number: fields.at(9),
            recipient_number: fields.at(10),
            processing_date: fields.at(11),
            status: fields.at(12),
        }
    }

    fn content(&self, index: usize) -> Field<'a> {
        match index {
            0 => Field::whole(b"ACK"),
            1 => self.transaction_sequence.field(),
            2 => self.record_sequence.field(),
            3 => self.creation_date.field(),
            4 => self.creation_time.field(),
            5 => self.original_group.field(),
            6 => self.original_sequence.field(),
            7 => self.original_type.field(),
            8 => self.title.field(),
            9 => self.submitter_number.field(),
            10 => self.recipient_number.field(),
            11 => self.processing_date.field(),
            _ => self.status.field(),
        }
    }
}
