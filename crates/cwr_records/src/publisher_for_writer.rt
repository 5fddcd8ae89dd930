//! The publisher of a writer.
use crate::layout::{RECORD_SEQUENCE, RECORD_TYPE, TRANSACTION_SEQUENCE};
use crate::{Field, Fixed, LineFields, Position, RecordKind};

/// PWR, the publisher that represents a writer.
#[derive(Drop)]
pub struct PublisherForWriter<'a> {
    pub transaction_sequence: Fixed<'a, 8>,
    pub record_sequence: Fixed<'a, 8>,
    pub publisher_party: Fixed<'a, 9>,
    pub publisher_name: Fixed<'a, 45>,
    pub submitter_agreement: Fixed<'a, 14>,
    pub society_agreement: Fixed<'a, 14>,
    pub writer_party: Fixed<'a, 9>,
}

const PUBLISHER_FOR_WRITER: [Position; 8] = [
    RECORD_TYPE,
    TRANSACTION_SEQUENCE,
    RECORD_SEQUENCE,
    Position { from: 20, to: 28 }, // publisher IP #
    Position { from: 29, to: 73 }, // publisher name
    Position { from: 74, to: 87 }, // submitter agreement number
    Position { from: 88, to: 101 }, // society agreement number
    Position { from: 102, to: 110 }, // writer IP #
];

impl<'a> RecordKind<'a> for PublisherForWriter<'a> {
    ghost use Rattle.std.specs.Prelude.{◌≡◌};
    ghost use Rattle.cwr_records.specs.Layouts.{positions_of};
    ghost use Rattle.cwr_records.specs.Kinds.{publisher_for_writer};

    ghost kind = { publisher_for_writer };

    fn positions() -> &'static [Position]
        ensures { result.now ≡ positions_of publisher_for_writer.places }
    {
        &PUBLISHER_FOR_WRITER
    }

    fn from_fields(fields: &LineFields<'a>) -> PublisherForWriter<'a> {
        PublisherForWriter {
            transaction_sequence: fields.at(1),
            record_sequence: fields.at(2),
            publisher_party: fields.at(3),
            publisher_name: fields.at(4),
            submitter_agreement: fields.at(5),
            society_agreement: fields.at(6),
            writer_party: fields.at(7),
        }
    }

    fn content(&self, index: usize) -> Field<'a> {
        match index {
            0 => Field::whole(b"PWR"),
            1 => self.transaction_sequence.field(),
            2 => self.record_sequence.field(),
            3 => self.publisher_party.field(),
            4 => self.publisher_name.field(),
            5 => self.submitter_agreement.field(),
            6 => self.society_agreement.field(),
            _ => self.writer_party.field(),
        }
    }
}
