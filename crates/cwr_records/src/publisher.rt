//! Publishers.
use crate::layout::{RECORD_SEQUENCE, RECORD_TYPE, TRANSACTION_SEQUENCE};
use crate::{Field, Fixed, LineFields, Position, RecordKind};

/// Whether a publisher is controlled by the submitter.
#[derive(Clone, Copy, Debug, PartialEq, Eq)]
pub enum PublisherRole {
    /// SPU.
    Controlled,
    /// OPU.
    Other,
}

impl PublisherRole {
    ghost use Rattle.std.specs.Prelude.{◌≡◌, length};
    ghost use Rattle.cwr_records.specs.Records.{publisher_role_of, publisher_role_code};

    /// The record type that says so, SPU or OPU.
    pub fn code<'a>(self) -> Field<'a>
        ensures value { result ≡ publisher_role_code self }
        ensures width { length result ≡ 3 }
    {
        match self {
            PublisherRole::Controlled => Field::whole(b"SPU"),
            PublisherRole::Other => Field::whole(b"OPU"),
        }
    }

    // What a record type says, which is one of the two.
    fn of(code: &Fixed<'_, 3>) -> PublisherRole
        ensures { result ≡ publisher_role_of code.now }
    {
        if code.field().is(b"OPU") {
            PublisherRole::Other
        } else {
            PublisherRole::Controlled
        }
    }
}

/// SPU or OPU, a publisher of a work with its ownership shares, each five digits, in hundredths of a percent.
#[derive(Drop)]
pub struct PublisherRecord<'a> {
    pub role: PublisherRole,
    pub transaction_sequence: Fixed<'a, 8>,
    pub record_sequence: Fixed<'a, 8>,
    pub publisher_sequence: Fixed<'a, 2>,
    pub party: Fixed<'a, 9>,
    pub name: Fixed<'a, 45>,
    pub unknown_indicator: Fixed<'a, 1>,
    pub publisher_type: Fixed<'a, 2>,
    pub tax_id: Fixed<'a, 9>,
    pub ipi_name: Fixed<'a, 11>,
    pub submitter_agreement: Fixed<'a, 14>,
    pub pr_society: Fixed<'a, 3>,
    pub pr_share: Fixed<'a, 5>,
    pub mr_society: Fixed<'a, 3>,
    pub mr_share: Fixed<'a, 5>,
    pub sr_society: Fixed<'a, 3>,
    pub sr_share: Fixed<'a, 5>,
}

const PUBLISHER: [Position; 17] = [
    RECORD_TYPE,
    TRANSACTION_SEQUENCE,
    RECORD_SEQUENCE,
    Position { from: 20, to: 21 }, // publisher sequence
    Position { from: 22, to: 30 }, // IP #
    Position { from: 31, to: 75 }, // name
    Position { from: 76, to: 76 }, // unknown indicator
    Position { from: 77, to: 78 }, // publisher type
    Position { from: 79, to: 87 }, // tax ID
    Position { from: 88, to: 98 }, // IPI name number
    Position { from: 99, to: 112 }, // submitter agreement number
    Position { from: 113, to: 115 }, // PR society
    Position { from: 116, to: 120 }, // PR share
    Position { from: 121, to: 123 }, // MR society
    Position { from: 124, to: 128 }, // MR share
    Position { from: 129, to: 131 }, // SR society
    Position { from: 132, to: 136 }, // SR share
];

impl<'a> RecordKind<'a> for PublisherRecord<'a> {
    ghost use Rattle.std.specs.Prelude.{◌≡◌};
    ghost use Rattle.cwr_records.specs.Layouts.{positions_of};
    ghost use Rattle.cwr_records.specs.Kinds.{publisher};

    ghost kind = { publisher };

    fn positions() -> &'static [Position]
        ensures { result.now ≡ positions_of publisher.places }
    {
        &PUBLISHER
    }

    fn from_fields(fields: &LineFields<'a>) -> PublisherRecord<'a> {
        PublisherRecord {
            role: PublisherRole::of(&fields.at(0)),
            transaction_sequence: fields.at(1),
            record_sequence: fields.at(2),
            publisher_sequence: fields.at(3),
            party: fields.at(4),
            name: fields.at(5),
            unknown_indicator: fields.at(6),
            publisher_type: fields.at(7),
            tax_id: fields.at(8),
            ipi_name: fields.at(9),
            submitter_agreement: fields.at(10),
            pr_society: fields.at(11),
            pr_share: fields.at(12),
            mr_society: fields.at(13),
            mr_share: fields.at(14),
            sr_society: fields.at(15),
            sr_share: fields.at(16),
        }
    }

    fn content(&self, index: usize) -> Field<'a> {
        match index {
            0 => self.role.code(),
            1 => self.transaction_sequence.field(),
            2 => self.record_sequence.field(),
            3 => self.publisher_sequence.field(),
            4 => self.party.field(),
            5 => self.name.field(),
            6 => self.unknown_indicator.field(),
            7 => self.publisher_type.field(),
            8 => self.tax_id.field(),
            9 => self.ipi_name.field(),
            10 => self.submitter_agreement.field(),
            11 => self.pr_society.field(),
            12 => self.pr_share.field(),
            13 => self.mr_society.field(),
            14 => self.mr_share.field(),
            15 => self.sr_society.field(),
            _ => self.sr_share.field(),
        }
    }
}
