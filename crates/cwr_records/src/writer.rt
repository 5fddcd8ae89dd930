//! Writers.
use crate::layout::{RECORD_SEQUENCE, RECORD_TYPE, TRANSACTION_SEQUENCE};
use crate::{Field, Fixed, LineFields, Position, RecordKind};

/// Whether a writer is controlled by the submitter.
#[derive(Clone, Copy, Debug, PartialEq, Eq)]
pub enum WriterRole {
    /// SWR.
    Controlled,
    /// OWR.
    Other,
}

impl WriterRole {
    ghost use Rattle.std.specs.Prelude.{◌≡◌, length};
    ghost use Rattle.cwr_records.specs.Records.{writer_role_of, writer_role_code};

    /// The record type that says so, SWR or OWR.
    pub fn code<'a>(self) -> Field<'a>
        ensures value { result ≡ writer_role_code self }
        ensures width { length result ≡ 3 }
    {
        match self {
            WriterRole::Controlled => Field::whole(b"SWR"),
            WriterRole::Other => Field::whole(b"OWR"),
        }
    }

    // What a record type says, which is one of the two.
    fn of(code: &Fixed<'_, 3>) -> WriterRole
        ensures { result ≡ writer_role_of code.now }
    {
        if code.field().is(b"OWR") {
            WriterRole::Other
        } else {
            WriterRole::Controlled
        }
    }
}

/// SWR or OWR, a writer of a work with its ownership shares, each five digits, in hundredths of a percent.
#[derive(Drop)]
pub struct WriterRecord<'a> {
    pub role: WriterRole,
    pub transaction_sequence: Fixed<'a, 8>,
    pub record_sequence: Fixed<'a, 8>,
    pub party: Fixed<'a, 9>,
    pub last_name: Fixed<'a, 45>,
    pub first_name: Fixed<'a, 30>,
    pub unknown_indicator: Fixed<'a, 1>,
    pub designation: Fixed<'a, 2>,
    pub tax_id: Fixed<'a, 9>,
    pub ipi_name: Fixed<'a, 11>,
    pub pr_society: Fixed<'a, 3>,
    pub pr_share: Fixed<'a, 5>,
    pub mr_society: Fixed<'a, 3>,
    pub mr_share: Fixed<'a, 5>,
    pub sr_society: Fixed<'a, 3>,
    pub sr_share: Fixed<'a, 5>,
}

const WRITER: [Position; 16] = [
    RECORD_TYPE,
    TRANSACTION_SEQUENCE,
    RECORD_SEQUENCE,
    Position { from: 20, to: 28 }, // IP #
    Position { from: 29, to: 73 }, // last name
    Position { from: 74, to: 103 }, // first name
    Position { from: 104, to: 104 }, // unknown indicator
    Position { from: 105, to: 106 }, // designation
    Position { from: 107, to: 115 }, // tax ID
    Position { from: 116, to: 126 }, // IPI name number
    Position { from: 127, to: 129 }, // PR society
    Position { from: 130, to: 134 }, // PR share
    Position { from: 135, to: 137 }, // MR society
    Position { from: 138, to: 142 }, // MR share
    Position { from: 143, to: 145 }, // SR society
    Position { from: 146, to: 150 }, // SR share
];

impl<'a> RecordKind<'a> for WriterRecord<'a> {
    ghost use Rattle.std.specs.Prelude.{◌≡◌};
    ghost use Rattle.cwr_records.specs.Layouts.{positions_of};
    ghost use Rattle.cwr_records.specs.Kinds.{writer};

    ghost kind = { writer };

    fn positions() -> &'static [Position]
        ensures { result.now ≡ positions_of writer.places }
    {
        &WRITER
    }

    fn from_fields(fields: &LineFields<'a>) -> WriterRecord<'a> {
        WriterRecord {
            role: WriterRole::of(&fields.at(0)),
            transaction_sequence: fields.at(1),
            record_sequence: fields.at(2),
            party: fields.at(3),
            last_name: fields.at(4),
            first_name: fields.at(5),
            unknown_indicator: fields.at(6),
            designation: fields.at(7),
            tax_id: fields.at(8),
            ipi_name: fields.at(9),
            pr_society: fields.at(10),
            pr_share: fields.at(11),
            mr_society: fields.at(12),
            mr_share: fields.at(13),
            sr_society: fields.at(14),
            sr_share: fields.at(15),
        }
    }

    fn content(&self, index: usize) -> Field<'a> {
        match index {
            0 => self.role.code(),
            1 => self.transaction_sequence.field(),
            2 => self.record_sequence.field(),
            3 => self.party.field(),
            4 => self.last_name.field(),
            5 => self.first_name.field(),
            6 => self.unknown_indicator.field(),
            7 => self.designation.field(),
            8 => self.tax_id.field(),
            9 => self.ipi_name.field(),
            10 => self.pr_society.field(),
            11 => self.pr_share.field(),
            12 => self.mr_society.field(),
            13 => self.mr_share.field(),
            14 => self.sr_society.field(),
            _ => self.sr_share.field(),
        }
    }
}
