//! The record that begins a transaction: a work.
use crate::layout::{RECORD_SEQUENCE, RECORD_TYPE, TRANSACTION_SEQUENCE};
use crate::{Field, Fixed, LineFields, Position, RecordKind};
use work_ids::{IdFault, Iswc, WorkNumber};

/// Whether a transaction registers a work or revises it.
#[derive(Clone, Copy, Debug, PartialEq, Eq)]
pub enum TransactionKind {
    /// NWR, a registration.
    Nwr,
    /// REV, a revision.
    Rev,
}

impl TransactionKind {
    ghost use Rattle.std.specs.Prelude.{◌≡◌, length};
    ghost use Rattle.cwr_records.specs.Records.{kind_of, kind_code};

    /// The record type that says so, NWR or REV.
    pub fn code<'a>(self) -> Field<'a>
        ensures value { result ≡ kind_code self }
        ensures width { length result ≡ 3 }
    {
        match self {
            TransactionKind::Nwr => Field::whole(b"NWR"),
            TransactionKind::Rev => Field::whole(b"REV"),
        }
    }

    // What a record type says, which is one of the two.
    fn of(code: &Fixed<'_, 3>) -> TransactionKind
        ensures { result ≡ kind_of code.now }
    {
        if code.field().is(b"REV") {
            TransactionKind::Rev
        } else {
            TransactionKind::Nwr
        }
    }
}

/// NWR or REV, a work as it is registered or revised.
#[derive(Drop)]
pub struct WorkRecord<'a> {
    pub kind: TransactionKind,
    pub transaction_sequence: Fixed<'a, 8>,
    pub record_sequence: Fixed<'a, 8>,
    pub title: Fixed<'a, 60>,
    pub language: Fixed<'a, 2>,
    pub work_number: Fixed<'a, 14>,
    pub iswc: Fixed<'a, 11>,
    pub copyright_date: Fixed<'a, 8>,
    pub copyright_number: Fixed<'a, 12>,
    pub distribution_category: Fixed<'a, 3>,
    pub duration: Fixed<'a, 6>,
    pub recorded_indicator: Fixed<'a, 1>,
    pub text_music_relationship: Fixed<'a, 3>,
    pub composite_type: Fixed<'a, 3>,
    pub version_type: Fixed<'a, 3>,
}

impl<'a> WorkRecord<'a> {
    ghost use Rattle.std.specs.Prelude.{◌≡◌};
    ghost use Rattle.work_ids.specs.Iswc.{iswc_field_of};
    ghost use Rattle.work_ids.specs.WorkNumber.{work_number_of};

    /// The ISWC, none where the field is blank; else the least of `Character` and `CheckDigit` that holds (CISAC CWR
    /// 2.2, ISWC; ISO 15707).
    pub fn iswc(&self) -> Result<Option<Iswc>, IdFault>
        ensures { result ≡ iswc_field_of self.now.iswc }
    {
        Iswc::from_field(&self.iswc.to_bytes())
    }

    /// What the sender calls the work; else the least of `Length` (blank) and `Character` that holds (CISAC CWR 2.2,
    /// submitter work number).
    pub fn work_number(&self) -> Result<WorkNumber, IdFault>
        ensures { result ≡ work_number_of self.now.work_number }
    {
        WorkNumber::from_bytes(&self.work_number.to_bytes())
    }
}

const WORK: [Position; 15] = [
    RECORD_TYPE,
    TRANSACTION_SEQUENCE,
    RECORD_SEQUENCE,
    Position { from: 20, to: 79 }, // title
    Position { from: 80, to: 81 }, // language
    Position { from: 82, to: 95 }, // submitter work number
    Position { from: 96, to: 106 }, // ISWC
    Position { from: 107, to: 114 }, // copyright date
    Position { from: 115, to: 126 }, // copyright number
    Position { from: 127, to: 129 }, // distribution category
    Position { from: 130, to: 135 }, // duration
    Position { from: 136, to: 136 }, // recorded indicator
    Position { from: 137, to: 139 }, // text music relationship
    Position { from: 140, to: 142 }, // composite type
    Position { from: 143, to: 145 }, // version type
];

impl<'a> RecordKind<'a> for WorkRecord<'a> {
    ghost use Rattle.std.specs.Prelude.{◌≡◌};
    ghost use Rattle.cwr_records.specs.Layouts.{positions_of};
    ghost use Rattle.cwr_records.specs.Kinds.{work};

    ghost kind = { work };

    fn positions() -> &'static [Position]
        ensures { result.now ≡ positions_of work.places }
    {
        &WORK
    }

    fn from_fields(fields: &LineFields<'a>) -> WorkRecord<'a> {
        WorkRecord {
            kind: TransactionKind::of(&fields.at(0)),
            transaction_sequence: fields.at(1),
            record_sequence: fields.at(2),
            title: fields.at(3),
            language: fields.at(4),
            work_number: fields.at(5),
            iswc: fields.at(6),
            copyright_date: fields.at(7),
            copyright_number: fields.at(8),
            distribution_category: fields.at(9),
            duration: fields.at(10),
            recorded_indicator: fields.at(11),
            text_music_relationship: fields.at(12),
            composite_type: fields.at(13),
            version_type: fields.at(14),
        }
    }

    fn content(&self, index: usize) -> Field<'a> {
        match index {
            0 => self.kind.code(),
            1 => self.transaction_sequence.field(),
            2 => self.record_sequence.field(),
            3 => self.title.field(),
            4 => self.language.field(),
            5 => self.work_number.field(),
            6 => self.iswc.field(),
            7 => self.copyright_date.field(),
            8 => self.copyright_number.field(),
            9 => self.distribution_category.field(),
            10 => self.duration.field(),
            11 => self.recorded_indicator.field(),
            12 => self.text_music_relationship.field(),
            13 => self.composite_type.field(),
            _ => self.version_type.field(),
        }
    }
}
