//! A recording of a work.
use crate::layout::{RECORD_SEQUENCE, RECORD_TYPE, TRANSACTION_SEQUENCE};
use crate::{Field, Fixed, LineFields, Position, RecordKind};
use work_ids::{IdFault, Isrc};

/// REC, a recording of a work.
#[derive(Drop)]
pub struct RecordingDetail<'a> {
    pub transaction_sequence: Fixed<'a, 8>,
    pub record_sequence: Fixed<'a, 8>,
    pub release_date: Fixed<'a, 8>,
    pub release_duration: Fixed<'a, 6>,
    pub album_title: Fixed<'a, 60>,
    pub label: Fixed<'a, 60>,
    pub catalogue_number: Fixed<'a, 18>,
    pub ean: Fixed<'a, 13>,
    pub isrc: Fixed<'a, 12>,
}

impl<'a> RecordingDetail<'a> {
    ghost use Rattle.std.specs.Prelude.{◌≡◌};
    ghost use Rattle.work_ids.specs.Isrc.{isrc_field_of};

    /// The ISRC, none where the field is blank; else `Character` (CISAC CWR 2.2, ISRC; ISO 3901).
    pub fn isrc(&self) -> Result<Option<Isrc>, IdFault>
        ensures { result ≡ isrc_field_of self.now.isrc }
    {
        Isrc::from_field(&self.isrc.to_bytes())
    }
}

const RECORDING: [Position; 10] = [
    RECORD_TYPE,
    TRANSACTION_SEQUENCE,
    RECORD_SEQUENCE,
    Position { from: 20, to: 27 }, // release date
    Position { from: 88, to: 93 }, // release duration
    Position { from: 99, to: 158 }, // album title
    Position { from: 159, to: 218 }, // label
    Position { from: 219, to: 236 }, // catalogue number
    Position { from: 237, to: 249 }, // EAN
    Position { from: 250, to: 261 }, // ISRC
];

impl<'a> RecordKind<'a> for RecordingDetail<'a> {
    ghost use Rattle.std.specs.Prelude.{◌≡◌};
    ghost use Rattle.cwr_records.specs.Layouts.{positions_of};
    ghost use Rattle.cwr_records.specs.Kinds.{recording};

    ghost kind = { recording };

    fn positions() -> &'static [Position]
        ensures { result.now ≡ positions_of recording.places }
    {
        &RECORDING
    }

    fn from_fields(fields: &LineFields<'a>) -> RecordingDetail<'a> {
        RecordingDetail {
            transaction_sequence: fields.at(1),
            record_sequence: fields.at(2),
            release_date: fields.at(3),
            release_duration: fields.at(4),
            album_title: fields.at(5),
            label: fields.at(6),
            catalogue_number: fields.at(7),
            ean: fields.at(8),
            isrc: fields.at(9),
        }
    }

    fn content(&self, index: usize) -> Field<'a> {
        match index {
            0 => Field::whole(b"REC"),
            1 => self.transaction_sequence.field(),
            2 => self.record_sequence.field(),
            3 => self.release_date.field(),
            4 => self.release_duration.field(),
            5 => self.album_title.field(),
            6 => self.label.field(),
            7 => self.catalogue_number.field(),
            8 => self.ean.field(),
            _ => self.isrc.field(),
        }
    }
}
