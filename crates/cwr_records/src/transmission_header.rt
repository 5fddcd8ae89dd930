//! The header of a transmission.
use crate::layout::RECORD_TYPE;
use crate::{Field, Fixed, LineFields, Position, RecordKind};

/// HDR, the header of a transmission. Its dates are YYYYMMDD, its time is HHMMSS.
#[derive(Drop)]
pub struct TransmissionHeader<'a> {
    pub sender_type: Fixed<'a, 2>,
    pub sender_id: Fixed<'a, 9>,
    pub sender_name: Fixed<'a, 45>,
    pub edi_version: Fixed<'a, 5>,
    pub creation_date: Fixed<'a, 8>,
    pub creation_time: Fixed<'a, 6>,
    pub transmission_date: Fixed<'a, 8>,
    pub character_set: Fixed<'a, 15>,
}

const HEADER: [Position; 9] = [
    RECORD_TYPE,
    Position { from: 4, to: 5 }, // sender type
    Position { from: 6, to: 14 }, // sender ID
    Position { from: 15, to: 59 }, // sender name
    Position { from: 60, to: 64 }, // EDI version
    Position { from: 65, to: 72 }, // creation date
    Position { from: 73, to: 78 }, // creation time
    Position { from: 79, to: 86 }, // transmission date
    Position { from: 87, to: 101 }, // character set
];

impl<'a> RecordKind<'a> for TransmissionHeader<'a> {
    ghost use Rattle.std.specs.Prelude.{◌≡◌};
    ghost use Rattle.cwr_records.specs.Layouts.{positions_of};
    ghost use Rattle.cwr_records.specs.Kinds.{header};

    ghost kind = { header };

    fn positions() -> &'static [Position]
        ensures { result.now ≡ positions_of header.places }
    {
        &HEADER
    }

    fn from_fields(fields: &LineFields<'a>) -> TransmissionHeader<'a> {
        TransmissionHeader {
            sender_type: fields.at(1),
            sender_id: fields.at(2),
            sender_name: fields.at(3),
            edi_version: fields.at(4),
            creation_date: fields.at(5),
            creation_time: fields.at(6),
            transmission_date: fields.at(7),
            character_set: fields.at(8),
        }
    }

    fn content(&self, index: usize) -> Field<'a> {
        match index {
            0 => Field::whole(b"HDR"),
            1 => self.sender_type.field(),
            2 => self.sender_id.field(),
            3 => self.sender_name.field(),
            4 => self.edi_version.field(),
            5 => self.creation_date.field(),
            6 => self.creation_time.field(),
            7 => self.transmission_date.field(),
            _ => self.character_set.field(),
        }
    }
}
