//! The reader of records of any type.
ghost use Rattle.std.specs.Prelude.{◌≡◌};
ghost use Rattle.cwr_records.specs.Places.{record_type_in};
ghost use Rattle.cwr_records.specs.Records.{record_of, type_of};

use crate::{Line, Record, RecordType, read_as};

/// The record of a line, by the record type at 1-3. A line of a type that has no layout stays as it is.
#[tactic(auto, unfolding(crate::specs::Records::record_of))]
pub fn read_record<'a>(line: Line<'a>) -> Record<'a>
    ensures { result ≡ record_of line.entry }
{
    match record_type(&line) {
        RecordType::Hdr => Record::TransmissionHeader(read_as(&line)),
        RecordType::Grh => Record::GroupHeader(read_as(&line)),
        RecordType::Nwr | RecordType::Rev => Record::Work(read_as(&line)),
        RecordType::Spu | RecordType::Opu => Record::Publisher(read_as(&line)),
        RecordType::Spt => Record::PublisherTerritory(read_as(&line)),
        RecordType::Swr | RecordType::Owr => Record::Writer(read_as(&line)),
        RecordType::Swt => Record::WriterTerritory(read_as(&line)),
        RecordType::Pwr => Record::PublisherForWriter(read_as(&line)),
        RecordType::Alt => Record::AlternateTitle(read_as(&line)),
        RecordType::Rec => Record::Recording(read_as(&line)),
        RecordType::Ack => Record::Acknowledgement(read_as(&line)),
        RecordType::Grt => Record::GroupTrailer(read_as(&line)),
        RecordType::Trl => Record::TransmissionTrailer(read_as(&line)),
        RecordType::Unknown => Record::Other(line),
    }
}

/// The record types that have a layout, each with its three letters.
const TYPES: [([u8; 3], RecordType); 16] = [
    (*b"HDR", RecordType::Hdr),
    (*b"GRH", RecordType::Grh),
    (*b"NWR", RecordType::Nwr),
    (*b"REV", RecordType::Rev),
    (*b"SPU", RecordType::Spu),
    (*b"OPU", RecordType::Opu),
    (*b"SPT", RecordType::Spt),
    (*b"SWR", RecordType::Swr),
    (*b"OWR", RecordType::Owr),
    (*b"SWT", RecordType::Swt),
    (*b"PWR", RecordType::Pwr),
    (*b"ALT", RecordType::Alt),
    (*b"REC", RecordType::Rec),
    (*b"ACK", RecordType::Ack),
    (*b"GRT", RecordType::Grt),
    (*b"TRL", RecordType::Trl),
];

// The record type of a line.
fn record_type(line: &Line<'_>) -> RecordType
    ensures { result ≡ type_of (record_type_in line.now) }
{
    let code = line.record_type();
    for (letters, kind) in &TYPES {
        if code.is(letters) {
            return *kind;
        }
    }
    RecordType::Unknown
}
