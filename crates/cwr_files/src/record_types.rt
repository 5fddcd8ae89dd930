//! Record types, and the transaction types of groups.
ghost use Rattle.std.specs.Prelude.{◌≡◌};
ghost use Rattle.cwr_records.specs.Places.{record_type_in};
ghost use Rattle.cwr_files.specs.RecordTypes.{has_type, is_frame, is_code, is_read, type_of_group};

use cwr_records::{GroupHeader, Line, read_as};
use work_ids::are_capitals_or_digits;

/// Whether a line is a record of a type.
#[tactic(auto, unfolding(crate::specs::RecordTypes::has_type))]
pub fn has_type(line: &Line, code: &[u8]) -> bool
    ensures { result ≡ has_type code.now line.now }
{
    line.record_type().is(code)
}

/// Whether a line is one of the four that frame transmissions and groups.
#[tactic(auto, unfolding(crate::specs::RecordTypes::is_frame))]
pub fn is_frame(line: &Line) -> bool
    ensures { result ≡ is_frame line.now }
{
    has_type(line, b"HDR")
        || has_type(line, b"GRH")
        || has_type(line, b"GRT")
        || has_type(line, b"TRL")
}

/// The record type of a line.
pub fn record_type(line: &Line) -> [u8; 3]
    ensures { result ≡ record_type_in line.now }
{
    line.record_type().to_fixed::<3>().to_bytes()
}

/// The transaction type of a group header.
#[tactic(auto, unfolding(crate::specs::RecordTypes::type_of_group))]
pub fn type_of_group(line: &Line) -> [u8; 3]
    ensures { result ≡ type_of_group line.now }
{
    let header: GroupHeader = read_as(line);
    header.transaction_type.to_bytes()
}

/// Whether a type is of A-Z and 0-9.
#[tactic(auto, unfolding(crate::specs::RecordTypes::is_code))]
pub fn is_code(bytes: &[u8]) -> bool
    ensures { result ≡ is_code bytes.now }
{
    are_capitals_or_digits(bytes)
}

/// Whether the groups of a transaction type are read.
#[tactic(auto, unfolding(crate::specs::RecordTypes::is_read))]
pub fn is_read(kind: &[u8]) -> bool
    ensures { result ≡ is_read kind.now }
{
    kind == b"NWR".as_slice() || kind == b"REV".as_slice()
}
