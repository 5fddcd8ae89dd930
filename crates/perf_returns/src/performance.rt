//! A row of a return.
ghost use Rattle.std.specs.Prelude.{◌≡◌, unwrap_or, []};
ghost use Rattle.csv.specs.Records.{field_at, fields_of};
ghost use Rattle.perf_returns.specs.Rows.{are_header_words, header_row_fault, row_of};

use crate::plays::Plays;
use crate::seconds::Seconds;
use csv::ByteRecord;
use work_ids::Isrc;

/// Fields of a row.
const FIELDS: usize = 3;

/// Fault: there is no row, or the first is not the header (profile).
pub const WRONG_HEADER: u8 = 1;

/// Fault: a row of data has not three fields (profile).
const OTHER_FIELDS: u8 = 2;

/// Fault: the first field is no ISRC (profile).
const NO_ISRC: u8 = 3;

/// Fault: the plays are no number from 1 to 1,000,000 of at most 7 digits (profile).
const WRONG_PLAYS: u8 = 4;

/// Fault: the seconds are no number from 1 to 10,000 of at most 5 digits (profile).
const WRONG_SECONDS: u8 = 5;

/// A row of a return: a recording, how often it was played, and the seconds of each play (profile).
#[derive(Clone, Copy, Debug, PartialEq, Eq)]
pub struct Performance {
    pub isrc: Isrc,
    pub plays: Plays,
    pub seconds: Seconds,
}

// The field at a place, nothing where the record has none.
fn field(fields: &ByteRecord, place: usize) -> &[u8]
    ensures { result.now ≡ unwrap_or (field_at (fields_of fields.now) place) [] }
{
    fields.get(place).unwrap_or(b"")
}

// Whether three fields are the words of the header.
fn are_header_words(first: &[u8], second: &[u8], third: &[u8]) -> bool
    ensures { result ≡ are_header_words first.now second.now third.now }
{
    first == b"isrc".as_slice() && second == b"plays".as_slice() && third == b"seconds".as_slice()
}

/// The fault of the first record of a return: it has to be the header.
#[tactic(auto, using(crate::proofs::lemmas::Three::header_of_three))]
pub fn header_fault(fields: &ByteRecord) -> Option<u8>
    ensures { result ≡ header_row_fault (fields_of fields.now) }
{
    if fields.len() != FIELDS {
        return Some(WRONG_HEADER);
    }
    if are_header_words(field(fields, 0), field(fields, 1), field(fields, 2)) {
        None
    } else {
        Some(WRONG_HEADER)
    }
}

/// What a row of data says, or the first of its faults.
#[tactic(auto, using(crate::proofs::lemmas::Three::row_of_three))]
pub fn read_row(fields: &ByteRecord) -> Result<Performance, u8>
    ensures { result ≡ row_of (fields_of fields.now) }
{
    if fields.len() != FIELDS {
        return Err(OTHER_FIELDS);
    }
    let Ok(isrc) = Isrc::from_text(field(fields, 0)) else {
        return Err(NO_ISRC);
    };
    let Some(plays) = Plays::from_field(field(fields, 1)) else {
        return Err(WRONG_PLAYS);
    };
    let Some(seconds) = Seconds::from_field(field(fields, 2)) else {
        return Err(WRONG_SECONDS);
    };
    Ok(Performance {
        isrc,
        plays,
        seconds,
    })
}
