//! The identifiers of the office: works, recordings, parties, senders, reporters, and the accounts of parties.
//! No call of this crate takes memory.
#![tactic(auto)]

mod account;
mod blanks;
mod characters;
mod checksum;
mod digits;
mod fault;
mod file_name;
mod ipi_name;
mod isrc;
mod iswc;
mod numbers;
mod party_number;
mod reporter;
mod segment;
mod segment_end;
mod segment_place;
mod sender_key;
mod spelled_number;
mod transmission_number;
mod work_number;

pub use account::Account;
pub use blanks::{are_blank, fill, trim, without_trailing_blanks};
pub use characters::{are_capitals_or_digits, are_printable};
pub use checksum::check_digit;
pub use digits::{is_number, last_digits, number, number_up_to};
pub use fault::IdFault;
pub use file_name::read_file_name;
pub use ipi_name::IpiName;
pub use isrc::Isrc;
pub use iswc::Iswc;
pub use numbers::{PoolNumber, ReturnNumber};
pub use party_number::PartyNumber;
pub use reporter::Reporter;
pub use segment::Segment;
pub use segment_end::{SegmentEnd, SegmentFault};
pub use segment_place::SegmentPlace;
pub use sender_key::SenderKey;
pub use spelled_number::{SpelledNumber, dated_text};
pub use transmission_number::{FIRST_YEAR, GREATEST_RANK, TransmissionNumber, YEAR};
pub use work_number::WorkNumber;
