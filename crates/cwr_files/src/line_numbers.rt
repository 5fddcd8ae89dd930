//! The sequence numbers, group IDs and counts that lines bear.
ghost use Rattle.std.specs.Prelude.{◌≡◌, ◌≤◌, length};
ghost use Rattle.cwr_records.specs.Records.{group_header_of};
ghost use Rattle.cwr_files.specs.RightLines.{bears, is_numbered, has_group_counts, has_file_counts};

use cwr_records::{Field, GroupHeader, GroupTrailer, Line, TransmissionTrailer, read_as};

// Whether a field is digits alone that are this number.
#[tactic(auto, unfolding(crate::specs::RightLines::bears))]
fn bears(field: &Field, expected: u64) -> bool
    requires { length field.now ≤ 19 }
    ensures { result ≡ bears field.now expected }
{
    match field.number() {
        Some(found) => found == expected,
        None => false,
    }
}

/// Whether a line bears this transaction sequence and record sequence.
#[tactic(auto, unfolding(crate::specs::RightLines::is_numbered))]
pub fn is_numbered(line: &Line, sequence: u64, further: u64) -> bool
    ensures { result ≡ is_numbered sequence further line.now }
{
    bears(&line.transaction_sequence(), sequence) && bears(&line.record_sequence(), further)
}

/// Whether a group header bears this group ID.
pub fn has_group_id(line: &Line, group: u64) -> bool
    ensures { result ≡ bears (group_header_of line.now).group_id group }
{
    let header: GroupHeader = read_as(line);
    bears(&header.group_id.field(), group)
}

/// Whether a group trailer bears this group ID and these counts.
#[tactic(auto, unfolding(crate::specs::RightLines::has_group_counts))]
pub fn has_group_counts(line: &Line, group: u64, transactions: u64, records: u64) -> bool
    ensures { result ≡ has_group_counts group transactions records line.now }
{
    let trailer: GroupTrailer = read_as(line);
    bears(&trailer.group_id.field(), group)
        && bears(&trailer.transaction_count.field(), transactions)
        && bears(&trailer.record_count.field(), records)
}

/// Whether a transmission trailer bears these counts.
#[tactic(auto, unfolding(crate::specs::RightLines::has_file_counts))]
pub fn has_file_counts(line: &Line, groups: u64, transactions: u64, records: u64) -> bool
    ensures { result ≡ has_file_counts groups transactions records line.now }
{
    let trailer: TransmissionTrailer = read_as(line);
    bears(&trailer.group_count.field(), groups)
        && bears(&trailer.transaction_count.field(), transactions)
        && bears(&trailer.record_count.field(), records)
}
