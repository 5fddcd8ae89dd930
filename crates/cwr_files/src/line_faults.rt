//! Which fault a line has, in each place where it may stand. Where several hold it is the least.
ghost use Rattle.std.specs.Prelude.{◌≡◌, ◌+◌, ◌^◌, ◌<◌, bytes_eq};
ghost use Rattle.cwr_files.specs.LineFaults.{is_too_large, sequence_at, record_sequence_at};
ghost use Rattle.cwr_files.specs.Chain.{header_fault, opening_fault, trailer_fault, between_fault, closing_fault, record_fault, group_fault, ended_fault};
ghost use Rattle.cwr_files.specs.RightLines.{is_numbered, sender_of_header};

use crate::counts::{Counts, OpenGroup};
use crate::dates::is_dated;
use crate::limits::{MAX_BODY, MAX_LINE};
use crate::line_numbers::{has_file_counts, has_group_counts, has_group_id, is_numbered};
use crate::record_types::{has_type, is_code, is_frame, is_read, record_type, type_of_group};
use cwr_records::{Line, TransmissionHeader, read_as};
use work_ids::SenderKey;

/// Fault: there is no line, or the first is no HDR (profile).
pub const NO_HEADER: u8 = 1;

/// Fault: the first line bears another sender key (profile).
const OTHER_SENDER: u8 = 2;

/// Fault: a date or the time of the first line is none (profile).
const WRONG_DATE: u8 = 3;

/// Fault: between groups, neither GRH nor TRL (profile).
const OUTSIDE_GROUPS: u8 = 4;

/// Fault: the group ID is not the next one (profile).
const WRONG_GROUP_ID: u8 = 5;

/// Fault: within a group, HDR, GRH or TRL, or a record before the group's first transaction (profile).
const MISPLACED_IN_GROUP: u8 = 6;

/// Fault: the transaction or record sequence is not the next number (profile).
const WRONG_SEQUENCE: u8 = 7;

/// Fault: the group ID, transaction count or record count of a GRT is wrong (profile).
const WRONG_GROUP_COUNTS: u8 = 8;

/// Fault: the group, transaction or record count of the TRL is wrong (profile).
const WRONG_FILE_COUNTS: u8 = 9;

/// Fault: the body ended before TRL (profile).
pub const NO_TRAILER: u8 = 10;

/// Fault: after TRL, a line that is not blank (profile).
const BEHIND_TRAILER: u8 = 11;

/// Fault: the line is too long, or the body at its end too large (profile).
pub const TOO_LARGE: u8 = 12;

/// Fault: a transaction or record type is not three of A-Z and 0-9 (profile).
const WRONG_TYPE: u8 = 13;

/// Whether a line is too long, or the body at the end of it, of so many bytes.
#[tactic(auto, unfolding(crate::specs::LineFaults::is_too_large))]
pub fn is_too_large(end: usize, line: &Line) -> bool
    ensures { result ≡ is_too_large end line.now }
{
    line.len() > MAX_LINE || end > MAX_BODY
}

/// The fault of a transmission's first line.
#[tactic(auto, unfolding(crate::specs::Chain::header_fault))]
pub fn header_fault(sender: &SenderKey, line: &Line) -> Option<u8>
    ensures { result ≡ header_fault sender.now line.now }
{
    if !has_type(line, b"HDR") {
        return Some(NO_HEADER);
    }
    if !is_of_sender(sender, line) {
        return Some(OTHER_SENDER);
    }
    if !is_dated(line) {
        return Some(WRONG_DATE);
    }
    None
}

// Whether a header bears the sender key.
fn is_of_sender(sender: &SenderKey, line: &Line) -> bool
    ensures { result ≡ bytes_eq (sender_of_header line.now) sender.now }
{
    let header: TransmissionHeader = read_as(line);
    header.sender_type.field().is(sender.sender_type())
        && header.sender_id.field().is(sender.sender_id())
}

// The fault of a group header behind so many groups.
#[tactic(auto, unfolding(crate::specs::Chain::opening_fault))]
fn opening_fault(groups: u64, line: &Line) -> Option<u8>
    requires { groups < 2 ^ 63 }
    ensures { result ≡ opening_fault groups line.now }
{
    if !has_group_id(line, groups + 1) {
        return Some(WRONG_GROUP_ID);
    }
    if !is_code(&type_of_group(line)) {
        return Some(WRONG_TYPE);
    }
    None
}

// The fault of a transmission trailer behind these counts.
#[tactic(auto, unfolding(crate::specs::Chain::trailer_fault))]
fn trailer_fault(counts: &Counts, line: &Line) -> Option<u8>
    requires { counts.now.lines < 2 ^ 63 }
    ensures { result ≡ trailer_fault counts.now.groups counts.now.transactions counts.now.lines line.now }
{
    if has_file_counts(line, counts.groups, counts.transactions, counts.lines + 1) {
        None
    } else {
        Some(WRONG_FILE_COUNTS)
    }
}

/// The fault of a line between groups: a group header's or the trailer's, or that it is neither.
#[tactic(auto, unfolding(crate::specs::Chain::between_fault))]
pub fn between_fault(counts: &Counts, line: &Line) -> Option<u8>
    requires groups_room { counts.now.groups < 2 ^ 63 }
    requires lines_room { counts.now.lines < 2 ^ 63 }
    ensures { result ≡ between_fault counts.now.groups counts.now.transactions counts.now.lines line.now }
{
    if has_type(line, b"GRH") {
        return opening_fault(counts.groups, line);
    }
    if has_type(line, b"TRL") {
        return trailer_fault(counts, line);
    }
    Some(OUTSIDE_GROUPS)
}

// The fault of the trailer of the open group with this ID.
#[tactic(auto, unfolding(crate::specs::Chain::closing_fault))]
fn closing_fault(id: u64, group: &OpenGroup, line: &Line) -> Option<u8>
    requires { group.now.lines < 2 ^ 63 }
    ensures { result ≡ closing_fault id group.now.transactions group.now.lines line.now }
{
    if has_group_counts(line, id, group.transactions, group.lines + 1) {
        None
    } else {
        Some(WRONG_GROUP_COUNTS)
    }
}

// Whether a line bears the sequence numbers that are right in an open group.
fn is_in_sequence(group: &OpenGroup, line: &Line) -> bool
    ensures { result ≡ is_numbered (sequence_at group.now.kind group.now.transactions line.now) (record_sequence_at group.now.kind group.now.further line.now) line.now }
{
    if has_type(line, &group.kind) {
        is_numbered(line, group.transactions, 0)
    } else {
        is_numbered(line, group.transactions.saturating_sub(1), group.further)
    }
}

// The fault of a record in an open group.
#[tactic(auto, unfolding(crate::specs::Chain::record_fault))]
fn record_fault(group: &OpenGroup, line: &Line) -> Option<u8>
    ensures { result ≡ record_fault group.now.kind group.now.transactions group.now.further line.now }
{
    if is_frame(line) {
        return Some(MISPLACED_IN_GROUP);
    }
    if !has_type(line, &group.kind) && group.transactions == 0 {
        return Some(MISPLACED_IN_GROUP);
    }
    if is_read(&group.kind) && !is_in_sequence(group, line) {
        return Some(WRONG_SEQUENCE);
    }
    if !is_code(&record_type(line)) {
        return Some(WRONG_TYPE);
    }
    None
}

/// The fault of a line within the open group with this ID: a group trailer's, or that of another record.
#[tactic(auto, unfolding(crate::specs::Chain::group_fault))]
pub fn group_fault(id: u64, group: &OpenGroup, line: &Line) -> Option<u8>
    requires { group.now.lines < 2 ^ 63 }
    ensures { result ≡ group_fault id group.now.kind group.now.transactions group.now.lines group.now.further line.now }
{
    if has_type(line, b"GRT") {
        return closing_fault(id, group, line);
    }
    record_fault(group, line)
}

/// The fault of a line after the transmission trailer.
#[tactic(auto, unfolding(crate::specs::Chain::ended_fault))]
pub fn ended_fault(line: &Line) -> Option<u8>
    ensures { result ≡ ended_fault line.now }
{
    if line.is_blank() {
        None
    } else {
        Some(BEHIND_TRAILER)
    }
}
