//! What a body tells, where it is a transmission. Each line is looked at a few times, and nothing is copied.
ghost use Rattle.std.specs.Prelude.{◌≡◌, ◌^◌, ◌<◌, ◌∷◌, length, map, IfOk, IsTrue};
ghost use Rattle.cwr_records.specs.Lines.{lines};
ghost use Rattle.cwr_records.specs.Records.{record_of, kind_of};
ghost use Rattle.cwr_files.specs.RecordTypes.{grh, has_type};
ghost use Rattle.cwr_files.specs.Contents.{group_in, groups_in, group_part, transactions_in, is_headed, contents};
ghost use Rattle.cwr_files.specs.Listed.{HasRecords};

use crate::record_types::{has_type, is_read, type_of_group};
use crate::transmission::{Group, Groups, Records, Transaction, Transactions, Transmission};
use cwr_records::{Line, TransactionKind, read_as, read_record, split_line};
use std::alloc::{AllocError, Global};

// The records of a transaction: its first line, and those after it up to one that begins another or ends the group. What
// stands from that one on is lent back, so that no line is cut twice.
fn records<'a>(
    alloc: Global,
    kind: &[u8; 3],
    first: Line<'a>,
    after: &'a [u8],
) -> Result<(Records<'a>, &'a [u8]), AllocError>
    ensures { IfOk result (λ r. HasRecords kind.now first.entry after.now r.0 r.1.now) }
{
    // A body may hold tens of thousands of transactions of one record: each takes the room of one.
    let mut list = Vec::with_capacity(alloc, 1)?;
    list.push(read_record(first))?;
    let mut rest = after;
    'further: while !rest.is_empty() {
        let (line, more) = split_line(rest);
        if has_type(&line, b"GRT") {
            return Ok((Records::from_vec(list), rest));
        }
        if has_type(&line, kind) {
            return Ok((Records::from_vec(list), rest));
        }
        list.push(read_record(line))?;
        rest = more;
    }
    Ok((Records::from_vec(list), rest))
}

// The kind of the transactions of a group that is read.
fn kind_of(kind: &[u8; 3]) -> TransactionKind
    ensures { result ≡ kind_of kind.now }
{
    if kind == b"REV" {
        TransactionKind::Rev
    } else {
        TransactionKind::Nwr
    }
}

// The transactions of a group that is read, out of the lines after its header.
fn transactions<'a>(
    alloc: Global,
    kind: &[u8; 3],
    group: u32,
    after: &'a [u8],
) -> Result<Transactions<'a>, AllocError>
    requires { length after.now < 2 ^ 32 }
    ensures { IfOk result (λ t. t ≡ transactions_in kind.now group (lines after.now)) }
{
    let mut list = Vec::new(alloc);
    let mut rest = after;
    'openings: while !rest.is_empty() {
        let (line, more) = split_line(rest);
        if has_type(&line, b"GRT") {
            return Ok(Transactions::from_vec(list));
        }
        if has_type(&line, kind) {
            let sequence = list.len() as u32;
            let (records, behind) = records(alloc, kind, line, more)?;
            list.push(Transaction {
                kind: kind_of(kind),
                group,
                sequence,
                records,
            })?;
            rest = behind;
        } else {
            rest = more;
        }
    }
    Ok(Transactions::from_vec(list))
}

// The group with this ID, out of its header and the lines after it.
fn group<'a>(
    alloc: Global,
    id: u32,
    opening: Line<'a>,
    after: &'a [u8],
) -> Result<Group<'a>, AllocError>
    requires opens { IsTrue (has_type grh opening) }
    requires room { length after.now < 2 ^ 32 }
    ensures { IfOk result (λ g. g ≡ group_in id (opening.entry ∷ group_part (lines after.now))) }
{
    let kind = type_of_group(&opening);
    let transactions = if is_read(&kind) {
        transactions(alloc, &kind, id, after)?
    } else {
        Transactions::from_vec(Vec::new(alloc))
    };
    Ok(Group {
        header: read_as(&opening),
        transactions,
    })
}

// The groups in the lines after a transmission header.
fn groups<'a>(alloc: Global, after: &'a [u8]) -> Result<Groups<'a>, AllocError>
    requires { length after.now < 2 ^ 32 }
    ensures { IfOk result (λ g. g ≡ groups_in (lines after.now)) }
{
    let mut list = Vec::new(alloc);
    let mut rest = after;
    while !rest.is_empty() {
        let (line, more) = split_line(rest);
        if has_type(&line, b"GRH") {
            let id = list.len() as u32 + 1;
            let group = group(alloc, id, line, more)?;
            list.push(group)?;
        }
        rest = more;
    }
    Ok(Groups::from_vec(list))
}

/// What a body tells that begins with a transmission header.
pub fn contents<'a>(alloc: Global, body: &'a [u8]) -> Result<Transmission<'a>, AllocError>
    requires headed { IsTrue (is_headed (lines body.now)) }
    requires room { length body.now < 2 ^ 32 }
    ensures { IfOk result (λ t. t ≡ contents (lines body.now)) }
{
    let (line, rest) = split_line(body);
    Ok(Transmission {
        header: read_as(&line),
        groups: groups(alloc, rest)?,
    })
}
