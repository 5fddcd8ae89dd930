//! Transactions: their faults, and who is paid with which weight.
use crate::body::count;
use crate::told::Told;
use cwr_files::{Records, Transaction};
use cwr_records::{Line, TransactionKind, read_record};
use share_rules::{Holder, Kind, judge, weights};
use std::alloc::{AllocError, Global};
use test_bodies::{lines, office, sender};
use work_ids::Account;

/// Tells what a word asks of the transaction of a body; whether there is such a word.
pub fn tell_shares(alloc: Global, told: &mut Told, word: &str, rest: &str, body: &[u8]) -> bool {
    let Ok(song) = song_of(alloc, body) else {
        return false;
    };
    match word {
        "judge" => tell_judged(told, &song),
        "performing" => tell_weights(alloc, told, Kind::Performing, &song),
        "mechanical" => tell_weights(alloc, told, Kind::Mechanical, &song),
        "performing-at" => tell_weight_at(alloc, told, &song, rest),
        _ => return false,
    }
    true
}

/// Whether a line is a header or a trailer, and so no record of a transaction.
fn is_frame(line: &[u8]) -> bool {
    matches!(
        line,
        [b'H', b'D', b'R', ..] | [b'G', b'R', b'H' | b'T', ..] | [b'T', b'R', b'L', ..]
    )
}

/// The registration whose records are the lines of a body, its headers and trailers aside.
fn song_of<'a>(alloc: Global, body: &'a [u8]) -> Result<Transaction<'a>, AllocError> {
    let mut records = Vec::new(alloc);
    for line in lines(alloc, body)?.iter() {
        if !is_frame(line) {
            records.push(read_record(Line::new(line)))?;
        }
    }
    Ok(Transaction {
        kind: TransactionKind::Nwr,
        group: 1,
        sequence: 0,
        records: Records::from_vec(records),
    })
}

/// Tells the fault of a transaction.
fn tell_judged(told: &mut Told, song: &Transaction<'_>) {
    match office() {
        Ok(office) => told.option(judge(song, &office)),
        Err(fault) => told.word(fault.as_bytes()),
    }
}

/// What the holders of a transaction are paid with, none where memory ran out.
fn weights_of(alloc: Global, kind: Kind, song: &Transaction<'_>) -> Option<Vec<Holder>> {
    let office = office().ok()?;
    let sender = sender().ok()?;
    weights(alloc, kind, &sender, song, &office).ok()
}

/// Tells an account, as one word.
pub fn tell_account(told: &mut Told, account: &Account) {
    let (kind, party, number) = account.pieces();
    told.word(kind);
    told.bytes(party);
    told.bytes(number);
}

/// Tells the holders of a transaction, each with its weight.
fn tell_weights(alloc: Global, told: &mut Told, kind: Kind, song: &Transaction<'_>) {
    match weights_of(alloc, kind, song) {
        Some(holders) => {
            for holder in holders.iter() {
                tell_account(told, &holder.account);
                told.value(holder.weight);
            }
        }
        None => told.word(b"memory"),
    }
}

/// Tells how many holders a transaction has, and the weight of the one at a place, from 0.
fn tell_weight_at(alloc: Global, told: &mut Told, song: &Transaction<'_>, rest: &str) {
    match weights_of(alloc, Kind::Performing, song) {
        Some(holders) => {
            told.value(holders.len());
            match holders.as_slice().get(count(rest)) {
                Some(holder) => told.value(holder.weight),
                None => told.word(b"none"),
            }
        }
        None => told.word(b"memory"),
    }
}
