//! Returns: the faults of bodies, and the rows of right ones.
use crate::told::Told;
use perf_returns::{Performance, ReturnError, read_return};
use std::alloc::Global;

/// Tells what a word asks of a return; whether there is such a word.
pub fn tell_return(alloc: Global, told: &mut Told, word: &str, body: &[u8]) -> bool {
    match word {
        "return" => tell_rows(alloc, told, body),
        "rows" => tell_row_count(alloc, told, body),
        _ => return false,
    }
    true
}

/// Tells the fault of a return by its number and its row.
fn tell_fault(told: &mut Told, fault: ReturnError) {
    match fault {
        ReturnError::Csv(fault) => {
            told.value(fault.number);
            told.word(b"in row");
            told.value(fault.row);
        }
        ReturnError::Memory => told.word(b"memory"),
    }
}

/// Tells a row: its printed ISRC, its plays and its seconds.
fn tell_row(told: &mut Told, row: &Performance) {
    told.word(row.isrc.to_text().as_slice());
    told.value(row.plays.value());
    told.value(row.seconds.value());
    told.bytes(b";");
}

fn tell_rows(alloc: Global, told: &mut Told, body: &[u8]) {
    match read_return(alloc, body) {
        Ok(read) => {
            told.word(b"rows:");
            for row in read.rows.as_slice() {
                tell_row(told, row);
            }
        }
        Err(fault) => tell_fault(told, fault),
    }
}

fn tell_row_count(alloc: Global, told: &mut Told, body: &[u8]) {
    match read_return(alloc, body) {
        Ok(read) => told.value(read.rows.as_slice().len()),
        Err(fault) => tell_fault(told, fault),
    }
}
