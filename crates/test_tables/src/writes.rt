//! Rows that are written.
use crate::rows::{FromWords, amount};
use crate::told::{done, words};
use society_rows::{
    BalanceRow, CreditRow, FrontRow, MechanicalPoolRow, NewRows, PoolCutRow, PoolReturnRow,
    PoolRow, RecordingRow, ReturnRow, RowFault, SegmentEndRow, TransmissionRow, VerdictRow,
    VersionRow, add, add_all, add_units, put_front,
};
use sqlite::{Alter, Transaction};
use std::alloc::Global;

/// Tells what came of a write.
pub fn told_result(alloc: Global, written: Result<(), RowFault>) -> Option<String> {
    match written {
        Ok(()) => done(alloc),
        Err(RowFault::Overflow) => words(alloc, "overflow"),
        Err(RowFault::Refused(_)) => words(alloc, "refused"),
        Err(fault) => format!(in alloc; "{fault}").ok(),
    }
}

/// Adds units to the balance of an account.
fn write_units<S: Alter>(
    tx: &mut Transaction<'_, S>,
    words: &[&str],
) -> Option<Result<(), RowFault>> {
    let [account, units] = words else {
        return None;
    };
    Some(add_units(tx, account.as_bytes(), amount(units)?))
}

/// Writes one row of the kind that a word names.
fn write_row<'a, S: Alter>(
    tx: &mut Transaction<'_, S>,
    word: &str,
    words: &[&'a str],
) -> Option<Result<(), RowFault>> {
    Some(match word {
        "transmission" => add(tx, NewRows::Transmission(&TransmissionRow::of(words)?)),
        "return" => add(tx, NewRows::Return(&ReturnRow::of(words)?)),
        "end" => add(tx, NewRows::SegmentEnd(&SegmentEndRow::of(words)?)),
        "pool" => add(tx, NewRows::Pool(&PoolRow::of(words)?)),
        "mechanical" => add(tx, NewRows::MechanicalPool(&MechanicalPoolRow::of(words)?)),
        "balance" => add(tx, NewRows::Balance(&BalanceRow::of(words)?)),
        "front" => put_front(tx, &FrontRow::of(words)?),
        "units" => return write_units(tx, words),
        _ => return None,
    })
}

/// The rows of a list with `&` between them; of an empty one none.
fn rows_of<'a, R: FromWords<'a> + Drop>(alloc: Global, list: &'a str) -> Option<Vec<R>> {
    let mut rows = Vec::new(alloc);
    if list.is_empty() {
        return Some(rows);
    }
    for row in list.split(" & ") {
        let words = row.split(' ').collect::<Vec<&'a str>>(alloc).ok()?;
        rows.push(R::of(&words)?).ok()?;
    }
    Some(rows)
}

/// Writes the rows of a list, of the kind that a word names.
fn write_list<'a, S: Alter>(
    alloc: Global,
    tx: &mut Transaction<'_, S>,
    word: &str,
    list: &'a str,
) -> Option<Result<(), RowFault>> {
    Some(match word {
        "cuts" => add_all(tx, rows_of::<PoolCutRow<'a>>(alloc, list)?.as_slice()),
        "paid" => add_all(tx, rows_of::<PoolReturnRow<'a>>(alloc, list)?.as_slice()),
        "versions" => add_all(tx, rows_of::<VersionRow<'a>>(alloc, list)?.as_slice()),
        "recordings" => add_all(tx, rows_of::<RecordingRow<'a>>(alloc, list)?.as_slice()),
        "verdicts" => add_all(tx, rows_of::<VerdictRow<'a>>(alloc, list)?.as_slice()),
        "credits" => add_all(tx, rows_of::<CreditRow<'a>>(alloc, list)?.as_slice()),
        _ => return None,
    })
}

/// Writes one row, or the rows of a list by two a statement, of the kind that a word names; none where it names no kind.
pub fn write<S: Alter>(
    alloc: Global,
    tx: &mut Transaction<'_, S>,
    word: &str,
    text: &str,
) -> Option<Result<(), RowFault>> {
    let words = text.split(' ').collect::<Vec<&str>>(alloc).ok()?;
    match write_row(tx, word, &words) {
        Some(written) => Some(written),
        None => write_list(alloc, tx, word, text),
    }
}
