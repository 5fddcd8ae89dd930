//! The rows of returns, each read by its key: of a body nothing is kept.
ghost use Rattle.std.specs.Prelude.{◌≡◌, Some, None, IfOk, false, true, if◌then◌else◌};
ghost use Rattle.society_book.specs.Steps.{Examines};
ghost use Rattle.society_book.specs.BookRows.{return_key_of};
ghost use Rattle.society_rows.specs.Between.{Within};
ghost use Rattle.work_ids.specs.Blanks.{fill};
ghost use Rattle.book_audit.specs.Entries.{is_right_return};
ghost use Rattle.book_audit.specs.Judging.{AreReported, is_one_right, is_reported_at, is_reported_key, is_reporter_spelled};

use crate::reading::ask;
use perf_returns::{ReturnError, read_return};
use society_core::ReturnKey;
use society_rows::{Question, ReturnRow, RowFault, TransmissionKeyRow};
use sqlite::{Alter, Row, Transaction};
use std::alloc::{AllocError, Global};
use work_ids::{Reporter, ReturnNumber};

// The reporter that bytes spell, where they are written without the blanks that fill it.
fn reporter_in(bytes: &[u8]) -> Option<Reporter>
    ensures { result ≡ (if is_reporter_spelled bytes.now then Some (fill 20 bytes.now) else None) }
{
    match Reporter::from_bytes(bytes) {
        Ok(reporter) if reporter.as_bytes() == bytes => Some(reporter),
        _ => None,
    }
}

// Whether the row of a return may stand in a book.
fn may_stand(alloc: Global, row: &Row) -> Result<bool, AllocError>
    ensures { IfOk result (λ right. right ≡ is_right_return row.now) }
{
    let Ok(row) = ReturnRow::from_row(row) else {
        return Ok(false);
    };
    if reporter_in(row.reporter).is_none() || ReturnNumber::from_u32(row.number).is_none() {
        return Ok(false);
    }
    match read_return(alloc, row.body) {
        Ok(_) => Ok(true),
        Err(ReturnError::Csv(_)) => Ok(false),
        Err(ReturnError::Memory) => Err(AllocError),
    }
}

// Whether rows are one that may stand in a book.
fn is_alone_right(alloc: Global, rows: &[Row]) -> Result<bool, AllocError>
    ensures { IfOk result (λ right. right ≡ is_one_right is_right_return rows.now) }
{
    match rows {
        [row] => may_stand(alloc, row),
        _ => Ok(false),
    }
}

// The key of a return that a row is, its reporter written without the blanks that fill it.
fn reported_key(row: &Row) -> Option<ReturnKey>
    ensures { result ≡ (if is_reported_key row.now then Some (return_key_of row.now) else None) }
{
    // It has the columns of a transmission's: a text and a number.
    let Ok(row) = TransmissionKeyRow::from_row(row) else {
        return None;
    };
    let reporter = reporter_in(row.sender)?;
    let number = ReturnNumber::from_u32(row.number)?;
    Some(ReturnKey { reporter, number })
}

// That a row is the key of a return, and the database has one return under it that may stand in a book; `Damaged` where it is not so.
fn check_at<S: Alter>(alloc: Global, tx: &mut Transaction<'_, S>, row: &Row) -> Result<(), RowFault>
    ensures examined { Within S.Store tx.old tx.new (Examines (λ db. is_reported_at db row.now ≡ false)) result (λ db _. is_reported_at db row.now ≡ true) }
{
    let Some(key) = reported_key(row) else {
        return Err(RowFault::Damaged);
    };
    let rows = ask(
        tx,
        Question::Return(key.reporter.as_bytes(), key.number.value()),
    )?;
    if is_alone_right(alloc, rows.as_slice())? {
        Ok(())
    } else {
        Err(RowFault::Damaged)
    }
}

/// That the returns of a database may stand in a book; `Damaged` where one may not, or a key stands twice.
pub(crate) fn check_returns<S: Alter>(
    alloc: Global,
    tx: &mut Transaction<'_, S>,
) -> Result<(), RowFault>
    ensures examined { Within S.Store tx.old tx.new (Examines (λ db. AreReported db → ⊥)) result (λ db _. AreReported db) }
{
    let rows = ask(tx, Question::ReturnKeys)?;
    for row in rows.as_slice() {
        check_at(alloc, tx, row)?;
    }
    Ok(())
}
