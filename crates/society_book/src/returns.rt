//! What is asked of a return.
ghost use Rattle.std.specs.Prelude.{◌≡◌, [], List, ℕ, Option, false, is_some, IfOk, IsTrue, OnOk, OnErr, if◌then◌else◌};
ghost use Rattle.society_core.specs.Answers.{known_by, paid_by, payer, payment_in, return_known_as};
ghost use Rattle.society_core.specs.Book.{return_at};
ghost use Rattle.society_core.specs.declared.store.Payment.TheVariants.{Unknown};
ghost use Rattle.sqlite.specs.State.{HasCleanDisk};
ghost use Rattle.society_rows.specs.Questions.{Asks};
ghost use Rattle.society_rows.specs.Rows.{return_values};
ghost use Rattle.society_book.specs.Shown.{ByBook, Changes, ReturnComes, Settles, ShowBody, ShowKey, ShowPayer, SurvivesChange};
ghost use Rattle.society_rows.specs.Between.{between};

use crate::bodies::compare_body;
use society_core::{Known, Payment, ReturnKey};
use society_rows::{Idle, NewRows, PoolReturnRow, Question, ReturnRow, RowFault, add, ask};
use sqlite::{Alter, Row};
use work_ids::PoolNumber;

// Whether the rows of a return show these bytes, others, or none; `Damaged` where they are more than one.
fn known_return_in(rows: &[Row], body: &[u8]) -> Result<Known, RowFault>
    ensures { (kept : Option (List ℕ)) → ShowBody kept rows.now → IfOk result (λ known. known ≡ known_by body.now kept) }
{
    match rows {
        [] => Ok(Known::Absent),
        [row] => Ok(compare_body(ReturnRow::from_row(row)?.body, body)),
        _ => Err(RowFault::Damaged),
    }
}

/// Whether the book has a return, another one under its key, or none.
pub fn known_return_of<S: Alter>(
    conn: &mut Idle<S>,
    key: &ReturnKey,
    body: &[u8],
) -> Result<Known, RowFault>
    ensures asked { between S.Store conn.old conn.new Asks result (ByBook (λ _ book known. known ≡ return_known_as book key.now body.now)) }
{
    let rows = ask(
        conn,
        Question::Return(key.reporter.as_bytes(), key.number.value()),
    )?;
    known_return_in(rows.as_slice(), body)
}

// Whether the keys of returns show one; `Damaged` where they are more than one.
fn shown_there(rows: &[Row]) -> Result<bool, RowFault>
    ensures { (kept : Option (List ℕ)) → ShowKey kept rows.now → IfOk result (λ there. there ≡ is_some kept) }
{
    match rows {
        [] => Ok(false),
        [_] => Ok(true),
        _ => Err(RowFault::Damaged),
    }
}

// Whether the book has a return.
fn is_there<S: Alter>(conn: &mut Idle<S>, key: &ReturnKey) -> Result<bool, RowFault>
    ensures asked { between S.Store conn.old conn.new Asks result (ByBook (λ _ book there. there ≡ is_some (return_at book key.now))) }
{
    let rows = ask(
        conn,
        Question::HasReturn(key.reporter.as_bytes(), key.number.value()),
    )?;
    shown_there(rows.as_slice())
}

// The pool that the rows of a return that is paid show; `Damaged` where that is no pool's number.
fn shown_payer(rows: &[Row]) -> Result<Option<PoolNumber>, RowFault>
    ensures { (payer : Option ℕ) → ShowPayer payer rows.now → IfOk result (λ pool. pool ≡ payer) }
{
    match rows {
        [] => Ok(None),
        [row, ..] => match PoolNumber::from_u32(PoolReturnRow::from_row(row)?.pool) {
            Some(pool) => Ok(Some(pool)),
            None => Err(RowFault::Damaged),
        },
    }
}

// The pool that pays a return.
fn payer_of<S: Alter>(conn: &mut Idle<S>, key: &ReturnKey) -> Result<Option<PoolNumber>, RowFault>
    ensures asked { between S.Store conn.old conn.new Asks result (ByBook (λ _ book pool. pool ≡ payer book key.now)) }
{
    let rows = ask(
        conn,
        Question::Payer(key.reporter.as_bytes(), key.number.value()),
    )?;
    shown_payer(rows.as_slice())
}

// Whether a return is paid, by whether it is there.
fn payment_with<S: Alter>(
    conn: &mut Idle<S>,
    key: &ReturnKey,
    there: bool,
) -> Result<Payment, RowFault>
    ensures asked { between S.Store conn.old conn.new Asks result (ByBook (λ _ book payment. payment ≡ (if there then paid_by (payer book key.now) else Unknown))) }
{
    let payer = payer_of(conn, key)?;
    Ok(match (there, payer) {
        (false, _) => Payment::Unknown,
        (true, None) => Payment::Unpaid,
        (true, Some(pool)) => Payment::Paid(pool),
    })
}

/// Whether a return is there, and which pool pays it.
pub fn payment_of<S: Alter>(conn: &mut Idle<S>, key: &ReturnKey) -> Result<Payment, RowFault>
    ensures asked { between S.Store conn.old conn.new Asks result (ByBook (λ _ book payment. payment ≡ payment_in book key.now)) }
{
    let there = is_there(conn, key)?;
    payment_with(conn, key, there)
}

/// Adds a return in a transaction of its own.
pub fn write_return<S: Alter>(conn: &mut Idle<S>, row: &ReturnRow<'_>) -> Result<(), RowFault>
    ensures changed { between S.Store conn.old conn.new (Changes (ReturnComes (return_values row.now)) result) }
    ensures settled { between S.Store conn.old conn.new Settles result }
    ensures was_open { between S.Store conn.old conn.new (λ old new. HasCleanDisk new → IsTrue new.is_open → IsTrue old.is_open) }
    ensures neither { between S.Store conn.old conn.new (λ old new. HasCleanDisk new → IsTrue new.is_open → OnErr result ((new.now ≡ old.committed) × (new.committed ≡ old.committed))) }
    ensures survives { between S.Store conn.old conn.new (SurvivesChange (ReturnComes (return_values row.now))) }
{
    let mut tx = conn.connection.transaction();
    add(&mut tx, NewRows::Return(row))?;
    tx.commit()?;
    Ok(())
}
