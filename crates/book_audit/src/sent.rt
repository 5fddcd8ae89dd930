//! The rows of transmissions, each read by its key: of a body nothing is kept.
ghost use Rattle.std.specs.Prelude.{◌≡◌, Some, None, false, true, if◌then◌else◌};
ghost use Rattle.society_book.specs.Steps.{Examines};
ghost use Rattle.society_book.specs.BookRows.{transmission_key_of};
ghost use Rattle.society_rows.specs.Between.{Within};
ghost use Rattle.book_audit.specs.Entries.{is_right_sent};
ghost use Rattle.book_audit.specs.Judging.{AreSent, AreSentKeys, is_one_right, is_sent_at, is_sent_key};

use crate::reading::ask;
use cwr_files::find_fault;
use society_core::TransmissionKey;
use society_rows::{Question, RowFault, TransmissionKeyRow, TransmissionRow};
use sqlite::{Alter, Row, Transaction};
use std::alloc::Global;
use work_ids::{SenderKey, TransmissionNumber};

// Whether the row of a transmission may stand in a book.
fn may_stand(row: &Row) -> bool
    ensures { result ≡ is_right_sent row.now }
{
    let Ok(row) = TransmissionRow::from_row(row) else {
        return false;
    };
    let Ok(sender) = SenderKey::from_bytes(row.sender) else {
        return false;
    };
    if TransmissionNumber::from_u32(row.number).is_none() {
        return false;
    }
    find_fault(row.body, &sender).is_none()
}

// Whether rows are one that may stand in a book.
fn is_alone_right(rows: &[Row]) -> bool
    ensures { result ≡ is_one_right is_right_sent rows.now }
{
    match rows {
        [row] => may_stand(row),
        _ => false,
    }
}

// The key of a transmission that a row is.
fn sent_key(row: &Row) -> Option<TransmissionKey>
    ensures { result ≡ (if is_sent_key row.now then Some (transmission_key_of row.now) else None) }
{
    let Ok(row) = TransmissionKeyRow::from_row(row) else {
        return None;
    };
    let Ok(sender) = SenderKey::from_bytes(row.sender) else {
        return None;
    };
    let number = TransmissionNumber::from_u32(row.number)?;
    Some(TransmissionKey { sender, number })
}

// The key of a transmission that a row is; `Damaged` where it is none, or where the database has not one transmission under it that may
// stand in a book.
fn sent_at<S: Alter>(tx: &mut Transaction<'_, S>, row: &Row) -> Result<TransmissionKey, RowFault>
    ensures examined { Within S.Store tx.old tx.new (Examines (λ db. is_sent_at db row.now ≡ false)) result
        (λ db key. (key ≡ transmission_key_of row.now) × (is_sent_at db row.now ≡ true)) }
{
    let Some(key) = sent_key(row) else {
        return Err(RowFault::Damaged);
    };
    let rows = ask(
        tx,
        Question::Transmission(key.sender.as_bytes(), key.number.value()),
    )?;
    if is_alone_right(rows.as_slice()) {
        Ok(key)
    } else {
        Err(RowFault::Damaged)
    }
}

/// The keys of the transmissions of a database; `Damaged` where one may not stand in a book, or a key stands twice.
pub(crate) fn sent_in<S: Alter>(
    alloc: Global,
    tx: &mut Transaction<'_, S>,
) -> Result<Vec<TransmissionKey>, RowFault>
    ensures examined { Within S.Store tx.old tx.new (Examines (λ db. AreSent db → ⊥)) result (λ db keys. AreSent db × AreSentKeys db keys.items) }
{
    let rows = ask(tx, Question::TransmissionKeys)?;
    let mut keys = Vec::with_capacity(alloc, rows.len())?;
    for row in rows.as_slice() {
        let key = sent_at(tx, row)?;
        keys.push(key)?;
    }
    Ok(keys)
}
