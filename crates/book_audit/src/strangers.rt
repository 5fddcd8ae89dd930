//! Whether the rows of what is derived of senders' lines are of these senders alone.
ghost use Rattle.std.specs.Prelude.{◌≡◌, ◌↔◌, IfOk, IsTrue, true};
ghost use Rattle.std.specs.BTreeSet.{IsFromIterResult};
ghost use Rattle.std.specs.List.{AllByRecursion};
ghost use Rattle.book_audit.specs.Examining.{IsNot};
ghost use Rattle.society_book.specs.Steps.{Examines};
ghost use Rattle.society_core.specs.Keys.{bytes_cmp};
ghost use Rattle.society_rows.specs.Between.{Within, within};
ghost use Rattle.society_rows.specs.FirstColumns.{derived_table};
ghost use Rattle.book_audit.specs.Auditing.{AreLinesOf, is_of_one};
ghost use Rattle.book_audit.specs.LineSteps.{AreAllOfThese, AreOfThese, DeniesLines};
ghost use Rattle.share_rules.specs.declared.office.Office.{Office};

use crate::reading::ask;
use society_rows::{DerivedTable, Question, RowFault};
use sqlite::{Alter, Row, Transaction};
use sqlite_value::value::ValueRef;
use std::alloc::{AllocError, Global};
use std::collections::BTreeSet;
use work_ids::SenderKey;

/// The set of some senders.
pub(crate) fn set_of(
    alloc: Global,
    senders: &[SenderKey],
) -> Result<BTreeSet<SenderKey>, AllocError>
    ensures { IfOk result (IsFromIterResult bytes_cmp senders.now) }
{
    senders.iter().copied().collect(alloc)
}

// Whether a row begins with one of these senders.
fn is_of_one(senders: &BTreeSet<SenderKey>, row: &Row) -> bool
    ensures { result ≡ is_of_one senders.now row.now }
{
    let Ok(ValueRef::Text(name)) = row.get_ref(0) else {
        return false;
    };
    match SenderKey::from_bytes(name) {
        Ok(sender) => senders.contains(&sender),
        Err(_) => false,
    }
}

// Whether each row begins with one of these senders.
fn are_of_these(senders: &BTreeSet<SenderKey>, rows: &[Row]) -> bool
    ensures { IsTrue result ↔ AllByRecursion (λ row. is_of_one senders.now row ≡ true) rows.now }
{
    rows.iter().all(|row| is_of_one(senders, row))
}

// That each row of a table begins with one of these senders; else `Damaged`.
fn table_agrees<S: Alter>(
    tx: &mut Transaction<'_, S>,
    senders: &BTreeSet<SenderKey>,
    table: DerivedTable,
) -> Result<(), RowFault>
    ensures examined { Within S.Store tx.old tx.new (Examines (IsNot (AreOfThese senders.now (derived_table table)))) result (λ db _. AreOfThese senders.now (derived_table table) db) }
{
    let rows = ask(tx, Question::FirstColumns(table))?;
    if are_of_these(senders, rows.as_slice()) {
        Ok(())
    } else {
        Err(RowFault::Damaged)
    }
}

// That so does each row of what is derived of senders' lines; else `Damaged`.
fn tables_agree<S: Alter>(
    tx: &mut Transaction<'_, S>,
    senders: &BTreeSet<SenderKey>,
) -> Result<(), RowFault>
    ensures examined { Within S.Store tx.old tx.new (Examines (IsNot (AreAllOfThese senders.now))) result (λ db _. AreAllOfThese senders.now db) }
{
    table_agrees(tx, senders, DerivedTable::Fronts)?;
    table_agrees(tx, senders, DerivedTable::Verdicts)?;
    table_agrees(tx, senders, DerivedTable::Versions)?;
    table_agrees(tx, senders, DerivedTable::Recordings)
}

/// That each row of what is derived of senders' lines is of one of these senders; else `Damaged`, and `Memory` or `Refused` where memory or
/// the database failed.
pub(crate) fn has_no_stranger<S: Alter>(
    alloc: Global,
    tx: &mut Transaction<'_, S>,
    senders: &[SenderKey],
) -> Result<(), RowFault>
    ensures same_reference { tx.new.conn.ghost_name ≡ tx.old.conn.ghost_name }
    ensures examined { (office : Office) → within S.Store tx.old tx.new (Examines (DeniesLines office senders.now)) result (λ db _. AreLinesOf senders.now db) }
{
    let set = set_of(alloc, senders)?;
    tables_agree(tx, &set)
}
