//! The rows of balances, beside what accounts have come to.
ghost use Rattle.std.specs.Prelude.{◌≡◌, ◌∷◌, ◌↔◌, [], IfErr, IsTrue, OnOk};
ghost use Rattle.book_audit.specs.Balances.{DeniesBalances, FindsBalances, TakesOut, row_by_units};
ghost use Rattle.society_book.specs.Errors.{Blames};
ghost use Rattle.society_book.specs.Steps.{Examines};
ghost use Rattle.society_book.specs.Columns.{HasRows, text_at};
ghost use Rattle.society_book.specs.DerivedRows.{is_named};
ghost use Rattle.society_rows.specs.Between.{Within};

use crate::reading::list_of;
use crate::totals::Totals;
use society_rows::{RowFault, TableName};
use sqlite::{Alter, Row, Transaction};
use sqlite_value::value::ValueRef;
use std::collections::BTreeMap;

// Takes the account of a row out of what is left; whether it was there with just the row's units.
fn take_row(left: &mut BTreeMap<Vec<u8>, u64>, row: &Row) -> bool
    ensures there { IsTrue result ↔ (row_by_units left.old (text_at 0 row.now) ≡ row.now ∷ []) }
    ensures taken { IsTrue result → TakesOut (text_at 0 row.now) left.old left.new }
{
    if row.column_count() != 2 {
        return false;
    }
    let Ok(ValueRef::Text(account)) = row.get_ref(0) else {
        return false;
    };
    let Ok(ValueRef::Int(found)) = row.get_ref(1) else {
        return false;
    };
    let Ok(units) = u64::try_from(found) else {
        return false;
    };
    left.remove(account) == Some(units)
}

// That rows are exactly those of accounts with these units; else `Damaged`.
fn rows_agree(rows: &[Row], units: BTreeMap<Vec<u8>, u64>) -> Result<(), RowFault>
    ensures agree { OnOk result (HasRows is_named (row_by_units units) rows.now) }
    ensures judged { IfErr result (Blames (HasRows is_named (row_by_units units) rows.now → ⊥)) }
{
    let mut left = units;
    for row in rows {
        if !take_row(&mut left, row) {
            return Err(RowFault::Damaged);
        }
    }
    if !left.is_empty() {
        return Err(RowFault::Damaged);
    }
    Ok(())
}

/// That the rows of balances are exactly what accounts have come to; else `Damaged`.
pub fn balances_agree<S: Alter>(tx: &mut Transaction<'_, S>, totals: Totals) -> Result<(), RowFault>
    ensures examined { Within S.Store tx.old tx.new (Examines (DeniesBalances totals)) result (λ db _. FindsBalances totals db) }
{
    let rows = list_of(tx, TableName::Balances)?;
    rows_agree(rows.as_slice(), totals.units)
}
