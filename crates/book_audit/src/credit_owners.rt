//! Whether the lines of pools' credits are of these pools alone.
ghost use Rattle.std.specs.Prelude.{◌≡◌, ◌↔◌, IsTrue};
ghost use Rattle.std.specs.List.{AllByRecursion};
ghost use Rattle.book_audit.specs.Examining.{IsNot};
ghost use Rattle.society_book.specs.Steps.{Examines};
ghost use Rattle.book_audit.specs.Credits.{AreCreditsOfPools, IsCreditOf};
ghost use Rattle.society_rows.specs.Between.{Within};

use crate::reading::ask;
use society_rows::{DerivedTable, Question, RowFault};
use sqlite::{Alter, Row, Transaction};
use sqlite_value::value::ValueRef;
use std::collections::BTreeSet;

// Whether a row begins with the number of one of these pools.
fn is_of_one(pools: &BTreeSet<u32>, row: &Row) -> bool
    ensures { IsTrue result ↔ IsCreditOf pools.now row.now }
{
    let Ok(ValueRef::Int(number)) = row.get_ref(0) else {
        return false;
    };
    match u32::try_from(number) {
        Ok(number) => pools.contains(&number),
        Err(_) => false,
    }
}

// Whether each row begins with the number of one of these pools.
fn are_of_these(pools: &BTreeSet<u32>, rows: &[Row]) -> bool
    ensures { IsTrue result ↔ AllByRecursion (IsCreditOf pools.now) rows.now }
{
    for row in rows {
        if !is_of_one(pools, row) {
            return false;
        }
    }
    true
}

/// That each line of credits is of one of these pools; else `Damaged`, and `Memory` or `Refused` where memory or the database failed.
pub fn has_no_stranger<S: Alter>(
    tx: &mut Transaction<'_, S>,
    pools: &BTreeSet<u32>,
) -> Result<(), RowFault>
    ensures examined { Within S.Store tx.old tx.new (Examines (IsNot (AreCreditsOfPools pools.now))) result (λ db _. AreCreditsOfPools pools.now db) }
{
    let rows = ask(tx, Question::FirstColumns(DerivedTable::Credits))?;
    if are_of_these(pools, rows.as_slice()) {
        Ok(())
    } else {
        Err(RowFault::Damaged)
    }
}
