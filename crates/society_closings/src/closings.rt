//! What is written when a pool is closed.
ghost use Rattle.std.specs.Prelude.{◌≡◌, map, IfOk};
ghost use Rattle.society_rows.specs.Rows.{pool_cut_values, pool_return_values, pool_values};
ghost use Rattle.pool_split.specs.Credits.{credits_together};
ghost use Rattle.society_book.specs.BookRows.{cut_row, marks_of, paid_row};
ghost use Rattle.society_closings.specs.Closings.{AddsOrder, ClosesWith, Marks, PaysOut, AddsEach};
ghost use Rattle.society_book.specs.Steps.{Does, DoesOpen, Makes};
ghost use Rattle.society_rows.specs.Between.{Within};

use crate::credit_lines::add_lines;
use pool_split::{Credit, Portion};
use share_rules::Kind;
use society_book::{column_of, text_of};
use society_core::{PoolOrder, ReturnKey, TransmissionKey};
use society_rows::{
    MechanicalPoolRow, NewRows, PoolCutRow, PoolReturnRow, PoolRow, RowFault, add, add_all,
    add_units,
};
use sqlite::{Alter, Transaction};
use std::alloc::Global;

// The rows of a pool's cut.
fn cut_rows<'a>(
    alloc: Global,
    pool: u32,
    cut: &'a [TransmissionKey],
) -> Result<Vec<PoolCutRow<'a>>, RowFault>
    ensures { IfOk result (λ rows. map pool_cut_values rows.items ≡ map (cut_row pool) cut.now) }
{
    let mut rows = Vec::with_capacity(alloc, cut.len())?;
    for key in cut {
        rows.push(PoolCutRow {
            pool,
            sender: key.sender.as_bytes(),
            number: key.number.value(),
        })?;
    }
    Ok(rows)
}

// The rows of the returns that a pool pays.
fn paid_rows<'a>(
    alloc: Global,
    pool: u32,
    returns: &'a [ReturnKey],
) -> Result<Vec<PoolReturnRow<'a>>, RowFault>
    ensures { IfOk result (λ rows. map pool_return_values rows.items ≡ map (paid_row pool) returns.now) }
{
    let mut rows = Vec::with_capacity(alloc, returns.len())?;
    for key in returns {
        rows.push(PoolReturnRow {
            reporter: key.reporter.as_bytes(),
            number: key.number.value(),
            pool,
        })?;
    }
    Ok(rows)
}

// Adds the units of credits to the balances of their accounts.
fn add_balances<S: Alter>(
    alloc: Global,
    tx: &mut Transaction<'_, S>,
    credits: &[Credit],
) -> Result<(), RowFault>
    ensures does { Within S.Store tx.old tx.new Does result (λ before after _. AddsEach credits.now before after) }
{
    for credit in credits {
        let account = text_of(alloc, &credit.account)?;
        add_units(tx, account.as_slice(), column_of(credit.units)?)?;
    }
    Ok(())
}

// Marks a pool as one of the mechanical right, where it pays this one.
fn add_mark<S: Alter>(tx: &mut Transaction<'_, S>, pool: u32, kind: Kind) -> Result<(), RowFault>
    ensures does { Within S.Store tx.old tx.new Does result (λ before after _. Marks pool kind before after) }
{
    match kind {
        Kind::Performing => Ok(()),
        Kind::Mechanical => add(tx, NewRows::MechanicalPool(&MechanicalPoolRow { pool })),
    }
}

// Adds what an order is: the pool, its cut, the returns that it pays, and its mark where it pays the mechanical right.
fn add_order<S: Alter>(
    tx: &mut Transaction<'_, S>,
    kind: Kind,
    pool: &PoolRow,
    cuts: &[PoolCutRow<'_>],
    paid: &[PoolReturnRow<'_>],
) -> Result<(), RowFault>
    ensures does { Within S.Store tx.old tx.new DoesOpen result
        (Makes (AddsOrder (pool_values pool.now) (map pool_cut_values cuts.now) (map pool_return_values paid.now) (marks_of pool.now.pool kind))) }
{
    add(tx, NewRows::Pool(pool))?;
    add_all(tx, cuts)?;
    add_all(tx, paid)?;
    add_mark(tx, pool.pool, kind)
}

// Adds the lines of what a pool pays, and the units that they come to, an account at a time, to the balances.
fn pay_out<S: Alter>(
    alloc: Global,
    tx: &mut Transaction<'_, S>,
    pool: u32,
    portions: &[Portion],
) -> Result<(), RowFault>
    ensures does { Within S.Store tx.old tx.new Does result (λ before after _. PaysOut pool (credits_together portions.now) before after) }
{
    let totals = add_lines(alloc, tx, pool, portions)?;
    add_balances(alloc, tx, totals.as_slice())
}

/// Adds all that is written of a pool that is closed by an order and pays these portions.
pub(crate) fn write_pool<S: Alter>(
    alloc: Global,
    tx: &mut Transaction<'_, S>,
    pool: u32,
    order: &PoolOrder,
    portions: &[Portion],
) -> Result<(), RowFault>
    ensures does { Within S.Store tx.old tx.new DoesOpen result (λ before after _. ClosesWith pool order.now (credits_together portions.now) before after) }
{
    let cuts = cut_rows(alloc, pool, order.cut())?;
    let paid = paid_rows(alloc, pool, order.returns())?;
    let row = PoolRow {
        pool,
        amount: column_of(order.amount())?,
    };
    add_order(tx, order.kind(), &row, cuts.as_slice(), paid.as_slice())?;
    pay_out(alloc, tx, pool, portions)
}
