//! Whether the orders of pools can stand in a book.
ghost use Rattle.std.specs.Prelude.{◌≡◌, ◌&&◌, IfOk};
ghost use Rattle.std.specs.List.{AllByRecursion};
ghost use Rattle.book_audit.specs.declared.pool_orders.ClosedPool.{ClosedPool as ClosedPoolValue};
ghost use Rattle.society_core.specs.Orders.{IsOrder};
ghost use Rattle.society_book.specs.Steps.{Examines};
ghost use Rattle.book_audit.specs.OwnRows.{LacksReached};
ghost use Rattle.book_audit.specs.Standing.{FindsOrders, HoldsNoLines, KnowsReach, OrdersFall, OrdersStand, TellsOrder};
ghost use Rattle.society_rows.specs.Between.{Within};

use crate::pool_orders::{ClosedPool, closed_pools};
use crate::pool_tables::pool_rows;
use crate::reached::Reached;
use crate::returns::{are_paid_once, are_there};
use society_core::PoolOrder;
use society_rows::RowFault;
use sqlite::{Alter, Transaction};
use std::alloc::Global;

// Three tests that hold. A call of its own for the proof, which then has one answer to look at.
fn are_all(a: bool, b: bool, c: bool) -> bool
    ensures { result ≡ (a && (b && c)) }
{
    a && b && c
}

// Whether an order can stand in a book: the numbers of its cut are in their senders' lines, the returns that it pays are there, and each
// is paid once.
fn can_stand<S: Alter>(
    tx: &mut Transaction<'_, S>,
    reached: &mut Reached,
    order: &PoolOrder,
) -> Result<bool, RowFault>
    ensures examined { Within S.Store tx.old tx.new (Examines HoldsNoLines) result
        (λ db told. KnowsReach db reached.old → KnowsReach db reached.new × TellsOrder order.now db told) }
    ensures kept { IfOk result (λ _. IsOrder order.now) }
{
    let are_reached = reached.are_in_line(tx, order.cut())?;
    let are_there = are_there(tx, order.returns())?;
    let are_paid_once = are_paid_once(tx, order.returns())?;
    Ok(are_all(are_reached, are_there, are_paid_once))
}

// That the orders of pools can stand in a book; else `Damaged`.
fn orders_stand<S: Alter>(
    alloc: Global,
    tx: &mut Transaction<'_, S>,
    closed: &[ClosedPool],
) -> Result<(), RowFault>
    ensures examined { Within S.Store tx.old tx.new (Examines (OrdersFall closed.now)) result (λ db _. OrdersStand closed.now db) }
    ensures kept { IfOk result (λ _. AllByRecursion (λ (c : ClosedPoolValue). IsOrder c.order) closed.now) }
{
    let mut reached = Reached::new(alloc);
    for one in closed {
        if !can_stand(tx, &mut reached, &one.order)? {
            return Err(RowFault::Damaged);
        }
    }
    Ok(())
}

/// The pools that are closed, each with its order, in the order of their rows; `Damaged` where the rows are not those of a book's pools,
/// and `Memory` or `Refused` where memory or the database failed. Memory is that of the orders.
pub fn orders_in<S: Alter>(
    alloc: Global,
    tx: &mut Transaction<'_, S>,
) -> Result<Vec<ClosedPool>, RowFault>
    ensures examined { Within S.Store tx.old tx.new (Examines LacksReached) result (λ db closed. FindsOrders db closed.items) }
{
    let rows = pool_rows(tx)?;
    let closed = closed_pools(alloc, &rows)?;
    orders_stand(alloc, tx, closed.as_slice())?;
    Ok(closed)
}
