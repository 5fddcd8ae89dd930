//! The pools that are closed, and their orders, out of the rows of all of them.
ghost use Rattle.std.specs.Prelude.{◌≡◌, None, IfErr, IfOk};
ghost use Rattle.society_book.specs.Errors.{Blames};
ghost use Rattle.book_audit.specs.OrderParts.{ArePartsOf, OrdersFrom};
ghost use Rattle.book_audit.specs.Pools.{AreOrdersOf, ArePools, IsClosed, IsClosedBy};
ghost use Rattle.book_audit.specs.declared.pool_tables.PoolRows.{PoolRows as RowsOfPools};
ghost use Rattle.society_core.specs.Book.{Book, IsSound};
ghost use Rattle.society_core.specs.Orders.{order_fault};

use crate::order_parts::OrderParts;
use crate::pool_tables::PoolRows;
use share_rules::Kind;
use society_core::{OrderError, PoolOrder};
use society_rows::{PoolRow, RowFault};
use sqlite::Row;
use std::alloc::Global;
use work_ids::{PoolNumber, Reporter, SenderKey};

/// A pool that is closed, and its order.
#[derive(Drop)]
pub struct ClosedPool {
    pub pool: PoolNumber,
    pub order: PoolOrder,
}

// The order of a kind, an amount, a cut and returns; `Damaged` where they make none.
fn order_with(
    alloc: Global,
    kind: Kind,
    amount: u64,
    cut: &[(SenderKey, u64)],
    returns: &[(Reporter, u64)],
) -> Result<PoolOrder, RowFault>
    ensures order { IfOk result (OrdersFrom kind amount cut.now returns.now) }
    ensures judged { IfErr result (Blames (order_fault amount cut.now returns.now ≡ None → ⊥)) }
{
    match PoolOrder::new(alloc, kind, amount, cut, returns) {
        Ok(order) => Ok(order),
        Err(OrderError::Memory) => Err(RowFault::Memory),
        Err(OrderError::Order(_)) => Err(RowFault::Damaged),
    }
}

// The pool of a row and its order, by what the orders of pools say; `Damaged` where the row cannot be read, or there is no such order.
fn closed_by(alloc: Global, row: &Row, parts: &OrderParts) -> Result<ClosedPool, RowFault>
    ensures closed { IfOk result (λ closed. (rows : RowsOfPools) → ArePartsOf rows parts.now → IsClosedBy rows row.now closed) }
    ensures judged { IfErr result (Blames ((rows : RowsOfPools) (b : Book) → ArePartsOf rows parts.now → IsSound b → ArePools b rows → IsClosed b row.now → ⊥)) }
{
    let Ok(row) = PoolRow::from_row(row) else {
        return Err(RowFault::Damaged);
    };
    let Some(pool) = PoolNumber::from_u32(row.pool) else {
        return Err(RowFault::Damaged);
    };
    let Ok(amount) = u64::try_from(row.amount) else {
        return Err(RowFault::Damaged);
    };
    let cut = parts.cut_of(row.pool);
    let returns = parts.returns_of(row.pool);
    let kind = parts.kind_of(row.pool);
    let order = order_with(alloc, kind, amount, cut, returns)?;
    Ok(ClosedPool { pool, order })
}

/// The pools that are closed, each with its order, in the order of the rows; `Damaged` where these are not the rows of a book's pools.
pub(crate) fn closed_pools(alloc: Global, rows: &PoolRows) -> Result<Vec<ClosedPool>, RowFault>
    ensures orders { IfOk result (λ closed. AreOrdersOf rows.now closed.items) }
    ensures judged { IfErr result (Blames ((b : Book) → IsSound b → ArePools b rows.now → ⊥)) }
{
    let parts = OrderParts::of_rows(alloc, rows)?;
    let pools = rows.pools.as_slice();
    let mut closed = Vec::with_capacity(alloc, pools.len())?;
    for row in pools {
        closed.push(closed_by(alloc, row, &parts)?)?;
    }
    Ok(closed)
}
