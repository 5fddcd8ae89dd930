//! What closed pools pay, written as credits and as balances.
ghost use Rattle.std.specs.Prelude.{◌≡◌};
ghost use Rattle.book_derivation.specs.Deriving.{Derives};
ghost use Rattle.book_derivation.specs.Money.{LacksLined, WritesMoney};
ghost use Rattle.society_rows.specs.Between.{Within};

use crate::balances::write_balances;
use crate::credits::write_credits;
use book_audit::orders_in;
use share_rules::Office;
use society_rows::RowFault;
use sqlite::{Alter, Transaction};
use std::alloc::Global;

/// Writes what the pools of a database pay, their credits and the balances, to tables that have neither; `Damaged` where the rows are not
/// those of a book's pools, and `Memory` or `Refused` where memory or the database failed.
pub(crate) fn write_money<S: Alter>(
    alloc: Global,
    tx: &mut Transaction<'_, S>,
    office: &Office,
) -> Result<(), RowFault>
    ensures derives { Within S.Store tx.old tx.new (Derives (LacksLined office.now)) result (λ before after _. WritesMoney office.now before after) }
{
    let closed = orders_in(alloc, tx)?;
    let totals = write_credits(alloc, tx, office, closed.as_slice())?;
    write_balances(tx, &totals)
}
