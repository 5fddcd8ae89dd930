//! What closed pools pay, worked out anew and compared with the lines of credits and with the balances.
ghost use Rattle.std.specs.Prelude.{◌≡◌, IfOk, OnOk};
ghost use Rattle.book_audit.specs.Examining.{HoldsNot};
ghost use Rattle.society_book.specs.Steps.{Examines};
ghost use Rattle.book_audit.specs.Paying.{AreNumbersOf, CannotPayAny, CompletesBook, DeniesPools, FindsPaid, FindsPaidAmong, FindsPools, LackPools, LackPoolsAmong, ListsForAll, WantsAll, WantsOrder};
ghost use Rattle.society_closings.specs.Blamed.{HoldNoWorks, LackReturns};
ghost use Rattle.society_closings.specs.CutWorks.{WantsMore};
ghost use Rattle.society_closings.specs.Weighing.{AreWorksWeighed};
ghost use Rattle.society_rows.specs.Between.{Within};

use crate::balances::balances_agree;
use crate::credit_owners::has_no_stranger;
use crate::credits::credits_agree;
use crate::pool_orders::ClosedPool;
use crate::standing::orders_in;
use crate::totals::Totals;
use share_rules::{Kind, Office};
use society_closings::{PoolWorks, Wanted};
use society_core::PoolOrder;
use society_rows::RowFault;
use sqlite::{Alter, Transaction};
use std::alloc::{AllocError, Global};
use std::collections::BTreeSet;

// Adds what the pool of an order looks for; `Damaged` where no book whose works the tables have has all of its returns.
fn add_order<S: Alter>(
    alloc: Global,
    tx: &mut Transaction<'_, S>,
    order: &PoolOrder,
    wanted: &mut Wanted,
) -> Result<(), RowFault>
    ensures more { OnOk result (WantsMore wanted.old wanted.new) }
    ensures examined { Within S.Store tx.old tx.new (Examines (LackReturns order.now.returns)) result (λ db _. WantsOrder order.now db wanted.new) }
{
    wanted.add_order(alloc, tx, order)?;
    Ok(())
}

// What closed pools look for; `Damaged` where no book whose works the tables have can pay them.
fn wanted_by<S: Alter>(
    alloc: Global,
    tx: &mut Transaction<'_, S>,
    closed: &[ClosedPool],
) -> Result<Wanted, RowFault>
    ensures examined { Within S.Store tx.old tx.new (Examines (CannotPayAny closed.now)) result (WantsAll closed.now) }
{
    let mut wanted = Wanted::new(alloc);
    for one in closed {
        add_order(alloc, tx, &one.order, &mut wanted)?;
    }
    Ok(wanted)
}

// Weighs the works of pools in a right, where one of them pays it; `Damaged` where the tables have the works of no book.
fn weigh_in<S: Alter>(
    alloc: Global,
    tx: &mut Transaction<'_, S>,
    office: &Office,
    closed: &[ClosedPool],
    kind: Kind,
    wanted: &Wanted,
    works: &mut PoolWorks,
) -> Result<(), RowFault>
    ensures listed { OnOk result (works.new.listed ≡ works.old.listed) }
    ensures examined { Within S.Store tx.old tx.new (Examines HoldNoWorks) result (λ db _. AreWorksWeighed office.now db works.old → AreWorksWeighed office.now db works.new) }
{
    if !closed.iter().any(|one| one.order.kind() == kind) {
        return Ok(());
    }
    works.weigh(alloc, tx, office, kind, wanted)
}

// Weighs the works of pools in each right that one of them pays; `Damaged` where the tables have the works of no book.
fn weigh<S: Alter>(
    alloc: Global,
    tx: &mut Transaction<'_, S>,
    office: &Office,
    closed: &[ClosedPool],
    wanted: &Wanted,
    works: &mut PoolWorks,
) -> Result<(), RowFault>
    ensures listed { OnOk result (works.new.listed ≡ works.old.listed) }
    ensures examined { Within S.Store tx.old tx.new (Examines HoldNoWorks) result (λ db _. AreWorksWeighed office.now db works.old → AreWorksWeighed office.now db works.new) }
{
    weigh_in(alloc, tx, office, closed, Kind::Performing, wanted, works)?;
    weigh_in(alloc, tx, office, closed, Kind::Mechanical, wanted, works)
}

/// The works that closed pools look for, listed in one pass for all of them, and weighed once for all of them; `Damaged` where no book
/// whose works the tables have can pay them, and `Memory` or `Refused` where memory or the database failed.
pub fn works_of<S: Alter>(
    alloc: Global,
    tx: &mut Transaction<'_, S>,
    office: &Office,
    closed: &[ClosedPool],
) -> Result<PoolWorks, RowFault>
    ensures examined { Within S.Store tx.old tx.new (Examines (CannotPayAny closed.now)) result (ListsForAll office.now closed.now) }
{
    let wanted = wanted_by(alloc, tx, closed)?;
    let mut works = PoolWorks::of(alloc, wanted.works(alloc, tx)?);
    weigh(alloc, tx, office, closed, &wanted, &mut works)?;
    Ok(works)
}

// What accounts have come to by closed pools, where the lines of their credits are what they pay out of works that are listed; else
// `Damaged`.
fn totals_among<S: Alter>(
    alloc: Global,
    tx: &mut Transaction<'_, S>,
    office: &Office,
    closed: &[ClosedPool],
    works: &PoolWorks,
) -> Result<Totals, RowFault>
    ensures examined { Within S.Store tx.old tx.new (Examines (LackPoolsAmong office.now closed.now works.now)) result (FindsPaidAmong office.now closed.now works.now) }
{
    let mut totals = Totals::new(alloc);
    for one in closed {
        let portions = credits_agree(alloc, tx, office, one.pool, &one.order, works)?;
        totals.add_portions(portions.as_slice())?;
    }
    Ok(totals)
}

// What accounts have come to by closed pools, where the lines of their credits are what they pay; else `Damaged`.
fn totals_of<S: Alter>(
    alloc: Global,
    tx: &mut Transaction<'_, S>,
    office: &Office,
    closed: &[ClosedPool],
) -> Result<Totals, RowFault>
    ensures examined { Within S.Store tx.old tx.new (Examines (LackPools office.now closed.now)) result (FindsPaid office.now closed.now closed.now) }
{
    let works = works_of(alloc, tx, office, closed)?;
    totals_among(alloc, tx, office, closed, &works)
}

// The numbers of closed pools.
fn numbers_of(alloc: Global, closed: &[ClosedPool]) -> Result<BTreeSet<u32>, AllocError>
    ensures { IfOk result (AreNumbersOf closed.now) }
{
    let mut numbers = BTreeSet::new(alloc);
    for one in closed {
        numbers.insert(one.pool.value())?;
    }
    Ok(numbers)
}

// That the lines of credits are those of closed pools alone, and the balances what accounts have come to by these; else `Damaged`.
fn pools_agree<S: Alter>(
    alloc: Global,
    tx: &mut Transaction<'_, S>,
    office: &Office,
    closed: &[ClosedPool],
) -> Result<(), RowFault>
    ensures examined { Within S.Store tx.old tx.new (Examines (DeniesPools office.now closed.now)) result (λ db _. FindsPools office.now closed.now db) }
{
    let totals = totals_of(alloc, tx, office, closed)?;
    let numbers = numbers_of(alloc, closed)?;
    has_no_stranger(tx, &numbers)?;
    balances_agree(tx, totals)
}

/// That the pools of a database are those of the book that it stands for, and its credits and balances what they pay; else `Damaged`, and
/// `Memory` or `Refused` where memory or the database failed. Memory is that of the orders and of the accounts.
pub(crate) fn money_agrees<S: Alter>(
    alloc: Global,
    tx: &mut Transaction<'_, S>,
    office: &Office,
) -> Result<(), RowFault>
    ensures examined { Within S.Store tx.old tx.new (Examines (HoldsNot office.now)) result (λ db _. CompletesBook office.now db) }
{
    let closed = orders_in(alloc, tx)?;
    pools_agree(alloc, tx, office, closed.as_slice())
}
