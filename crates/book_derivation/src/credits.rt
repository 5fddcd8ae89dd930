//! What pools pay by the tables, worked out and written as the lines of their credits.
ghost use Rattle.std.specs.Prelude.{◌≡◌, map};
ghost use Rattle.society_book.specs.Steps.{Never};
ghost use Rattle.book_derivation.specs.Deriving.{Derives};
ghost use Rattle.book_audit.specs.Paying.{CannotPayAll};
ghost use Rattle.book_derivation.specs.Money.{AddsCredits, AddsCreditLines, CannotPayListed, WritesCredits, WritesListed, WritesPortions};
ghost use Rattle.pool_split.specs.Credits.{credits_together};
ghost use Rattle.society_closings.specs.Blamed.{CannotPayAmong};
ghost use Rattle.society_closings.specs.Closings.{lines_from};
ghost use Rattle.society_rows.specs.Between.{Within};
ghost use Rattle.society_rows.specs.Rows.{credit_values};

use crate::writing::wrote;
use book_audit::{ClosedPool, Totals, paid_by, worked_out, works_of};
use pool_split::{Credit, Portion};
use share_rules::Office;
use society_closings::{PoolWorks, line_rows, place_after, texts_of};
use society_core::PoolOrder;
use society_rows::{CreditRow, RowFault, add_all};
use sqlite::{Alter, Transaction};
use std::alloc::Global;
use work_ids::PoolNumber;

// Adds lines of credits.
fn add_lines<S: Alter>(tx: &mut Transaction<'_, S>, lines: &[CreditRow<'_>]) -> Result<(), RowFault>
    ensures derives { Within S.Store tx.old tx.new (Derives Never) result (λ before after _. AddsCreditLines (map credit_values lines.now) before after) }
{
    wrote(add_all(tx, lines))
}

// Adds the lines of these credits of a pool, from the first on.
fn write_from<S: Alter>(
    alloc: Global,
    tx: &mut Transaction<'_, S>,
    pool: u32,
    first: usize,
    credits: &[Credit],
) -> Result<(), RowFault>
    ensures derives { Within S.Store tx.old tx.new (Derives Never) result (λ before after _. AddsCreditLines (lines_from pool first credits.now) before after) }
{
    let texts = worked_out(texts_of(alloc, credits))?;
    let lines = worked_out(line_rows(alloc, pool, first, credits, texts.as_slice()))?;
    add_lines(tx, lines.as_slice())
}

// Adds the lines of what a pool pays, a portion at a time.
fn write_lines<S: Alter>(
    alloc: Global,
    tx: &mut Transaction<'_, S>,
    pool: u32,
    portions: &[Portion],
) -> Result<(), RowFault>
    ensures derives { Within S.Store tx.old tx.new (Derives Never) result (λ before after _. AddsCredits pool (credits_together portions.now) before after) }
{
    let mut line: usize = 0;
    for portion in portions {
        let credits = portion.credits(alloc)?;
        write_from(alloc, tx, pool, line, credits.as_slice())?;
        line = worked_out(place_after(line, credits.len()))?;
    }
    Ok(())
}

// What a pool pays by the tables out of works that are listed, whose lines are written; `Damaged` where no book whose works the tables have
// can pay it.
fn write_pool<S: Alter>(
    alloc: Global,
    tx: &mut Transaction<'_, S>,
    office: &Office,
    pool: PoolNumber,
    order: &PoolOrder,
    works: &PoolWorks,
) -> Result<Vec<Portion>, RowFault>
    ensures derives { Within S.Store tx.old tx.new (Derives (CannotPayAmong office.now order.now works.now)) result (WritesPortions office.now pool order.now works.now) }
{
    let portions = paid_by(alloc, tx, office, order, works)?;
    write_lines(alloc, tx, pool.value(), portions.as_slice())?;
    Ok(portions)
}

// What accounts come to by closed pools, the lines of whose credits are written, out of works that are listed.
fn write_each<S: Alter>(
    alloc: Global,
    tx: &mut Transaction<'_, S>,
    office: &Office,
    closed: &[ClosedPool],
    works: &PoolWorks,
) -> Result<Totals, RowFault>
    ensures derives { Within S.Store tx.old tx.new (Derives (CannotPayListed office.now closed.now works.now)) result (WritesListed office.now closed.now works.now) }
{
    let mut totals = Totals::new(alloc);
    for one in closed {
        let portions = write_pool(alloc, tx, office, one.pool, &one.order, works)?;
        totals.add_portions(portions.as_slice())?;
    }
    Ok(totals)
}

/// What accounts come to by closed pools, the lines of whose credits are written; `Damaged` where no book whose works the tables have can
/// pay them, and `Memory` or `Refused` where memory or the database failed. Memory is that of the accounts, of the works that the pools look
/// for and of one portion's credits.
pub(crate) fn write_credits<S: Alter>(
    alloc: Global,
    tx: &mut Transaction<'_, S>,
    office: &Office,
    closed: &[ClosedPool],
) -> Result<Totals, RowFault>
    ensures derives { Within S.Store tx.old tx.new (Derives (CannotPayAll office.now closed.now)) result (WritesCredits office.now closed.now) }
{
    let works = works_of(alloc, tx, office, closed)?;
    write_each(alloc, tx, office, closed, &works)
}
