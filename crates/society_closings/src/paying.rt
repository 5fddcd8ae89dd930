//! What a pool pays, worked out of the tables, and its closing in a transaction of its own.
ghost use Rattle.std.specs.Prelude.{◌≡◌, ◌≤◌, [], List, ℕ, Option, length, unwrap_or, IfErr, OnOk, ⊤};
ghost use Rattle.pool_split.specs.Credits.{credits_together};
ghost use Rattle.perf_returns.specs.Returns.{performances_in};
ghost use Rattle.society_core.specs.Orders.{IsOrder};
ghost use Rattle.society_closings.specs.Closings.{ClosesPool, PaysAmong, PaysBy};
ghost use Rattle.society_book.specs.Errors.{Blames};
ghost use Rattle.society_book.specs.Shown.{AddsAlone, ShowBody};
ghost use Rattle.society_book.specs.Steps.{DoesOpen, Looks};
ghost use Rattle.society_rows.specs.Between.{Within, between, within};
ghost use Rattle.society_rows.specs.Effects.{Errs};
ghost use Rattle.society_closings.specs.Blamed.{BelongNowhere, CannotPayAmong, LackReturn, LackReturns, LackTallied};
ghost use Rattle.society_closings.specs.Readable.{ShowReturn};
ghost use Rattle.society_closings.specs.Choosing.{PaysByTally, PaysTallied, TalliesKept, TalliesReturn, TalliesReturns};

use crate::closings::write_pool;
use crate::cut_works::candidates_in;
use crate::pool_works::PoolWorks;
use crate::wanted::Wanted;
use perf_returns::{ReturnError, read_return};
use pool_split::{Portion, are_payable, portions};
use share_rules::Office;
use society_core::{Candidate, PoolOrder, ReturnKey, Tally, claims};
use society_rows::{Idle, Question, ReturnRow, RowFault, answer};
use sqlite::{Alter, Row, Transaction};
use std::alloc::Global;
use work_ids::PoolNumber;

// Adds the performances of a return to a tally of at most 9,990,000 performances, by the rows of the return; `Damaged` where
// these are not one row, or its body is no return.
fn add_performances(alloc: Global, rows: &[Row], tally: &mut Tally) -> Result<(), RowFault>
    ensures counted { TalliesKept rows.now tally.old tally.new result }
    ensures limit { (kept : Option (List ℕ)) → ShowBody kept rows.now → OnOk result (length (performances_in (unwrap_or kept [])) ≤ 10000) }
    ensures blames { IfErr result (Blames (ShowReturn rows.now → ⊥)) }
{
    let [row] = rows else {
        return Err(RowFault::Damaged);
    };
    let row = ReturnRow::from_row(row)?;
    match read_return(alloc, row.body) {
        Ok(performances) => Ok(tally.add_all(performances.rows.as_slice())?),
        Err(ReturnError::Memory) => Err(RowFault::Memory),
        Err(ReturnError::Csv(_)) => Err(RowFault::Damaged),
    }
}

// Adds the performances of a return to a tally of at most 9,990,000 performances; `Damaged` where there is no such return.
fn add_return<S: Alter>(
    alloc: Global,
    tx: &mut Transaction<'_, S>,
    key: &ReturnKey,
    tally: &mut Tally,
) -> Result<(), RowFault>
    ensures looks { Within S.Store tx.old tx.new Looks result (λ db _. TalliesReturn key.now tally.old tally.new db) }
    ensures err { within S.Store tx.old tx.new (Errs (LackReturn key.now)) result }
{
    let rows = answer(
        tx,
        Question::Return(key.reporter.as_bytes(), key.number.value()),
    )?;
    add_performances(alloc, rows.as_slice(), tally)
}

/// The tally of all performances of these returns. Where the disk told the truth, an error says that memory ran out, that a count has no
/// room, that the medium may have failed, or that no book whose works the tables have has all of them.
pub fn tally_of<S: Alter>(
    alloc: Global,
    tx: &mut Transaction<'_, S>,
    returns: &[ReturnKey],
) -> Result<Tally, RowFault>
    ensures looks { Within S.Store tx.old tx.new Looks result (TalliesReturns returns.now) }
    ensures err { within S.Store tx.old tx.new (Errs (LackReturns returns.now)) result }
{
    let mut tally = Tally::new(alloc);
    for key in returns {
        add_return(alloc, tx, key, &mut tally)?;
    }
    Ok(tally)
}

// What an order pays by the tally of its returns and the candidates for their recordings; `Damaged` where these can't be paid.
fn portions_by(
    alloc: Global,
    tally: &Tally,
    candidates: &[Candidate],
    order: &PoolOrder,
) -> Result<Vec<Portion>, RowFault>
    ensures pays { PaysByTally tally.now candidates.now order.now result }
    ensures blames { IfErr result (Blames (BelongNowhere tally.now candidates.now order.now)) }
{
    let points = tally.points_by_recording(alloc)?;
    let claims = claims(alloc, &points, candidates)?;
    if !are_payable(&claims) {
        return Err(RowFault::Damaged);
    }
    Ok(portions(alloc, order.amount(), &claims)?)
}

// What an order pays by the tables, by the tally of its returns and the works that are listed.
fn portions_for<S: Alter>(
    alloc: Global,
    tx: &mut Transaction<'_, S>,
    office: &Office,
    order: &PoolOrder,
    tally: &Tally,
    works: &PoolWorks,
) -> Result<Vec<Portion>, RowFault>
    ensures looks { Within S.Store tx.old tx.new Looks result (λ db portions. PaysTallied office.now order.now tally.now works.now db (credits_together portions.items)) }
    ensures err { within S.Store tx.old tx.new (Errs (LackTallied office.now order.now tally.now works.now)) result }
{
    let candidates = candidates_in(alloc, order.kind(), tx, office, tally, order, works)?;
    portions_by(alloc, tally, &candidates, order)
}

/// What an order pays by the tables, a portion for each recording, out of works that are listed. Where the disk told the truth, and these
/// are those that the order looks for, an error says that memory ran out, that a count has no room, that the medium may have failed, or
/// that no book whose works the tables have can pay the order.
pub fn portions_in<S: Alter>(
    alloc: Global,
    tx: &mut Transaction<'_, S>,
    office: &Office,
    order: &PoolOrder,
    works: &PoolWorks,
) -> Result<Vec<Portion>, RowFault>
    ensures looks { Within S.Store tx.old tx.new Looks result (λ db portions. PaysAmong office.now order.now works.now db (credits_together portions.items)) }
    ensures err { within S.Store tx.old tx.new (Errs (CannotPayAmong office.now order.now works.now)) result }
    ensures kept { IsOrder order.now }
{
    let tally = tally_of(alloc, tx, order.returns())?;
    portions_for(alloc, tx, office, order, &tally, works)
}

// What an order pays by the tables.
fn portions_of_order<S: Alter>(
    alloc: Global,
    tx: &mut Transaction<'_, S>,
    office: &Office,
    order: &PoolOrder,
) -> Result<Vec<Portion>, RowFault>
    ensures looks { Within S.Store tx.old tx.new Looks result (λ db portions. PaysBy office.now order.now db (credits_together portions.items)) }
    ensures kept { IsOrder order.now }
{
    let mut wanted = Wanted::new(alloc);
    let tally = wanted.add_order(alloc, tx, order)?;
    let works = PoolWorks::of(alloc, wanted.works(alloc, tx)?);
    portions_for(alloc, tx, office, order, &tally, &works)
}

// Closes a pool in a transaction.
fn close_inside<S: Alter>(
    alloc: Global,
    tx: &mut Transaction<'_, S>,
    office: &Office,
    pool: PoolNumber,
    order: &PoolOrder,
) -> Result<(), RowFault>
    ensures does { Within S.Store tx.old tx.new DoesOpen result (λ before after _. ClosesPool office.now pool order.now before.trees after.trees × ⊤) }
{
    let portions = portions_of_order(alloc, tx, office, order)?;
    write_pool(alloc, tx, pool.value(), order, &portions)
}

/// Closes a pool in a transaction of its own.
pub fn close<S: Alter>(
    alloc: Global,
    conn: &mut Idle<S>,
    office: &Office,
    pool: PoolNumber,
    order: &PoolOrder,
) -> Result<(), RowFault>
    ensures added { between S.Store conn.old conn.new (AddsAlone (ClosesPool office.now pool order.now) (λ _ _. ⊤)) result }
{
    let mut tx = conn.connection.transaction();
    close_inside(alloc, &mut tx, office, pool, order)?;
    tx.commit()?;
    Ok(())
}
