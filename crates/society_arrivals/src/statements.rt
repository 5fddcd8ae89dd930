//! The ends of segments that a sender states.
ghost use Rattle.std.specs.Prelude.{◌≡◌};
ghost use Rattle.society_rows.specs.Between.{Within, between};
ghost use Rattle.society_arrivals.specs.Arriving.{EndsRun, StatesBy, StatesWith};
ghost use Rattle.society_book.specs.Shown.{AddsAlone};
ghost use Rattle.society_book.specs.Steps.{Does, DoesOpen, Looks};
ghost use Rattle.society_arrivals.specs.Arrivals.{StatesEnd, StatesEndTo};

use crate::going::go_over;
use crate::run::Run;
use crate::settling::{put_run, reached_in};
use share_rules::Office;
use society_book::ends_in;
use society_rows::{Idle, NewRows, RowFault, SegmentEndRow, add};
use sqlite::{Alter, Transaction};
use std::alloc::Global;
use work_ids::{GREATEST_RANK, SegmentEnd, SenderKey};

// The run with which a sender's line goes on from its front when an end comes: of no transmission where none was waiting for it.
fn run_behind<S: Alter>(
    alloc: Global,
    tx: &mut Transaction<'_, S>,
    office: &Office,
    sender: &SenderKey,
    end: &SegmentEnd,
    front: u32,
) -> Result<Run, RowFault>
    ensures looks { Within S.Store tx.old tx.new Looks result (StatesBy office.now sender.now end.now front) }
{
    let mut ends = ends_in(tx, sender.as_bytes())?;
    ends.push(end)?;
    if front > GREATEST_RANK {
        return Err(RowFault::Damaged);
    }
    let mut run = Run::new(alloc, office, front);
    go_over(tx, sender, &ends, front, &mut run)?;
    Ok(run)
}

// Adds the end of a segment with which its sender's line goes on by a run, which may be of no transmission.
fn end_run<S: Alter>(
    alloc: Global,
    tx: &mut Transaction<'_, S>,
    sender: &SenderKey,
    end: &SegmentEnd,
    works: u64,
    run: &Run,
) -> Result<(), RowFault>
    ensures does { Within S.Store tx.old tx.new Does result (λ before after _. EndsRun sender.now end.now works run.now before.trees after.trees) }
{
    put_run(alloc, tx, sender, works, run)?;
    let row = SegmentEndRow {
        sender: sender.as_bytes(),
        segment: end.segment(),
        last: end.last(),
        next: u32::from(end.next()),
    };
    add(tx, NewRows::SegmentEnd(&row))
}

// Adds the end of a segment to a transaction, and tells its sender's front then, by its rank.
fn state_inside<S: Alter>(
    alloc: Global,
    tx: &mut Transaction<'_, S>,
    office: &Office,
    sender: &SenderKey,
    end: &SegmentEnd,
) -> Result<u32, RowFault>
    ensures does { Within S.Store tx.old tx.new DoesOpen result (λ before after front. StatesWith office.now sender.now end.now before.trees after.trees front) }
{
    // That the end has no fault is part of what a sound book says.
    let _last = end.last();
    let reached = reached_in(tx, sender.as_bytes())?;
    let run = run_behind(alloc, tx, office, sender, end, reached.front)?;
    end_run(alloc, tx, sender, end, reached.works, &run)?;
    Ok(run.front())
}

/// Adds the end of a segment in a transaction of its own, applies what was waiting for it, and tells its sender's front then, by
/// its rank.
pub fn state_end<S: Alter>(
    alloc: Global,
    conn: &mut Idle<S>,
    office: &Office,
    sender: &SenderKey,
    end: &SegmentEnd,
) -> Result<u32, RowFault>
    ensures added { between S.Store conn.old conn.new (AddsAlone (StatesEnd office.now sender.now end.now) (StatesEndTo office.now sender.now end.now)) result }
{
    let mut tx = conn.connection.transaction();
    let front = state_inside(alloc, &mut tx, office, sender, end)?;
    tx.commit()?;
    Ok(front)
}
