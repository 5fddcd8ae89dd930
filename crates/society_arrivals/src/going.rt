//! How a run goes on: from number to number, and over the ends of segments.
ghost use Rattle.std.specs.Prelude.{◌≡◌, ◌≤◌};
ghost use Rattle.society_rows.specs.Between.{Within, within};
ghost use Rattle.society_rows.specs.Effects.{Errs};
ghost use Rattle.society_arrivals.specs.Going.{IsWholeIn, RunsOn, RunsOver};
ghost use Rattle.society_book.specs.RightRows.{KeepsUnsound};
ghost use Rattle.society_book.specs.Steps.{Looks, LooksOpen};
ghost use Rattle.work_ids.specs.Segments.{greatest_rank};

use crate::run::Run;
use share_rules::Office;
use society_book::{SenderEnds, ends_in};
use society_rows::{RowFault, fold_run};
use sqlite::{Alter, Transaction};
use std::alloc::Global;
use work_ids::SenderKey;

/// Goes on with the numbers behind the one that a run has come to, row by row up to the first that is not there.
pub(crate) fn go_on<S: Alter>(
    tx: &mut Transaction<'_, S>,
    sender: &SenderKey,
    run: &mut Run,
) -> Result<(), RowFault>
    ensures looks { Within S.Store tx.old tx.new Looks result (λ db _. RunsOn sender.now run.old run.new db) }
    ensures err { within S.Store tx.old tx.new (Errs KeepsUnsound) result }
{
    match run.front().checked_add(1) {
        Some(next) => fold_run(tx, sender.as_bytes(), next, run),
        None => Err(RowFault::Overflow),
    }
}

/// Goes on over the ends that a run reaches, from the segment of a rank on, and with the numbers behind each.
pub(crate) fn go_over<S: Alter>(
    tx: &mut Transaction<'_, S>,
    sender: &SenderKey,
    ends: &SenderEnds,
    begun: u32,
    run: &mut Run,
) -> Result<(), RowFault>
    requires { begun ≤ greatest_rank }
    ensures looks { Within S.Store tx.old tx.new Looks result (λ db _. RunsOver sender.now ends.now begun run.old run.new db) }
    ensures err { within S.Store tx.old tx.new (Errs KeepsUnsound) result }
{
    // The rank from which the last numbers were read: it rises also where a disk lies of what stands behind it.
    let mut rank = begun;
    'segments: while let Some(next) = ends.behind(rank, run.front()) {
        run.pass(next);
        go_on(tx, sender, run)?;
        rank = next;
    }
    Ok(())
}

/// A sender's whole line up to its front, as an office notes it.
pub fn whole_run<S: Alter>(
    alloc: Global,
    tx: &mut Transaction<'_, S>,
    office: &Office,
    sender: &SenderKey,
) -> Result<Run, RowFault>
    ensures looks { Within S.Store tx.old tx.new LooksOpen result (IsWholeIn office.now sender.now) }
    ensures err { within S.Store tx.old tx.new (Errs KeepsUnsound) result }
{
    let ends = ends_in(tx, sender.as_bytes())?;
    let mut run = Run::new(alloc, office, 0);
    go_on(tx, sender, &mut run)?;
    go_over(tx, sender, &ends, 0, &mut run)?;
    Ok(run)
}
