//! What is worked out of a run behind a sender's line, and what is written of it.
ghost use Rattle.std.specs.Prelude.{◌≡◌, [], ℕ, flat_map, map, IfOk, IsPermutation};
ghost use Rattle.society_rows.specs.Between.{Within};
ghost use Rattle.society_rows.specs.Rows.{front_values, recording_values, verdict_values, version_values};
ghost use Rattle.society_arrivals.specs.Arriving.{EndsAtFront, LearnsWork, LearnsWorks, PutsOutcomes, PutsRun};
ghost use Rattle.society_arrivals.specs.Outcomes.{settled};
ghost use Rattle.society_arrivals.specs.Runs.{settled_recordings, settled_version};
ghost use Rattle.society_arrivals.specs.LineTables.{AddsTold};
ghost use Rattle.society_book.specs.Shown.{ByBook};
ghost use Rattle.society_book.specs.Steps.{Does, Looks, LooksOpen, Makes};
ghost use Rattle.society_arrivals.specs.Arrivals.{HasReached, ShowReached};

use crate::outcomes::{Outcome, recording_rows, settle_run, verdict_rows, version_rows};
use crate::run::{Noted, Run, ascending_works};
use society_book::{column_of, last_version};
use society_rows::{
    FrontRow, Question, RecordingRow, RowFault, VerdictRow, VersionRow, add_all, answer, put_front,
};
use sqlite::{Alter, Row, Transaction};
use std::alloc::Global;
use work_ids::{SenderKey, WorkNumber};
use works_core::LineEnd;

/// How far a sender came: its front, and how many NWR are accepted up to it.
#[derive(Clone, Copy, Debug)]
pub(crate) struct Reached {
    pub(crate) front: u32,
    pub(crate) works: u64,
}

// How far a sender came by the rows of its front; `Damaged` where they are more than one.
fn shown_reached(rows: &[Row]) -> Result<Reached, RowFault>
    ensures { (n w : ℕ) → ShowReached n w rows.now → IfOk result (λ reached. (reached.front ≡ n) × (reached.works ≡ w)) }
{
    match rows {
        [] => Ok(Reached { front: 0, works: 0 }),
        [row] => {
            let row = FrontRow::from_row(row)?;
            match u64::try_from(row.works) {
                Ok(works) => Ok(Reached {
                    front: row.front,
                    works,
                }),
                Err(_) => Err(RowFault::Damaged),
            }
        }
        _ => Err(RowFault::Damaged),
    }
}

/// How far a sender came.
pub(crate) fn reached_in<S: Alter>(
    tx: &mut Transaction<'_, S>,
    sender: &[u8],
) -> Result<Reached, RowFault>
    ensures looks { Within S.Store tx.old tx.new LooksOpen result (ByBook (λ office book reached. HasReached office book sender.now reached.front reached.works)) }
{
    let rows = answer(tx, Question::Front(sender))?;
    shown_reached(rows.as_slice())
}

// Learns the last version of a work at a sender's front.
fn learn_work<S: Alter>(
    tx: &mut Transaction<'_, S>,
    sender: &SenderKey,
    work: &WorkNumber,
    end: &mut LineEnd,
) -> Result<(), RowFault>
    ensures looks { Within S.Store tx.old tx.new Looks result (λ db _. LearnsWork sender.now work.now end.old end.new db) }
{
    let rows = answer(
        tx,
        Question::LastVersion(sender.as_bytes(), work.as_bytes()),
    )?;
    let last = last_version(rows.as_slice())?;
    end.learn(*work, last)?;
    Ok(())
}

// Learns the last versions of works at a sender's front.
fn learn_all<S: Alter>(
    tx: &mut Transaction<'_, S>,
    sender: &SenderKey,
    works: &[WorkNumber],
    end: &mut LineEnd,
) -> Result<(), RowFault>
    ensures looks { Within S.Store tx.old tx.new Looks result (λ db _. LearnsWorks sender.now works.now end.old end.new db) }
{
    for work in works {
        learn_work(tx, sender, work, end)?;
    }
    Ok(())
}

// The end of a sender's line up to its front, at which the works of a run are known.
fn end_at_front<S: Alter>(
    alloc: Global,
    tx: &mut Transaction<'_, S>,
    sender: &SenderKey,
    works: u64,
    run: &[Noted],
) -> Result<LineEnd, RowFault>
    ensures looks { Within S.Store tx.old tx.new Looks result (EndsAtFront sender.now works run.now) }
{
    let asked = ascending_works(alloc, run)?;
    let mut end = LineEnd::new(alloc, works);
    learn_all(tx, sender, asked.as_slice(), &mut end)?;
    Ok(end)
}

// Adds verdicts, versions and recordings.
fn add_told<S: Alter>(
    tx: &mut Transaction<'_, S>,
    verdicts: &[VerdictRow<'_>],
    versions: &[VersionRow<'_>],
    recordings: &[RecordingRow<'_>],
) -> Result<(), RowFault>
    ensures does { Within S.Store tx.old tx.new Does result (Makes (AddsTold (map verdict_values verdicts.now) (map version_values versions.now) (map recording_values recordings.now))) }
{
    add_all(tx, verdicts)?;
    add_all(tx, versions)?;
    add_all(tx, recordings)
}

/// The rows of the versions that some transactions are, in the order of their keys: so a table that has none of this sender takes
/// each behind the one before.
pub fn versions_by_key<'a>(
    alloc: Global,
    sender: &'a [u8],
    outcomes: &'a [Outcome<'_>],
) -> Result<Vec<VersionRow<'a>>, RowFault>
    ensures { IfOk result (λ rows. IsPermutation (flat_map (λ x. settled_version sender.now (settled x)) outcomes.now) (map version_values rows.items)) }
{
    let mut rows = version_rows(alloc, sender, outcomes)?;
    rows.sort_by_key(|row| (row.work, row.revision))?;
    Ok(rows)
}

/// The rows of the recordings of some transactions, in the order of their keys.
pub fn recordings_by_key<'a>(
    alloc: Global,
    sender: &'a [u8],
    outcomes: &'a [Outcome<'_>],
) -> Result<Vec<RecordingRow<'a>>, RowFault>
    ensures { IfOk result (λ rows. IsPermutation (flat_map (λ x. settled_recordings sender.now (settled x)) outcomes.now) (map recording_values rows.items)) }
{
    let mut rows = recording_rows(alloc, sender, outcomes)?;
    rows.sort_by_key(|row| (row.work, row.revision, row.isrc))?;
    Ok(rows)
}

// Puts a sender's front, and adds what the transactions of its transmissions tell.
fn put_told<S: Alter>(
    alloc: Global,
    tx: &mut Transaction<'_, S>,
    front: &FrontRow<'_>,
    outcomes: &[Outcome<'_>],
) -> Result<(), RowFault>
    ensures does { Within S.Store tx.old tx.new Does result (Makes (PutsOutcomes (front_values front.now) front.now.sender.now outcomes.now)) }
{
    let verdicts = verdict_rows(alloc, front.sender, outcomes)?;
    let versions = versions_by_key(alloc, front.sender, outcomes)?;
    let recordings = recordings_by_key(alloc, front.sender, outcomes)?;
    put_front(tx, front)?;
    add_told(
        tx,
        verdicts.as_slice(),
        versions.as_slice(),
        recordings.as_slice(),
    )
}

/// Puts the front to which a sender's line goes on by a run, which may be of no transmission, and adds what the run tells.
pub(crate) fn put_run<S: Alter>(
    alloc: Global,
    tx: &mut Transaction<'_, S>,
    sender: &SenderKey,
    works: u64,
    run: &Run,
) -> Result<(), RowFault>
    ensures does { Within S.Store tx.old tx.new Does result (λ before after _. PutsRun sender.now works run.now before.trees after.trees) }
{
    let mut end = end_at_front(alloc, tx, sender, works, run.notes())?;
    let outcomes = settle_run(alloc, &mut end, run.notes())?;
    let front = FrontRow {
        sender: sender.as_bytes(),
        front: run.front(),
        works: column_of(end.works())?,
    };
    put_told(alloc, tx, &front, outcomes.as_slice())
}
