//! What is derived of the transmissions of a database, worked out sender by sender in a transaction and compared with its rows; of the
//! bodies one at a time is kept, and of what is worked out a sender's.
ghost use Rattle.std.specs.Prelude.{◌≡◌, ◌∷◌, [], flat_map, map, IfErr, IfOk, Ok};
ghost use Rattle.book_audit.specs.Examining.{HoldsNot, IsNot};
ghost use Rattle.society_book.specs.Steps.{Examines};
ghost use Rattle.society_rows.specs.declared.fault.RowFault.TheVariants.{Memory};
ghost use Rattle.book_audit.specs.Auditing.{AreLinesOf, AreSenders, HasRun};
ghost use Rattle.book_audit.specs.LineSteps.{Compares, ComparesAnswer, DeniesLine, DeniesLines, FindsLine, FindsLines, HasSettled, SettlesLine};
ghost use Rattle.society_book.specs.BookRows.{book_of};
ghost use Rattle.society_arrivals.specs.Going.{IsWholeIn};
ghost use Rattle.society_arrivals.specs.Outcomes.{settled};
ghost use Rattle.society_book.specs.RightRows.{KeepsUnsound};
ghost use Rattle.society_arrivals.specs.Runs.{is_key_among, settled_recordings, settled_verdict, settled_version};
ghost use Rattle.society_rows.specs.Between.{Within, within};
ghost use Rattle.society_rows.specs.Layout as layout;
ghost use Rattle.society_rows.specs.Questions.{RowsAnswer};
ghost use Rattle.society_rows.specs.Rows.{front_values};
ghost use Rattle.works_core.specs.Ends.{EndsAt};

use crate::alike::{Columns, are_alike};
use crate::reading::{ask, worked_out};
use crate::strangers::has_no_stranger;
use share_rules::Office;
use society_arrivals::{
    Outcome, Run, ascending_works, recordings_by_key, settle_run, verdict_rows, versions_by_key,
    whole_run,
};
use society_book::column_of;
use society_rows::{FrontRow, Question, RowFault};
use sqlite::{Alter, Transaction};
use std::alloc::{AllocError, Global};
use work_ids::{SenderKey, WorkNumber};
use works_core::LineEnd;

/// The run of a sender's whole line, as an office notes it; `Damaged` where what was sent is that of no book, and `Memory` or `Refused` where
/// memory or the database failed.
pub fn run_of<S: Alter>(
    alloc: Global,
    tx: &mut Transaction<'_, S>,
    office: &Office,
    sender: &SenderKey,
) -> Result<Run, RowFault>
    ensures examined { Within S.Store tx.old tx.new (Examines KeepsUnsound) result (IsWholeIn office.now sender.now) }
{
    whole_run(alloc, tx, office, sender)
}

// The end of a line of no transmission, at which it is known of these works that they have no version.
fn end_of_none(alloc: Global, works: &[WorkNumber]) -> Result<LineEnd, AllocError>
    ensures { IfOk result (EndsAt (is_key_among works.now) []) }
{
    let mut end = LineEnd::new(alloc, 0);
    for work in works {
        end.learn(*work, None)?;
    }
    Ok(end)
}

// That the rows that answer a question of a sender's are these, in any order; else `Damaged`.
fn rows_agree<S: Alter, R: Columns>(
    tx: &mut Transaction<'_, S>,
    question: Question<'_>,
    wanted: &mut Vec<R>,
) -> Result<(), RowFault>
    ensures same_reference { tx.new.conn.ghost_name ≡ tx.old.conn.ghost_name }
    ensures examined { within S.Store tx.old tx.new (ComparesAnswer (RowsAnswer question.entry) (map R.values wanted.old.items)) result }
{
    let mut rows = ask(tx, question)?;
    if are_alike(&mut rows, wanted)? {
        Ok(())
    } else {
        Err(RowFault::Damaged)
    }
}

// That a database has of a sender this front; else `Damaged`.
fn front_agrees<S: Alter>(
    alloc: Global,
    tx: &mut Transaction<'_, S>,
    front: &FrontRow<'_>,
) -> Result<(), RowFault>
    ensures same_reference { tx.new.conn.ghost_name ≡ tx.old.conn.ghost_name }
    ensures examined { within S.Store tx.old tx.new (Compares layout.fronts front.now.sender.now (front_values front.now ∷ [])) result }
{
    let mut wanted = Vec::new(alloc);
    wanted.push(*front)?;
    rows_agree(tx, Question::Front(front.sender), &mut wanted)
}

// That a database has of a sender the verdicts of these outcomes; else `Damaged`.
fn verdicts_agree<S: Alter>(
    alloc: Global,
    tx: &mut Transaction<'_, S>,
    sender: &[u8],
    outcomes: &[Outcome<'_>],
) -> Result<(), RowFault>
    ensures same_reference { tx.new.conn.ghost_name ≡ tx.old.conn.ghost_name }
    ensures examined { within S.Store tx.old tx.new (Compares layout.verdicts sender.now (map (λ x. settled_verdict sender.now (settled x)) outcomes.now)) result }
{
    let mut wanted = worked_out(verdict_rows(alloc, sender, outcomes))?;
    rows_agree(tx, Question::SenderVerdicts(sender), &mut wanted)
}

// That a database has of a sender the versions that these outcomes are; else `Damaged`.
fn versions_agree<S: Alter>(
    alloc: Global,
    tx: &mut Transaction<'_, S>,
    sender: &[u8],
    outcomes: &[Outcome<'_>],
) -> Result<(), RowFault>
    ensures same_reference { tx.new.conn.ghost_name ≡ tx.old.conn.ghost_name }
    ensures examined { within S.Store tx.old tx.new (Compares layout.versions sender.now (flat_map (λ x. settled_version sender.now (settled x)) outcomes.now)) result }
{
    let mut wanted = worked_out(versions_by_key(alloc, sender, outcomes))?;
    rows_agree(tx, Question::SenderVersions(sender), &mut wanted)
}

// That a database has of a sender the recordings of these outcomes; else `Damaged`.
fn recordings_agree<S: Alter>(
    alloc: Global,
    tx: &mut Transaction<'_, S>,
    sender: &[u8],
    outcomes: &[Outcome<'_>],
) -> Result<(), RowFault>
    ensures same_reference { tx.new.conn.ghost_name ≡ tx.old.conn.ghost_name }
    ensures examined { within S.Store tx.old tx.new (Compares layout.recordings sender.now (flat_map (λ x. settled_recordings sender.now (settled x)) outcomes.now)) result }
{
    let mut wanted = worked_out(recordings_by_key(alloc, sender, outcomes))?;
    rows_agree(tx, Question::SenderRecordings(sender), &mut wanted)
}

// That a database has of a sender this front and what these outcomes tell; else `Damaged`.
fn outcomes_agree<S: Alter>(
    alloc: Global,
    tx: &mut Transaction<'_, S>,
    front: &FrontRow<'_>,
    outcomes: &[Outcome<'_>],
) -> Result<(), RowFault>
    ensures examined { Within S.Store tx.old tx.new (Examines (IsNot (HasSettled front.now outcomes.now))) result (λ db _. HasSettled front.now outcomes.now db) }
{
    front_agrees(alloc, tx, front)?;
    verdicts_agree(alloc, tx, front.sender, outcomes)?;
    versions_agree(alloc, tx, front.sender, outcomes)?;
    recordings_agree(alloc, tx, front.sender, outcomes)
}

/// The row of a sender's front and what its transactions come to, of its whole line as it is noted; `Memory` where memory was refused, or a
/// count has no room.
pub fn settled_line<'a>(
    alloc: Global,
    sender: &'a SenderKey,
    run: &'a Run,
) -> Result<(FrontRow<'a>, Vec<Outcome<'a>>), RowFault>
    ensures settled { IfOk result (λ line. SettlesLine sender.now run.now line.0 line.1.items) }
    ensures memory { IfErr result (λ fault. fault ≡ Memory) }
{
    let works = ascending_works(alloc, run.notes())?;
    let mut end = end_of_none(alloc, works.as_slice())?;
    let outcomes = worked_out(settle_run(alloc, &mut end, run.notes()))?;
    let front = FrontRow {
        sender: sender.as_bytes(),
        front: run.front(),
        works: worked_out(column_of(end.works()))?,
    };
    Ok((front, outcomes))
}

// That a database has of a sender what its transmissions tell, as they are noted; else `Damaged`.
fn run_agrees<S: Alter>(
    alloc: Global,
    tx: &mut Transaction<'_, S>,
    sender: &SenderKey,
    run: &Run,
) -> Result<(), RowFault>
    ensures examined { Within S.Store tx.old tx.new (Examines (IsNot (HasRun sender.now run.now))) result (λ db _. HasRun sender.now run.now db) }
{
    let (front, outcomes) = settled_line(alloc, sender, run)?;
    outcomes_agree(alloc, tx, &front, outcomes.as_slice())
}

// That a database has of a sender what is derived of its transmissions; else `Damaged`.
fn line_agrees<S: Alter>(
    alloc: Global,
    tx: &mut Transaction<'_, S>,
    office: &Office,
    sender: &SenderKey,
) -> Result<(), RowFault>
    ensures examined { Within S.Store tx.old tx.new (Examines (DeniesLine office.now sender.now)) result (λ db _. FindsLine office.now sender.now db) }
{
    let run = run_of(alloc, tx, office, sender)?;
    run_agrees(alloc, tx, sender, &run)
}

// That a database has of each of these senders what is derived of its transmissions; else `Damaged`.
fn each_agrees<S: Alter>(
    alloc: Global,
    tx: &mut Transaction<'_, S>,
    office: &Office,
    senders: &[SenderKey],
) -> Result<(), RowFault>
    ensures examined { Within S.Store tx.old tx.new (Examines (DeniesLines office.now senders.now)) result (λ db _. FindsLines office.now senders.now db) }
{
    for sender in senders {
        line_agrees(alloc, tx, office, sender)?;
    }
    Ok(())
}

/// That a database has of each of these senders exactly what is derived of its transmissions, and of nobody else anything; else
/// `Damaged`, and `Memory` or `Refused` where memory or the database failed. Of the bodies one at a time is kept, and of what is worked out
/// a sender's.
pub fn lines_agree<S: Alter>(
    alloc: Global,
    tx: &mut Transaction<'_, S>,
    office: &Office,
    senders: &[SenderKey],
) -> Result<(), RowFault>
    ensures examined { Within S.Store tx.old tx.new (Examines (λ db. AreSenders (book_of db) senders.now → HoldsNot office.now db)) result
        (λ db _. FindsLines office.now senders.now db × AreLinesOf senders.now db) }
{
    each_agrees(alloc, tx, office, senders)?;
    has_no_stranger(alloc, tx, senders)
}
