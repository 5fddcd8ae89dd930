//! What the transactions of a run are answered, and the rows that tell it.
ghost use Rattle.std.specs.Prelude.{◌≡◌, ◌∷◌, ◌++◌, [], flat_map, map, IfOk, OnOk};
ghost use Rattle.sqlite_value.specs.declared.value.Value.TheVariants.{Int, Text};
ghost use Rattle.society_rows.specs.Rows.{recording_values, verdict_values, version_values};
ghost use Rattle.society_arrivals.specs.Outcomes.{settled, FromEnd, FromEndOf, AddsSettled, settled_behind};
ghost use Rattle.society_arrivals.specs.Runs.{AddsAt, behind_run, settled_from, settled_recordings, settled_run, settled_verdict, settled_version};
ghost use Rattle.work_ids.specs.Blanks.{without_trailing_blanks};
ghost use Rattle.works_core.specs.Ends.{EndsAt};
ghost use Rattle.works_core.specs.Tracks.{number_in};
ghost use Rattle.works_core.specs.Verdicts.{verdicts_from};
ghost use Rattle.works_core.specs.Versions.{judged_of, placed_behind};

use crate::run::Noted;
use society_book::column_of;
use society_rows::{RecordingRow, RowFault, VerdictRow, VersionRow};
use std::alloc::Global;
use work_ids::{Isrc, TransmissionNumber};
use works_core::{Judged, LineEnd, LineFault, Verdict};

/// A transaction of a run: its transmission's number, its place there from 0, its work number, its ISRCs, its verdict.
#[derive(Clone, Copy, Debug)]
pub struct Outcome<'a> {
    pub number: u32,
    pub place: u32,
    pub work: &'a [u8],
    pub isrcs: &'a [Isrc],
    pub verdict: Verdict,
}

// The verdicts of the next transmission's transactions, behind which the line then ends.
fn verdicts_next(
    alloc: Global,
    end: &mut LineEnd,
    number: TransmissionNumber,
    judged: &[Judged],
) -> Result<Vec<Verdict>, RowFault>
    ensures verdicts { FromEnd end.old judged.now (λ known past. IfOk result (λ verdicts. verdicts.items ≡ verdicts_from (judged_of past) judged.now)) }
    ensures ends { FromEnd end.old judged.now (λ known past. OnOk result (EndsAt known (placed_behind past number 0 judged.now) end.new)) }
{
    match end.apply(alloc, number, judged) {
        Ok(verdicts) => Ok(verdicts),
        Err(LineFault::Memory) => Err(RowFault::Memory),
        Err(LineFault::Overflow) => Err(RowFault::Overflow),
    }
}

// The work number of a transaction, no bytes where it is not clean.
fn work_of(judged: &Judged) -> &[u8]
    ensures { result.now ≡ without_trailing_blanks (number_in judged.now) }
{
    match judged {
        Judged::Clean(_, work) => work.as_bytes(),
        Judged::Faulty(_) => b"",
    }
}

// Appends the outcome of the transaction at a place; `Damaged` where the transmission has none there.
fn append_outcome<'a>(
    noted: &'a Noted,
    at: usize,
    verdict: Verdict,
    list: &mut Vec<Outcome<'a>>,
) -> Result<(), RowFault>
    ensures { OnOk result (AddsAt noted.now at verdict (map settled list.old.items) (map settled list.new.items)) }
{
    let Some(judged) = noted.judgements().get(at) else {
        return Err(RowFault::Damaged);
    };
    let Some(isrcs) = noted.isrcs(at) else {
        return Err(RowFault::Damaged);
    };
    let Ok(place) = u32::try_from(at) else {
        return Err(RowFault::Overflow);
    };
    let outcome = Outcome {
        number: noted.number().value(),
        place,
        work: work_of(judged),
        isrcs,
        verdict,
    };
    Ok(list.push(outcome)?)
}

// Appends the outcomes of a transmission's transactions; `Damaged` where one of them lacks a part.
fn append_outcomes<'a>(
    noted: &'a Noted,
    verdicts: &[Verdict],
    list: &mut Vec<Outcome<'a>>,
) -> Result<(), RowFault>
    ensures { OnOk result (AddsSettled (settled_from noted.now.number 0 noted.now.judged noted.now.isrcs verdicts.now) list.old.items list.new.items) }
{
    for (at, verdict) in verdicts.iter().enumerate() {
        append_outcome(noted, at, *verdict, list)?;
    }
    Ok(())
}

// Appends the outcomes of the next transmission's transactions, behind which the line then ends.
fn settle_next<'a>(
    alloc: Global,
    end: &mut LineEnd,
    noted: &'a Noted,
    list: &mut Vec<Outcome<'a>>,
) -> Result<(), RowFault>
    ensures settled { FromEnd end.old noted.now.judged (λ known past. OnOk result (AddsSettled (settled_behind past noted.now) list.old.items list.new.items)) }
    ensures ends { FromEnd end.old noted.now.judged (λ known past. OnOk result (EndsAt known (placed_behind past noted.now.number 0 noted.now.judged) end.new)) }
{
    let verdicts = verdicts_next(alloc, end, noted.number(), noted.judgements())?;
    append_outcomes(noted, verdicts.as_slice(), list)
}

/// The outcomes of the transactions of a run, behind which the line then ends; their works have to be known.
pub fn settle_run<'a>(
    alloc: Global,
    end: &mut LineEnd,
    run: &'a [Noted],
) -> Result<Vec<Outcome<'a>>, RowFault>
    ensures settled { FromEndOf end.old run.now (λ known past. IfOk result (λ list. map settled list.items ≡ settled_run past run.now)) }
    ensures ends { FromEndOf end.old run.now (λ known past. OnOk result (EndsAt known (behind_run past run.now) end.new)) }
{
    let mut list = Vec::with_capacity(alloc, run.len())?;
    for noted in run {
        settle_next(alloc, end, noted, &mut list)?;
    }
    Ok(list)
}

// The row of a transaction's verdict.
fn verdict_row<'a>(sender: &'a [u8], outcome: &Outcome<'_>) -> Result<VerdictRow<'a>, RowFault>
    ensures { IfOk result (λ row. verdict_values row ≡ settled_verdict sender.now (settled outcome.now)) }
{
    let (fault, ordinal, revision) = match outcome.verdict {
        Verdict::Accepted { ordinal, revision } => (0, ordinal, revision),
        Verdict::Rejected(fault) => (fault, 0, 0),
    };
    Ok(VerdictRow {
        sender,
        number: outcome.number,
        place: outcome.place,
        fault: u32::from(fault),
        ordinal: column_of(ordinal)?,
        revision: column_of(revision)?,
    })
}

/// The rows of the verdicts of some transactions.
pub fn verdict_rows<'a>(
    alloc: Global,
    sender: &'a [u8],
    outcomes: &[Outcome<'_>],
) -> Result<Vec<VerdictRow<'a>>, RowFault>
    ensures { IfOk result (λ rows. map verdict_values rows.items ≡ map (λ x. settled_verdict sender.now (settled x)) outcomes.now) }
{
    let mut rows = Vec::with_capacity(alloc, outcomes.len())?;
    for outcome in outcomes {
        let row = verdict_row(sender, outcome)?;
        rows.push(row)?;
    }
    Ok(rows)
}

// Appends the row of the version that a transaction is, where it is accepted.
fn append_version<'a>(
    sender: &'a [u8],
    outcome: &'a Outcome<'_>,
    rows: &mut Vec<VersionRow<'a>>,
) -> Result<(), RowFault>
    ensures { OnOk result (map version_values rows.new.items ≡ map version_values rows.old.items ++ settled_version sender.now (settled outcome.now)) }
{
    match outcome.verdict {
        Verdict::Rejected(_) => Ok(()),
        Verdict::Accepted { ordinal, revision } => {
            let row = VersionRow {
                sender,
                work: outcome.work,
                revision: column_of(revision)?,
                number: outcome.number,
                place: outcome.place,
                ordinal: column_of(ordinal)?,
            };
            Ok(rows.push(row)?)
        }
    }
}

/// The rows of the versions that some transactions are.
pub(crate) fn version_rows<'a>(
    alloc: Global,
    sender: &'a [u8],
    outcomes: &'a [Outcome<'_>],
) -> Result<Vec<VersionRow<'a>>, RowFault>
    ensures { IfOk result (λ rows. map version_values rows.items ≡ flat_map (λ x. settled_version sender.now (settled x)) outcomes.now) }
{
    let mut rows = Vec::with_capacity(alloc, outcomes.len())?;
    for outcome in outcomes {
        append_version(sender, outcome, &mut rows)?;
    }
    Ok(rows)
}

// Appends the rows of a version's recordings.
fn append_isrcs<'a>(
    sender: &'a [u8],
    work: &'a [u8],
    revision: i64,
    isrcs: &'a [Isrc],
    rows: &mut Vec<RecordingRow<'a>>,
) -> Result<(), RowFault>
    ensures { OnOk result (map recording_values rows.new.items ≡ map recording_values rows.old.items ++ map (λ isrc. Text sender.now ∷ Text work.now ∷ Int revision ∷ Text isrc ∷ []) isrcs.now) }
{
    for isrc in isrcs {
        rows.push(RecordingRow {
            sender,
            work,
            revision,
            isrc: isrc.as_bytes(),
        })?;
    }
    Ok(())
}

// Appends the rows of a transaction's recordings, where it is accepted.
fn append_recordings<'a>(
    sender: &'a [u8],
    outcome: &'a Outcome<'_>,
    rows: &mut Vec<RecordingRow<'a>>,
) -> Result<(), RowFault>
    ensures { OnOk result (map recording_values rows.new.items ≡ map recording_values rows.old.items ++ settled_recordings sender.now (settled outcome.now)) }
{
    match outcome.verdict {
        Verdict::Rejected(_) => Ok(()),
        Verdict::Accepted { revision, .. } => {
            let revision = column_of(revision)?;
            append_isrcs(sender, outcome.work, revision, outcome.isrcs, rows)
        }
    }
}

/// The rows of the recordings of some transactions.
pub(crate) fn recording_rows<'a>(
    alloc: Global,
    sender: &'a [u8],
    outcomes: &'a [Outcome<'_>],
) -> Result<Vec<RecordingRow<'a>>, RowFault>
    ensures { IfOk result (λ rows. map recording_values rows.items ≡ flat_map (λ x. settled_recordings sender.now (settled x)) outcomes.now) }
{
    let mut rows = Vec::with_capacity(alloc, outcomes.len())?;
    for outcome in outcomes {
        append_recordings(sender, outcome, &mut rows)?;
    }
    Ok(rows)
}
