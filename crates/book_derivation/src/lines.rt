//! What is derived of senders' lines, worked out of what they sent and written.
ghost use Rattle.std.specs.Prelude.{◌≡◌};
ghost use Rattle.society_book.specs.Steps.{Never};
ghost use Rattle.book_derivation.specs.Deriving.{Derives};
ghost use Rattle.book_derivation.specs.Lines.{PutsRows, WritesLine, WritesLines};
ghost use Rattle.society_arrivals.specs.Arriving.{PutsOutcomes};
ghost use Rattle.society_book.specs.RightRows.{KeepsUnsound};
ghost use Rattle.society_rows.specs.Between.{Within};
ghost use Rattle.society_rows.specs.Rows.{front_values};

use crate::writing::wrote;
use book_audit::{run_of, settled_line, worked_out};
use share_rules::Office;
use society_arrivals::{Outcome, recordings_by_key, verdict_rows, versions_by_key};
use society_rows::{FrontRow, RecordingRow, RowFault, VerdictRow, VersionRow, add_all, put_front};
use sqlite::{Alter, Transaction};
use std::alloc::Global;
use work_ids::SenderKey;

// Puts a sender's front, and adds the rows of its verdicts, of its versions and of their recordings.
fn write_rows<S: Alter>(
    tx: &mut Transaction<'_, S>,
    front: &FrontRow<'_>,
    verdicts: &[VerdictRow<'_>],
    versions: &[VersionRow<'_>],
    recordings: &[RecordingRow<'_>],
) -> Result<(), RowFault>
    ensures derives { Within S.Store tx.old tx.new (Derives Never) result (λ before after _. PutsRows front.now verdicts.now versions.now recordings.now before after) }
{
    wrote(put_front(tx, front))?;
    wrote(add_all(tx, verdicts))?;
    wrote(add_all(tx, versions))?;
    wrote(add_all(tx, recordings))
}

// Puts a sender's front, and adds what the transactions of its transmissions tell.
fn write_outcomes<S: Alter>(
    alloc: Global,
    tx: &mut Transaction<'_, S>,
    front: &FrontRow<'_>,
    outcomes: &[Outcome<'_>],
) -> Result<(), RowFault>
    ensures derives { Within S.Store tx.old tx.new (Derives Never) result (λ before after _. PutsOutcomes (front_values front.now) front.now.sender.now outcomes.now before after) }
{
    let verdicts = worked_out(verdict_rows(alloc, front.sender, outcomes))?;
    let versions = worked_out(versions_by_key(alloc, front.sender, outcomes))?;
    let recordings = worked_out(recordings_by_key(alloc, front.sender, outcomes))?;
    write_rows(
        tx,
        front,
        verdicts.as_slice(),
        versions.as_slice(),
        recordings.as_slice(),
    )
}

// Writes what is derived of a sender's line; `Damaged` where what was sent is that of no book.
fn write_line<S: Alter>(
    alloc: Global,
    tx: &mut Transaction<'_, S>,
    office: &Office,
    sender: &SenderKey,
) -> Result<(), RowFault>
    ensures derives { Within S.Store tx.old tx.new (Derives KeepsUnsound) result (λ before after _. WritesLine office.now sender.now before after) }
{
    let run = run_of(alloc, tx, office, sender)?;
    let (front, outcomes) = settled_line(alloc, sender, &run)?;
    write_outcomes(alloc, tx, &front, outcomes.as_slice())
}

/// Writes what is derived of the lines of these senders to tables that have nothing of any line; `Damaged` where what was sent is that of no
/// book, and `Memory` or `Refused` where memory or the database failed. Of the bodies one at a time is kept, and of what is worked out a
/// sender's.
pub(crate) fn write_lines<S: Alter>(
    alloc: Global,
    tx: &mut Transaction<'_, S>,
    office: &Office,
    senders: &[SenderKey],
) -> Result<(), RowFault>
    ensures derives { Within S.Store tx.old tx.new (Derives KeepsUnsound) result (λ before after _. WritesLines office.now senders.now before after) }
{
    for sender in senders {
        write_line(alloc, tx, office, sender)?;
    }
    Ok(())
}
