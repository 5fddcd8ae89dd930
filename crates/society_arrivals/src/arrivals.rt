//! The transmissions that come of a sender.
ghost use Rattle.std.specs.Prelude.{◌≡◌, None};
ghost use Rattle.cwr_files.specs.FileFault.{file_fault};
ghost use Rattle.society_rows.specs.Between.{Within, between};
ghost use Rattle.society_arrivals.specs.Arriving.{ArrivesBy, ArrivesWith, BeginsRun, TakesRun};
ghost use Rattle.society_book.specs.Shown.{AddsAlone};
ghost use Rattle.society_arrivals.specs.Arrivals.{Arrives, ArrivesTo};
ghost use Rattle.society_book.specs.Steps.{Does, DoesOpen, Looks};

use crate::going::{go_on, go_over};
use crate::run::Run;
use crate::settling::{put_run, reached_in};
use share_rules::Office;
use society_book::ends_in;
use society_core::NumberPlace;
use society_rows::{Idle, NewRows, RowFault, TransmissionRow, add};
use sqlite::{Alter, Transaction};
use std::alloc::Global;
use work_ids::{SenderKey, TransmissionNumber};

// The run that begins with a transmission that comes to a sender's line.
fn run_with<S: Alter>(
    alloc: Global,
    tx: &mut Transaction<'_, S>,
    office: &Office,
    sender: &SenderKey,
    number: TransmissionNumber,
    body: &[u8],
) -> Result<Run, RowFault>
    requires right { file_fault sender.now body.now ≡ None }
    ensures looks { Within S.Store tx.old tx.new Looks result (BeginsRun office.now sender.now number body.now) }
{
    let mut run = Run::begin(alloc, office, sender, number, body)?;
    go_on(tx, sender, &mut run)?;
    let ends = ends_in(tx, sender.as_bytes())?;
    go_over(tx, sender, &ends, number.value(), &mut run)?;
    Ok(run)
}

// The run with which a sender's line goes on from its front when a transmission comes: of no transmission where that is held.
fn run_from<S: Alter>(
    alloc: Global,
    tx: &mut Transaction<'_, S>,
    office: &Office,
    sender: &SenderKey,
    number: TransmissionNumber,
    body: &[u8],
    front: u32,
) -> Result<Run, RowFault>
    requires right { file_fault sender.now body.now ≡ None }
    ensures looks { Within S.Store tx.old tx.new Looks result (ArrivesBy office.now sender.now number body.now front) }
{
    if number.value() - 1 != front {
        return Ok(Run::new(alloc, office, front));
    }
    run_with(alloc, tx, office, sender, number, body)
}

// Adds a transmission with which its sender's line goes on by a run, which may be of no transmission.
fn take_run<S: Alter>(
    alloc: Global,
    tx: &mut Transaction<'_, S>,
    sender: &SenderKey,
    number: TransmissionNumber,
    body: &[u8],
    works: u64,
    run: &Run,
) -> Result<(), RowFault>
    ensures does { Within S.Store tx.old tx.new Does result (λ before after _. TakesRun sender.now number body.now works run.now before.trees after.trees) }
{
    put_run(alloc, tx, sender, works, run)?;
    let row = TransmissionRow {
        sender: sender.as_bytes(),
        number: number.value(),
        body,
    };
    add(tx, NewRows::Transmission(&row))
}

// Adds a transmission to a transaction, and tells where its number stands then.
fn arrive_inside<S: Alter>(
    alloc: Global,
    tx: &mut Transaction<'_, S>,
    office: &Office,
    sender: &SenderKey,
    number: TransmissionNumber,
    body: &[u8],
) -> Result<NumberPlace, RowFault>
    requires right { file_fault sender.now body.now ≡ None }
    ensures does { Within S.Store tx.old tx.new DoesOpen result (λ before after place. ArrivesWith office.now sender.now number body.now before.trees after.trees place) }
{
    // The number's limits are part of what a sound book says.
    let _number = number.value();
    let reached = reached_in(tx, sender.as_bytes())?;
    let run = run_from(alloc, tx, office, sender, number, body, reached.front)?;
    take_run(alloc, tx, sender, number, body, reached.works, &run)?;
    Ok(NumberPlace {
        front: run.front(),
        is_applied: reached.front < run.front(),
    })
}

/// Adds a transmission in a transaction of its own, and tells where its number stands then.
pub fn arrive<S: Alter>(
    alloc: Global,
    conn: &mut Idle<S>,
    office: &Office,
    sender: &SenderKey,
    number: TransmissionNumber,
    body: &[u8],
) -> Result<NumberPlace, RowFault>
    requires right { file_fault sender.now body.now ≡ None }
    ensures added { between S.Store conn.old conn.new (AddsAlone (Arrives office.now sender.now number body.now) (ArrivesTo office.now sender.now number body.now)) result }
{
    let mut tx = conn.connection.transaction();
    let place = arrive_inside(alloc, &mut tx, office, sender, number, body)?;
    tx.commit()?;
    Ok(place)
}
