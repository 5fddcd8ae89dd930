//! The candidates for the recordings of a pool, out of the tables: the works of its cut, each by the version that it has there.
ghost use Rattle.std.specs.Prelude.{◌≡◌, IfErr, option_map};
ghost use Rattle.society_book.specs.Errors.{Blames};
ghost use Rattle.society_book.specs.Steps.{Looks};
ghost use Rattle.society_core.specs.Points.{is_tallied};
ghost use Rattle.society_rows.specs.Between.{Within, within};
ghost use Rattle.society_rows.specs.Effects.{Errs};
ghost use Rattle.society_closings.specs.Blamed.{LackChosen, LackCut, LackNumber, LackSender, LackSenders};
ghost use Rattle.society_book.specs.Readable.{ShowTransmission};
ghost use Rattle.society_closings.specs.Choosing.{AddsOfTransmission, AddsChosen, AddsOfSender, AreForCut, AreForOrder, AddsShown};

use crate::chosen::{Chosen, chosen_of};
use crate::named_works::NamedWorks;
use crate::pool_works::PoolWorks;
use crate::weighed_works::{WeighedWorks, versions_lent};
use crate::weighing::{add_weighed, weigh_shown};
use share_rules::{Kind, Office};
use society_core::{Candidate, PoolOrder, Tally, TransmissionKey, Weighing};
use society_rows::{Question, RowFault, answer};
use sqlite::{Alter, Row};
use std::alloc::Global;
use work_ids::{SenderKey, TransmissionNumber};

// Adds the candidates of the transmission that rows show; `Damaged` where they are not one row, or its body is no transmission
// of the sender.
fn add_shown(
    weighing: &Weighing<'_>,
    sender: &SenderKey,
    chosen: &Chosen,
    number: TransmissionNumber,
    rows: &[Row],
    candidates: &mut Vec<Candidate>,
) -> Result<(), RowFault>
    ensures adds { AddsShown weighing.now rows.now sender.now number chosen.now candidates.old.items candidates.new.items result }
    ensures blames { IfErr result (Blames (ShowTransmission sender.now rows.now → ⊥)) }
{
    let versions = weigh_shown(weighing, sender, rows)?;
    add_weighed(chosen, number, versions.as_slice(), candidates)?;
    Ok(())
}

// Adds the candidates of a sender's transmission: of those of its transactions that are versions at the sender's cut. They are taken out
// of what is weighed, and else out of its row.
fn add_transmission<S: Alter>(
    weighing: &Weighing<'_>,
    tx: &mut sqlite::Transaction<'_, S>,
    key: &TransmissionKey,
    chosen: &Chosen,
    number: TransmissionNumber,
    weighed: Option<&WeighedWorks>,
    candidates: &mut Vec<Candidate>,
) -> Result<(), RowFault>
    ensures looks { Within S.Store tx.old tx.new Looks result (λ db _. AddsOfTransmission weighing.now key.now number chosen.now (option_map (λ w. w.now) weighed.entry) candidates.old.items candidates.new.items db) }
    ensures err { within S.Store tx.old tx.new (Errs (LackNumber weighing.now.office.now key.now number)) result }
{
    let at = TransmissionKey {
        sender: key.sender,
        number,
    };
    if let Some(versions) = versions_lent(weighed, &at) {
        add_weighed(chosen, number, versions, candidates)?;
        return Ok(());
    }
    let rows = answer(
        tx,
        Question::Transmission(key.sender.as_bytes(), number.value()),
    )?;
    add_shown(
        weighing,
        &key.sender,
        chosen,
        number,
        rows.as_slice(),
        candidates,
    )
}

// Adds the candidates of a sender by the versions that are chosen of its works. Only transmissions that have one of these are
// read: no other has a candidate.
fn add_transmissions<S: Alter>(
    weighing: &Weighing<'_>,
    tx: &mut sqlite::Transaction<'_, S>,
    key: &TransmissionKey,
    chosen: &Chosen,
    weighed: Option<&WeighedWorks>,
    candidates: &mut Vec<Candidate>,
) -> Result<(), RowFault>
    ensures looks { Within S.Store tx.old tx.new Looks result (λ db _. AddsChosen weighing.now key.now chosen.now (option_map (λ w. w.now) weighed.entry) candidates.old.items candidates.new.items db) }
    ensures err { within S.Store tx.old tx.new (Errs (LackChosen weighing.now.office.now key.now (is_tallied weighing.now.tally.now) chosen.now)) result }
{
    let numbers = chosen.transmissions(weighing.alloc)?;
    for number in numbers.as_slice() {
        add_transmission(weighing, tx, key, chosen, *number, weighed, candidates)?;
    }
    Ok(())
}

// Adds the candidates of a sender: its works that are noted, as they are at its cut.
fn add_sender<S: Alter>(
    weighing: &Weighing<'_>,
    tx: &mut sqlite::Transaction<'_, S>,
    key: &TransmissionKey,
    named: &NamedWorks,
    weighed: Option<&WeighedWorks>,
    candidates: &mut Vec<Candidate>,
) -> Result<(), RowFault>
    ensures looks { Within S.Store tx.old tx.new Looks result (λ db _. AddsOfSender weighing.now key.now named.now (option_map (λ w. w.now) weighed.entry) candidates.old.items candidates.new.items db) }
    ensures err { within S.Store tx.old tx.new (Errs (LackSender weighing.now.office.now key.now (is_tallied weighing.now.tally.now) named.now)) result }
{
    let works = named.works_of(weighing.alloc, &key.sender)?;
    let chosen = chosen_of(weighing.alloc, tx, key, works.as_slice())?;
    add_transmissions(weighing, tx, key, &chosen, weighed, candidates)
}

// The candidates of the senders of a cut.
fn candidates_of<S: Alter>(
    weighing: &Weighing<'_>,
    tx: &mut sqlite::Transaction<'_, S>,
    cut: &[TransmissionKey],
    named: &NamedWorks,
    weighed: Option<&WeighedWorks>,
) -> Result<Vec<Candidate>, RowFault>
    ensures looks { Within S.Store tx.old tx.new Looks result (λ db candidates. AreForCut weighing.now cut.now named.now (option_map (λ w. w.now) weighed.entry) db candidates.items) }
    ensures err { within S.Store tx.old tx.new (Errs (LackSenders weighing.now.office.now cut.now (is_tallied weighing.now.tally.now) named.now)) result }
{
    let mut candidates = Vec::new(weighing.alloc);
    for key in cut {
        add_sender(weighing, tx, key, named, weighed, &mut candidates)?;
    }
    Ok(candidates)
}

/// The candidates for the recordings of a tally: of all works of an order's cut those whose version there names one, out of the works that
/// are listed. Where the disk told the truth, an error says that memory ran out, that a count has no room, that the medium may have failed,
/// or that the tables have the works of no book in which the cut is reached. Public for its tests.
pub fn candidates_in<S: Alter>(
    alloc: Global,
    kind: Kind,
    tx: &mut sqlite::Transaction<'_, S>,
    office: &Office,
    tally: &Tally,
    order: &PoolOrder,
    works: &PoolWorks,
) -> Result<Vec<Candidate>, RowFault>
    ensures looks { Within S.Store tx.old tx.new Looks result (λ db candidates. AreForOrder kind office.now tally.now order.now works.now db candidates.items) }
    ensures err { within S.Store tx.old tx.new (Errs (LackCut office.now order.now tally.now works.now)) result }
{
    let recordings = tally.recordings(alloc)?;
    let named = works
        .listed
        .named_works(alloc, recordings.as_slice(), order.cut())?;
    let weighing = Weighing {
        alloc,
        kind,
        office,
        tally,
    };
    let weighed = works.weighed_for(kind, recordings.as_slice());
    candidates_of(&weighing, tx, order.cut(), &named, weighed)
}
