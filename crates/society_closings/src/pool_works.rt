//! The works that pools are paid out of.
ghost use Rattle.std.specs.Prelude.{◌≡◌, List, ℕ, IfErr, OnOk, bytes_eq, option_map, ⊤};
ghost use Rattle.std.specs.List.{AllByRecursion, list_any};
ghost use Rattle.share_rules.specs.declared.office.Office.{Office as OfficeValue};
ghost use Rattle.sqlite_trees.specs.Tree.{Trees};
ghost use Rattle.society_book.specs.Errors.{Blames};
ghost use Rattle.society_book.specs.Readable.{IsVersionRow};
ghost use Rattle.society_book.specs.Steps.{Looks};
ghost use Rattle.society_closings.specs.Blamed.{HoldNoWorks};
ghost use Rattle.society_closings.specs.Weighing.{AreLent, AreWorksWeighed};
ghost use Rattle.society_rows.specs.Between.{Within, within};
ghost use Rattle.society_rows.specs.Effects.{Errs};

use crate::wanted::Wanted;
use crate::weighed_works::{WeighedWorks, weighed_in};
use crate::works_by_recording::WorksByRecording;
use share_rules::{Kind, Office};
use society_book::version_of;
use society_core::TransmissionKey;
use society_rows::{Question, RowFault, answer};
use sqlite::{Alter, Row, Transaction};
use std::alloc::Global;
use std::collections::BTreeSet;
use work_ids::{Isrc, SenderKey, WorkNumber};

/// The works that pools are paid out of: listed by the recordings that they name, and the transmissions that have versions of them,
/// as far as these are weighed.
#[derive(Drop)]
pub struct PoolWorks {
    pub(crate) listed: WorksByRecording,
    performing: WeighedWorks,
    mechanical: WeighedWorks,
}

// Adds the transmissions of the versions that rows show; `Damaged` where a row shows none.
fn add_rows(
    sender: &SenderKey,
    rows: &[Row],
    keys: &mut BTreeSet<TransmissionKey>,
) -> Result<(), RowFault>
    ensures blames { IfErr result (Blames (AllByRecursion IsVersionRow rows.now → ⊥)) }
{
    for row in rows {
        keys.insert(TransmissionKey {
            sender: *sender,
            number: version_of(row)?.transmission,
        })?;
    }
    Ok(())
}

// Adds the transmissions of the versions of a work.
fn add_transmissions_of<S: Alter>(
    tx: &mut Transaction<'_, S>,
    sender: &SenderKey,
    work: &WorkNumber,
    keys: &mut BTreeSet<TransmissionKey>,
) -> Result<(), RowFault>
    ensures looks { Within S.Store tx.old tx.new Looks result (λ _ _. ⊤) }
    ensures err { within S.Store tx.old tx.new (Errs HoldNoWorks) result }
{
    let rows = answer(tx, Question::Versions(sender.as_bytes(), work.as_bytes()))?;
    add_rows(sender, rows.as_slice(), keys)
}

// The transmissions of the versions of works, each once, in order.
fn transmissions_of<S: Alter>(
    alloc: Global,
    tx: &mut Transaction<'_, S>,
    works: &[(SenderKey, WorkNumber)],
) -> Result<Vec<TransmissionKey>, RowFault>
    ensures looks { Within S.Store tx.old tx.new Looks result (λ _ _. ⊤) }
    ensures err { within S.Store tx.old tx.new (Errs HoldNoWorks) result }
{
    let mut keys = BTreeSet::new(alloc);
    for (sender, work) in works {
        add_transmissions_of(tx, sender, work, &mut keys)?;
    }
    Ok(keys.iter().copied().collect(alloc)?)
}

impl PoolWorks {
    /// Works that are listed, of which none is weighed.
    pub fn of(alloc: Global, listed: WorksByRecording) -> PoolWorks
        ensures listed { result.listed ≡ listed }
        ensures none { (office : OfficeValue) (db : Trees) → AreWorksWeighed office db result }
    {
        PoolWorks {
            listed,
            performing: WeighedWorks::of(alloc, BTreeSet::new(alloc)),
            mechanical: WeighedWorks::of(alloc, BTreeSet::new(alloc)),
        }
    }

    // What is weighed in a right, where it is for these recordings.
    pub(crate) fn weighed_for(&self, kind: Kind, recordings: &[Isrc]) -> Option<&WeighedWorks>
        ensures { (office : OfficeValue) (db : Trees) → AreWorksWeighed office db self.now → AreLent kind office (λ isrc. list_any (bytes_eq isrc) recordings.now) db (option_map (λ w. w.now) result) }
    {
        let weighed = match kind {
            Kind::Performing => &self.performing,
            Kind::Mechanical => &self.mechanical,
        };
        if weighed.is_for(recordings) {
            Some(weighed)
        } else {
            None
        }
    }

    /// Weighs, in a right and for the recordings that are wanted, the transmissions that have versions of the works that are listed: each
    /// is read once, whichever pools take it. Where the disk told the truth, an error says that memory ran out, that the medium may have
    /// failed, or that the tables have the works of no book.
    pub fn weigh<S: Alter>(
        &mut self,
        alloc: Global,
        tx: &mut Transaction<'_, S>,
        office: &Office,
        kind: Kind,
        wanted: &Wanted,
    ) -> Result<(), RowFault>
        ensures listed { self.new.listed ≡ self.old.listed }
        ensures looks { Within S.Store tx.old tx.new Looks result (λ db _. AreWorksWeighed office.now db self.old → AreWorksWeighed office.now db self.new) }
        ensures err { within S.Store tx.old tx.new (Errs HoldNoWorks) result }
    {
        let works = self.listed.works(alloc)?;
        let keys = transmissions_of(alloc, tx, works.as_slice())?;
        let recordings = wanted.recordings(alloc)?;
        let weighed = weighed_in(
            alloc,
            kind,
            tx,
            office,
            recordings.as_slice(),
            keys.as_slice(),
        )?;
        match kind {
            Kind::Performing => self.performing = weighed,
            Kind::Mechanical => self.mechanical = weighed,
        }
        Ok(())
    }
}
