//! What pools look for: the works of their cuts' senders that name a recording that their returns report.
ghost use Rattle.std.specs.Prelude.{◌≡◌, ◌||◌, List, ℕ, IfOk, OnOk, bytes_eq};
ghost use Rattle.std.specs.BTreeSet.{contains};
ghost use Rattle.std.specs.List.{list_any};
ghost use Rattle.society_core.specs.Keys.{bytes_cmp};
ghost use Rattle.society_core.specs.Orders.{IsOrder};
ghost use Rattle.society_core.specs.Points.{is_tallied};
ghost use Rattle.society_rows.specs.Between.{Within, within};
ghost use Rattle.society_rows.specs.Effects.{Errs};
ghost use Rattle.society_book.specs.Steps.{Looks};
ghost use Rattle.society_closings.specs.Blamed.{HoldNoWorks, LackReturns};
ghost use Rattle.society_closings.specs.Choosing.{TalliesOrder};
ghost use Rattle.society_closings.specs.CutWorks.{ListsWorks, Wants, WantsMore, is_of_cut, wants};

use crate::paying::tally_of;
use crate::works_by_recording::WorksByRecording;
use society_core::{PoolOrder, Tally, TransmissionKey};
use society_rows::RowFault;
use sqlite::{Alter, Transaction};
use std::alloc::{AllocError, Global};
use std::collections::BTreeSet;
use work_ids::{Isrc, SenderKey};

/// The senders of the cuts of some pools, and the recordings that their returns report.
#[derive(Drop)]
pub struct Wanted {
    senders: BTreeSet<SenderKey>,
    recordings: BTreeSet<Isrc>,
}

impl Wanted {
    /// Of no pool.
    pub fn new(alloc: Global) -> Wanted {
        Wanted {
            senders: BTreeSet::new(alloc),
            recordings: BTreeSet::new(alloc),
        }
    }

    // Adds the senders of a cut.
    fn add_senders(&mut self, cut: &[TransmissionKey]) -> Result<(), AllocError>
        ensures senders { OnOk result ((sender : List ℕ) → contains bytes_cmp self.new.senders sender ≡ (contains bytes_cmp self.old.senders sender || is_of_cut cut.now sender)) }
        ensures recordings { self.new.recordings ≡ self.old.recordings }
    {
        for key in cut {
            self.senders.insert(key.sender)?;
        }
        Ok(())
    }

    // Adds recordings.
    fn add_recordings(&mut self, recordings: &[Isrc]) -> Result<(), AllocError>
        ensures recordings { OnOk result ((isrc : List ℕ) → contains bytes_cmp self.new.recordings isrc ≡ (contains bytes_cmp self.old.recordings isrc || list_any (bytes_eq isrc) recordings.now)) }
        ensures senders { self.new.senders ≡ self.old.senders }
    {
        for isrc in recordings {
            self.recordings.insert(*isrc)?;
        }
        Ok(())
    }

    /// Adds the senders of a cut and recordings; nothing where there is no recording. Public for the tests of candidates.
    pub fn add(&mut self, cut: &[TransmissionKey], recordings: &[Isrc]) -> Result<(), AllocError>
        ensures more { OnOk result (WantsMore self.old self.new) }
        ensures wants { OnOk result (Wants self.new cut.now (λ isrc. list_any (bytes_eq isrc) recordings.now)) }
    {
        if recordings.is_empty() {
            return Ok(());
        }
        self.add_senders(cut)?;
        self.add_recordings(recordings)
    }

    /// Adds what the pool of an order looks for, and gives the tally of the order's returns. Where the disk told the truth, an error says
    /// that memory ran out, that a count has no room, that the medium may have failed, or that no book whose works the tables have has all
    /// of the returns.
    pub fn add_order<S: Alter>(
        &mut self,
        alloc: Global,
        tx: &mut Transaction<'_, S>,
        order: &PoolOrder,
    ) -> Result<Tally, RowFault>
        ensures more { OnOk result (WantsMore self.old self.new) }
        ensures wants { IfOk result (λ tally. Wants self.new order.now.cut (is_tallied tally)) }
        ensures looks { Within S.Store tx.old tx.new Looks result (TalliesOrder order.now) }
        ensures err { within S.Store tx.old tx.new (Errs (LackReturns order.now.returns)) result }
        ensures kept { IsOrder order.now }
    {
        let tally = tally_of(alloc, tx, order.returns())?;
        let recordings = tally.recordings(alloc)?;
        self.add(order.cut(), recordings.as_slice())?;
        Ok(tally)
    }

    // The recordings, ascending.
    pub(crate) fn recordings(&self, alloc: Global) -> Result<Vec<Isrc>, AllocError> {
        self.recordings.iter().copied().collect(alloc)
    }

    // The senders, ascending.
    fn senders(&self, alloc: Global) -> Result<Vec<SenderKey>, AllocError>
        ensures { IfOk result (λ list. list.items ≡ self.now.senders.keys) }
    {
        self.senders.iter().copied().collect(alloc)
    }

    /// The works that are looked for, each under the recordings that it names; each sender's rows are read once. Where the disk told the
    /// truth, an error says that memory ran out, that the medium may have failed, or that the tables have the works of no book.
    pub fn works<S: Alter>(
        &self,
        alloc: Global,
        tx: &mut Transaction<'_, S>,
    ) -> Result<WorksByRecording, RowFault>
        ensures looks { Within S.Store tx.old tx.new Looks result (ListsWorks (wants self.now)) }
        ensures err { within S.Store tx.old tx.new (Errs HoldNoWorks) result }
    {
        let senders = self.senders(alloc)?;
        let mut works = WorksByRecording::new(alloc);
        for sender in senders.as_slice() {
            works.list_sender(alloc, tx, sender, &self.recordings)?;
        }
        Ok(works)
    }
}
