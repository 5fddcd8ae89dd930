//! Works by the recordings that they name, in whichever of their versions.
ghost use Rattle.std.specs.Prelude.{◌≡◌, ◌++◌, List, ℕ, Some, true, IfErr, IfOk, OnOk, bytes_eq};
ghost use Rattle.std.specs.BTreeSet.{contains};
ghost use Rattle.society_core.specs.Keys.{bytes_cmp};
ghost use Rattle.std.specs.List.{AllByRecursion, list_any};
ghost use Rattle.work_ids.specs.Isrc.{is_isrc};
ghost use Rattle.society_rows.specs.Between.{Within, within};
ghost use Rattle.society_rows.specs.Effects.{Errs};
ghost use Rattle.society_rows.specs.Rows.{recording_values};
ghost use Rattle.society_book.specs.Errors.{Blames};
ghost use Rattle.society_book.specs.Steps.{Looks};
ghost use Rattle.society_closings.specs.Blamed.{HoldNoWorks};
ghost use Rattle.society_closings.specs.CutWorks.{IsListed, ListsMore, ListsRow, ListsSender, NotesListed, is_listed, listed_at, notes_of_sender, works_listed};
ghost use Rattle.society_closings.specs.Readable.{IsRecordingRow, NamesWork};

use crate::named_works::NamedWorks;
use society_core::TransmissionKey;
use society_rows::{Question, RecordingRow, RowFault, answer};
use sqlite::{Alter, Row, Transaction};
use std::alloc::{AllocError, Global};
use std::collections::{BTreeMap, BTreeSet};
use work_ids::{Isrc, SenderKey, WorkNumber};

// The recording that a text is, where it is an ISRC and wanted.
#[tactic(auto, using(crate::proofs::lemmas::cuts::CutLists::found_isrc))]
fn wanted_isrc(wanted: &BTreeSet<Isrc>, text: &[u8]) -> Option<Isrc>
    ensures { (isrc : List ℕ) → is_isrc isrc ≡ true → contains bytes_cmp wanted.now isrc ≡ true → text.now ≡ isrc → result ≡ Some isrc }
{
    match Isrc::from_field(text) {
        Ok(Some(isrc)) => {
            if wanted.contains(&isrc) {
                Some(isrc)
            } else {
                None
            }
        }
        Ok(None) => None,
        Err(_) => None,
    }
}

/// Works by the recordings that they name, each with its sender.
#[derive(Drop)]
pub struct WorksByRecording {
    by_recording: BTreeMap<Isrc, Vec<(SenderKey, WorkNumber)>>,
}

impl WorksByRecording {
    // No works.
    pub(crate) fn new(alloc: Global) -> WorksByRecording {
        WorksByRecording {
            by_recording: BTreeMap::new(alloc),
        }
    }

    // Appends a work of a sender to those of a recording.
    fn append(
        &mut self,
        alloc: Global,
        isrc: Isrc,
        sender: SenderKey,
        work: WorkNumber,
    ) -> Result<(), AllocError>
        ensures { OnOk result ((q : List ℕ) → works_listed self.new q ≡ works_listed self.old q ++ listed_at q isrc (sender, work)) }
    {
        match self.by_recording.get_mut(&isrc) {
            Some(works) => {
                works.push((sender, work))?;
                Ok(())
            }
            None => {
                let mut works = Vec::new(alloc);
                works.push((sender, work))?;
                self.by_recording.insert(isrc, works)?;
                Ok(())
            }
        }
    }

    // Lists a work under a recording.
    fn list(
        &mut self,
        alloc: Global,
        isrc: Isrc,
        sender: SenderKey,
        work: WorkNumber,
    ) -> Result<(), AllocError>
        ensures more { OnOk result (ListsMore self.old self.new) }
        ensures listed { OnOk result (is_listed self.new isrc sender work ≡ true) }
    {
        self.append(alloc, isrc, sender, work)?;
        Ok(())
    }

    // The works that are listed under a recording.
    fn works_of(&self, isrc: Isrc) -> &[(SenderKey, WorkNumber)]
        ensures listed { result.now ≡ works_listed self.now isrc }
        ensures isrc { is_isrc isrc ≡ true }
    {
        match self.by_recording.get(&isrc) {
            Some(works) => works.as_slice(),
            None => &[],
        }
    }

    // Lists the work of a row under its recording; `Damaged` where it has no sender or no work number.
    fn list_work(
        &mut self,
        alloc: Global,
        isrc: Isrc,
        row: &RecordingRow<'_>,
    ) -> Result<(), RowFault>
        ensures more { OnOk result (ListsMore self.old self.new) }
        ensures listed { OnOk result (IsListed self.new isrc (recording_values row.now)) }
        ensures blames { IfErr result (Blames (NamesWork (recording_values row.now) → ⊥)) }
    {
        let Ok(sender) = SenderKey::from_bytes(row.sender) else {
            return Err(RowFault::Damaged);
        };
        let Ok(work) = WorkNumber::from_bytes(row.work) else {
            return Err(RowFault::Damaged);
        };
        self.list(alloc, isrc, sender, work)?;
        Ok(())
    }

    // Lists the work of a row of a recording, where this is wanted; `Damaged` where the row has no sender or no work number.
    fn list_row(
        &mut self,
        alloc: Global,
        row: &Row,
        wanted: &BTreeSet<Isrc>,
    ) -> Result<(), RowFault>
        ensures more { OnOk result (ListsMore self.old self.new) }
        ensures listed { OnOk result (ListsRow wanted.now self.new row.now) }
        ensures blames { IfErr result (Blames (IsRecordingRow row.now → ⊥)) }
    {
        let row = RecordingRow::from_row(row)?;
        match wanted_isrc(wanted, row.isrc) {
            Some(isrc) => self.list_work(alloc, isrc, &row),
            None => Ok(()),
        }
    }

    // Lists the works of those rows of recordings that are wanted; `Damaged` where one has no sender or no work number.
    fn list_rows(
        &mut self,
        alloc: Global,
        rows: &[Row],
        wanted: &BTreeSet<Isrc>,
    ) -> Result<(), RowFault>
        ensures more { OnOk result (ListsMore self.old self.new) }
        ensures listed { OnOk result (AllByRecursion (ListsRow wanted.now self.new) rows.now) }
        ensures blames { IfErr result (Blames (AllByRecursion IsRecordingRow rows.now → ⊥)) }
    {
        for row in rows {
            self.list_row(alloc, row, wanted)?;
        }
        Ok(())
    }

    /// Lists the works of a sender that name a wanted recording, by the sender's rows alone. Where the disk told the truth, an error says
    /// that memory ran out, that the medium may have failed, or that the tables have the works of no book.
    pub(crate) fn list_sender<S: Alter>(
        &mut self,
        alloc: Global,
        tx: &mut Transaction<'_, S>,
        sender: &SenderKey,
        wanted: &BTreeSet<Isrc>,
    ) -> Result<(), RowFault>
        ensures more { OnOk result (ListsMore self.old self.new) }
        ensures looks { Within S.Store tx.old tx.new Looks result (λ db _. ListsSender (bytes_eq sender.now) wanted.now self.new db) }
        ensures err { within S.Store tx.old tx.new (Errs HoldNoWorks) result }
    {
        let rows = answer(tx, Question::SenderRecordings(sender.as_bytes()))?;
        self.list_rows(alloc, rows.as_slice(), wanted)?;
        Ok(())
    }

    /// The works that are listed, one after another.
    pub(crate) fn works(&self, alloc: Global) -> Result<Vec<(SenderKey, WorkNumber)>, AllocError> {
        let mut list = Vec::new(alloc);
        for works in self.by_recording.values() {
            list.extend_from_slice(works.as_slice())?;
        }
        Ok(list)
    }

    /// The works of the senders of a cut that are listed under one of these recordings.
    pub(crate) fn named_works(
        &self,
        alloc: Global,
        recordings: &[Isrc],
        cut: &[TransmissionKey],
    ) -> Result<NamedWorks, AllocError>
        ensures senders { IfOk result (λ named. (sender : List ℕ) → notes_of_sender named sender ≡ list_any (λ key. bytes_eq key.sender sender) cut.now) }
        ensures listed { IfOk result (λ named. (isrc : List ℕ) → list_any (bytes_eq isrc) recordings.now ≡ true →
            (is_isrc isrc ≡ true) × NotesListed (works_listed self.now isrc) named) }
    {
        let mut named = NamedWorks::of_cut(alloc, cut)?;
        for isrc in recordings {
            named.note_all(self.works_of(*isrc))?;
        }
        Ok(named)
    }
}
