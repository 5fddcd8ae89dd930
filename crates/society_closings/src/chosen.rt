//! The versions that works have at a sender's cut.
ghost use Rattle.std.specs.Prelude.{◌==◌, ◌≡◌, ◌||◌, List, Some, ℕ, false, IfErr, IfOk, OnOk, bytes_eq, find, nat_le, option_map, reverse, if◌then◌else◌};
ghost use Rattle.std.specs.BTreeSet.{contains};
ghost use Rattle.std.specs.List.Sorted.{IsStrictlySortedBy};
ghost use Rattle.std.specs.Ordering.{nat_cmp};
ghost use Rattle.share_rules.specs.declared.office.Office.{Office as OfficeValue};
ghost use Rattle.society_core.specs.Book.{Book};
ghost use Rattle.society_core.specs.Owners.{is_at};
ghost use Rattle.society_core.specs.declared.transmission_key.TransmissionKey.{TransmissionKey as KeyValue};
ghost use Rattle.society_book.specs.Columns.{whole_number_at};
ghost use Rattle.society_closings.specs.CutWorks.{Chooses, chosen_at};
ghost use Rattle.society_book.specs.Shown.{version_shown};
ghost use Rattle.society_book.specs.Steps.{Looks};
ghost use Rattle.society_rows.specs.Between.{Within, within};
ghost use Rattle.society_rows.specs.Effects.{Errs};
ghost use Rattle.society_book.specs.Errors.{Blames};
ghost use Rattle.society_closings.specs.Blamed.{HoldNoWorks};
ghost use Rattle.society_book.specs.Readable.{IsVersionRow};
ghost use Rattle.std.specs.List.{AllByRecursion};
ghost use Rattle.society_closings.specs.Choosing.{ChoosesMore, ChoosesWork, ChoosesWorks, IsVersionAtCut};

use society_book::version_of;
use society_core::TransmissionKey;
use society_rows::{Question, RowFault, answer};
use sqlite::{Alter, Row, Transaction};
use std::alloc::{AllocError, Global};
use std::collections::{BTreeMap, BTreeSet};
use work_ids::{TransmissionNumber, WorkNumber};
use works_core::WorkVersion;

// The last of the versions that rows show whose transmission is up to a cut, none where all are above it; `Damaged` where a
// row shows none.
fn last_up_to(rows: &[Row], cut: TransmissionNumber) -> Result<Option<WorkVersion>, RowFault>
    ensures version { IfOk result (λ version. version ≡ option_map version_shown (find (λ row. nat_le (whole_number_at 3 row) cut) (reverse rows.now))) }
    ensures blames { IfErr result (Blames (AllByRecursion IsVersionRow rows.now → ⊥)) }
{
    let mut last = None;
    for row in rows {
        let version = version_of(row)?;
        if version.transmission <= cut {
            last = Some(version);
        }
    }
    Ok(last)
}

/// The version that a sender's work has at the sender's cut, none where it has none. Where the disk told the truth, an error says that
/// memory ran out, that the medium may have failed, or that the tables have the works of no book.
pub fn version_at<S: Alter>(
    tx: &mut Transaction<'_, S>,
    key: &TransmissionKey,
    work: &WorkNumber,
) -> Result<Option<WorkVersion>, RowFault>
    ensures looks { Within S.Store tx.old tx.new Looks result (IsVersionAtCut key.now work.now) }
    ensures err { within S.Store tx.old tx.new (Errs HoldNoWorks) result }
{
    let rows = answer(
        tx,
        Question::Versions(key.sender.as_bytes(), work.as_bytes()),
    )?;
    last_up_to(rows.as_slice(), key.number)
}

/// The versions of some works at a cut, and the numbers of the transmissions that have one of them.
#[derive(Drop)]
pub(crate) struct Chosen {
    versions: BTreeMap<WorkNumber, WorkVersion>,
    transmissions: BTreeSet<TransmissionNumber>,
}

impl Chosen {
    // No versions.
    fn new(alloc: Global) -> Chosen
        ensures { (office : OfficeValue) (book : Book) (key : KeyValue) → Chooses office book key (λ _. false) result }
    {
        Chosen {
            versions: BTreeMap::new(alloc),
            transmissions: BTreeSet::new(alloc),
        }
    }

    // Chooses a version of a work.
    fn keep(&mut self, work: WorkNumber, version: WorkVersion) -> Result<(), AllocError>
        ensures versions { OnOk result ((other : List ℕ) → chosen_at self.new other ≡ (if bytes_eq work other then Some version else chosen_at self.old other)) }
        ensures transmissions { OnOk result ((number : ℕ) → contains nat_cmp self.new.transmissions number ≡ (version.transmission == number || contains nat_cmp self.old.transmissions number)) }
    {
        let number = version.transmission;
        self.versions.insert(work, version)?;
        self.transmissions.insert(number)?;
        Ok(())
    }

    // Chooses the version of a work at the cut, none where it has none.
    fn choose(&mut self, work: WorkNumber, version: Option<WorkVersion>) -> Result<(), AllocError>
        ensures { ChoosesMore work version self.old result self.new }
    {
        match version {
            Some(version) => self.keep(work, version),
            None => Ok(()),
        }
    }

    /// Whether the version that is chosen of a work is the transaction at this place of this transmission.
    pub(crate) fn is_at(&self, work: &WorkNumber, number: TransmissionNumber, place: usize) -> bool
        ensures { result ≡ is_at number place (chosen_at self.now work.now) }
    {
        match self.versions.get(work) {
            None => false,
            Some(version) => version.transmission == number && version.place == place,
        }
    }

    /// The transmissions that have a version that is chosen, ascending.
    pub(crate) fn transmissions(&self, alloc: Global) -> Result<Vec<TransmissionNumber>, AllocError>
        ensures numbers { IfOk result (λ list. list.items ≡ self.now.transmissions.keys) }
        ensures ordered { IsStrictlySortedBy nat_cmp self.now.transmissions.keys }
    {
        self.transmissions.iter().copied().collect(alloc)
    }
}

// Chooses the version that a sender's work has at the sender's cut.
fn choose_work<S: Alter>(
    tx: &mut Transaction<'_, S>,
    key: &TransmissionKey,
    work: &WorkNumber,
    chosen: &mut Chosen,
) -> Result<(), RowFault>
    ensures looks { Within S.Store tx.old tx.new Looks result (λ db _. ChoosesWork key.now work.now chosen.old chosen.new db) }
    ensures err { within S.Store tx.old tx.new (Errs HoldNoWorks) result }
{
    let version = version_at(tx, key, work)?;
    chosen.choose(*work, version)?;
    Ok(())
}

/// The versions that works of a sender have at the sender's cut.
pub(crate) fn chosen_of<S: Alter>(
    alloc: Global,
    tx: &mut Transaction<'_, S>,
    key: &TransmissionKey,
    works: &[WorkNumber],
) -> Result<Chosen, RowFault>
    ensures looks { Within S.Store tx.old tx.new Looks result (ChoosesWorks key.now works.now) }
    ensures err { within S.Store tx.old tx.new (Errs HoldNoWorks) result }
{
    let mut chosen = Chosen::new(alloc);
    for work in works {
        choose_work(tx, key, work, &mut chosen)?;
    }
    Ok(chosen)
}
