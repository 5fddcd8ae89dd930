//! The works of a line: their versions, and the last one of each.
ghost use Rattle.std.specs.Prelude.{◌≡◌, ◌+◌, ◌^◌, ◌<◌, ◌∷◌, ◌++◌, [], ℕ, length, List, IfSome, OnOk, Some, is_some, true, if◌then◌else◌};
ghost use Rattle.std.specs.BTreeMap as tree;
ghost use Rattle.std.specs.Str.{bytes_eq};
ghost use Rattle.works_core.specs.Tracks.{HasEntries, HasEntry, HasLinks, HasRoomFor, IsTracked, KeepsEntries, KeepsWorks, Tracks, kept_index, last_index, number_cmp, placed_in};
ghost use Rattle.works_core.specs.Verdicts.{verdict_of};
ghost use Rattle.works_core.specs.Versions.{judged_of, last_version, Placed};
ghost use Rattle.works_core.specs.declared.judged.Judged.TheVariants.{Clean};

use crate::judged::Judged;
use crate::verdict::{Verdict, next_verdict};
use crate::version::{LinkedVersion, WorkVersion};
use cwr_records::TransactionKind;
use std::alloc::{AllocError, Global};
use std::collections::BTreeMap;
use work_ids::{TransmissionNumber, WorkNumber};

/// Where a transaction stands: its transmission's number, and its place there from 0.
#[derive(Clone, Copy)]
pub struct TransactionPlace {
    pub transmission: TransmissionNumber,
    pub place: usize,
}

impl TransactionPlace {
    /// The version that the transaction there is.
    pub fn version(self, ordinal: u64, revision: u64) -> WorkVersion
        ensures { result ≡ record { transmission = self.transmission; place = self.place; ordinal = ordinal; revision = revision } }
    {
        WorkVersion {
            transmission: self.transmission,
            place: self.place,
            ordinal,
            revision,
        }
    }
}

/// The works of the transactions so far: how many there are, all accepted versions in the order of the line, and the place of each
/// work's last one. A work that no accepted version has may have an entry too, without a place: what is to come needs no memory then.
#[derive(Drop)]
pub struct Works {
    pub count: u64,
    pub last: BTreeMap<WorkNumber, Option<usize>>,
    pub versions: Vec<LinkedVersion>,
}

impl Works {
    /// The works of no transactions.
    pub fn new(alloc: Global) -> Works
        ensures { Tracks result [] }
    {
        Works {
            count: 0,
            last: BTreeMap::new(alloc),
            versions: Vec::new(alloc),
        }
    }

    // Gives the work of a transaction an entry, where it is clean; the works stay, also after an error.
    fn enter(&mut self, judged: &Judged) -> Result<(), AllocError>
        ensures keeps { KeepsWorks self.old self.new }
        ensures entered { OnOk result (HasEntry self.new judged.now) }
    {
        let Judged::Clean(_, work) = *judged else {
            return Ok(());
        };
        if !self.last.contains_key(&work) {
            self.last.insert(work, None)?;
        }
        Ok(())
    }

    // Gives the works of transactions entries; the works stay, also after an error.
    fn enter_all(&mut self, transactions: &[Judged]) -> Result<(), AllocError>
        ensures keeps { KeepsWorks self.old self.new }
        ensures entered { OnOk result (HasEntries self.new transactions.now) }
    {
        for judged in transactions {
            self.enter(judged)?;
        }
        Ok(())
    }

    /// Takes memory for these transactions; the works stay, also after an error.
    pub fn reserve(&mut self, transactions: &[Judged]) -> Result<(), AllocError>
        ensures tracks { (past : List Placed) → Tracks self.old past → Tracks self.new past }
        ensures room { OnOk result (HasRoomFor transactions.now self.new) }
    {
        self.enter_all(transactions)?;
        self.versions.reserve(transactions.len())
    }

    /// The place of a work's last version.
    pub fn last_index(&self, work: &WorkNumber) -> Option<usize>
        ensures { result ≡ kept_index self.now work.now }
    {
        match self.last.get(work) {
            Some(place) => *place,
            None => None,
        }
    }

    /// The verdict of the next transaction, which is taken into the works.
    pub fn settle(&mut self, place: TransactionPlace, judged: &Judged) -> Verdict
        requires tracked { IsTracked self.old }
        requires entry { HasEntry self.old judged.now }
        requires room { HasLinks 1 self.old }
        ensures verdict { (past : List Placed) → Tracks self.old past → result ≡ verdict_of (judged_of past) judged.now }
        ensures tracks { (past : List Placed) → Tracks self.old past → Tracks self.new (placed_in place judged.now ∷ past) }
        ensures entries { KeepsEntries self.old self.new }
        ensures room { (count : ℕ) → HasLinks (count + 1) self.old → HasLinks count self.new }
    {
        match *judged {
            Judged::Faulty(fault) => Verdict::Rejected(fault),
            Judged::Clean(kind, work) => self.settle_clean(place, kind, work),
        }
    }

    // The verdict of a clean transaction, by the last version of its work.
    fn settle_clean(
        &mut self,
        place: TransactionPlace,
        kind: TransactionKind,
        work: WorkNumber,
    ) -> Verdict
        requires tracked { IsTracked self.old }
        requires entry { HasEntry self.old (Clean kind work) }
        requires room { HasLinks 1 self.old }
        ensures verdict { (past : List Placed) → Tracks self.old past → result ≡ verdict_of (judged_of past) (Clean kind work) }
        ensures tracks { (past : List Placed) → Tracks self.old past → Tracks self.new (placed_in place (Clean kind work) ∷ past) }
        ensures entries { KeepsEntries self.old self.new }
        ensures room { (count : ℕ) → HasLinks (count + 1) self.old → HasLinks count self.new }
    {
        let before = self.last_index(&work);
        let last = self.version_at(before);
        let verdict = next_verdict(&Judged::Clean(kind, work), last, self.count);
        match verdict {
            Verdict::Accepted { ordinal, revision } => {
                let version = place.version(ordinal, revision);
                self.append(work, LinkedVersion { version, before });
            }
            Verdict::Rejected(_) => {}
        }
        verdict
    }

    // The version that stands at an index, where there is one.
    fn version_at(&self, index: Option<usize>) -> Option<WorkVersion>
        requires within { IfSome index (λ at. at < length self.now.versions.items) }
        ensures { (past : List Placed) (work : List ℕ) → Tracks self.now past → index ≡ last_index work past → result ≡ last_version work past }
    {
        match index {
            Some(at) => Some(self.versions[at].version),
            None => None,
        }
    }

    // Appends a version, the last one of its work from now on.
    fn append(&mut self, work: WorkNumber, linked: LinkedVersion)
        requires entry { is_some (tree.get number_cmp self.old.last work) ≡ true }
        requires room { HasLinks 1 self.old }
        requires few { self.old.count < 2 ^ 63 }
        ensures versions { self.new.versions.items ≡ self.old.versions.items ++ linked ∷ [] }
        ensures last { (other : List ℕ) → kept_index self.new other ≡ (if bytes_eq work other then Some (length self.old.versions.items) else kept_index self.old other) }
        ensures count { self.new.count ≡ self.old.count + (if is_some linked.before then 0 else 1) }
        ensures entries { KeepsEntries self.old self.new }
        ensures room { (count : ℕ) → HasLinks (count + 1) self.old → HasLinks count self.new }
    {
        let entered: Result<_, _> = self.last.insert(work, Some(self.versions.len()));
        entered.unwrap();
        self.count += works_begun(&linked);
        self.versions.push(linked).unwrap();
    }
}

// How many works a version begins: one where there was none before it.
fn works_begun(linked: &LinkedVersion) -> u64
    ensures { result ≡ (if is_some linked.now.before then 0 else 1) }
{
    if linked.before.is_some() { 0 } else { 1 }
}
