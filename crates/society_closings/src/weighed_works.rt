//! The transmissions whose works' versions are weighed for many pools, each read once.
ghost use Rattle.std.specs.Prelude.{◌≡◌, List, ℕ, IfOk, IfSome, OnOk, bytes_eq, option_map, true, Bool};
ghost use Rattle.std.specs.BTreeSet.{contains};
ghost use Rattle.std.specs.List.{list_any};
ghost use Rattle.share_rules.specs.declared.kind.Kind.{Kind as KindValue};
ghost use Rattle.share_rules.specs.declared.office.Office.{Office as OfficeValue};
ghost use Rattle.sqlite_trees.specs.Tree.{Trees};
ghost use Rattle.society_core.specs.Keys.{bytes_cmp};
ghost use Rattle.society_core.specs.Points.{is_tallied};
ghost use Rattle.society_book.specs.Steps.{Looks};
ghost use Rattle.society_closings.specs.Blamed.{HoldNoWorks};
ghost use Rattle.society_closings.specs.Weighing.{AreWeighed, KeepsShown, LendsVersions, StaysWeighed};
ghost use Rattle.society_rows.specs.Between.{Within, within};
ghost use Rattle.society_rows.specs.Effects.{Errs};

use crate::weighing::{WeighedVersion, weigh_shown};
use perf_returns::{Performance, Plays, Seconds};
use share_rules::{Kind, Office};
use society_core::{Tally, TransmissionKey, Weighing};
use society_rows::{Question, RowFault, answer};
use sqlite::{Alter, Row, Transaction};
use std::alloc::{AllocError, Global};
use std::collections::{BTreeMap, BTreeSet};
use work_ids::Isrc;

/// Transmissions whose works' versions are weighed in one right, and the recordings for which they are.
#[derive(Drop)]
pub struct WeighedWorks {
    recordings: BTreeSet<Isrc>,
    transmissions: BTreeMap<TransmissionKey, Vec<WeighedVersion>>,
}

// A tally in which each of these recordings was played once.
fn played_once(alloc: Global, recordings: &[Isrc]) -> Result<Tally, AllocError> {
    let mut tally = Tally::new(alloc);
    let (Some(plays), Some(seconds)) = (Plays::from_u32(1), Seconds::from_u32(1)) else {
        return Ok(tally);
    };
    for isrc in recordings {
        tally.add_all(&[Performance {
            isrc: *isrc,
            plays,
            seconds,
        }])?;
    }
    Ok(tally)
}

// The recordings of a tally.
fn recordings_of(alloc: Global, tally: &Tally) -> Result<BTreeSet<Isrc>, AllocError>
    ensures { IfOk result (λ set. (isrc : List ℕ) → contains bytes_cmp set isrc ≡ is_tallied tally.now isrc) }
{
    let mut set = BTreeSet::new(alloc);
    let recordings = tally.recordings(alloc)?;
    for isrc in recordings.as_slice() {
        set.insert(*isrc)?;
    }
    Ok(set)
}

impl WeighedWorks {
    /// No transmission, for these recordings.
    pub(crate) fn of(alloc: Global, recordings: BTreeSet<Isrc>) -> WeighedWorks
        ensures recordings { result.recordings ≡ recordings }
        ensures none { (kind : KindValue) (office : OfficeValue) (of_these : List ℕ → Bool) (db : Trees) → AreWeighed kind office of_these db result }
    {
        WeighedWorks {
            recordings,
            transmissions: BTreeMap::new(alloc),
        }
    }

    /// Whether it is for all of these recordings.
    pub(crate) fn is_for(&self, recordings: &[Isrc]) -> bool
        ensures { result ≡ true → (isrc : List ℕ) → list_any (bytes_eq isrc) recordings.now ≡ true → contains bytes_cmp self.now.recordings isrc ≡ true }
    {
        recordings.iter().all(|isrc| self.recordings.contains(isrc))
    }

    // Keeps the versions of the transmission that rows show. Where they show none of the sender, nothing is kept: the pool that
    // takes it reads it then, and says why.
    fn keep_shown(
        &mut self,
        weighing: &Weighing<'_>,
        key: &TransmissionKey,
        rows: &[Row],
    ) -> Result<(), AllocError>
        ensures recordings { self.new.recordings ≡ self.old.recordings }
        ensures kept { OnOk result (KeepsShown weighing.now key.now rows.now self.old self.new) }
    {
        match weigh_shown(weighing, &key.sender, rows) {
            Ok(versions) => {
                self.transmissions.insert(*key, versions)?;
                Ok(())
            }
            Err(_) => Ok(()),
        }
    }

    // Weighs a transmission of the tables.
    fn weigh<S: Alter>(
        &mut self,
        weighing: &Weighing<'_>,
        tx: &mut Transaction<'_, S>,
        key: &TransmissionKey,
    ) -> Result<(), RowFault>
        ensures recordings { self.new.recordings ≡ self.old.recordings }
        ensures looks { Within S.Store tx.old tx.new Looks result (λ db _. StaysWeighed weighing.now db self.old self.new) }
        ensures err { within S.Store tx.old tx.new (Errs HoldNoWorks) result }
    {
        let rows = answer(
            tx,
            Question::Transmission(key.sender.as_bytes(), key.number.value()),
        )?;
        self.keep_shown(weighing, key, rows.as_slice())?;
        Ok(())
    }

    // Weighs transmissions of the tables.
    fn weigh_each<S: Alter>(
        &mut self,
        weighing: &Weighing<'_>,
        tx: &mut Transaction<'_, S>,
        keys: &[TransmissionKey],
    ) -> Result<(), RowFault>
        ensures recordings { self.new.recordings ≡ self.old.recordings }
        ensures looks { Within S.Store tx.old tx.new Looks result (λ db _. StaysWeighed weighing.now db self.old self.new) }
        ensures err { within S.Store tx.old tx.new (Errs HoldNoWorks) result }
    {
        for key in keys {
            self.weigh(weighing, tx, key)?;
        }
        Ok(())
    }
}

/// These transmissions of the tables, weighed in a right for these recordings. Where the disk told the truth, an error says that memory ran
/// out, that the medium may have failed, or that the tables have the works of no book.
pub(crate) fn weighed_in<S: Alter>(
    alloc: Global,
    kind: Kind,
    tx: &mut Transaction<'_, S>,
    office: &Office,
    recordings: &[Isrc],
    keys: &[TransmissionKey],
) -> Result<WeighedWorks, RowFault>
    ensures looks { Within S.Store tx.old tx.new Looks result (λ db weighed. AreWeighed kind office.now (contains bytes_cmp weighed.recordings) db weighed) }
    ensures err { within S.Store tx.old tx.new (Errs HoldNoWorks) result }
{
    let tally = played_once(alloc, recordings)?;
    let mut weighed = WeighedWorks::of(alloc, recordings_of(alloc, &tally)?);
    let weighing = Weighing {
        alloc,
        kind,
        office,
        tally: &tally,
    };
    weighed.weigh_each(&weighing, tx, keys)?;
    Ok(weighed)
}

/// The versions of a transmission that is weighed, none where it is not.
pub(crate) fn versions_lent<'a>(
    weighed: Option<&'a WeighedWorks>,
    key: &TransmissionKey,
) -> Option<&'a [WeighedVersion]>
    ensures { IfSome result (λ versions. LendsVersions (option_map (λ w. w.now) weighed.entry) key.now versions.now) }
{
    match weighed {
        None => None,
        Some(weighed) => match weighed.transmissions.get(key) {
            None => None,
            Some(versions) => Some(versions.as_slice()),
        },
    }
}
