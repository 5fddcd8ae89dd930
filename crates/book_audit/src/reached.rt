//! How far the senders of cuts came, each read once.
ghost use Rattle.std.specs.Prelude.{◌≡◌, List, ℕ, true};
ghost use Rattle.society_book.specs.Steps.{Examines};
ghost use Rattle.book_audit.specs.Standing.{HoldsNoLines, IsReachKnown, IsReach, KnowsReach, LearnsReach, OfLines, TellsCut};
ghost use Rattle.society_core.specs.Book.{front, is_applied};
ghost use Rattle.society_core.specs.Keys.{transmission_key};
ghost use Rattle.society_book.specs.EndLists.{ReadsEnds};
ghost use Rattle.society_rows.specs.Between.{Within};
ghost use Rattle.sqlite_trees.specs.Tree.{Trees};

use crate::reading::ask;
use society_book::{SenderEnds, ends_in, shown_front};
use society_core::TransmissionKey;
use society_rows::{Question, RowFault};
use sqlite::{Alter, Transaction};
use std::alloc::Global;
use std::collections::BTreeMap;
use work_ids::{SenderKey, TransmissionNumber};

/// How far a sender came: its front, and the ends that it stated.
#[derive(Drop)]
pub struct Reach {
    front: u32,
    ends: SenderEnds,
}

impl Reach {
    /// The sender's front, as a rank.
    pub fn front(&self) -> u32
        ensures { result ≡ self.now.front }
    {
        self.front
    }

    /// Whether a number of the sender is in its line up to the front.
    pub fn is_in_line(&self, number: TransmissionNumber) -> bool
        ensures { (db : Trees) (sender : List ℕ) → IsReach sender db self.now → OfLines (λ book. result ≡ is_applied book (transmission_key sender number)) db }
    {
        self.ends.is_in_line(self.front, number)
    }
}

/// How far some senders came.
#[derive(Drop)]
pub(crate) struct Reached {
    by_sender: BTreeMap<SenderKey, Reach>,
}

// A sender's front; `Damaged` where its rows do not say one.
fn front_in<S: Alter>(tx: &mut Transaction<'_, S>, sender: &SenderKey) -> Result<u32, RowFault>
    ensures examined { Within S.Store tx.old tx.new (Examines HoldsNoLines) result (λ db n. OfLines (λ book. n ≡ front book sender.now) db) }
{
    let rows = ask(tx, Question::Front(sender.as_bytes()))?;
    shown_front(rows.as_slice())
}

// The ends that a sender stated; `Damaged` where its rows do not say them.
fn ends_of<S: Alter>(
    tx: &mut Transaction<'_, S>,
    sender: &SenderKey,
) -> Result<SenderEnds, RowFault>
    ensures examined { Within S.Store tx.old tx.new (Examines HoldsNoLines) result (ReadsEnds sender.now) }
{
    ends_in(tx, sender.as_bytes())
}

/// How far a sender came; `Damaged` where the tables do not say it.
pub fn reach_of<S: Alter>(
    tx: &mut Transaction<'_, S>,
    sender: &SenderKey,
) -> Result<Reach, RowFault>
    ensures examined { Within S.Store tx.old tx.new (Examines HoldsNoLines) result (IsReach sender.now) }
{
    let ends = ends_of(tx, sender)?;
    let front = front_in(tx, sender)?;
    Ok(Reach { front, ends })
}

impl Reached {
    /// No sender.
    pub(crate) fn new(alloc: Global) -> Reached
        ensures { (db : Trees) → KnowsReach db result }
    {
        Reached {
            by_sender: BTreeMap::new(alloc),
        }
    }

    // Reads how far a sender came, where it is not known.
    fn learn<S: Alter>(
        &mut self,
        tx: &mut Transaction<'_, S>,
        sender: &SenderKey,
    ) -> Result<(), RowFault>
        ensures examined { Within S.Store tx.old tx.new (Examines HoldsNoLines) result (λ db _. LearnsReach sender.now self.old self.new db) }
    {
        if self.by_sender.contains_key(sender) {
            return Ok(());
        }
        let reach = reach_of(tx, sender)?;
        self.by_sender.insert(*sender, reach)?;
        Ok(())
    }

    // Whether a number is in its sender's line, where it is known how far that came.
    fn is_in_line(&self, key: &TransmissionKey) -> bool
        ensures { (db : Trees) → KnowsReach db self.now → IsReachKnown key.now.sender self.now → OfLines (λ book. result ≡ is_applied book key.now) db }
    {
        match self.by_sender.get(&key.sender) {
            Some(reach) => reach.is_in_line(key.number),
            None => false,
        }
    }

    /// Whether each number of a cut is in its sender's line; `Damaged` where the tables do not say how far a sender came.
    pub(crate) fn are_in_line<S: Alter>(
        &mut self,
        tx: &mut Transaction<'_, S>,
        cut: &[TransmissionKey],
    ) -> Result<bool, RowFault>
        ensures examined { Within S.Store tx.old tx.new (Examines HoldsNoLines) result
            (λ db told. KnowsReach db self.old → KnowsReach db self.new × TellsCut cut.now db told) }
    {
        for key in cut {
            self.learn(tx, &key.sender)?;
            if !self.is_in_line(key) {
                return Ok(false);
            }
        }
        Ok(true)
    }
}
