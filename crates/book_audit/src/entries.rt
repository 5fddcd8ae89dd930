//! The senders of a database whose transmissions, ends and returns may stand in a book.
ghost use Rattle.std.specs.Prelude.{◌≡◌, ◌++◌, IfOk, IfErr, OnOk, map};
ghost use Rattle.society_book.specs.Errors.{Blames};
ghost use Rattle.society_book.specs.Steps.{Examines};
ghost use Rattle.book_audit.specs.OwnRows.{LacksOwn};
ghost use Rattle.society_core.specs.Keys.{ascending, bytes_cmp};
ghost use Rattle.society_rows.specs.Between.{Within};
ghost use Rattle.book_audit.specs.Entries.{AreEndsAbove, HoldsEntries};
ghost use Rattle.book_audit.specs.Judging.{AreUnder};

use crate::reported::check_returns;
use crate::sent::sent_in;
use crate::stated::{are_under_ends, map_of_lasts, stated_in};
use crate::strangers::set_of;
use society_core::{SegmentKey, TransmissionKey};
use society_rows::RowFault;
use sqlite::{Alter, Transaction};
use std::alloc::{AllocError, Global};
use work_ids::SenderKey;

// Adds the senders of some transmissions.
fn add_sent(keys: &[TransmissionKey], senders: &mut Vec<SenderKey>) -> Result<(), AllocError>
    ensures { OnOk result (senders.new.items ≡ senders.old.items ++ map (λ key. key.sender) keys.now) }
{
    for key in keys {
        senders.push(key.sender)?;
    }
    Ok(())
}

// Adds the senders of some ends.
fn add_stated(lasts: &[(SegmentKey, u32)], senders: &mut Vec<SenderKey>) -> Result<(), AllocError>
    ensures { OnOk result (senders.new.items ≡ senders.old.items ++ map (λ last. last.0.sender) lasts.now) }
{
    for (key, _) in lasts {
        senders.push(key.sender)?;
    }
    Ok(())
}

// The senders of some transmissions and of some ends, ascending, each once.
fn senders_of(
    alloc: Global,
    keys: &[TransmissionKey],
    lasts: &[(SegmentKey, u32)],
) -> Result<Vec<SenderKey>, AllocError>
    ensures { IfOk result (λ all. all.items ≡ ascending bytes_cmp (map (λ key. key.sender) keys.now ++ map (λ last. last.0.sender) lasts.now)) }
{
    let mut senders = Vec::new(alloc);
    add_sent(keys, &mut senders)?;
    add_stated(lasts, &mut senders)?;
    let set = set_of(alloc, senders.as_slice())?;
    set.iter().copied().collect(alloc)
}

// The senders of some transmissions and of some ends, ascending, each once; `Damaged` where a segment has two ends, or a transmission is
// above the end of its segment.
fn senders_under(
    alloc: Global,
    keys: &[TransmissionKey],
    lasts: &[(SegmentKey, u32)],
) -> Result<Vec<SenderKey>, RowFault>
    ensures fits { IfOk result (λ _. AreUnder keys.now lasts.now) }
    ensures senders { IfOk result (λ all. all.items ≡ ascending bytes_cmp (map (λ key. key.sender) keys.now ++ map (λ last. last.0.sender) lasts.now)) }
    ensures judged { IfErr result (Blames (AreUnder keys.now lasts.now → ⊥)) }
{
    let ends = map_of_lasts(alloc, lasts)?;
    if !are_under_ends(&ends, keys) {
        return Err(RowFault::Damaged);
    }
    Ok(senders_of(alloc, keys, lasts)?)
}

/// The senders of the transmissions and of the ends of a database, ascending, each once. `Damaged` where a transmission, an end or a
/// return may not stand in a book, a key stands twice, or a transmission is above the end of its segment; `Memory` or `Refused` where
/// memory or the database failed. Of the bodies one at a time is kept.
pub fn entries_in<S: Alter>(
    alloc: Global,
    tx: &mut Transaction<'_, S>,
) -> Result<Vec<SenderKey>, RowFault>
    ensures examined { Within S.Store tx.old tx.new (Examines LacksOwn) result (λ db senders. HoldsEntries senders.items db × AreEndsAbove db) }
{
    let keys = sent_in(alloc, tx)?;
    let lasts = stated_in(alloc, tx)?;
    check_returns(alloc, tx)?;
    senders_under(alloc, keys.as_slice(), lasts.as_slice())
}
