//! The rows of ends of segments, and whether they are above the transmissions.
ghost use Rattle.std.specs.Prelude.{◌≡◌, Some, None, IfOk, IfErr, map, true, if◌then◌else◌};
ghost use Rattle.std.specs.List.{AllByRecursion, list_all};
ghost use Rattle.society_book.specs.Errors.{Blames};
ghost use Rattle.society_book.specs.Steps.{Examines};
ghost use Rattle.society_rows.specs.Between.{Within};
ghost use Rattle.book_audit.specs.Entries.{is_right_stated};
ghost use Rattle.book_audit.specs.Judging.{AreOnce, AreRightLasts, AreStated, HasLasts, is_under, last_stated};

use crate::reading::list_of;
use society_core::{SegmentKey, TransmissionKey};
use society_rows::{RowFault, SegmentEndRow, TableName};
use sqlite::{Alter, Row, Transaction};
use std::alloc::Global;
use std::collections::BTreeMap;
use work_ids::{SegmentEnd, SegmentPlace, SenderKey};

// The segment and the last number of a row of an end, none where the row may not stand in a book.
fn last_in(row: &Row) -> Option<(SegmentKey, u32)>
    ensures { result ≡ (if is_right_stated row.now then Some (last_stated row.now) else None) }
{
    let Ok(row) = SegmentEndRow::from_row(row) else {
        return None;
    };
    let Ok(sender) = SenderKey::from_bytes(row.sender) else {
        return None;
    };
    let Ok(end) = SegmentEnd::new(row.segment, u64::from(row.last), u64::from(row.next)) else {
        return None;
    };
    let segment = end.place();
    Some((SegmentKey { sender, segment }, row.last))
}

// The segments and the last numbers of rows of ends; `Damaged` where one may not stand in a book.
fn lasts_of(alloc: Global, rows: &[Row]) -> Result<Vec<(SegmentKey, u32)>, RowFault>
    ensures right { IfOk result (λ _. AllByRecursion (λ row. is_right_stated row ≡ true) rows.now) }
    ensures these { IfOk result (λ lasts. lasts.items ≡ map last_stated rows.now) }
    ensures judged { IfErr result (Blames (AllByRecursion (λ row. is_right_stated row ≡ true) rows.now → ⊥)) }
{
    let mut lasts = Vec::with_capacity(alloc, rows.len())?;
    for row in rows {
        let Some(last) = last_in(row) else {
            return Err(RowFault::Damaged);
        };
        lasts.push(last)?;
    }
    Ok(lasts)
}

/// The last numbers by their segments; `Damaged` where a segment is there twice.
pub(crate) fn map_of_lasts(
    alloc: Global,
    lasts: &[(SegmentKey, u32)],
) -> Result<BTreeMap<SegmentKey, u32>, RowFault>
    ensures these { IfOk result (HasLasts lasts.now) }
    ensures judged { IfErr result (Blames (AreOnce lasts.now → ⊥)) }
{
    let mut ends = BTreeMap::new(alloc);
    for (key, last) in lasts {
        if ends.insert(*key, *last)?.is_some() {
            return Err(RowFault::Damaged);
        }
    }
    Ok(ends)
}

// Whether a transmission is not above the end of its segment.
fn is_under_end(ends: &BTreeMap<SegmentKey, u32>, key: &TransmissionKey) -> bool
    ensures { result ≡ is_under ends.now key.now }
{
    let segment = SegmentKey {
        sender: key.sender,
        segment: SegmentPlace::of_rank(key.number.value()),
    };
    match ends.get(&segment) {
        Some(last) => key.number.sequence() <= *last,
        None => true,
    }
}

/// Whether no transmission is above the end of its segment.
pub(crate) fn are_under_ends(ends: &BTreeMap<SegmentKey, u32>, keys: &[TransmissionKey]) -> bool
    ensures { result ≡ list_all (is_under ends.now) keys.now }
{
    keys.iter().all(|key| is_under_end(ends, key))
}

/// The segments and the last numbers of the ends of a database; `Damaged` where one may not stand in a book.
pub(crate) fn stated_in<S: Alter>(
    alloc: Global,
    tx: &mut Transaction<'_, S>,
) -> Result<Vec<(SegmentKey, u32)>, RowFault>
    ensures examined { Within S.Store tx.old tx.new (Examines (λ db. AreStated db → ⊥)) result (λ db lasts. AreRightLasts db lasts.items) }
{
    let rows = list_of(tx, TableName::SegmentEnds)?;
    lasts_of(alloc, rows.as_slice())
}
