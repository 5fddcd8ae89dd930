//! How the ends that a sender stated are read.
ghost use Rattle.std.specs.Prelude.{◌≡◌, IfErr, IfOk};
ghost use Rattle.std.specs.List.{AllByRecursion};
ghost use Rattle.sender_segments.specs.Ways.{end_stated};
ghost use Rattle.society_core.specs.Ends.{place_stated};
ghost use Rattle.society_rows.specs.Between.{Within, between, within};
ghost use Rattle.society_rows.specs.Effects.{Errs};
ghost use Rattle.society_rows.specs.Questions.{Asks};
ghost use Rattle.society_book.specs.BookRows.{end_of};
ghost use Rattle.society_book.specs.Columns.{segment_place_at};
ghost use Rattle.society_book.specs.EndLists.{end_listed, end_shown, ReadsEnds};
ghost use Rattle.society_book.specs.Errors.{Blames};
ghost use Rattle.society_book.specs.RightRows.{IsRightStated, KeepsUnsound};
ghost use Rattle.society_book.specs.Steps.{LooksOpen};

use crate::sender_ends::SenderEnds;
use society_rows::{Idle, Question, RowFault, SegmentEndRow, answer, ask};
use sqlite::{Alter, Row, Transaction};
use std::alloc::Global;
use work_ids::SegmentEnd;

// The end that a row says; `Damaged` where it says none.
fn end_in(row: &Row) -> Result<SegmentEnd, RowFault>
    ensures reads { IfOk result (λ end. (place_stated end ≡ segment_place_at 1 row.now) × (end_stated end ≡ end_of row.now)) }
    ensures blames { IfErr result (Blames (IsRightStated row.now → ⊥)) }
{
    let row = SegmentEndRow::from_row(row)?;
    match SegmentEnd::new(row.segment, u64::from(row.last), u64::from(row.next)) {
        Ok(end) => Ok(end),
        Err(_) => Err(RowFault::Damaged),
    }
}

// The ends that rows say.
fn ends_shown(alloc: Global, rows: &[Row]) -> Result<SenderEnds, RowFault>
    ensures shows { IfOk result (λ ends. end_listed ends ≡ end_shown rows.now) }
    ensures blames { IfErr result (Blames (AllByRecursion IsRightStated rows.now → ⊥)) }
{
    let mut ends = SenderEnds::new(alloc);
    for row in rows {
        ends.push(&end_in(row)?)?;
    }
    Ok(ends)
}

/// The ends that a sender stated, read in a transaction.
pub fn ends_in<S: Alter>(tx: &mut Transaction<'_, S>, sender: &[u8]) -> Result<SenderEnds, RowFault>
    ensures looks { Within S.Store tx.old tx.new LooksOpen result (ReadsEnds sender.now) }
    ensures err { within S.Store tx.old tx.new (Errs KeepsUnsound) result }
{
    let rows = answer(tx, Question::Ends(sender))?;
    ends_shown(*rows.allocator(), rows.as_slice())
}

/// The ends that a sender stated.
pub fn ends_of<S: Alter>(conn: &mut Idle<S>, sender: &[u8]) -> Result<SenderEnds, RowFault>
    ensures asked { between S.Store conn.old conn.new Asks result (ReadsEnds sender.now) }
{
    let rows = ask(conn, Question::Ends(sender))?;
    ends_shown(*rows.allocator(), rows.as_slice())
}
