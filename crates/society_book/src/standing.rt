//! How a sender stands: its front, and its numbers that are held.
ghost use Rattle.std.specs.Prelude.{◌≡◌, ◌≤◌};
ghost use Rattle.society_core.specs.Book.{front, held};
ghost use Rattle.society_rows.specs.Between.{between};
ghost use Rattle.society_rows.specs.Questions.{Asks};
ghost use Rattle.society_book.specs.AnswersShown.{IsStanding};
ghost use Rattle.society_book.specs.Shown.{ByBook};
ghost use Rattle.society_book.specs.Standing.{ListsSkipped};

use crate::ends_read::ends_of;
use crate::numbers::{append_above, append_within};
use crate::senders::front_of;
use crate::skips::skips_to;
use society_core::SenderStatus;
use society_rows::{Idle, RowFault};
use sqlite::Alter;
use std::alloc::Global;
use work_ids::{Segment, TransmissionNumber};

// The numbers of a sender's transmissions in the segments that its line skips up to its front, ascending.
fn skipped_to<S: Alter>(
    alloc: Global,
    conn: &mut Idle<S>,
    sender: &[u8],
    reached: u32,
) -> Result<Vec<TransmissionNumber>, RowFault>
    ensures asked { between S.Store conn.old conn.new Asks result (ByBook (λ _ book list. reached ≡ front book sender.now → ListsSkipped book sender.now reached list.items)) }
{
    let ends = ends_of(conn, sender)?;
    let skips = skips_to(alloc, &ends, reached)?;
    let mut list = Vec::new(alloc);
    for skip in skips.as_slice() {
        append_within(conn, sender, skip.above, skip.below, &mut list)?;
    }
    Ok(list)
}

// The numbers of the held transmissions of a sender that has come to a plain front, ascending: it skips no segment.
fn held_above<S: Alter>(
    alloc: Global,
    conn: &mut Idle<S>,
    sender: &[u8],
    reached: u32,
) -> Result<Vec<TransmissionNumber>, RowFault>
    requires { reached ≤ 999999 }
    ensures asked { between S.Store conn.old conn.new Asks result (ByBook (λ _ book list. reached ≡ front book sender.now → list.items ≡ held book sender.now)) }
{
    let mut list = Vec::new(alloc);
    append_above(conn, sender, reached, &mut list)?;
    Ok(list)
}

// The numbers of the held transmissions of a sender that has come to a front, ascending.
fn held_at<S: Alter>(
    alloc: Global,
    conn: &mut Idle<S>,
    sender: &[u8],
    reached: u32,
) -> Result<Vec<TransmissionNumber>, RowFault>
    ensures asked { between S.Store conn.old conn.new Asks result (ByBook (λ _ book list. reached ≡ front book sender.now → list.items ≡ held book sender.now)) }
{
    if reached <= Segment::Plain.greatest() {
        return held_above(alloc, conn, sender, reached);
    }
    let mut list = skipped_to(alloc, conn, sender, reached)?;
    append_above(conn, sender, reached, &mut list)?;
    Ok(list)
}

/// How a sender stands: its front, and the numbers of its held transmissions, ascending.
pub(crate) fn status_of<S: Alter>(
    alloc: Global,
    conn: &mut Idle<S>,
    sender: &[u8],
) -> Result<SenderStatus, RowFault>
    ensures asked { between S.Store conn.old conn.new Asks result (ByBook (λ _ book status. IsStanding book sender.now status)) }
{
    let front = front_of(conn, sender)?;
    let held = held_at(alloc, conn, sender, front)?;
    Ok(SenderStatus { front, held })
}
