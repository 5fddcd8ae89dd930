//! What the book has of the segment of an end that is stated.
ghost use Rattle.std.specs.Prelude.{◌≡◌};
ghost use Rattle.sender_segments.specs.Ways.{end_stated};
ghost use Rattle.society_core.specs.Answers.{end_known, unstated_under};
ghost use Rattle.society_core.specs.Book.{front};
ghost use Rattle.society_core.specs.Ends.{number_past, place_stated};
ghost use Rattle.society_core.specs.declared.store.KnownEnd.TheVariants as ends;
ghost use Rattle.society_rows.specs.Between.{between};
ghost use Rattle.society_rows.specs.Questions.{Asks};
ghost use Rattle.society_book.specs.Shown.{ByBook};
ghost use Rattle.society_book.specs.Sources.{BySent};
ghost use Rattle.work_ids.specs.Segments.{base_of, index_of};

use crate::ends_read::ends_of;
use crate::numbers::last_within;
use crate::senders::front_of;
use sender_segments::first_rank;
use society_core::{Known, KnownEnd};
use society_rows::{Idle, RowFault};
use sqlite::Alter;
use work_ids::{Segment, SegmentEnd, TransmissionNumber};

// The rank before the first number of a segment.
fn rank_before(segment: Segment) -> u32
    ensures { result ≡ base_of (index_of segment) }
{
    match segment {
        Segment::Plain => 0,
        Segment::Year(year) => first_rank(year),
    }
}

// The greatest number of a sender's transmissions in the segment of an end that is above the end, none where there is none.
fn number_past_of<S: Alter>(
    conn: &mut Idle<S>,
    sender: &[u8],
    end: &SegmentEnd,
) -> Result<Option<TransmissionNumber>, RowFault>
    ensures asked { between S.Store conn.old conn.new Asks result (BySent (λ book number. number ≡ number_past book sender.now (place_stated end.now) end.now.last)) }
{
    let before = rank_before(end.segment());
    let behind = before + end.segment().greatest() + 1;
    last_within(conn, sender, before + end.last(), behind)
}

// What is known of an end whose segment has none.
fn free_segment<S: Alter>(
    conn: &mut Idle<S>,
    sender: &[u8],
    end: &SegmentEnd,
) -> Result<KnownEnd, RowFault>
    ensures asked { between S.Store conn.old conn.new Asks result (ByBook (λ _ book found. found ≡ unstated_under (number_past book sender.now (place_stated end.now) end.now.last))) }
{
    Ok(match number_past_of(conn, sender, end)? {
        Some(number) => KnownEnd::Passed(number),
        None => KnownEnd::Absent,
    })
}

// What is known of an end that its segment has, with its sender's front.
fn same_with_front<S: Alter>(conn: &mut Idle<S>, sender: &[u8]) -> Result<KnownEnd, RowFault>
    ensures asked { between S.Store conn.old conn.new Asks result (ByBook (λ _ book found. found ≡ ends.Same (front book sender.now))) }
{
    let reached = front_of(conn, sender)?;
    Ok(KnownEnd::Same(reached))
}

/// What the book has of the segment of an end: none, and the greatest number above it if there is one; this end, with its
/// sender's front; or another one.
pub fn known_end_of<S: Alter>(
    conn: &mut Idle<S>,
    sender: &[u8],
    end: &SegmentEnd,
) -> Result<KnownEnd, RowFault>
    ensures asked { between S.Store conn.old conn.new Asks result (ByBook (λ _ book found. found ≡ end_known book sender.now (place_stated end.now) (end_stated end.now))) }
{
    let stated = ends_of(conn, sender)?;
    match stated.known_end(end) {
        Known::Absent => free_segment(conn, sender, end),
        Known::Same => same_with_front(conn, sender),
        Known::Other => Ok(KnownEnd::Other),
    }
}
