//! What is asked of a sender.
ghost use Rattle.std.specs.Prelude.{◌≡◌, ◌≤◌, ◌<◌, ◌^◌, List, ℕ, pos, None, Ok, Option, Some, map, IfErr, IfOk, true};
ghost use Rattle.sqlite_value.specs.Order.{column};
ghost use Rattle.sqlite_value.specs.declared.value.Value.TheVariants.{Int};
ghost use Rattle.society_rows.specs.declared.fault.RowFault.TheVariants.{Damaged};
ghost use Rattle.sender_segments.specs.Ways.{StatedEnds, numbers_up_to};
ghost use Rattle.society_core.specs.Answers.{free_under, known_as, known_by, place_in_book, transmission_known};
ghost use Rattle.society_core.specs.declared.store.KnownTransmission.TheVariants as transmissions;
ghost use Rattle.society_core.specs.Book.{front, is_in_line, is_one_of, shown_verdicts};
ghost use Rattle.society_core.specs.Ends.{ended_before};
ghost use Rattle.society_rows.specs.Questions.{Asks};
ghost use Rattle.society_book.specs.Shown.{ByBook, ShowBody, ShowFront, verdict_in};
ghost use Rattle.society_rows.specs.Between.{between};
ghost use Rattle.society_book.specs.Items.{items_of};

use crate::bodies::compare_body;
use crate::ends_read::ends_of;
use society_core::{Known, KnownTransmission, NumberPlace};
use society_rows::{Idle, Question, RowFault, TransmissionRow, VerdictRow, ask};
use sqlite::{Alter, Row};
use sqlite_value::value::ValueRef;
use std::alloc::Global;
use work_ids::{Segment, TransmissionNumber};
use works_core::Verdict;

// The front that a row says, none where it says no number of that size.
fn front_said(row: &Row) -> Option<u32>
    ensures { (n : ℕ) → n < 2 ^ 32 → column row.now 1 ≡ Int (pos n) → result ≡ Some n }
{
    let Ok(ValueRef::Int(front)) = row.get_ref(1) else {
        return None;
    };
    match u32::try_from(front) {
        Ok(front) => Some(front),
        Err(_) => None,
    }
}

/// The front that the rows of a sender's front show, as a rank; `Damaged` where they show none.
pub fn shown_front(rows: &[Row]) -> Result<u32, RowFault>
    ensures exact { (n : ℕ) → n < 2 ^ 32 → ShowFront n rows.now → result ≡ Ok n }
    ensures err { IfErr result (λ e. e ≡ Damaged) }
{
    match rows {
        [] => Ok(0),
        [row] => match front_said(row) {
            Some(front) => Ok(front),
            None => Err(RowFault::Damaged),
        },
        _ => Err(RowFault::Damaged),
    }
}

/// A sender's front.
pub fn front_of<S: Alter>(conn: &mut Idle<S>, sender: &[u8]) -> Result<u32, RowFault>
    ensures asked { between S.Store conn.old conn.new Asks result (ByBook (λ _ book n. n ≡ front book sender.now)) }
{
    let rows = ask(conn, Question::Front(sender))?;
    shown_front(rows.as_slice())
}

// Whether the rows of a transmission show these bytes, others, or none; `Damaged` where they are more than one.
fn known_transmission_in(rows: &[Row], body: &[u8]) -> Result<Known, RowFault>
    ensures { (kept : Option (List ℕ)) → ShowBody kept rows.now → IfOk result (λ known. known ≡ known_by body.now kept) }
{
    match rows {
        [] => Ok(Known::Absent),
        [row] => Ok(compare_body(TransmissionRow::from_row(row)?.body, body)),
        _ => Err(RowFault::Damaged),
    }
}

// Whether the book has a transmission, another one under its number, or none.
fn known_at_number<S: Alter>(
    conn: &mut Idle<S>,
    sender: &[u8],
    number: u32,
    body: &[u8],
) -> Result<Known, RowFault>
    ensures asked { between S.Store conn.old conn.new Asks result (ByBook (λ _ book known. known ≡ known_as book sender.now number body.now)) }
{
    let rows = ask(conn, Question::Transmission(sender, number))?;
    known_transmission_in(rows.as_slice(), body)
}

// Where a number stands at a front among the plain numbers: no end was passed, so all numbers up to the front are in the line.
fn plain_place(reached: u32, number: TransmissionNumber) -> NumberPlace
    requires { reached ≤ 999999 }
    ensures front { result.front ≡ reached }
    ensures applied { (ends : StatedEnds) → result.is_applied ≡ is_one_of (numbers_up_to ends reached) number }
{
    NumberPlace {
        front: reached,
        is_applied: number.value() <= reached,
    }
}

// Where a number of a sender stands that has come to a front.
fn place_at<S: Alter>(
    conn: &mut Idle<S>,
    sender: &[u8],
    number: TransmissionNumber,
    reached: u32,
) -> Result<NumberPlace, RowFault>
    ensures asked { between S.Store conn.old conn.new Asks result (ByBook (λ _ book place. reached ≡ front book sender.now → place ≡ place_in_book book sender.now number)) }
{
    let ends = ends_of(conn, sender)?;
    Ok(NumberPlace {
        front: reached,
        is_applied: ends.is_in_line(reached, number),
    })
}

/// Where a number of a sender stands. The ends are not asked for while the front is a plain number.
pub fn place_of<S: Alter>(
    conn: &mut Idle<S>,
    sender: &[u8],
    number: TransmissionNumber,
) -> Result<NumberPlace, RowFault>
    ensures asked { between S.Store conn.old conn.new Asks result (ByBook (λ _ book place. place ≡ place_in_book book sender.now number)) }
{
    let reached = front_of(conn, sender)?;
    if reached <= Segment::Plain.greatest() {
        return Ok(plain_place(reached, number));
    }
    place_at(conn, sender, number, reached)
}

// What is known of a transmission that the book has, with its place.
fn same_at_place<S: Alter>(
    conn: &mut Idle<S>,
    sender: &[u8],
    number: TransmissionNumber,
) -> Result<KnownTransmission, RowFault>
    ensures asked { between S.Store conn.old conn.new Asks result (ByBook (λ _ book found. found ≡ transmissions.Same (place_in_book book sender.now number))) }
{
    let place = place_of(conn, sender, number)?;
    Ok(KnownTransmission::Same(place))
}

// What is known of a number under which nothing is.
fn free_number<S: Alter>(
    conn: &mut Idle<S>,
    sender: &[u8],
    number: TransmissionNumber,
) -> Result<KnownTransmission, RowFault>
    ensures asked { between S.Store conn.old conn.new Asks result (ByBook (λ _ book found. found ≡ free_under (ended_before book sender.now number))) }
{
    let ends = ends_of(conn, sender)?;
    Ok(match ends.ended_before(number) {
        Some(last) => KnownTransmission::Ended(last),
        None => KnownTransmission::Absent,
    })
}

/// What the book has under a transmission's number, with its place where it is these bytes. The front of any other
/// is not asked for: an arrival reads it in its own transaction.
pub fn known_of<S: Alter>(
    conn: &mut Idle<S>,
    sender: &[u8],
    number: TransmissionNumber,
    body: &[u8],
) -> Result<KnownTransmission, RowFault>
    ensures asked { between S.Store conn.old conn.new Asks result (ByBook (λ _ book found. found ≡ transmission_known book sender.now number body.now)) }
{
    match known_at_number(conn, sender, number.value(), body)? {
        Known::Absent => free_number(conn, sender, number),
        Known::Same => same_at_place(conn, sender, number),
        Known::Other => Ok(KnownTransmission::Other),
    }
}

// The verdict that a row is; `Damaged` where it is none: an accepted one has an ordinal from 1.
fn verdict_of(row: &Row) -> Result<Verdict, RowFault>
    ensures { IfOk result (λ verdict. Some verdict ≡ verdict_in row.now) }
{
    let row = VerdictRow::from_row(row)?;
    if row.fault != 0 {
        return match u8::try_from(row.fault) {
            Ok(fault) => Ok(Verdict::Rejected(fault)),
            Err(_) => Err(RowFault::Damaged),
        };
    }
    let (Ok(ordinal), Ok(revision)) = (u64::try_from(row.ordinal), u64::try_from(row.revision))
    else {
        return Err(RowFault::Damaged);
    };
    if ordinal == 0 {
        return Err(RowFault::Damaged);
    }
    Ok(Verdict::Accepted { ordinal, revision })
}

// The verdicts that rows are, in their order.
fn verdicts_in(alloc: Global, rows: &[Row]) -> Result<Vec<Verdict>, RowFault>
    ensures { IfOk result (λ list. map Some list.items ≡ map verdict_in rows.now) }
{
    let mut list = Vec::with_capacity(alloc, rows.len())?;
    for row in rows {
        list.push(verdict_of(row)?)?;
    }
    Ok(list)
}

// The verdicts of a transmission whose number is in its sender's line.
fn judged_of<S: Alter>(
    alloc: Global,
    conn: &mut Idle<S>,
    sender: &[u8],
    number: TransmissionNumber,
) -> Result<Option<Vec<Verdict>>, RowFault>
    ensures asked { between S.Store conn.old conn.new Asks result (ByBook (λ office book shown. is_in_line book sender.now number ≡ true → items_of shown ≡ shown_verdicts office book sender.now number)) }
{
    let rows = ask(conn, Question::Verdicts(sender, number.value()))?;
    let list = verdicts_in(alloc, rows.as_slice())?;
    Ok(Some(list))
}

/// The verdicts of a transmission, none where its number is not in its sender's line.
pub(crate) fn verdicts_of<S: Alter>(
    alloc: Global,
    conn: &mut Idle<S>,
    sender: &[u8],
    number: TransmissionNumber,
) -> Result<Option<Vec<Verdict>>, RowFault>
    ensures asked { between S.Store conn.old conn.new Asks result (ByBook (λ office book shown. items_of shown ≡ shown_verdicts office book sender.now number)) }
{
    let place = place_of(conn, sender, number)?;
    if !place.is_applied {
        return Ok(None);
    }
    judged_of(alloc, conn, sender, number)
}
