//! A sender's line as the book in memory has it: each transmission read anew.
ghost use Rattle.std.specs.Prelude.{◌≡◌, [], IfOk, option_map, true, unwrap_or};
ghost use Rattle.cwr_files.specs.Contents.{transmission_in};
ghost use Rattle.sender_segments.specs.Ways.{end_stated};
ghost use Rattle.society_core.specs.Answers.{end_known, shown_in, transmission_known};
ghost use Rattle.society_core.specs.Ends.{ended_before, place_stated, same_end};
ghost use Rattle.society_core.specs.Requests.{shown_of};
ghost use Rattle.society_core.specs.Book.{IsSound, ack, body_at, front, is_there, shown_verdicts, transmissions_to, version_in};
ghost use Rattle.works_core.specs.Line.{line_of};

use crate::answers::Work;
use crate::plain_book::PlainBook;
use crate::store::{KnownEnd, KnownTransmission};
use crate::work::show;
use ack_files::write_ack;
use cwr_files::{Transmission, known_transmission};
use share_rules::Office;
use std::alloc::{AllocError, Global};
use work_ids::{SegmentEnd, SegmentPlace, SenderKey, TransmissionNumber, WorkNumber};
use works_core::{SenderLine, Verdict, WorkVersion};

/// The transmission that stands under a sender's number.
pub(crate) fn transmission_of<'a>(
    alloc: Global,
    book: &'a PlainBook,
    sender: &SenderKey,
    number: TransmissionNumber,
) -> Result<Transmission<'a>, AllocError>
    requires sound { IsSound book.now }
    requires there { is_there book.now sender.now number ≡ true }
    ensures { IfOk result (λ t. t ≡ transmission_in (unwrap_or (body_at book.now sender.now number) [])) }
{
    let Some(body) = book.transmission(sender, number) else {
        unreachable!();
    };
    known_transmission(alloc, body, sender)
}

/// A sender's line up to one of its numbers.
pub(crate) fn line_to(
    alloc: Global,
    office: &Office,
    book: &PlainBook,
    sender: &SenderKey,
    last: u32,
) -> Result<SenderLine, AllocError>
    requires sound { IsSound book.now }
    ensures office { IfOk result (λ line. line.office ≡ office.now) }
    ensures line { IfOk result (λ line. line.transmissions ≡ line_of office.now (transmissions_to book.now sender.now last)) }
{
    let mut line = SenderLine::new(alloc, office);
    let numbers = book.numbers_to(alloc, sender, last)?;
    for next in &numbers {
        let transmission = transmission_of(alloc, book, sender, *next)?;
        line.apply(*next, &transmission)?;
    }
    Ok(line)
}

// The last number of a number's segment, where the number is above it.
fn ended_before(book: &PlainBook, sender: &SenderKey, number: TransmissionNumber) -> Option<u32>
    ensures { result ≡ ended_before book.now sender.now number }
{
    match book.end(sender, SegmentPlace::of_rank(number.value())) {
        Some(end) if end.last() < number.sequence() => Some(end.last()),
        _ => None,
    }
}

/// What the book has under a transmission's number, with its place where it is these bytes.
pub(crate) fn known_in(
    book: &PlainBook,
    sender: &SenderKey,
    number: TransmissionNumber,
    body: &[u8],
) -> KnownTransmission
    requires sound { IsSound book.now }
    ensures { result ≡ transmission_known book.now sender.now number body.now }
{
    match book.transmission(sender, number) {
        None => match ended_before(book, sender, number) {
            Some(last) => KnownTransmission::Ended(last),
            None => KnownTransmission::Absent,
        },
        Some(kept) => {
            if kept.as_slice() == body {
                KnownTransmission::Same(book.place(sender, number))
            } else {
                KnownTransmission::Other
            }
        }
    }
}

// Whether two ends of one segment say the same.
fn is_same_end(kept: &SegmentEnd, end: &SegmentEnd) -> bool
    ensures { result ≡ same_end (end_stated kept.now) (end_stated end.now) }
{
    kept.last() == end.last() && kept.next() == end.next()
}

/// What the book has of the segment of an end.
pub(crate) fn known_end_in(book: &PlainBook, sender: &SenderKey, end: &SegmentEnd) -> KnownEnd
    ensures { result ≡ end_known book.now sender.now (place_stated end.now) (end_stated end.now) }
{
    match book.end(sender, end.place()) {
        None => match book.number_past(sender, end) {
            Some(number) => KnownEnd::Passed(number),
            None => KnownEnd::Absent,
        },
        Some(kept) => {
            if is_same_end(kept, end) {
                KnownEnd::Same(book.front(sender))
            } else {
                KnownEnd::Other
            }
        }
    }
}

/// The verdicts of a sender's transmission, none where its number is not in the line.
pub(crate) fn verdicts_of(
    alloc: Global,
    office: &Office,
    book: &PlainBook,
    sender: &SenderKey,
    number: TransmissionNumber,
) -> Result<Option<Vec<Verdict>>, AllocError>
    requires sound { IsSound book.now }
    ensures { IfOk result (λ verdicts. option_map (λ list. list.items) verdicts ≡ shown_verdicts office.now book.now sender.now number) }
{
    if !book.is_applied(sender, number) {
        return Ok(None);
    }
    let line = line_to(alloc, office, book, sender, number.value())?;
    match line.verdicts(number) {
        Some(verdicts) => Ok(Some(Vec::from_slice(alloc, verdicts)?)),
        None => unreachable!(),
    }
}

/// The acknowledgement of a sender's transmission, none where its number is not in the line.
pub(crate) fn ack_of(
    alloc: Global,
    office: &Office,
    book: &PlainBook,
    sender: &SenderKey,
    number: TransmissionNumber,
) -> Result<Option<Vec<u8>>, AllocError>
    requires sound { IsSound book.now }
    ensures { IfOk result (λ text. option_map (λ bytes. bytes.items) text ≡ ack office.now book.now sender.now number) }
{
    if !book.is_applied(sender, number) {
        return Ok(None);
    }
    let transmission = transmission_of(alloc, book, sender, number)?;
    let line = line_to(alloc, office, book, sender, number.value())?;
    match line.verdicts(number) {
        Some(verdicts) => {
            let text = write_ack(alloc, office, sender, &transmission, verdicts)?;
            Ok(Some(text))
        }
        None => unreachable!(),
    }
}

// The version of a sender's work at the sender's front.
fn version_of(
    alloc: Global,
    office: &Office,
    book: &PlainBook,
    sender: &SenderKey,
    work: &WorkNumber,
) -> Result<Option<WorkVersion>, AllocError>
    requires sound { IsSound book.now }
    ensures { IfOk result (λ version. version ≡ version_in office.now book.now sender.now work.now (front book.now sender.now)) }
{
    let line = line_to(alloc, office, book, sender, book.front(sender))?;
    let Some(cut) = TransmissionNumber::from_u32(line.front()) else {
        return Ok(None);
    };
    Ok(line.work_at(work, cut))
}

/// A sender's work as its version at the sender's front shows it, none where it has none.
pub(crate) fn work_of(
    alloc: Global,
    office: &Office,
    book: &PlainBook,
    sender: &SenderKey,
    work: &WorkNumber,
) -> Result<Option<Work>, AllocError>
    requires sound { IsSound book.now }
    ensures { IfOk result (λ shown. option_map shown_of shown ≡ shown_in office.now book.now sender.now work.now) }
{
    let Some(version) = version_of(alloc, office, book, sender, work)? else {
        return Ok(None);
    };
    let transmission = transmission_of(alloc, book, sender, version.transmission)?;
    let Some(transaction) = transmission.transaction(version.place) else {
        unreachable!();
    };
    let shown = show(alloc, office, sender, work, version, transaction)?;
    Ok(Some(shown))
}
