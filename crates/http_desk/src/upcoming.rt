//! What comes next on a connection: a request, or the end.
ghost use Rattle.std.specs.Prelude.{◌≡◌, ◌⊎◌, [], ℕ, List, Option, IfOk, IfErr, IfSome, OnErr, OnOk};
ghost use Rattle.http_desk.specs.Counted.{inner_of, empty_reads_of, failures_of, MeetsEnd};
ghost use Rattle.http_desk.specs.Head.{HasHead};
ghost use Rattle.http_desk.specs.Input.{unread, ReadsAwaited, FailsBy};
ghost use Rattle.http_desk.specs.Outbox.{waiting, SendsTo};
ghost use Rattle.http_text.specs.Reads.{Awaits};
ghost use Rattle.http_desk.specs.Upcoming.{IsUpcomingHead, IsUpcoming, IsStopped, ended_with, is_at_end};

use crate::counted::Counted;
use crate::fault::FaultKind;
use crate::head::{Head, Reading, read_head};
use crate::input::Input;
use crate::outbox::Outbox;
use http_text::End;
use std::io::{Read, Write};

/// What stands at the front of the bytes that were read.
#[derive(Clone, Copy, Debug, PartialEq, Eq)]
pub(crate) enum Upcoming {
    /// A request with this head.
    Request(Head),
    /// The end of the connection.
    Ended(End),
}

// What stands at the front, where no more bytes are needed to tell it.
fn upcoming_in(bytes: &[u8]) -> Option<Upcoming>
    ensures { IfSome result (λ next. (society : ℕ) (known : Option (List ℕ)) → IsUpcoming society next bytes.now known) }
{
    match read_head(bytes) {
        Reading::Whole(head) => {
            if bytes.len() < head.length + head.body as usize {
                return None;
            }
            Some(Upcoming::Request(head))
        }
        Reading::Partial => None,
        Reading::Bad => Some(Upcoming::Ended(End::Bad)),
        Reading::TooLarge => Some(Upcoming::Ended(End::TooLarge)),
    }
}

/// What comes next: a head, or the end. Before more bytes are read for it, the answers that wait are written, and so they
/// are where a request is not whole yet.
pub(crate) fn next_answered<R: Read, W: Write>(
    reader: &mut Counted<R>,
    writer: &mut Counted<W>,
    input: &mut Input,
    outbox: &mut Outbox,
) -> Result<Upcoming, FaultKind>
    ensures reads { ReadsAwaited R.remaining reader.old reader.new input.old input.new }
    ensures met { IfOk result (λ next. MeetsEnd (is_at_end next) (empty_reads_of reader.old) (empty_reads_of reader.new)) }
    ensures unmet { OnErr result (empty_reads_of reader.new ≡ empty_reads_of reader.old) }
    ensures next { IfOk result (λ next. (society : ℕ)
        → IsUpcomingHead society next (unread input.new) (R.remaining (inner_of reader.new))) }
    ensures written { IfOk result (λ next. (waiting outbox.new ≡ [])
        ⊎ ((society : ℕ) → IsUpcoming society next (unread input.new) (R.remaining (inner_of reader.new)))) }
    ensures sends { OnOk result (SendsTo W.contents writer.old writer.new outbox.old outbox.new) }
    ensures kept { OnOk result (failures_of reader.new ≡ failures_of reader.old) }
    ensures kept_writer { OnOk result (failures_of writer.new ≡ failures_of writer.old) }
    ensures stops { IfErr result (IsStopped W.contents reader.old reader.new writer.old writer.new
        input.new (waiting outbox.old)) }
{
    if let Some(next) = upcoming_in(input.unread()) {
        return Ok(next);
    }
    let Ok(()) = outbox.flush(writer) else {
        return Err(FaultKind::Write);
    };
    next_head(reader, input)
}

// Reads on until a head stands at the front.
fn next_head<R: Read>(reader: &mut Counted<R>, input: &mut Input) -> Result<Upcoming, FaultKind>
    ensures reads { ReadsAwaited R.remaining reader.old reader.new input.old input.new }
    ensures met { IfOk result (λ next. MeetsEnd (is_at_end next) (empty_reads_of reader.old) (empty_reads_of reader.new)) }
    ensures unmet { OnErr result (empty_reads_of reader.new ≡ empty_reads_of reader.old) }
    ensures next { IfOk result (λ next. (society : ℕ)
        → IsUpcomingHead society next (unread input.new) (R.remaining (inner_of reader.new))) }
    ensures awaits { OnErr result (Awaits (unread input.new)) }
    ensures kept { OnOk result (failures_of reader.new ≡ failures_of reader.old) }
    ensures err { IfErr result (λ kind.
        FailsBy kind input.new.turns (failures_of reader.old) (failures_of reader.new)) }
{
    loop {
        match read_head(input.unread()) {
            Reading::Whole(head) => return Ok(Upcoming::Request(head)),
            Reading::Bad => return Ok(Upcoming::Ended(End::Bad)),
            Reading::TooLarge => return Ok(Upcoming::Ended(End::TooLarge)),
            Reading::Partial => {}
        }
        if !input.read_more(reader)? {
            return Ok(Upcoming::Ended(end_of(input.unread())));
        }
    }
}

// How a connection ends that has no further byte, with these bytes of a head.
fn end_of(bytes: &[u8]) -> End
    ensures { result ≡ ended_with bytes.now }
{
    if bytes.is_empty() {
        End::Quiet
    } else {
        End::Bad
    }
}

/// Reads on until the body of the head at the front is whole.
pub(crate) fn whole_request<R: Read>(
    reader: &mut Counted<R>,
    input: &mut Input,
    head: Head,
) -> Result<Upcoming, FaultKind>
    requires { HasHead (unread input.old) head }
    ensures reads { ReadsAwaited R.remaining reader.old reader.new input.old input.new }
    ensures met { IfOk result (λ next. MeetsEnd (is_at_end next) (empty_reads_of reader.old) (empty_reads_of reader.new)) }
    ensures unmet { OnErr result (empty_reads_of reader.new ≡ empty_reads_of reader.old) }
    ensures next { IfOk result (λ next. (society : ℕ)
        → IsUpcoming society next (unread input.new) (R.remaining (inner_of reader.new))) }
    ensures awaits { OnErr result (Awaits (unread input.new)) }
    ensures kept { OnOk result (failures_of reader.new ≡ failures_of reader.old) }
    ensures err { IfErr result (λ kind.
        FailsBy kind input.new.turns (failures_of reader.old) (failures_of reader.new)) }
{
    let size = head.length + head.body as usize;
    let Ok(()) = input.reserve(size) else {
        return Ok(Upcoming::Ended(End::Busy));
    };
    while input.unread().len() < size {
        if !input.read_more(reader)? {
            return Ok(Upcoming::Ended(End::Bad));
        }
    }
    Ok(Upcoming::Request(head))
}
