//! A body is fed to its reader while it comes.
ghost use Rattle.std.specs.Prelude.{◌≡◌, ◌++◌, [], ℕ, List, IfOk, IfErr, OnOk, OnErr, length, take, drop, min};
ghost use Rattle.cwr_files.specs.Fed.{WasFed};
ghost use Rattle.http_desk.specs.Counted.{empty_reads_of, failures_of, MeetsEnd};
ghost use Rattle.http_desk.specs.Feeding.{FeedsRequest, is_cut};
ghost use Rattle.http_desk.specs.Head.{HasHead};
ghost use Rattle.http_desk.specs.Input.{unread, FailsBy};

use crate::counted::Counted;
use crate::fault::FaultKind;
use crate::head::Head;
use crate::input::Input;
use cwr_files::{FileReader, ReadFault};
use std::alloc::AllocError;
use std::io::Read;

/// How the feeding of a body ended.
#[derive(Clone, Copy, Debug, PartialEq, Eq)]
pub(crate) enum Feeding {
    /// All of it was fed.
    Whole,
    /// The bytes ended before it did.
    Cut,
    /// Memory was refused for it.
    Refused,
}

// Feeds a piece. A fault of the file is kept by its reader, which takes the bytes behind it and keeps none of them.
fn feed_piece(sink: &mut FileReader, piece: &[u8]) -> Result<(), AllocError>
    ensures fed { OnOk result ((fed : List ℕ) → WasFed sink.old fed → WasFed sink.new (fed ++ piece.now)) }
    ensures refused { OnErr result (sink.new ≡ sink.old) }
    ensures sender { sink.new.sender ≡ sink.old.sender }
{
    match sink.feed(piece) {
        Ok(()) => Ok(()),
        Err(ReadFault::File(_)) => Ok(()),
        Err(ReadFault::Memory) => Err(AllocError),
    }
}

// Feeds what was read of a body of which so many bytes are to come, and takes it: so many bytes.
fn feed_read(input: &mut Input, left: usize, sink: &mut FileReader) -> Result<usize, AllocError>
    ensures count { IfOk result (λ count. count ≡ min (length (unread input.old)) left) }
    ensures fed { IfOk result (λ count. (fed : List ℕ) → WasFed sink.old fed
        → WasFed sink.new (fed ++ take count (unread input.old))) }
    ensures taken { IfOk result (λ count. unread input.new ≡ drop count (unread input.old)) }
    ensures refused { OnErr result ((sink.new ≡ sink.old) × (unread input.new ≡ unread input.old)) }
    ensures turns { input.new.turns ≡ input.old.turns }
    ensures sender { sink.new.sender ≡ sink.old.sender }
{
    let bytes = input.unread();
    let count = bytes.len().min(left);
    let Ok(()) = feed_piece(sink, &bytes[..count]) else {
        return Err(AllocError);
    };
    input.take(count);
    Ok(count)
}

/// Takes the head at the front, and feeds the body behind it while it comes. A faulty body is read to its end like any
/// other. After an error, or where the body is not whole, what was fed is of no more use.
pub(crate) fn feed_request<R: Read>(
    reader: &mut Counted<R>,
    input: &mut Input,
    head: &Head,
    sink: &mut FileReader,
) -> Result<Feeding, FaultKind>
    requires head { HasHead (unread input.old) head.now }
    requires empty { WasFed sink.old [] }
    ensures feeds { FeedsRequest R.remaining reader.old reader.new input.old input.new head.now sink.new result }
    ensures sender { sink.new.sender ≡ sink.old.sender }
    ensures met { IfOk result (λ feeding. MeetsEnd (is_cut feeding) (empty_reads_of reader.old) (empty_reads_of reader.new)) }
    ensures unmet { OnErr result (empty_reads_of reader.new ≡ empty_reads_of reader.old) }
    ensures kept { OnOk result (failures_of reader.new ≡ failures_of reader.old) }
    ensures err { IfErr result (λ kind.
        FailsBy kind input.new.turns (failures_of reader.old) (failures_of reader.new)) }
{
    input.take(head.length);
    let mut left = head.body as usize;
    while left > 0 {
        match input.fill(reader) {
            Ok(true) => {}
            Ok(false) => return Ok(Feeding::Cut),
            Err(kind) => return Err(kind),
        }
        let Ok(count) = feed_read(input, left, sink) else {
            return Ok(Feeding::Refused);
        };
        left -= count;
    }
    Ok(Feeding::Whole)
}
