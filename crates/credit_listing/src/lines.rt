//! Lines of a reader.
ghost use Rattle.std.specs.Prelude.{◌≡◌, ◌≤◌, false, length, take, true, IfErr, IfOk, OnOk};
ghost use Rattle.std.specs.Io.KnownBytes.{IsAtEnd};
ghost use Rattle.http_desk.specs.Counted.{failures_of, inner_of};
ghost use Rattle.http_desk.specs.Input.{unread};
ghost use Rattle.credit_listing.specs.Lines.{ComesBehind, IsNext, IsReadFault};

use http_desk::{Counted, FaultKind, Input};
use memchr::memchr;
use std::io::Read;

/// What ends a line.
const LINE_FEED: u8 = b'\n';

/// Bytes that no memory has: a line does not grow past so many.
const MAX_LINE: usize = 1 << 39;

/// A line at the front of the input.
#[derive(Clone, Copy)]
pub(crate) struct Line {
    /// Its bytes, with its end where it has one.
    pub(crate) length: usize,
    /// Whether it has no end, since it is all that is left of what the reader gave.
    pub(crate) is_last: bool,
}

/// The next line at the front of the input; the last one may have no byte, where nothing is left. `Read` where the reader failed, `Memory`
/// where memory for the line was refused.
pub(crate) fn next_line<R: Read>(
    input: &mut Input,
    reader: &mut Counted<R>,
) -> Result<Line, FaultKind>
    ensures within { IfOk result (λ line. line.length ≤ length (unread input.new)) }
    ensures line { IfOk result (λ line. IsNext line.is_last (take line.length (unread input.new))) }
    ensures came { ComesBehind R.remaining reader.old reader.new input.old input.new }
    ensures kept { OnOk result (failures_of reader.new ≡ failures_of reader.old) }
    ensures failed { IfErr result (λ kind. IsReadFault kind (failures_of reader.old) (failures_of reader.new)) }
    ensures ended { IfOk result (λ line. line.is_last ≡ true
        → (line.length ≡ length (unread input.new)) × IsAtEnd (R.remaining (inner_of reader.new))) }
{
    let mut seen = 0;
    for _ in 0..u64::MAX {
        if let Some(place) = memchr(LINE_FEED, &input.unread()[seen..]) {
            return Ok(Line {
                length: seen + place + 1,
                is_last: false,
            });
        }
        seen = input.unread().len();
        if !read_on(input, reader, seen)? {
            return Ok(Line {
                length: seen,
                is_last: true,
            });
        }
    }
    Err(FaultKind::Turns)
}

// Whether more bytes came behind so many.
fn read_on<R: Read>(
    input: &mut Input,
    reader: &mut Counted<R>,
    seen: usize,
) -> Result<bool, FaultKind>
    requires { seen ≡ length (unread input.old) }
    ensures more { IfOk result (λ _. seen ≤ length (unread input.new)) }
    ensures came { ComesBehind R.remaining reader.old reader.new input.old input.new }
    ensures kept { OnOk result (failures_of reader.new ≡ failures_of reader.old) }
    ensures failed { IfErr result (λ kind. IsReadFault kind (failures_of reader.old) (failures_of reader.new)) }
    ensures ended { IfOk result (λ more. more ≡ false → (unread input.new ≡ unread input.old) × IsAtEnd (R.remaining (inner_of reader.new))) }
{
    if seen > MAX_LINE {
        return Err(FaultKind::Memory);
    }
    match input.reserve(seen) {
        Ok(()) => input.read_more(reader),
        Err(_) => Err(FaultKind::Memory),
    }
}
