//! Frames of a log, by their numbers from 0.
ghost use Rattle.std.specs.Prelude.{◌≡◌, ◌+◌, ◌*◌, ◌<◌, ◌≤◌, ◌↔◌, ◌==◌, ℕ, length, slice_index, IfErr, IsTrue, OnOk};
ghost use Rattle.sqlite_wal.specs.Format.{is_big, part};
ghost use Rattle.sqlite_wal.specs.Recovery.{frame, frame_at};
ghost use Rattle.log_reading.specs.Frames.{HasFrame, SumsFrom};

use crate::fault::LogFault;
use crate::header::HEADER;
use crate::source::ReadAt;
use crate::words::{Sums, get_be32, get_sums, has_salts};
use sqlite_wal::checksum_of;

/// Bytes of a frame before its page.
pub(crate) const FRAME_HEADER: usize = 24;

/// How many whole frames a log of so many bytes has, for pages of this size.
pub(crate) fn frames_in(len: usize, size: usize) -> usize
    requires { size ≤ 65536 }
    ensures within { (i : ℕ) → i < result → frame_at size i + (24 + size) ≤ len }
    ensures past { (i : ℕ) → result ≤ i → len < frame_at size i + (24 + size) }
    ensures end { 32 ≤ len → frame_at size result ≤ len }
{
    if len < HEADER {
        return 0;
    }
    (len - HEADER) / (FRAME_HEADER + size)
}

/// Where a frame begins that is there, or would stand behind the last.
pub(crate) fn offset_of(len: usize, size: usize, i: usize) -> usize
    requires size { size ≤ 65536 }
    requires within { frame_at size i ≤ len }
    ensures { result ≡ frame_at size i }
{
    HEADER + i * (FRAME_HEADER + size)
}

/// Reads a frame that is there.
pub(crate) fn read_frame<L: ReadAt>(
    log: &L,
    len: usize,
    size: usize,
    i: usize,
    buffer: &mut [u8],
) -> Result<(), LogFault>
    requires len { IsTrue (L.is_known log.now) → len ≡ length (L.bytes log.now) }
    requires size { size ≤ 65536 }
    requires within { frame_at size i + (24 + size) ≤ len }
    requires buffer { length buffer.old ≡ 24 + size }
    ensures ok { OnOk result (IsTrue (L.is_known log.now) → buffer.new ≡ frame size (L.bytes log.now) i) }
    ensures err { IfErr result (λ e. (e ≡ LogFault.Unread) × (IsTrue (L.is_known log.now) → ⊥)) }
{
    let at = offset_of(len, size, i);
    let Ok(()) = log.read_at(at, buffer) else {
        return Err(LogFault::Unread);
    };
    Ok(())
}

/// Whether a frame names a page, and its sums go on from those before it.
pub(crate) fn is_summed(big: bool, before: Sums, frame: &[u8]) -> bool
    requires { 24 ≤ length frame.now }
    ensures { IsTrue result ↔ SumsFrom big before frame.now }
{
    if get_be32(frame, 0) == 0 {
        return false;
    }
    let front = checksum_of(big, before, &frame[..8]);
    checksum_of(big, front, &frame[FRAME_HEADER..]) == get_sums(frame, 16)
}

/// Whether a frame goes on from the one before it, and has the salts of a header.
pub(crate) fn follows(head: &[u8; 32], before: Sums, frame: &[u8]) -> bool
    requires { 24 ≤ length frame.now }
    ensures { IsTrue result ↔ (SumsFrom (is_big head.now) before frame.now × (part frame.now 8 8 ≡ part head.now 16 8)) }
{
    has_salts(frame, head, 16) && is_summed(head[3] == 0x83, before, frame)
}
