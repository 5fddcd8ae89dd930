//! Where a log with a header ends.
ghost use Rattle.std.specs.Prelude.{◌≡◌, ◌+◌, ◌≤◌, ◌↔◌, length, slice_index, IfErr, IfOk, IsTrue};
ghost use Rattle.sqlite_wal.specs.Recovery.{frame_at, header, sum_before};
ghost use Rattle.log_reading.specs.Frames.{HasHeader, IsEnd};
ghost use Rattle.log_reading.specs.Stands.{EndsWhole, IsShut};

use crate::fault::LogFault;
use crate::frames::{follows, frames_in, offset_of, read_frame};
use crate::source::ReadAt;
use crate::words::{Sums, get_be32, get_sums};

/// Where a frame has the first byte of its salts.
const GATE: usize = 8;

/// The end of a log: behind how many frames, the sums up to there, and whether the last of them ends a transaction.
#[derive(Clone, Copy)]
pub(crate) struct End {
    pub(crate) frames: usize,
    pub(crate) sums: Sums,
    pub(crate) is_whole: bool,
}

/// The end of a log that has this header.
pub(crate) fn end_of<L: ReadAt>(
    log: &L,
    len: usize,
    size: usize,
    head: &[u8; 32],
    frame: &mut [u8],
) -> Result<End, LogFault>
    requires len { IsTrue (L.is_known log.now) → len ≡ length (L.bytes log.now) }
    requires long { 32 ≤ len }
    requires size { size ≤ 65536 }
    requires head { IsTrue (L.is_known log.now) → head.now ≡ header (L.bytes log.now) }
    requires frame { length frame.old ≡ 24 + size }
    ensures ok { IfOk result (λ end. IsTrue (L.is_known log.now) → IsEnd size (L.bytes log.now) end.frames) }
    ensures sums { IfOk result (λ end. IsTrue (L.is_known log.now) → end.sums ≡ sum_before size (L.bytes log.now) end.frames) }
    ensures whole { IfOk result (λ end. IsTrue (L.is_known log.now) → (IsTrue end.is_whole ↔ EndsWhole size (L.bytes log.now) end.frames)) }
    ensures within { IfOk result (λ end. frame_at size end.frames ≤ len) }
    ensures err { IfErr result (λ e. (e ≡ LogFault.Unread) × (IsTrue (L.is_known log.now) → ⊥)) }
{
    let mut sums = get_sums(head, 24);
    let mut is_whole = true;
    let count = frames_in(len, size);
    for i in 0..count {
        read_frame(log, len, size, i, frame)?;
        if !follows(head, sums, frame) {
            return Ok(End {
                frames: i,
                sums,
                is_whole,
            });
        }
        sums = get_sums(frame, 16);
        is_whole = get_be32(frame, 4) != 0;
    }
    Ok(End {
        frames: count,
        sums,
        is_whole,
    })
}

/// Whether the place behind so many frames is shut, for this first byte of the log's salts.
pub(crate) fn is_shut<L: ReadAt>(
    log: &L,
    len: usize,
    size: usize,
    frames: usize,
    key: u8,
) -> Result<bool, LogFault>
    requires len { IsTrue (L.is_known log.now) → len ≡ length (L.bytes log.now) }
    requires size { size ≤ 65536 }
    requires within { frame_at size frames ≤ len }
    requires key { IsTrue (L.is_known log.now) → key ≡ slice_index (L.bytes log.now) 16 }
    ensures ok { IfOk result (λ shut. IsTrue (L.is_known log.now) → (IsTrue shut ↔ IsShut size (L.bytes log.now) frames)) }
    ensures err { IfErr result (λ e. (e ≡ LogFault.Unread) × (IsTrue (L.is_known log.now) → ⊥)) }
{
    let at = offset_of(len, size, frames);
    if len - at <= GATE {
        return Ok(false);
    }
    let mut gate = [0];
    let Ok(()) = log.read_at(at + GATE, &mut gate) else {
        return Err(LogFault::Unread);
    };
    Ok(gate[0] != key)
}
