//! What stands behind the end of a log with a header.
ghost use Rattle.std.specs.Prelude.{◌≡◌, ◌≢◌, ◌⊎◌, ◌+◌, ◌≤◌, ◌↔◌, ℕ, false, length, IfErr, IfOk, IsTrue};
ghost use Rattle.sqlite_wal.specs.Format.{commit_size, is_big, part};
ghost use Rattle.sqlite_wal.specs.Recovery.{header, sum_before};
ghost use Rattle.log_reading.specs.Frames.{SumsFrom};
ghost use Rattle.log_reading.specs.Stands.{GoesOnBehind};

use crate::ending::End;
use crate::fault::LogFault;
use crate::frames::{follows, frames_in, is_summed, read_frame};
use crate::source::ReadAt;
use crate::words::{Sums, get_be32, get_sums, has_salts};

/// How many frames of a log may have to be tried behind its end: the office writes fewer than 2,000 pages in one piece.
const TRIED: usize = 1_999;

/// Whether a frame goes on from a transaction that ended, in the log with this header.
fn goes_on(head: &[u8; 32], before: Sums, frame: &[u8], has_ended: bool) -> bool
    requires { 24 ≤ length frame.now }
    ensures { IsTrue result ↔ (IsTrue has_ended × (SumsFrom (is_big head.now) before frame.now × (part frame.now 8 8 ≡ part head.now 16 8))) }
{
    has_ended && follows(head, before, frame)
}

/// Whether a transaction has ended with a frame, or before it where it goes on. It ends one of the log with this header by its sums, or, next
/// to a frame that is lost, by its salts.
fn has_ended_by(head: &[u8; 32], before: Sums, frame: &[u8], goes_on: bool, is_next: bool) -> bool
    requires { 24 ≤ length frame.now }
    ensures { IsTrue result ↔ (IsTrue goes_on ⊎ ((commit_size frame.now ≢ 0) × (SumsFrom (is_big head.now) before frame.now ⊎ (IsTrue is_next × (part frame.now 8 8 ≡ part head.now 16 8))))) }
{
    if goes_on {
        return true;
    }
    if get_be32(frame, 4) == 0 {
        return false;
    }
    if is_summed(head[3] == 0x83, before, frame) {
        return true;
    }
    is_next && has_salts(frame, head, 16)
}

/// Whether two transactions stand behind the end of a log with this header, of which the second goes on from the first.
pub(crate) fn goes_on_behind<L: ReadAt>(
    log: &L,
    len: usize,
    size: usize,
    head: &[u8; 32],
    end: End,
    frame: &mut [u8],
) -> Result<bool, LogFault>
    requires len { IsTrue (L.is_known log.now) → len ≡ length (L.bytes log.now) }
    requires size { size ≤ 65536 }
    requires head { IsTrue (L.is_known log.now) → head.now ≡ header (L.bytes log.now) }
    requires sums { IsTrue (L.is_known log.now) → end.sums ≡ sum_before size (L.bytes log.now) end.frames }
    requires frame { length frame.old ≡ 24 + size }
    ensures yes { IfOk result (λ on. IsTrue (L.is_known log.now) → IsTrue on → (j : ℕ) × GoesOnBehind size (L.bytes log.now) end.frames j) }
    ensures no { IfOk result (λ on. IsTrue (L.is_known log.now) → on ≡ false → (j : ℕ) → GoesOnBehind size (L.bytes log.now) end.frames j → ⊥) }
    ensures err { IfErr result (λ e. (e ≡ LogFault.Unread) × (IsTrue (L.is_known log.now) → ⊥)) }
{
    let mut sums = end.sums;
    let mut has_ended = false;
    let from = end.frames;
    let to = frames_in(len, size).min(TRIED);
    for i in from..to {
        read_frame(log, len, size, i, frame)?;
        let on = goes_on(head, sums, frame, has_ended);
        if on && get_be32(frame, 4) != 0 {
            return Ok(true);
        }
        has_ended = has_ended_by(head, sums, frame, on, i - from == 1);
        sums = get_sums(frame, 16);
    }
    Ok(false)
}
