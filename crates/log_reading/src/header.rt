//! The header of a log, as it was written or not.
ghost use Rattle.std.specs.Prelude.{◌≡◌, ◌≤◌, ◌↔◌, length, IfErr, IfOk, IsTrue, MatchOption};
ghost use Rattle.sqlite_wal.specs.Format.{IsSigned};
ghost use Rattle.sqlite_wal.specs.Recovery.{header};
ghost use Rattle.log_reading.specs.Frames.{HasHeader};

use crate::fault::LogFault;
use crate::source::ReadAt;
use crate::words::get_sums;
use sqlite_wal::checksum_of;

/// Bytes of a log's header.
pub(crate) const HEADER: usize = 32;

/// Whether a header begins as a log does and ends in its sums.
fn is_signed(head: &[u8; 32]) -> bool
    ensures { IsTrue result ↔ IsSigned head.now }
{
    if head[0] != 0x37 || head[1] != 0x7f || head[2] != 0x06 {
        return false;
    }
    if head[3] != 0x82 && head[3] != 0x83 {
        return false;
    }
    checksum_of(head[3] == 0x83, (0, 0), &head[..24]) == get_sums(head, 24)
}

/// The header of a log of so many bytes, or nothing where it has none that is as it was written.
pub(crate) fn read_header<L: ReadAt>(log: &L, len: usize) -> Result<Option<[u8; 32]>, LogFault>
    requires len { IsTrue (L.is_known log.now) → len ≡ length (L.bytes log.now) }
    ensures ok { IfOk result (λ found. IsTrue (L.is_known log.now) → MatchOption found (¬ HasHeader (L.bytes log.now)) (λ head. HasHeader (L.bytes log.now) × (head ≡ header (L.bytes log.now)))) }
    ensures long { IfOk result (λ found. MatchOption found (Unit {0}) (λ head. 32 ≤ len)) }
    ensures err { IfErr result (λ e. (e ≡ LogFault.Unread) × (IsTrue (L.is_known log.now) → ⊥)) }
{
    if len < HEADER {
        return Ok(None);
    }
    let mut head = [0; HEADER];
    let Ok(()) = log.read_at(0, &mut head) else {
        return Err(LogFault::Unread);
    };
    if is_signed(&head) {
        Ok(Some(head))
    } else {
        Ok(None)
    }
}
