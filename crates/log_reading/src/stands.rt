//! Whether a log is as a stop of the office can leave it.
ghost use Rattle.std.specs.Prelude.{◌≡◌, ◌≢◌, ◌+◌, ◌<◌, ◌≤◌, ◌↔◌, List, ℕ, false, length, slice_index, IfErr, IfOk, IsTrue, OnOk};
ghost use Rattle.sqlite_wal.specs.PageSize.{size_in_file};
ghost use Rattle.sqlite_wal.specs.Recovery.{frame_at, header};
ghost use Rattle.log_reading.specs.Frames.{HasHeader};
ghost use Rattle.log_reading.specs.Stands.{EndsWhole, HasSums, IsShut, Stands, StandsWith, StandsWithout};

use crate::behind::goes_on_behind;
use crate::ending::{End, end_of, is_shut};
use crate::fault::LogFault;
use crate::frames::{FRAME_HEADER, frames_in};
use crate::header::read_header;
use crate::old_frames::{lacks_page, old_frames};
use crate::source::ReadAt;
use crate::words::get_be32;
use sqlite_wal::PageSize;
use std::alloc::Global;

/// The version of the log's format.
const VERSION: u32 = 3_007_000;

/// Where a database's header says how many bytes of each page are reserved, and how many are for page sums.
const RESERVED: usize = 20;

const SUM_BYTES: u8 = 8;

/// Where it has the size of a page, in two bytes.
const PAGE_SIZE: usize = 16;

/// Where a log's header has its salts.
const SALTS: usize = 16;

/// The first byte of a log.
const FIRST: u8 = 0x37;

/// Whether the pages of a file have sums.
fn has_sums<D: ReadAt>(db: &D, db_len: usize) -> Result<bool, LogFault>
    requires len { IsTrue (D.is_known db.now) → db_len ≡ length (D.bytes db.now) }
    ensures ok { IfOk result (λ sums. IsTrue (D.is_known db.now) → (IsTrue sums ↔ HasSums (D.bytes db.now))) }
    ensures err { IfErr result (λ e. (e ≡ LogFault.Unread) × (IsTrue (D.is_known db.now) → ⊥)) }
{
    if db_len <= RESERVED {
        return Ok(false);
    }
    let mut reserved = [0];
    let Ok(()) = db.read_at(RESERVED, &mut reserved) else {
        return Err(LogFault::Unread);
    };
    Ok(reserved[0] == SUM_BYTES)
}

/// The size of a page that a file names, or 0 where it ends before it.
fn page_size_of<D: ReadAt>(db: &D, db_len: usize) -> Result<usize, LogFault>
    requires len { IsTrue (D.is_known db.now) → db_len ≡ length (D.bytes db.now) }
    ensures ok { IfOk result (λ size. IsTrue (D.is_known db.now) → size ≡ size_in_file (D.bytes db.now)) }
    ensures err { IfErr result (λ e. (e ≡ LogFault.Unread) × (IsTrue (D.is_known db.now) → ⊥)) }
{
    if db_len < 18 {
        return Ok(0);
    }
    let mut field = [0; 2];
    let Ok(()) = db.read_at(PAGE_SIZE, &mut field) else {
        return Err(LogFault::Unread);
    };
    let named = field[0] as usize * 256 + field[1] as usize;
    Ok(if named == 1 { 65536 } else { named })
}

/// Whether a log of a file with page sums ends behind whole transactions, with the place behind them shut.
fn is_closed<L: ReadAt>(
    log: &L,
    len: usize,
    size: usize,
    head: &[u8; 32],
    end: End,
    has_sums: bool,
) -> Result<bool, LogFault>
    requires len { IsTrue (L.is_known log.now) → len ≡ length (L.bytes log.now) }
    requires size { size ≤ 65536 }
    requires head { IsTrue (L.is_known log.now) → head.now ≡ header (L.bytes log.now) }
    requires within { frame_at size end.frames ≤ len }
    requires whole { IsTrue (L.is_known log.now) → (IsTrue end.is_whole ↔ EndsWhole size (L.bytes log.now) end.frames) }
    ensures ok { IfOk result (λ closed. IsTrue (L.is_known log.now) → (IsTrue closed ↔ (IsTrue has_sums → EndsWhole size (L.bytes log.now) end.frames × IsShut size (L.bytes log.now) end.frames))) }
    ensures err { IfErr result (λ e. (e ≡ LogFault.Unread) × (IsTrue (L.is_known log.now) → ⊥)) }
{
    if !has_sums {
        return Ok(true);
    }
    if !end.is_whole {
        return Ok(false);
    }
    is_shut(log, len, size, end.frames, head[SALTS])
}

/// Whether a log with this header is as a stop leaves it.
fn stands_with<L: ReadAt>(
    alloc: Global,
    log: &L,
    len: usize,
    head: &[u8; 32],
    has_sums: bool,
) -> Result<bool, LogFault>
    requires len { IsTrue (L.is_known log.now) → len ≡ length (L.bytes log.now) }
    requires long { 32 ≤ len }
    requires head { IsTrue (L.is_known log.now) → head.now ≡ header (L.bytes log.now) }
    ensures yes { IfOk result (λ stands. IsTrue (L.is_known log.now) → IsTrue stands → (db : List ℕ) → (HasSums db → IsTrue has_sums) → StandsWith (L.bytes log.now) db) }
    ensures no { IfOk result (λ stands. IsTrue (L.is_known log.now) → stands ≡ false → (db : List ℕ) → (IsTrue has_sums → HasSums db) → StandsWith (L.bytes log.now) db → ⊥) }
    ensures err { IfErr result (λ e. (e ≢ LogFault.Damaged) × (e ≡ LogFault.Unread → IsTrue (L.is_known log.now) → ⊥)) }
{
    if get_be32(head, 4) != VERSION {
        return Ok(false);
    }
    let Some(size) = PageSize::new(get_be32(head, 8) as usize) else {
        return Ok(false);
    };
    let size = size.bytes();
    let Ok(mut frame) = vec![in alloc; 0; FRAME_HEADER + size] else {
        return Err(LogFault::Memory);
    };
    let end = end_of(log, len, size, head, &mut frame)?;
    if !is_closed(log, len, size, head, end, has_sums)? {
        return Ok(false);
    }
    Ok(!goes_on_behind(log, len, size, head, end, &mut frame)?)
}

/// Whether a log without a header is as a stop leaves it beside a file.
fn stands_without<L: ReadAt, D: ReadAt>(
    alloc: Global,
    log: &L,
    len: usize,
    db: &D,
    db_len: usize,
    has_sums: bool,
) -> Result<bool, LogFault>
    requires len { IsTrue (L.is_known log.now) → len ≡ length (L.bytes log.now) }
    requires db_len { IsTrue (D.is_known db.now) → db_len ≡ length (D.bytes db.now) }
    requires sums { IsTrue (D.is_known db.now) → (IsTrue has_sums ↔ HasSums (D.bytes db.now)) }
    ensures yes { IfOk result (λ stands. IsTrue (L.is_known log.now) → IsTrue (D.is_known db.now) → IsTrue stands → StandsWithout (L.bytes log.now) (D.bytes db.now)) }
    ensures no { IfOk result (λ stands. IsTrue (L.is_known log.now) → IsTrue (D.is_known db.now) → stands ≡ false → StandsWithout (L.bytes log.now) (D.bytes db.now) → ⊥) }
    ensures err { IfErr result (λ e. (e ≢ LogFault.Damaged) × (e ≡ LogFault.Unread → IsTrue (L.is_known log.now) → IsTrue (D.is_known db.now) → ⊥)) }
{
    if has_sums && begins_as_a_log(log, len)? {
        return Ok(false);
    }
    let Some(size) = PageSize::new(page_size_of(db, db_len)?) else {
        return Ok(true);
    };
    let size = size.bytes();
    let Ok(mut frame) = vec![in alloc; 0; FRAME_HEADER + size] else {
        return Err(LogFault::Memory);
    };
    if frames_in(len, size) < 2 {
        return Ok(true);
    }
    let old = old_frames(log, len, size, &mut frame)?;
    if old.last == 0 {
        return Ok(true);
    }
    let Ok(mut page) = vec![in alloc; 0; size] else {
        return Err(LogFault::Memory);
    };
    Ok(!lacks_page(log, len, db, db_len, size, old, &mut frame, &mut page)?)
}

/// Whether a log has a first byte, and that is a log's.
fn begins_as_a_log<L: ReadAt>(log: &L, len: usize) -> Result<bool, LogFault>
    requires len { IsTrue (L.is_known log.now) → len ≡ length (L.bytes log.now) }
    ensures ok { IfOk result (λ begins. IsTrue (L.is_known log.now) → (IsTrue begins ↔ ((0 < length (L.bytes log.now)) × (slice_index (L.bytes log.now) 0 ≡ 0x37)))) }
    ensures err { IfErr result (λ e. (e ≡ LogFault.Unread) × (IsTrue (L.is_known log.now) → ⊥)) }
{
    if len == 0 {
        return Ok(false);
    }
    let mut first = [0];
    let Ok(()) = log.read_at(0, &mut first) else {
        return Err(LogFault::Unread);
    };
    Ok(first[0] == FIRST)
}

/// Reads the log of a database's file, and as far as needed the file. It ends well where a stop of the office can leave them so; else the log
/// is `Damaged`. Its memory is that of two pages, however long the log is.
pub fn check_log<L: ReadAt, D: ReadAt>(alloc: Global, log: &L, db: &D) -> Result<(), LogFault>
    ensures stands { OnOk result (IsTrue (L.is_known log.now) → IsTrue (D.is_known db.now) → Stands (L.bytes log.now) (D.bytes db.now)) }
    ensures damaged { IfErr result (λ e. e ≡ LogFault.Damaged → IsTrue (L.is_known log.now) → IsTrue (D.is_known db.now) → Stands (L.bytes log.now) (D.bytes db.now) → ⊥) }
    ensures unread { IfErr result (λ e. e ≡ LogFault.Unread → IsTrue (L.is_known log.now) → IsTrue (D.is_known db.now) → ⊥) }
{
    let (Ok(len), Ok(db_len)) = (log.len(), db.len()) else {
        return Err(LogFault::Unread);
    };
    let has_sums = has_sums(db, db_len)?;
    let stands = match read_header(log, len)? {
        Some(head) => stands_with(alloc, log, len, &head, has_sums)?,
        None => stands_without(alloc, log, len, db, db_len, has_sums)?,
    };
    if stands {
        Ok(())
    } else {
        Err(LogFault::Damaged)
    }
}
