//! What a log without a header has of an earlier life.
ghost use Rattle.std.specs.Prelude.{◌≡◌, ◌≢◌, ◌+◌, ◌<◌, ◌≤◌, ◌↔◌, ℕ, false, length, slice_index, IfErr, IfOk, IsTrue, OnOk};
ghost use Rattle.sqlite_wal.specs.Format.{commit_size, page_number, part};
ghost use Rattle.sqlite_wal.specs.Recovery.{file_page, frame, frame_at};
ghost use Rattle.log_reading.specs.Frames.{SumsFrom};
ghost use Rattle.log_reading.specs.OldFrames.{HasJoined};
ghost use Rattle.log_reading.specs.Stands.{IsOldEnd, Lacks};

use crate::fault::LogFault;
use crate::frames::{FRAME_HEADER, frames_in, is_summed, offset_of, read_frame};
use crate::source::ReadAt;
use crate::words::{Sums, get_be32, get_sums, has_salts};

/// The old frames up to one of them: the last that ends a transaction, or 0, the pages that the file then has, and the sums.
#[derive(Clone, Copy)]
pub(crate) struct OldFrames {
    pub(crate) last: usize,
    pub(crate) pages: u32,
    sums: Sums,
}

impl OldFrames {
    /// The same, with the frame of this number behind them, behind which the file has so many pages, or 0 where it ends no transaction.
    fn and(self, i: usize, pages: u32, sums: Sums) -> OldFrames
        ensures same { pages ≡ 0 → (result.last ≡ self.last) × (result.pages ≡ self.pages) }
        ensures later { pages ≢ 0 → (result.last ≡ i) × (result.pages ≡ pages) }
        ensures sums { result.sums ≡ sums }
    {
        if pages == 0 {
            OldFrames {
                last: self.last,
                pages: self.pages,
                sums,
            }
        } else {
            OldFrames {
                last: i,
                pages,
                sums,
            }
        }
    }
}

/// Frame 1, which is left in the buffer, and what it says by itself.
fn first_of<L: ReadAt>(
    log: &L,
    len: usize,
    size: usize,
    buffer: &mut [u8],
) -> Result<OldFrames, LogFault>
    requires len { IsTrue (L.is_known log.now) → len ≡ length (L.bytes log.now) }
    requires size { size ≤ 65536 }
    requires within { frame_at size 1 + (24 + size) ≤ len }
    requires buffer { length buffer.old ≡ 24 + size }
    ensures ok { IfOk result (λ old. IsTrue (L.is_known log.now) → HasJoined size (L.bytes log.now) 2 old.last old.pages old.sums) }
    ensures buffer { OnOk result (IsTrue (L.is_known log.now) → buffer.new ≡ frame size (L.bytes log.now) 1) }
    ensures early { IfOk result (λ old. old.last ≤ 1) }
    ensures err { IfErr result (λ e. (e ≡ LogFault.Unread) × (IsTrue (L.is_known log.now) → ⊥)) }
{
    read_frame(log, len, size, 0, buffer)?;
    let before = get_sums(buffer, 16);
    read_frame(log, len, size, 1, buffer)?;
    let none = OldFrames {
        last: 0,
        pages: 0,
        sums: before,
    };
    let sums = get_sums(buffer, 16);
    if counts_alone(before, buffer) {
        Ok(none.and(1, get_be32(buffer, 4), sums))
    } else {
        Ok(none.and(1, 0, sums))
    }
}

/// Whether a frame counts by itself: its sums go on from those before it, and it is not shut.
fn counts_alone(before: Sums, frame: &[u8]) -> bool
    requires { 24 ≤ length frame.now }
    ensures { IsTrue result ↔ (SumsFrom false before frame.now × (slice_index frame.now 8 ≢ 0)) }
{
    frame[8] != 0 && is_summed(false, before, frame)
}

/// Whether a frame goes on from the one before it, with these salts.
fn joins(salts: &[u8; 8], before: Sums, frame: &[u8]) -> bool
    requires { 24 ≤ length frame.now }
    ensures { IsTrue result ↔ (SumsFrom false before frame.now × (part frame.now 8 8 ≡ part salts.now 0 8)) }
{
    has_salts(frame, salts, 0) && is_summed(false, before, frame)
}

/// The salts of a frame.
fn salts_of(frame: &[u8]) -> [u8; 8]
    requires { 24 ≤ length frame.now }
    ensures { result ≡ part frame.now 8 8 }
{
    let mut salts = [0; 8];
    salts.copy_from_slice(&frame[8..16]);
    salts
}

/// The old frames of a log: those from frame 1 on that go on from one another.
pub(crate) fn old_frames<L: ReadAt>(
    log: &L,
    len: usize,
    size: usize,
    buffer: &mut [u8],
) -> Result<OldFrames, LogFault>
    requires len { IsTrue (L.is_known log.now) → len ≡ length (L.bytes log.now) }
    requires size { size ≤ 65536 }
    requires within { frame_at size 1 + (24 + size) ≤ len }
    requires buffer { length buffer.old ≡ 24 + size }
    ensures some { IfOk result (λ old. IsTrue (L.is_known log.now) → old.last ≢ 0 → IsOldEnd size (L.bytes log.now) old.last) }
    ensures none { IfOk result (λ old. IsTrue (L.is_known log.now) → old.last ≡ 0 → (c : ℕ) → IsOldEnd size (L.bytes log.now) c → ⊥) }
    ensures pages { IfOk result (λ old. IsTrue (L.is_known log.now) → old.last ≢ 0 → old.pages ≡ commit_size (frame size (L.bytes log.now) old.last)) }
    ensures within { IfOk result (λ old. frame_at size old.last + (24 + size) ≤ len) }
    ensures err { IfErr result (λ e. (e ≡ LogFault.Unread) × (IsTrue (L.is_known log.now) → ⊥)) }
{
    let mut old = first_of(log, len, size, buffer)?;
    let salts = salts_of(buffer);
    for i in 2..frames_in(len, size) {
        read_frame(log, len, size, i, buffer)?;
        if !joins(&salts, old.sums, buffer) {
            return Ok(old);
        }
        old = old.and(i, get_be32(buffer, 4), get_sums(buffer, 16));
    }
    Ok(old)
}

/// Whether a later frame, up to `last`, has the same page as frame `i`.
fn is_superseded<L: ReadAt>(
    log: &L,
    len: usize,
    size: usize,
    page: u32,
    i: usize,
    last: usize,
) -> Result<bool, LogFault>
    requires len { IsTrue (L.is_known log.now) → len ≡ length (L.bytes log.now) }
    requires size { size ≤ 65536 }
    requires within { (j : ℕ) → j ≤ last → frame_at size j + (24 + size) ≤ len }
    ensures yes { IfOk result (λ later. IsTrue (L.is_known log.now) → IsTrue later → (j : ℕ) × (i < j) × (j ≤ last) × (page_number (frame size (L.bytes log.now) j) ≡ page)) }
    ensures no { IfOk result (λ later. IsTrue (L.is_known log.now) → later ≡ false → (j : ℕ) → i < j → j ≤ last → page_number (frame size (L.bytes log.now) j) ≢ page) }
    ensures err { IfErr result (λ e. (e ≡ LogFault.Unread) × (IsTrue (L.is_known log.now) → ⊥)) }
{
    let mut number = [0; 4];
    for before in i..last {
        let at = offset_of(len, size, before + 1);
        let Ok(()) = log.read_at(at, &mut number) else {
            return Err(LogFault::Unread);
        };
        if get_be32(&number, 0) == page {
            return Ok(true);
        }
    }
    Ok(false)
}

/// Whether the file has this content of a page.
fn has_page<D: ReadAt>(
    db: &D,
    db_len: usize,
    page: u32,
    content: &[u8],
    buffer: &mut [u8],
) -> Result<bool, LogFault>
    requires len { IsTrue (D.is_known db.now) → db_len ≡ length (D.bytes db.now) }
    requires page { 1 ≤ page }
    requires size { (0 < length content.now) × (length content.now ≤ 65536) }
    requires buffer { length buffer.old ≡ length content.now }
    ensures ok { IfOk result (λ same. IsTrue (D.is_known db.now) → (IsTrue same ↔ (file_page (length content.now) (D.bytes db.now) page ≡ content.now))) }
    ensures err { IfErr result (λ e. (e ≡ LogFault.Unread) × (IsTrue (D.is_known db.now) → ⊥)) }
{
    let at = (page as usize - 1) * content.len();
    if db_len < at + content.len() {
        return Ok(false);
    }
    let Ok(()) = db.read_at(at, buffer) else {
        return Err(LogFault::Unread);
    };
    Ok(*buffer == *content)
}

/// Whether the file lacks the content of a frame of these, up to `old.last`, which is the newest of its page.
fn is_lacking<L: ReadAt, D: ReadAt>(
    log: &L,
    len: usize,
    db: &D,
    db_len: usize,
    size: usize,
    old: OldFrames,
    i: usize,
    buffer: &mut [u8],
    other: &mut [u8],
) -> Result<bool, LogFault>
    requires len { IsTrue (L.is_known log.now) → len ≡ length (L.bytes log.now) }
    requires db_len { IsTrue (D.is_known db.now) → db_len ≡ length (D.bytes db.now) }
    requires size { (0 < size) × (size ≤ 65536) }
    requires place { (1 ≤ i) × (i ≤ old.last) }
    requires within { (j : ℕ) → j ≤ old.last → frame_at size j + (24 + size) ≤ len }
    requires pages { IsTrue (L.is_known log.now) → old.pages ≡ commit_size (frame size (L.bytes log.now) old.last) }
    requires buffer { length buffer.old ≡ 24 + size }
    requires other { length other.old ≡ size }
    ensures yes { IfOk result (λ lacks. IsTrue (L.is_known log.now) → IsTrue (D.is_known db.now) → IsTrue lacks → Lacks size (L.bytes log.now) (D.bytes db.now) old.last i) }
    ensures no { IfOk result (λ lacks. IsTrue (L.is_known log.now) → IsTrue (D.is_known db.now) → lacks ≡ false → Lacks size (L.bytes log.now) (D.bytes db.now) old.last i → ⊥) }
    ensures err { IfErr result (λ e. (e ≡ LogFault.Unread) × (IsTrue (L.is_known log.now) → IsTrue (D.is_known db.now) → ⊥)) }
{
    read_frame(log, len, size, i, buffer)?;
    let page = get_be32(buffer, 0);
    if page == 0 {
        return Ok(false);
    }
    if page > old.pages {
        return Ok(false);
    }
    if has_page(db, db_len, page, &buffer[FRAME_HEADER..], other)? {
        return Ok(false);
    }
    Ok(!is_superseded(log, len, size, page, i, old.last)?)
}

/// Whether the file lacks the newest content of a page of these old frames.
pub(crate) fn lacks_page<L: ReadAt, D: ReadAt>(
    log: &L,
    len: usize,
    db: &D,
    db_len: usize,
    size: usize,
    old: OldFrames,
    buffer: &mut [u8],
    other: &mut [u8],
) -> Result<bool, LogFault>
    requires len { IsTrue (L.is_known log.now) → len ≡ length (L.bytes log.now) }
    requires db_len { IsTrue (D.is_known db.now) → db_len ≡ length (D.bytes db.now) }
    requires size { (0 < size) × (size ≤ 65536) }
    requires within { (j : ℕ) → j ≤ old.last → frame_at size j + (24 + size) ≤ len }
    requires pages { IsTrue (L.is_known log.now) → old.pages ≡ commit_size (frame size (L.bytes log.now) old.last) }
    requires buffer { length buffer.old ≡ 24 + size }
    requires other { length other.old ≡ size }
    ensures yes { IfOk result (λ lacks. IsTrue (L.is_known log.now) → IsTrue (D.is_known db.now) → IsTrue lacks → (i : ℕ) × Lacks size (L.bytes log.now) (D.bytes db.now) old.last i) }
    ensures no { IfOk result (λ lacks. IsTrue (L.is_known log.now) → IsTrue (D.is_known db.now) → lacks ≡ false → (i : ℕ) → Lacks size (L.bytes log.now) (D.bytes db.now) old.last i → ⊥) }
    ensures err { IfErr result (λ e. (e ≡ LogFault.Unread) × (IsTrue (L.is_known log.now) → IsTrue (D.is_known db.now) → ⊥)) }
{
    for before in 0..old.last {
        if is_lacking(log, len, db, db_len, size, old, before + 1, buffer, other)? {
            return Ok(true);
        }
    }
    Ok(false)
}
