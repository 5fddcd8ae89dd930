//! The bytes of a connection that were read and not taken yet.
ghost use Rattle.std.specs.Prelude.{◌≤◌, vec_len, vec_capacity};

use crate::counted::Counted;
use crate::fault::FaultKind;
use std::alloc::{AllocError, Global};
use std::io::Read;

/// The most bytes that one read gives.
const PIECE: usize = 16_384;

/// Room for requests that is taken before the first read, in bytes; only a longer one asks for memory.
const FIRST_ROOM: usize = 65_536;

/// Bytes that were read and not taken yet, and the turns that are left.
#[derive(Drop)]
pub struct Input {
    bytes: Vec<u8>,
    start: usize,
    turns: u64,
    ghost ordered: { start ≤ vec_len bytes },
    ghost roomy: { 81920 ≤ vec_capacity bytes },
}

impl Input {
    ghost use Rattle.std.specs.Prelude.{◌≡◌, ◌<◌, ◌≤◌, ◌+◌, ◌^◌, [], true, false, not, length, drop, vec_len, vec_capacity, IfOk, IfErr, OnOk, OnErr};
    ghost use Rattle.std.specs.Io.KnownBytes.{IsAtEnd};
    ghost use Rattle.http_desk.specs.Counted.{inner_of, empty_reads_of, failures_of, MeetsEnd};
    ghost use Rattle.http_desk.specs.Input.{unread, ReadsFrom, ReadsWhere, FailsBy, max_piece};
    ghost use Rattle.http_text.specs.Reads.{small_request};

    /// No byte yet, with room for heads.
    pub fn new(alloc: Global, turns: u64) -> Result<Input, AllocError>
        ensures empty { IfOk result (λ input. unread input ≡ []) }
        ensures turns { IfOk result (λ input. input.turns ≡ turns) }
    {
        let bytes = Vec::with_capacity(alloc, FIRST_ROOM + PIECE)?;
        Ok(Input {
            bytes,
            start: 0,
            turns,
        })
    }

    /// The bytes, lent.
    pub fn unread(&self) -> &[u8]
        ensures { result.now ≡ unread self.now }
    {
        &self.bytes[self.start..]
    }

    /// Takes bytes off the front.
    pub fn take(&mut self, count: usize)
        requires { count ≤ length (unread self.old) }
        ensures bytes { unread self.new ≡ drop count (unread self.old) }
        ensures turns { self.new.turns ≡ self.old.turns }
    {
        self.start += count;
    }

    // Moves the bytes to the front, over those that were taken.
    fn compact(&mut self)
        ensures bytes { self.new.bytes.items ≡ unread self.old }
        ensures start { self.new.start ≡ 0 }
        ensures room { vec_capacity self.new.bytes ≡ vec_capacity self.old.bytes }
        ensures turns { self.new.turns ≡ self.old.turns }
    {
        let start = self.start;
        let rest = self.bytes.len() - start;
        self.start = 0;
        self.bytes.copy_within(start.., 0);
        self.bytes.truncate(rest);
    }

    // Sees to room for a further piece behind the bytes, which are moved only where there is none.
    fn make_room(&mut self)
        requires { length (unread self.old) + max_piece ≤ vec_capacity self.old.bytes }
        ensures bytes { unread self.new ≡ unread self.old }
        ensures room { vec_len self.new.bytes + max_piece ≤ vec_capacity self.new.bytes }
        ensures capacity { vec_capacity self.new.bytes ≡ vec_capacity self.old.bytes }
        ensures turns { self.new.turns ≡ self.old.turns }
    {
        if self.bytes.capacity() - self.bytes.len() < PIECE {
            self.compact();
        }
    }

    /// Makes room for so many bytes and a further piece; refused only where the first room is too small.
    pub fn reserve(&mut self, size: usize) -> Result<(), AllocError>
        requires { size < 2 ^ 40 }
        ensures bytes { unread self.new ≡ unread self.old }
        ensures turns { self.new.turns ≡ self.old.turns }
        ensures ok { OnOk result (size + max_piece ≤ vec_capacity self.new.bytes) }
        ensures full { OnErr result (small_request < size) }
    {
        let room = size + PIECE;
        if room <= self.bytes.capacity() {
            return Ok(());
        }
        self.compact();
        self.bytes.reserve(room - self.bytes.len())
    }

    /// Reads where no byte is left here: whether there is one now. An error changes none of the bytes.
    pub fn fill<R: Read>(&mut self, reader: &mut Counted<R>) -> Result<bool, FaultKind>
        ensures reads { ReadsWhere (λ bytes. bytes ≡ []) R.remaining reader.old reader.new self.old self.new }
        ensures one { self.old.turns ≤ self.new.turns + 1 }
        ensures some { IfOk result (λ gave. gave ≡ true → 1 ≤ length (unread self.new)) }
        ensures end { IfOk result (λ gave. gave ≡ false
            → (unread self.new ≡ []) × IsAtEnd (R.remaining (inner_of reader.new))) }
        ensures stays { OnErr result (unread self.new ≡ []) }
        ensures met { IfOk result (λ gave. MeetsEnd (not gave) (empty_reads_of reader.old) (empty_reads_of reader.new)) }
        ensures unmet { OnErr result (empty_reads_of reader.new ≡ empty_reads_of reader.old) }
        ensures kept { OnOk result (failures_of reader.new ≡ failures_of reader.old) }
        ensures err { IfErr result (λ kind.
            FailsBy kind self.new.turns (failures_of reader.old) (failures_of reader.new)) }
    {
        if !self.unread().is_empty() {
            return Ok(true);
        }
        self.read_more(reader)
    }

    /// One read: whether it gave bytes. An error changes none of the bytes.
    pub fn read_more<R: Read>(&mut self, reader: &mut Counted<R>) -> Result<bool, FaultKind>
        requires { length (unread self.old) + max_piece ≤ vec_capacity self.old.bytes }
        ensures reads { ReadsFrom R.remaining reader.old reader.new self.old self.new }
        ensures room { vec_capacity self.old.bytes ≤ vec_capacity self.new.bytes }
        ensures one { self.old.turns ≤ self.new.turns + 1 }
        ensures turn { IfOk result (λ gave. gave ≡ true → self.new.turns < self.old.turns) }
        ensures end { IfOk result (λ gave. gave ≡ false
            → (unread self.new ≡ unread self.old) × IsAtEnd (R.remaining (inner_of reader.new))) }
        ensures stays { OnErr result (unread self.new ≡ unread self.old) }
        ensures met { IfOk result (λ gave. MeetsEnd (not gave) (empty_reads_of reader.old) (empty_reads_of reader.new)) }
        ensures unmet { OnErr result (empty_reads_of reader.new ≡ empty_reads_of reader.old) }
        ensures kept { OnOk result (failures_of reader.new ≡ failures_of reader.old) }
        ensures err { IfErr result (λ kind.
            FailsBy kind self.new.turns (failures_of reader.old) (failures_of reader.new)) }
    {
        if self.turns == 0 {
            return Err(FaultKind::Turns);
        }
        self.make_room();
        let mut piece = [0; PIECE];
        match reader.read(&mut piece) {
            Ok(0) => Ok(false),
            Ok(count) => {
                self.turns -= 1;
                self.bytes.extend_from_slice(&piece[..count]).unwrap();
                Ok(true)
            }
            Err(_) => Err(FaultKind::Read),
        }
    }
}
