//! A reader or a writer that counts how often it failed, and how often a read gave bytes.
ghost use Rattle.std.specs.Prelude.{◌<◌, ◌^◌};

use std::io::{self, Read, Write};
use thiserror::Error;

/// A reader or a writer whose failures are counted, its reads that gave bytes, and those that gave none, each up to the greatest
/// `u64`.
#[derive(Drop)]
pub struct Counted<T> {
    inner: T,
    failures: u64,
    reads: u64,
    ends: u64,
    ghost reads_fit: { reads < 2 ^ 64 },
}

/// The writer failed, or took no byte.
#[derive(Clone, Copy, Debug, PartialEq, Eq, Error)]
#[error("not written")]
pub struct NotWritten;

impl<T> Counted<T> {
    ghost use Rattle.std.specs.Prelude.{◌≡◌};
    ghost use Rattle.http_desk.specs.Counted.{inner_of, empty_reads_of, failures_of, reads_of};

    /// Nothing has failed or was read yet.
    pub fn new(inner: T) -> Self
        ensures inner { inner_of result ≡ inner }
        ensures failures { failures_of result ≡ 0 }
        ensures reads { reads_of result ≡ 0 }
        ensures ends { empty_reads_of result ≡ 0 }
    {
        Counted {
            inner,
            failures: 0,
            reads: 0,
            ends: 0,
        }
    }

    /// What was wrapped, as it is now.
    pub fn into_inner(self) -> T
        ensures { result ≡ inner_of self }
    {
        self.inner
    }
}

impl<R: Read> Counted<R> {
    ghost use Rattle.std.specs.Prelude.{◌≡◌, IfOk, OnOk, OnErr};
    ghost use Rattle.std.specs.Io.{ReadsAtMost};
    ghost use Rattle.std.specs.Io.KnownBytes.{ReadConsumes};
    ghost use Rattle.http_desk.specs.Counted.{inner_of, ends_after, empty_reads_of, failures_of, reads_of, reads_after};
    ghost use Rattle.society_core.specs.State.{Rises};

    /// One read, as the reader does it; an error is counted, and so is a read that gives bytes, and one that gives none.
    pub(crate) fn read(&mut self, buffer: &mut [u8]) -> io::Result<usize>
        ensures bound { ReadsAtMost result buffer.new }
        ensures bytes { ReadConsumes (R.remaining (inner_of self.old)) (R.remaining (inner_of self.new)) result buffer.new }
        ensures kept { OnOk result (failures_of self.new ≡ failures_of self.old) }
        ensures err { OnErr result (Rises (failures_of self.old) (failures_of self.new)) }
        ensures counted { IfOk result (λ count. reads_of self.new ≡ reads_after count (reads_of self.old)) }
        ensures uncounted { OnErr result (reads_of self.new ≡ reads_of self.old) }
        ensures ended { IfOk result (λ count. empty_reads_of self.new ≡ ends_after count (empty_reads_of self.old)) }
        ensures unended { OnErr result (empty_reads_of self.new ≡ empty_reads_of self.old) }
    {
        let result = self.inner.read(buffer);
        match &result {
            Ok(0) => self.ends = self.ends.saturating_add(1),
            Ok(_) => self.reads = self.reads.saturating_add(1),
            Err(_) => self.failures = self.failures.saturating_add(1),
        }
        result
    }
}

impl<W: Write> Counted<W> {
    ghost use Rattle.std.specs.Prelude.{◌≡◌, ◌<◌, OnOk, OnErr};
    ghost use Rattle.http_desk.specs.Counted.{inner_of, failures_of, reads_of, WritesBytes};
    ghost use Rattle.society_core.specs.State.{Rises};

    /// All bytes, in order; an error, or a write that takes no byte, is counted and ends it.
    pub fn write_all(&mut self, bytes: &[u8]) -> Result<(), NotWritten>
        ensures wrote { WritesBytes result (W.contents (inner_of self.old)) (W.contents (inner_of self.new)) bytes.now }
        ensures kept { OnOk result (failures_of self.new ≡ failures_of self.old) }
        ensures err { OnErr result (Rises (failures_of self.old) (failures_of self.new)) }
        ensures uncounted { reads_of self.new ≡ reads_of self.old }
    {
        let mut rest = bytes;
        while !rest.is_empty() {
            match self.inner.write(rest) {
                Ok(taken) if taken > 0 => rest = &rest[taken..],
                _ => {
                    self.failures = self.failures.saturating_add(1);
                    return Err(NotWritten);
                }
            }
        }
        Ok(())
    }
}
