//! A connection that waits for its peer, but not for ever, and that a signal does not cut off: a process that is stopped and goes on again
//! reads and writes on.
ghost use Rattle.std.specs.Prelude.{◌≡◌, ◌≢◌, ◌≤◌, ◌*◌, ◌^◌, IfErr, IsErr, false};
ghost use Rattle.std.specs.Duration.{as_nanos};
ghost use Rattle.std.specs.Io.{ReadsAtMost, WritesAtMost};
ghost use Rattle.std.specs.Io.KnownBytes.{ReadConsumes, WriteAppends};
ghost use Rattle.std.specs.IoError.{error_kind};
ghost use Rattle.std.specs.declared.io.ErrorKind.TheVariants.{Interrupted};
ghost use Rattle.society_host.specs.Waiting.{IsSpent, TakesDown};

use crate::network::Stream;
use crate::waits::Waits;
use std::io::{self, ErrorKind, Read, Write};
use std::time::{Clock, Duration, Instant};

/// Shortest wait of what is tried again, in seconds: what came while the process stood still is there at once.
const SHORTEST_WAIT: u64 = 1;

/// One way of a connection, of which no read and no write waits longer than half a minute, where the system lets that be set, and all of them
/// together no longer than its patience, which it has anew for each MiB that moves. What a signal interrupts is tried again, with what is left
/// of its wait, at least a second. What it reads is what its stream gave, and what is written to it went there.
pub struct Patient<C: Clock, S: Stream> {
    clock: C,
    stream: S,
    number: u64,
    waits: Waits,
    ghost open: { S.is_shut stream ≡ false },
}

impl<C: Clock + Copy, S: Stream> Patient<C, S> {
    /// A way of the connection of this number, which waits for so many seconds in all.
    pub(crate) fn new(clock: C, stream: S, number: u64, patience: u32) -> Patient<C, S>
        requires { S.is_shut stream ≡ false }
        ensures stream { result.stream ≡ stream }
        ensures number { result.number ≡ number }
        ensures patience { result.waits.patience ≡ patience }
        ensures unspent { (as_nanos result.waits.waited ≡ 0) × (result.waits.moved ≡ 0) }
    {
        Patient {
            clock,
            stream,
            number,
            waits: Waits::new(patience),
        }
    }

    /// The connection itself.
    pub(crate) fn into_stream(self) -> S
        ensures { result ≡ self.stream }
    {
        let Patient {
            clock: _,
            stream,
            number: _,
            waits: _,
        } = self;
        stream
    }
}

impl<C: Clock, S: Stream> Patient<C, S> {
    // When a call began, where the clock tells.
    fn now(&self) -> Option<Instant> {
        Instant::now(&self.clock).ok()
    }

    // How long ago that was, where the clock tells.
    fn since(&self, begun: Option<Instant>) -> Duration {
        match begun {
            Some(begun) => begun.elapsed(&self.clock).unwrap_or(Duration::ZERO),
            None => Duration::ZERO,
        }
    }

    // How long may still be waited for what began at a time: a second at least, half a minute at most.
    fn time_left(&self, begun: Option<Instant>, wait: Duration) -> Duration
        requires { as_nanos wait ≤ 30 * 10 ^ 9 }
        ensures least { 10 ^ 9 ≤ as_nanos result }
        ensures most { as_nanos result ≤ 30 * 10 ^ 9 }
    {
        let left = wait.saturating_sub(self.since(begun));
        left.max(Duration::from_secs(SHORTEST_WAIT))
    }

    // Reads until no signal ends it.
    fn read_on(
        &mut self,
        begun: Option<Instant>,
        wait: Duration,
        buffer: &mut [u8],
    ) -> io::Result<usize>
        requires { as_nanos wait ≤ 30 * 10 ^ 9 }
        ensures bound { ReadsAtMost result buffer.new }
        ensures bytes { ReadConsumes (S.remaining self.old.stream) (S.remaining self.new.stream) result buffer.new }
        ensures retried { IfErr result (λ e. error_kind e ≢ Interrupted) }
        ensures waits { self.new.waits ≡ self.old.waits }
    {
        let mut left = wait;
        for _ in 0..u64::MAX {
            match self.stream.read_within(left, buffer) {
                Err(error) if error.kind() == ErrorKind::Interrupted => {}
                outcome => return outcome,
            }
            left = self.time_left(begun, wait);
        }
        Err(ErrorKind::TimedOut.into())
    }

    // Writes until no signal ends it.
    fn write_on(
        &mut self,
        begun: Option<Instant>,
        wait: Duration,
        bytes: &[u8],
    ) -> io::Result<usize>
        requires { as_nanos wait ≤ 30 * 10 ^ 9 }
        ensures bound { WritesAtMost result bytes.now }
        ensures bytes { WriteAppends (S.contents self.old.stream) (S.contents self.new.stream) result bytes.now }
        ensures retried { IfErr result (λ e. error_kind e ≢ Interrupted) }
        ensures waits { self.new.waits ≡ self.old.waits }
    {
        let mut left = wait;
        for _ in 0..u64::MAX {
            match self.stream.write_within(left, bytes) {
                Err(error) if error.kind() == ErrorKind::Interrupted => {}
                outcome => return outcome,
            }
            left = self.time_left(begun, wait);
        }
        Err(ErrorKind::TimedOut.into())
    }

    // Takes down what a call that began at a time came to.
    fn spend(&mut self, begun: Option<Instant>, outcome: &io::Result<usize>)
        ensures stream { self.new.stream ≡ self.old.stream }
        ensures waits { TakesDown self.old.waits self.new.waits outcome.now }
    {
        let moved = match outcome {
            Ok(count) => *count as u64,
            Err(_) => 0,
        };
        let waited = self.since(begun);
        self.waits.spend(waited, moved);
    }
}

impl<C: Clock, S: Stream> Read for Patient<C, S> {
    ghost remaining = { λ way. S.remaining way.stream };

    /// One read. The error is the system's, or that no patience is left, and never that a signal came.
    fn read(&mut self, buffer: &mut [u8]) -> io::Result<usize>
        ensures bound { ReadsAtMost result buffer.new }
        ensures bytes { ReadConsumes (S.remaining self.old.stream) (S.remaining self.new.stream) result buffer.new }
        ensures retried { IfErr result (λ e. error_kind e ≢ Interrupted) }
        ensures spent { IsSpent self.old.waits → IsErr result × (self.new ≡ self.old) }
        ensures waits { ¬ IsSpent self.old.waits → TakesDown self.old.waits self.new.waits result }
    {
        let Some(wait) = self.waits.next() else {
            return Err(ErrorKind::TimedOut.into());
        };
        let begun = self.now();
        let outcome = self.read_on(begun, wait, buffer);
        self.spend(begun, &outcome);
        outcome
    }
}

impl<C: Clock, S: Stream> Write for Patient<C, S> {
    ghost contents = { λ way. S.contents way.stream };

    /// One write. The error is the system's, or that no patience is left, and never that a signal came.
    fn write(&mut self, bytes: &[u8]) -> io::Result<usize>
        ensures bound { WritesAtMost result bytes.now }
        ensures bytes { WriteAppends (S.contents self.old.stream) (S.contents self.new.stream) result bytes.now }
        ensures retried { IfErr result (λ e. error_kind e ≢ Interrupted) }
        ensures spent { IsSpent self.old.waits → IsErr result × (self.new ≡ self.old) }
        ensures waits { ¬ IsSpent self.old.waits → TakesDown self.old.waits self.new.waits result }
    {
        let Some(wait) = self.waits.next() else {
            return Err(ErrorKind::TimedOut.into());
        };
        let begun = self.now();
        let outcome = self.write_on(begun, wait, bytes);
        self.spend(begun, &outcome);
        outcome
    }

    fn flush(&mut self) -> io::Result<()> {
        Ok(())
    }
}
