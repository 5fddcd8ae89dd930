//! The end of a connection, so that its last answer arrives.
ghost use Rattle.std.specs.Prelude.{◌≡◌, ◌<◌, ◌≤◌, ◌*◌, ◌^◌, IfSome, None};
ghost use Rattle.std.specs.Io.KnownBytes.{Keeps};
ghost use Rattle.std.specs.Duration.{as_nanos};
ghost use Rattle.society_host.specs.Parting.{DropsAtMost, DropsFront, LetsGo};

use crate::network::Stream;
use std::io::ErrorKind;
use std::time::{Clock, Duration, Instant};

/// Longest time for which what still comes is dropped, in seconds.
const LONGEST_PARTING: u64 = 2;

/// Most bytes that are dropped: 16 MiB.
const MOST_DROPPED: usize = 16_777_216;

/// Most bytes that are dropped at once.
const DROPPED_AT_ONCE: usize = 8_192;

/// Ends a connection so that its last answer arrives. A system that lets a connection go with bytes unread resets it, and a reset may take
/// the answer from a peer that is still sending. So the writing half is shut, what still comes is read and dropped, up to 16 MiB and for
/// two seconds at most, and only then the stream is let go.
pub(crate) fn part<C: Clock, S: Stream>(clock: &C, stream: S)
    ensures { LetsGo S.Stream stream }
{
    let mut rest = stream;
    if rest.shut_writing().is_ok() {
        if let Ok(begun) = Instant::now(clock) {
            drop_rest(clock, begun, &mut rest);
        }
    }
    rest.let_go();
}

/// Drops what still comes, until it ends, the reading fails, or as much or for as long as is allowed.
fn drop_rest<C: Clock, S: Stream>(clock: &C, begun: Instant, rest: &mut S)
    ensures dropped { DropsAtMost (S.remaining rest.old) (S.remaining rest.new) 16777216 }
    ensures unwritten { S.contents rest.new ≡ S.contents rest.old }
{
    let mut allowed = MOST_DROPPED;
    while allowed > 0 {
        let Some(wait) = time_left(clock, begun) else {
            return;
        };
        match drop_some(rest, wait, allowed) {
            Some(count) => allowed -= count,
            None => return,
        }
    }
}

/// Drops what one read gives that waits so long, at most so many bytes and no more than 8,192, and answers how many those were; nothing where it
/// ended or failed.
fn drop_some<S: Stream>(rest: &mut S, wait: Duration, most: usize) -> Option<usize>
    requires { as_nanos wait ≤ 2 * 10 ^ 9 }
    ensures some { IfSome result (λ count. (0 < count) × (count ≤ most)) }
    ensures dropped { IfSome result (λ count. DropsFront (S.remaining rest.old) (S.remaining rest.new) count 8192) }
    ensures none { result ≡ None → Keeps (S.remaining rest.old) (S.remaining rest.new) }
    ensures unwritten { S.contents rest.new ≡ S.contents rest.old }
{
    let mut buffer = [0; DROPPED_AT_ONCE];
    let room = most.min(DROPPED_AT_ONCE);
    for _ in 0..u64::MAX {
        match rest.read_within(wait, &mut buffer[..room]) {
            Ok(count) if count > 0 => return Some(count),
            // A signal ends no reading.
            Err(error) if error.kind() == ErrorKind::Interrupted => {}
            _ => return None,
        }
    }
    None
}

/// How long is left of two seconds from a time on; nothing where they are over, or the clock fails.
fn time_left<C: Clock>(clock: &C, begun: Instant) -> Option<Duration>
    ensures { IfSome result (λ wait. (0 < as_nanos wait) × (as_nanos wait ≤ 2 * 10 ^ 9)) }
{
    let Ok(spent) = begun.elapsed(clock) else {
        return None;
    };
    let left = Duration::from_secs(LONGEST_PARTING).saturating_sub(spent);
    if left.is_zero() { None } else { Some(left) }
}
