//! How long one way of a connection may wait for its peer.
ghost use Rattle.std.specs.Prelude.{◌≡◌, ◌≤◌, ◌<◌, ◌+◌, ◌-◌, ◌*◌, ◌^◌, IfSome, None, min};
ghost use Rattle.std.specs.Duration.{as_nanos, max_nanos};
ghost use Rattle.society_host.specs.Waiting.{nanos_allowed};

use std::time::Duration;

/// Longest wait of one read or write, in seconds.
pub(crate) const LONGEST_WAIT: u64 = 30;

/// Bytes for which a way has its patience anew: 1 MiB, as much as a body may have.
const BYTES_OF_PATIENCE: u64 = 1_048_576;

/// The patience of one way of a connection, how long it has waited, and how many bytes came or went by it.
#[derive(Clone, Copy, Debug)]
pub(crate) struct Waits {
    /// Seconds that it waits in all, and as many more for each MiB.
    pub patience: u32,
    /// How long it has waited.
    pub waited: Duration,
    /// Bytes that came or went by it.
    pub moved: u64,
}

impl Waits {
    /// So many seconds of patience, of which none are spent.
    pub(crate) fn new(patience: u32) -> Waits
        ensures patience { result.patience ≡ patience }
        ensures unspent { (as_nanos result.waited ≡ 0) × (result.moved ≡ 0) }
    {
        Waits {
            patience,
            waited: Duration::ZERO,
            moved: 0,
        }
    }

    /// How long it may wait in all for what has moved so far.
    fn allowed(&self) -> Duration
        ensures { as_nanos result ≡ nanos_allowed self.now.patience self.now.moved }
    {
        let times = 1 + self.moved / BYTES_OF_PATIENCE;
        Duration::from_secs(u64::from(self.patience).saturating_mul(times))
    }

    /// How long the next read or write may wait: half a minute, or what is left of the patience; nothing where none is.
    pub(crate) fn next(&self) -> Option<Duration>
        ensures longest { IfSome result (λ wait. (0 < as_nanos wait) × (as_nanos wait ≤ 30 * 10 ^ 9)) }
        ensures left { IfSome result (λ wait. as_nanos wait
            ≡ min (nanos_allowed self.now.patience self.now.moved - as_nanos self.now.waited) (30 * 10 ^ 9)) }
        ensures none { result ≡ None → nanos_allowed self.now.patience self.now.moved ≤ as_nanos self.now.waited }
    {
        let left = self.allowed().saturating_sub(self.waited);
        if left.is_zero() {
            return None;
        }
        Some(left.min(Duration::from_secs(LONGEST_WAIT)))
    }

    /// Takes down that it waited so long, and that so many bytes moved.
    pub(crate) fn spend(&mut self, waited: Duration, moved: u64)
        ensures patience { self.new.patience ≡ self.old.patience }
        ensures waited { as_nanos self.new.waited ≡ min (as_nanos self.old.waited + as_nanos waited) max_nanos }
        ensures moved { self.new.moved ≡ min (self.old.moved + moved) (2 ^ 64 - 1) }
    {
        self.waited = self.waited.saturating_add(waited);
        self.moved = self.moved.saturating_add(moved);
    }
}
