//! Where the units go that whole parts leave: to the greatest remainders, equal ones by place.
ghost use Rattle.std.specs.Prelude.{◌≡◌, ◌≤◌, ◌<◌, IfOk, count_by, length, nat_lt};
ghost use Rattle.pool_split.specs.Threshold.{IsThreshold};

use std::alloc::{AllocError, Global};

/// A threshold of remainders: each one above `remainder` gets a unit, and so do the first `ties` of those at it.
#[derive(Clone, Copy, Debug, PartialEq, Eq)]
pub struct Threshold {
    pub remainder: u64,
    pub ties: usize,
}

// How many remainders are above one.
fn count_above(remainders: &[u64], remainder: u64) -> usize
    ensures { result ≡ count_by (nat_lt remainder) remainders.now }
{
    remainders
        .iter()
        .filter(|other| remainder < **other)
        .count()
}

/// The threshold that leaves so many units, 1 to the number of remainders.
pub fn threshold_at(
    alloc: Global,
    remainders: &[u64],
    units: usize,
) -> Result<Threshold, AllocError>
    requires some { 1 ≤ units }
    requires few { units ≤ length remainders.now }
    ensures { IfOk result (IsThreshold remainders.now units) }
{
    let mut rising = Vec::from_slice(alloc, remainders)?;
    rising.sort()?;
    let remainder = rising[remainders.len() - units];
    let above = count_above(remainders, remainder);
    Ok(Threshold {
        remainder,
        ties: units - above,
    })
}

impl Threshold {
    ghost use Rattle.std.specs.Prelude.{◌≡◌, ◌-◌, ◌==◌, if◌then◌else◌};
    ghost use Rattle.pool_split.specs.Threshold.{takes_unit};

    /// The unit of a place with this remainder, one or none, where so many ties are left.
    pub fn unit(&self, ties: usize, remainder: u64) -> u64
        ensures { result ≡ (if takes_unit self.now.remainder ties remainder then 1 else 0) }
    {
        if remainder > self.remainder || (remainder == self.remainder && ties > 0) {
            1
        } else {
            0
        }
    }

    /// The ties that are left behind a place with this remainder.
    pub fn ties_behind(&self, ties: usize, remainder: u64) -> usize
        ensures { result ≡ ties - (if self.now.remainder == remainder then 1 else 0) }
    {
        if remainder == self.remainder {
            ties.saturating_sub(1)
        } else {
            ties
        }
    }
}
