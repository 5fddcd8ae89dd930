//! The sums of the shares in each right.
ghost use Rattle.std.specs.Prelude.{◌≡◌, false};
ghost use Rattle.share_rules.specs.Steps.{is_exceeded, no_totals, with_shares};

use crate::shares::Shares;

/// The greatest sum of shares that is let pass, in hundredths of a percent (profile).
const SUM_LIMIT: u32 = 10_006;

/// The sums of shares in the performing, the mechanical and the synchronization right, in hundredths of a percent.
#[derive(Clone, Copy)]
pub(crate) struct Totals {
    performing: u32,
    mechanical: u32,
    synchronization: u32,
}

impl Totals {
    /// The sums of no shares.
    pub(crate) fn none() -> Totals
        ensures { result ≡ no_totals }
    {
        Totals {
            performing: 0,
            mechanical: 0,
            synchronization: 0,
        }
    }

    /// The sums with one more holder's shares.
    pub(crate) fn with(self, shares: Shares) -> Totals
        requires { is_exceeded self ≡ false }
        ensures { result ≡ with_shares self shares }
    {
        Totals {
            performing: self.performing + u32::from(shares.performing.hundredths()),
            mechanical: self.mechanical + u32::from(shares.mechanical.hundredths()),
            synchronization: self.synchronization + u32::from(shares.synchronization.hundredths()),
        }
    }

    /// Whether one of the sums is more than the limit (profile).
    pub(crate) fn is_exceeded(self) -> bool
        ensures { result ≡ is_exceeded self }
    {
        self.performing > SUM_LIMIT
            || self.mechanical > SUM_LIMIT
            || self.synchronization > SUM_LIMIT
    }
}
