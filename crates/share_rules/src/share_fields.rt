//! The three share fields of a party or of a territory row.
ghost use Rattle.std.specs.Prelude.{◌≡◌};

use crate::shares::{Shares, share_or_zero};
use cwr_records::{Fixed, Share};

/// The shares of the performing, the mechanical and the synchronization right, as they came (CISAC CWR 2.2).
#[derive(Drop)]
pub struct ShareFields<'a> {
    pub performing: Fixed<'a, 5>,
    pub mechanical: Fixed<'a, 5>,
    pub synchronization: Fixed<'a, 5>,
}

impl<'a> ShareFields<'a> {
    ghost use Rattle.share_rules.specs.Fault.{are_wrong_shares};
    ghost use Rattle.share_rules.specs.Parties.{share_fields, shares_of};

    /// These three.
    pub(crate) fn new(
        performing: &Fixed<'a, 5>,
        mechanical: &Fixed<'a, 5>,
        synchronization: &Fixed<'a, 5>,
    ) -> ShareFields<'a>
        ensures { result ≡ share_fields performing.now mechanical.now synchronization.now }
    {
        ShareFields {
            performing: performing.again(),
            mechanical: mechanical.again(),
            synchronization: synchronization.again(),
        }
    }

    /// Whether one of the shares is neither blank nor five digits, or is over 10000.
    pub(crate) fn are_wrong(&self) -> bool
        ensures { result ≡ are_wrong_shares self.now }
    {
        Share::from_field(&self.performing.field()).is_none()
            || Share::from_field(&self.mechanical.field()).is_none()
            || Share::from_field(&self.synchronization.field()).is_none()
    }

    /// The shares, a faulty one as 0 (profile).
    pub(crate) fn shares(&self) -> Shares
        ensures { result ≡ shares_of self.now }
    {
        Shares {
            performing: share_or_zero(&self.performing),
            mechanical: share_or_zero(&self.mechanical),
            synchronization: share_or_zero(&self.synchronization),
        }
    }
}
