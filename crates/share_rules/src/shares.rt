//! The shares of the three rights.
ghost use Rattle.std.specs.Prelude.{◌≡◌};
ghost use Rattle.share_rules.specs.Parties.{no_shares, share_in, share_or_zero};

use crate::kind::Kind;
use cwr_records::{Fixed, Share};

/// The shares of the performing, the mechanical and the synchronization right.
#[derive(Clone, Copy, Debug, PartialEq, Eq)]
pub struct Shares {
    pub performing: Share,
    pub mechanical: Share,
    pub synchronization: Share,
}

impl Shares {
    /// No share in any right.
    pub fn none() -> Shares
        ensures { result ≡ no_shares }
    {
        Shares {
            performing: Share::none(),
            mechanical: Share::none(),
            synchronization: Share::none(),
        }
    }

    /// The share of the right that a pool of this kind pays.
    pub fn share(&self, kind: Kind) -> Share
        ensures { result ≡ share_in kind self.now }
    {
        match kind {
            Kind::Performing => self.performing,
            Kind::Mechanical => self.mechanical,
        }
    }
}

/// The share of a field, a faulty one as 0 (profile).
pub(crate) fn share_or_zero(field: &Fixed<'_, 5>) -> Share
    ensures { result ≡ share_or_zero field.now }
{
    match Share::from_field(&field.field()) {
        Some(share) => share,
        None => Share::none(),
    }
}
