//! What a pool is split over, and what it credits.
ghost use Rattle.std.specs.Prelude.{◌≡◌, IfOk};

use share_rules::Holder;
use std::alloc::{AllocError, Global};
use std::marker::Model;
use std::rc::Rc;
use work_ids::{Account, Isrc};

/// The holders of a work with their weights, in order, kept once for all that name them. Clauses see a list.
#[derive(Debug, Drop)]
pub struct Holders {
    list: Rc<Vec<Holder>>,
}

impl Model for Holders {
    ghost use Rattle.std.specs.Prelude.{List};
    ghost use Rattle.share_rules.specs.declared.holder.Holder.{Holder};

    ghost Value = { List Holder };

    ghost view = { λ h. h.list.value.items };
}

impl Holders {
    /// These holders.
    pub fn from_vec(alloc: Global, list: Vec<Holder>) -> Result<Holders, AllocError>
        ensures { IfOk result (λ holders. holders ≡ list.items) }
    {
        let list = Rc::new(alloc, list)?;
        Ok(Holders { list })
    }

    /// The same holders, for another that names them.
    pub fn share(&self) -> Result<Holders, AllocError>
        ensures { IfOk result (λ holders. holders ≡ self.now) }
    {
        let list = self.list.clone()?;
        Ok(Holders { list })
    }

    /// The holders, lent.
    pub fn as_slice(&self) -> &[Holder]
        ensures { result.now ≡ self.now }
    {
        self.list.as_ref().as_slice()
    }
}

/// A recording that a pool pays: its points, at least one, and the holders of its owner's work with their weights, of
/// which the total is at least one; none where it has no owner.
#[derive(Debug, Drop)]
pub struct Claim {
    pub isrc: Isrc,
    pub points: u64,
    pub holders: Option<Holders>,
}

impl Claim {
    /// The same claim, of the same holders.
    pub fn share(&self) -> Result<Claim, AllocError>
        ensures { IfOk result (λ claim. claim ≡ self.now) }
    {
        let holders = match &self.holders {
            None => None,
            Some(holders) => Some(holders.share()?),
        };
        Ok(Claim {
            isrc: self.isrc,
            points: self.points,
            holders,
        })
    }
}

/// What an account is credited of a pool for a recording, or for none.
#[derive(Clone, Copy, Debug, PartialEq, Eq)]
pub struct Credit {
    pub isrc: Option<Isrc>,
    pub account: Account,
    pub units: u64,
}
