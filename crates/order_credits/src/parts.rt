//! The parts that the holders of a recording get of its units.
ghost use Rattle.std.specs.Prelude.{◌≡◌, ◌∷◌, [], IfOk};
ghost use Rattle.std.specs.Option.{option_copied};
ghost use Rattle.pool_split.specs.Credits.{weights_in};
ghost use Rattle.pool_split.specs.Split.{split_of};
ghost use Rattle.order_credits.specs.Shares.{parts_owned};

use crate::numbers::total_of;
use crate::share::OwnedVersion;
use pool_split::split;
use share_rules::Holder;
use society_rows::RowFault;
use std::alloc::{AllocError, Global};
use std::marker::Model;

/// Greatest amount of a pool (profile).
const MAX_AMOUNT: u64 = 1_000_000_000_000;

/// Parts of the units of a recording, in units of money, in order. Clauses see a list.
#[derive(Debug, Drop)]
pub struct Parts {
    list: Vec<u64>,
}

impl Model for Parts {
    ghost use Rattle.std.specs.Prelude.{List, ℕ};

    ghost Value = { List ℕ };

    ghost view = { λ parts. parts.list.items };
}

impl Parts {
    /// The parts, lent.
    pub fn as_slice(&self) -> &[u64]
        ensures { result.now ≡ self.now }
    {
        self.list.as_slice()
    }
}

// The weights of holders.
fn weights_of(alloc: Global, holders: &[Holder]) -> Result<Vec<u64>, AllocError>
    ensures { IfOk result (λ weights. weights.items ≡ weights_in holders.now) }
{
    holders.iter().map(|holder| holder.weight).collect(alloc)
}

// One part: all of the units.
pub(crate) fn whole(alloc: Global, units: u64) -> Result<Parts, AllocError>
    ensures { IfOk result (λ parts. parts ≡ units ∷ []) }
{
    let mut list = Vec::new(alloc);
    list.push(units)?;
    Ok(Parts { list })
}

// The parts of holders; `Damaged` where the units can't be split over their weights.
fn parts_of_holders(alloc: Global, units: u64, holders: &[Holder]) -> Result<Parts, RowFault>
    ensures { IfOk result (λ parts. parts ≡ split_of units (weights_in holders.now)) }
{
    let weights = weights_of(alloc, holders)?;
    match total_of(&weights) {
        Some(total) if total > 0 && units <= MAX_AMOUNT => {
            let list = split(alloc, units, &weights)?;
            Ok(Parts { list })
        }
        _ => Err(RowFault::Damaged),
    }
}

/// The parts that the holders of the version that owns a recording get of its units, in order; all of them is one part where nobody owns
/// it. `Damaged` where the units can't be split over the weights.
pub(crate) fn parts_of(
    alloc: Global,
    units: u64,
    owner: Option<&OwnedVersion>,
) -> Result<Parts, RowFault>
    ensures { IfOk result (λ parts. parts ≡ parts_owned units (option_copied owner.entry)) }
{
    match owner {
        Some(owned) => parts_of_holders(alloc, units, owned.holders.as_slice()),
        None => Ok(whole(alloc, units)?),
    }
}
