//! What a pool pays for one recording, or for none.
ghost use Rattle.std.specs.Prelude.{◌≡◌, ◌≤◌, IfOk, None, Some, map};
ghost use Rattle.std.specs.List.{zip};
ghost use Rattle.pool_split.specs.Credits.{HasWeights, IsPayable, claim_credits, claim_credits_by, holder_credit, lone_credit, portion_credits, weights_in};

use crate::claim::{Claim, Credit};
use crate::splitting::split;
use share_rules::Holder;
use std::alloc::{AllocError, Global};
use std::marker::Model;
use work_ids::{Account, Isrc};

/// The units of money that a claim is paid, or those of a pool without a claim. Clauses see the credits that they come to.
#[derive(Debug, Drop)]
pub struct Portion {
    claim: Option<Claim>,
    units: u64,
}

impl Model for Portion {
    ghost use Rattle.std.specs.Prelude.{List};
    ghost use Rattle.pool_split.specs.Credits.{CanBeSplit, portion_credits};
    ghost use Rattle.pool_split.specs.declared.claim.Credit.{Credit};

    ghost Value = { List Credit };

    ghost view = { λ p. portion_credits p.claim p.units };

    ghost invariant = { λ p. CanBeSplit p.claim p.units };
}

// The weights of holders.
fn weights_in(alloc: Global, holders: &[Holder]) -> Result<Vec<u64>, AllocError>
    ensures { IfOk result (λ weights. weights.items ≡ weights_in holders.now) }
{
    holders.iter().map(|holder| holder.weight).collect(alloc)
}

// One credit for each holder of a recording, with its part.
fn holder_credits(
    alloc: Global,
    isrc: Isrc,
    holders: &[Holder],
    parts: &[u64],
) -> Result<Vec<Credit>, AllocError>
    ensures { IfOk result (λ list. list.items ≡ map (holder_credit isrc) (zip holders.now parts.now)) }
{
    holders
        .iter()
        .zip(parts.iter())
        .map(|(holder, part)| Credit {
            isrc: Some(isrc),
            account: holder.account,
            units: *part,
        })
        .collect(alloc)
}

// One credit alone.
fn lone_credit(alloc: Global, isrc: Option<Isrc>, units: u64) -> Result<Vec<Credit>, AllocError>
    ensures { IfOk result (λ list. list.items ≡ lone_credit isrc units) }
{
    let mut list = Vec::new(alloc);
    list.push(Credit {
        isrc,
        account: Account::Unclaimed,
        units,
    })?;
    Ok(list)
}

// The credits of a recording that is paid so many units.
fn claim_credits(alloc: Global, claim: &Claim, units: u64) -> Result<Vec<Credit>, AllocError>
    requires amount { units ≤ 1000000000000 }
    requires weights { HasWeights claim.now.holders }
    ensures { IfOk result (λ list. list.items ≡ claim_credits claim.now units) }
{
    match &claim.holders {
        None => lone_credit(alloc, Some(claim.isrc), units),
        Some(holders) => {
            let holders = holders.as_slice();
            let weights = weights_in(alloc, holders)?;
            let parts = split(alloc, units, &weights)?;
            holder_credits(alloc, claim.isrc, holders, &parts)
        }
    }
}

impl Portion {
    // What a claim is paid.
    pub(crate) fn of_claim(claim: &Claim, units: u64) -> Result<Portion, AllocError>
        requires amount { units ≤ 1000000000000 }
        requires payable { IsPayable claim.now }
        ensures { IfOk result (λ portion. portion ≡ claim_credits claim.now units) }
    {
        let claim = claim.share()?;
        Ok(Portion {
            claim: Some(claim),
            units,
        })
    }

    // What a pool without a claim pays.
    pub(crate) fn of_nobody(units: u64) -> Portion
        requires amount { units ≤ 1000000000000 }
        ensures { result ≡ lone_credit None units }
    {
        Portion { claim: None, units }
    }

    /// Its credits: one for each holder of the claim, in order, or one to nobody.
    pub fn credits(&self, alloc: Global) -> Result<Vec<Credit>, AllocError>
        ensures { IfOk result (λ list. list.items ≡ self.now) }
    {
        match &self.claim {
            None => lone_credit(alloc, None, self.units),
            Some(claim) => claim_credits(alloc, claim, self.units),
        }
    }
}
