//! The credits of a pool.
ghost use Rattle.std.specs.Prelude.{◌≡◌, ◌≤◌, All, IfOk, length, map, sum};
ghost use Rattle.std.specs.List.{zip};
ghost use Rattle.pool_split.specs.Credits.{Ascend, IsPayable, claim_credits, credits, credits_together, points_claimed, units_of};

use crate::claim::{Claim, Credit};
use crate::portion::Portion;
use crate::splitting::split;
use std::alloc::{AllocError, Global};

// The points of claims.
fn points_claimed(alloc: Global, claims: &[Claim]) -> Result<Vec<u64>, AllocError>
    ensures { IfOk result (λ points. points.items ≡ points_claimed claims.now) }
{
    claims.iter().map(|claim| claim.points).collect(alloc)
}

// What is paid for recordings by these parts.
fn portions_by(alloc: Global, claims: &[Claim], parts: &[u64]) -> Result<Vec<Portion>, AllocError>
    requires payable { All IsPayable claims.now }
    requires as_many { length parts.now ≡ length claims.now }
    requires amount { sum parts.now ≤ 1000000000000 }
    ensures { IfOk result (λ list. list.items ≡ map (λ paid. claim_credits paid.0 paid.1) (zip claims.now parts.now)) }
{
    let mut list = Vec::with_capacity(alloc, claims.len())?;
    for place in 0..claims.len() {
        list.push(Portion::of_claim(&claims[place], parts[place])?)?;
    }
    Ok(list)
}

/// What a pool with this amount pays, a portion for each recording: it is split over the recordings, which ascend by ISRC, by their
/// points, and each part over the weights of the owner's work, one credit for each holder in order, or credited to nobody; with no
/// recording all is nobody's (profile). Their credits together are those of the pool.
pub fn portions(alloc: Global, amount: u64, claims: &[Claim]) -> Result<Vec<Portion>, AllocError>
    requires amount { amount ≤ 1000000000000 }
    requires ascending { Ascend claims.now }
    requires payable { All IsPayable claims.now }
    requires points { sum (points_claimed claims.now) ≤ 1000000000000000000 }
    ensures { IfOk result (λ list. credits_together list.items ≡ credits amount claims.now) }
{
    if claims.is_empty() {
        let mut list = Vec::new(alloc);
        list.push(Portion::of_nobody(amount))?;
        return Ok(list);
    }
    let points = points_claimed(alloc, claims)?;
    let parts = split(alloc, amount, &points)?;
    portions_by(alloc, claims, &parts)
}

// The credits of portions, one portion after another.
fn credits_together(alloc: Global, portions: &[Portion]) -> Result<Vec<Credit>, AllocError>
    ensures { IfOk result (λ list. list.items ≡ credits_together portions.now) }
{
    let mut list = Vec::new(alloc);
    for portion in portions {
        let more = portion.credits(alloc)?;
        list.extend_from_slice(&more)?;
    }
    Ok(list)
}

/// The credits of a pool with this amount, those of its portions together. The units add up to the amount.
pub fn credits(alloc: Global, amount: u64, claims: &[Claim]) -> Result<Vec<Credit>, AllocError>
    requires amount { amount ≤ 1000000000000 }
    requires ascending { Ascend claims.now }
    requires payable { All IsPayable claims.now }
    requires points { sum (points_claimed claims.now) ≤ 1000000000000000000 }
    ensures credits { IfOk result (λ list. list.items ≡ credits amount claims.now) }
    ensures whole { IfOk result (λ list. sum (map units_of list.items) ≡ amount) }
{
    let portions = portions(alloc, amount, claims)?;
    credits_together(alloc, &portions)
}
