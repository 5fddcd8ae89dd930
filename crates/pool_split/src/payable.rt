//! Whether claims that come from where nothing is proved of them can be paid.
ghost use Rattle.std.specs.Prelude.{◌≡◌, ◌≤◌, ◌↔◌, All, IsTrue, Some, sum};
ghost use Rattle.std.specs.Cmp.Lexicographic.{slice_cmp};
ghost use Rattle.std.specs.Ordering.{nat_cmp};
ghost use Rattle.std.specs.declared.cmp.Ordering.TheVariants.{Less};
ghost use Rattle.pool_split.specs.Credits.{ArePayable, Ascend, HasWeights, IsPayable, points_claimed};

use crate::claim::Claim;
use share_rules::Holder;

/// The most that the points of all claims, and the weights of a claim's holders, may come to (profile).
const GREATEST_TOTAL: u64 = 1_000_000_000_000_000_000;

// Whether the ISRC of one claim is below that of another.
fn is_below(earlier: &Claim, later: &Claim) -> bool
    ensures { IsTrue result ↔ (slice_cmp nat_cmp earlier.now.isrc later.now.isrc ≡ Less) }
{
    earlier.isrc.cmp(&later.isrc).is_lt()
}

// Whether claims ascend by ISRC: each is below the next.
fn are_ascending(claims: &[Claim]) -> bool
    ensures { IsTrue result ↔ Ascend claims.now }
{
    for place in 1..claims.len() {
        if !is_below(&claims[place - 1], &claims[place]) {
            return false;
        }
    }
    true
}

// Whether the weights of holders come to something, and to no more than they may.
fn have_weights(holders: &[Holder]) -> bool
    ensures { IsTrue result ↔ HasWeights (Some holders.now) }
{
    let mut total = 0;
    for holder in holders {
        if holder.weight > GREATEST_TOTAL - total {
            return false;
        }
        total += holder.weight;
    }
    total > 0
}

// Whether a claim has points, and its holders, where there are some, have weights.
fn is_payable(claim: &Claim) -> bool
    ensures { IsTrue result ↔ IsPayable claim.now }
{
    if claim.points == 0 {
        return false;
    }
    match &claim.holders {
        None => true,
        Some(holders) => have_weights(holders.as_slice()),
    }
}

// Whether each claim can be paid by itself.
fn is_each_payable(claims: &[Claim]) -> bool
    ensures { IsTrue result ↔ All IsPayable claims.now }
{
    for claim in claims {
        if !is_payable(claim) {
            return false;
        }
    }
    true
}

// Whether the points of claims come to no more than they may.
fn have_points_within(claims: &[Claim]) -> bool
    ensures { IsTrue result ↔ (sum (points_claimed claims.now) ≤ 1000000000000000000) }
{
    let mut total = 0;
    for claim in claims {
        if claim.points > GREATEST_TOTAL - total {
            return false;
        }
        total += claim.points;
    }
    true
}

/// Whether claims can be paid: they ascend by ISRC, each has points and holders whose weights come to something, and points
/// and weights are within their limits.
pub fn are_payable(claims: &[Claim]) -> bool
    ensures { IsTrue result ↔ ArePayable claims.now }
{
    are_ascending(claims) && is_each_payable(claims) && have_points_within(claims)
}
