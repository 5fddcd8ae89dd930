//! Laws of every split and every pool: each is the contract of a function that does nothing, over the definitions that
//! `split` and `credits` are proved to meet.
ghost use Rattle.std.specs.Prelude.{◌≡◌, ◌≤◌, All, ℕ, List, map, sum};
ghost use Rattle.pool_split.specs.Credits.{IsPayable, credits, units_of};
ghost use Rattle.pool_split.specs.Split.{IsFair, split_of};
ghost use Rattle.pool_split.specs.declared.claim.Claim.{Claim};

/// The parts of any amount over weights that are not all zero are fair: they add up to it, a weight of zero gets nothing,
/// and each part is less than one unit from its share (profile).
pub fn splits_are_fair()
    ensures { (amount : ℕ) (weights : List ℕ) → 1 ≤ sum weights → IsFair amount weights (split_of amount weights) }
{}

/// The units of a pool's credits add up to its amount, whatever is claimed of it (profile).
pub fn credits_add_up()
    ensures { (amount : ℕ) (claims : List Claim) → All IsPayable claims → sum (map units_of (credits amount claims)) ≡ amount }
{}
