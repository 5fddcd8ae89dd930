//! The claims of a pool.
ghost use Rattle.std.specs.Prelude.{◌≡◌, IfOk, option_map};
ghost use Rattle.society_core.specs.Claims.{Indexes, claim_among, claims_among, sole_candidate};

use pool_split::{Claim, Holders};
use std::alloc::{AllocError, Global};
use std::collections::BTreeMap;
use work_ids::{Isrc, SenderKey, WorkNumber};

/// A work that may own a recording: its version at the cut of its sender names it; with the holders of that version.
#[derive(Debug, Drop)]
pub struct Candidate {
    pub isrc: Isrc,
    pub sender: SenderKey,
    pub work: WorkNumber,
    pub holders: Holders,
}

/// The candidates for a recording that has any.
#[derive(Clone, Copy, Debug)]
enum Found {
    /// There is one, at this place.
    Only(usize),
    /// There are several.
    Several,
}

// The candidates of each recording, found in one pass over them all.
fn found_by_isrc(
    alloc: Global,
    candidates: &[Candidate],
) -> Result<BTreeMap<Isrc, Found>, AllocError>
    ensures { IfOk result (λ found. Indexes found candidates.now) }
{
    let mut found = BTreeMap::new(alloc);
    for (place, candidate) in candidates.iter().enumerate() {
        let known = if found.contains_key(&candidate.isrc) {
            Found::Several
        } else {
            Found::Only(place)
        };
        found.insert(candidate.isrc, known)?;
    }
    Ok(found)
}

// The only candidate for a recording, none where there is none or more than one (profile).
fn sole_candidate<'a>(
    found: &BTreeMap<Isrc, Found>,
    candidates: &'a [Candidate],
    isrc: &Isrc,
) -> Option<&'a Candidate>
    requires { Indexes found.now candidates.now }
    ensures { option_map (λ candidate. candidate.now) result ≡ sole_candidate candidates.now isrc.now }
{
    match found.get(isrc) {
        Some(Found::Only(place)) => candidates.get(*place),
        Some(Found::Several) => None,
        None => None,
    }
}

// The claim of a recording with its points.
fn claim_among(
    found: &BTreeMap<Isrc, Found>,
    candidates: &[Candidate],
    played: &(Isrc, u64),
) -> Result<Claim, AllocError>
    requires { Indexes found.now candidates.now }
    ensures { IfOk result (λ claim. claim ≡ claim_among candidates.now played.now) }
{
    let holders = match sole_candidate(found, candidates, &played.0) {
        None => None,
        Some(candidate) => Some(candidate.holders.share()?),
    };
    Ok(Claim {
        isrc: played.0,
        points: played.1,
        holders,
    })
}

/// The claims of recordings with their points, in their order: each the claim of the only candidate for it, or nobody's
/// where there is none or more than one (profile). Each ISRC, sender and work stands once among the candidates.
pub fn claims(
    alloc: Global,
    points: &[(Isrc, u64)],
    candidates: &[Candidate],
) -> Result<Vec<Claim>, AllocError>
    ensures { IfOk result (λ claims. claims.items ≡ claims_among points.now candidates.now) }
{
    let found = found_by_isrc(alloc, candidates)?;
    let mut claims = Vec::with_capacity(alloc, points.len())?;
    for played in points {
        claims.push(claim_among(&found, candidates, played)?)?;
    }
    Ok(claims)
}
