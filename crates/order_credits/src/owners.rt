//! Which candidate owns a recording.
ghost use Rattle.std.specs.Prelude.{◌≡◌, IfOk, option_map};
ghost use Rattle.society_core.specs.Claims.{sole_candidate};
ghost use Rattle.order_credits.specs.Looked.{KeepsOwners};

use society_core::Candidate;
use std::alloc::{AllocError, Global};
use std::collections::BTreeMap;
use work_ids::Isrc;

/// The owners of recordings among candidates: of each that has any the place of the only one, none where there are several.
#[derive(Drop)]
pub(crate) struct Owners {
    places: BTreeMap<Isrc, Option<usize>>,
}

impl Owners {
    /// Those among these candidates.
    pub(crate) fn among(alloc: Global, candidates: &[Candidate]) -> Result<Owners, AllocError>
        ensures { IfOk result (λ owners. KeepsOwners owners.places candidates.now) }
    {
        let mut places = BTreeMap::new(alloc);
        for (place, candidate) in candidates.iter().enumerate() {
            let known = if places.contains_key(&candidate.isrc) {
                None
            } else {
                Some(place)
            };
            places.insert(candidate.isrc, known)?;
        }
        Ok(Owners { places })
    }

    /// The only candidate for a recording, none where there is none or more than one (profile).
    pub(crate) fn owner<'a>(
        &self,
        candidates: &'a [Candidate],
        isrc: &Isrc,
    ) -> Option<&'a Candidate>
        requires { KeepsOwners self.now.places candidates.now }
        ensures { option_map (λ candidate. candidate.now) result ≡ sole_candidate candidates.now isrc.now }
    {
        match self.places.get(isrc) {
            Some(Some(place)) => candidates.get(*place),
            Some(None) => None,
            None => None,
        }
    }
}
