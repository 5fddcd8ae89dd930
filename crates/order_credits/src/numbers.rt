//! What an amount is split by.
ghost use Rattle.std.specs.Prelude.{◌≡◌, ◌≤◌, ◌<◌, IfOk, MatchOption, sum};
ghost use Rattle.std.specs.List.{zip};
ghost use Rattle.pool_split.specs.Split.{remainder};
ghost use Rattle.order_credits.specs.Shares.{points_played};

use std::alloc::{AllocError, Global};
use work_ids::Isrc;

/// Greatest sum of the points of a pool (profile).
const MAX_POINTS: u64 = 1_000_000_000_000_000_000;

/// The points of recordings.
pub(crate) fn points_of(alloc: Global, played: &[(Isrc, u64)]) -> Result<Vec<u64>, AllocError>
    ensures { IfOk result (λ points. points.items ≡ points_played played.now) }
{
    played.iter().map(|recording| recording.1).collect(alloc)
}

/// The sum of points, none where it is over the greatest.
pub(crate) fn total_of(points: &[u64]) -> Option<u64>
    ensures { MatchOption result (1000000000000000000 < sum points.now) (λ total. (total ≡ sum points.now) × (total ≤ 1000000000000000000)) }
{
    let mut total = 0;
    for some in points {
        if *some > MAX_POINTS - total {
            return None;
        }
        total += *some;
    }
    Some(total)
}

/// What the whole units of a part leave of amount times points.
pub(crate) fn remainder(amount: u64, total: u64, points: u64) -> u64
    requires { 1 ≤ total }
    ensures { result ≡ remainder amount total points }
{
    (u128::from(amount) * u128::from(points) % u128::from(total)) as u64
}

/// Recordings with their parts of the amount.
pub(crate) fn paid_of(
    alloc: Global,
    played: &[(Isrc, u64)],
    parts: &[u64],
) -> Result<Vec<((Isrc, u64), u64)>, AllocError>
    ensures { IfOk result (λ paid. paid.items ≡ zip played.now parts.now) }
{
    played
        .iter()
        .zip(parts.iter())
        .map(|(recording, part)| (*recording, *part))
        .collect(alloc)
}
