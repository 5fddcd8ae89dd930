//! The recordings whose owners are looked up.
ghost use Rattle.std.specs.Prelude.{◌≡◌, List, ℕ, IfErr, IfOk, Some, bytes_eq, option_map};
ghost use Rattle.std.specs.List.{list_any};
ghost use Rattle.perf_returns.specs.declared.performance.Performance.{Performance as Row};
ghost use Rattle.society_book.specs.Errors.{Blames};
ghost use Rattle.society_core.specs.Points.{is_tallied};
ghost use Rattle.order_credits.specs.Looked.{sought};
ghost use Rattle.order_credits.specs.Shares.{is_wanted};

use perf_returns::{Performance, Plays, Seconds};
use society_core::Tally;
use society_rows::RowFault;
use std::alloc::{AllocError, Global};
use std::collections::BTreeSet;
use work_ids::Isrc;

/// The most recordings that a tally holds, as many as performances (profile).
const MAX_RECORDINGS: usize = 10_000_000;

/// Whether a recording is wanted: it is one of these, or any where none are named.
pub(crate) fn is_wanted(wanted: Option<&BTreeSet<Isrc>>, isrc: &Isrc) -> bool
    ensures { result ≡ is_wanted (option_map (λ set. set.now) wanted.entry) (Some isrc.now) }
{
    match wanted {
        Some(wanted) => wanted.contains(isrc),
        None => true,
    }
}

/// Those of the recordings that are wanted.
pub(crate) fn sought_of(
    alloc: Global,
    played: &[(Isrc, u64)],
    wanted: Option<&BTreeSet<Isrc>>,
) -> Result<Vec<Isrc>, AllocError>
    ensures { IfOk result (λ list. list.items ≡ sought (option_map (λ set. set.now) wanted.entry) played.now) }
{
    let mut list = Vec::new(alloc);
    for recording in played {
        if is_wanted(wanted, &recording.0) {
            list.push(recording.0)?;
        }
    }
    Ok(list)
}

// One play of one second of a recording.
fn play_of(isrc: Isrc) -> Performance
    ensures { result.isrc ≡ isrc }
{
    let (Some(plays), Some(seconds)) = (Plays::from_u32(1), Seconds::from_u32(1)) else {
        unreachable!()
    };
    Performance {
        isrc,
        plays,
        seconds,
    }
}

/// A tally that has points for these recordings, and for no other; `Overflow` where they are more than a tally holds.
pub(crate) fn tally_with(alloc: Global, isrcs: &[Isrc]) -> Result<Tally, RowFault>
    ensures tallied { IfOk result (λ tally. (isrc : List ℕ) → is_tallied tally isrc ≡ list_any (bytes_eq isrc) isrcs.now) }
    ensures blames { IfErr result (Blames ⊥) }
{
    if isrcs.len() > MAX_RECORDINGS {
        return Err(RowFault::Overflow);
    }
    let mut tally = Tally::new(alloc);
    for isrc in isrcs {
        tally.add_all(&[play_of(*isrc)])?;
    }
    Ok(tally)
}
