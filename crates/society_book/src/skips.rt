//! The segments that a sender's line skips.
ghost use Rattle.std.specs.Prelude.{◌≡◌, ◌≤◌, suc, IfOk, true};
ghost use Rattle.sender_segments.specs.Ways.{leads_to};
ghost use Rattle.society_book.specs.EndLists.{end_listed};
ghost use Rattle.society_book.specs.Standing.{AreSkipped};
ghost use Rattle.work_ids.specs.Segments.{base_of, greatest_rank, segment_of};

use crate::sender_ends::SenderEnds;
use std::alloc::{AllocError, Global};
use work_ids::{FIRST_YEAR, YEAR};

/// Segments between two that follow one another in a line: their numbers are above one rank and below another.
#[derive(Clone, Copy, Debug)]
pub(crate) struct Skip {
    pub(crate) above: u32,
    pub(crate) below: u32,
}

// The first rank of the segment after one that begins with a rank.
fn next_segment(first: u32) -> u32
    requires limit { first ≤ greatest_rank }
    requires first { first ≡ base_of (segment_of first) }
    ensures { result ≡ base_of (suc (segment_of first)) }
{
    if first < FIRST_YEAR {
        FIRST_YEAR
    } else {
        first + YEAR
    }
}

/// What a sender's line skips up to a front, ascending.
pub(crate) fn skips_to(
    alloc: Global,
    ends: &SenderEnds,
    front: u32,
) -> Result<Vec<Skip>, AllocError>
    ensures { leads_to (end_listed ends.now) front ≡ true → IfOk result (λ skips. AreSkipped (end_listed ends.now) front skips.items) }
{
    ends.see_years();
    let mut skips = Vec::new(alloc);
    let mut first = 0;
    'segments: while let Some(next) = ends.rank_passed_to(first, front) {
        let above = next_segment(first);
        if above < next {
            skips.push(Skip { above, below: next })?;
        }
        first = next;
    }
    Ok(skips)
}
