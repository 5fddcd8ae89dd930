//! Whether the ends of a sender lead to a number, and whether it is one of those up to a front.
ghost use Rattle.std.specs.Prelude.{◌≡◌, ◌≤◌, ◌==◌, ◌&&◌, true};
ghost use Rattle.std.specs.List.{list_any};
ghost use Rattle.work_ids.specs.Segments.{greatest_rank, segment_of, sequence_of};
ghost use Rattle.sender_segments.specs.Ways.{AreRight, IsWithinEnd, LeadToYears, is_up_to_end, leads_to, numbers_up_to};

use crate::front::{Numbers, first_rank, sequence};

/// Whether the ends lead to the number of a rank.
pub fn leads<N: Numbers>(numbers: &N, rank: u32) -> bool
    requires limit { rank ≤ greatest_rank }
    requires right { AreRight (N.ends numbers.now) }
    requires years { LeadToYears (N.ends numbers.now) }
    ensures { result ≡ leads_to (N.ends numbers.now) rank }
{
    let wanted = rank - sequence(rank);
    let mut at = 0;
    while at < wanted {
        match numbers.end_of(at) {
            Some(end) => at = first_rank(end.next()),
            None => return false,
        }
    }
    at == wanted
}

/// Whether a rank is not above the end of its segment, if that has one.
pub fn is_up_to_end<N: Numbers>(numbers: &N, rank: u32) -> bool
    requires limit { rank ≤ greatest_rank }
    ensures { result ≡ is_up_to_end (N.ends numbers.now (segment_of rank)) (sequence_of rank) }
{
    match numbers.end_of(rank) {
        Some(end) => sequence(rank) <= end.last(),
        None => true,
    }
}

// Four tests that hold. A call of its own for the proof, which then has one test to look at.
fn are_all(a: bool, b: bool, c: bool, d: bool) -> bool
    ensures { result ≡ (a && (b && (c && d))) }
{
    a && b && c && d
}

/// Whether the number of a rank is one of those up to a front.
pub fn is_up_to<N: Numbers>(numbers: &N, front: u32, rank: u32) -> bool
    requires led { leads_to (N.ends numbers.now) front ≡ true }
    requires right { AreRight (N.ends numbers.now) }
    requires years { LeadToYears (N.ends numbers.now) }
    requires within { IsWithinEnd (N.ends numbers.now) front }
    requires limit { rank ≤ greatest_rank }
    ensures { result ≡ list_any (λ m. m == rank) (numbers_up_to (N.ends numbers.now) front) }
{
    let is_led_to = leads(numbers, rank);
    let is_within = is_up_to_end(numbers, rank);
    are_all(1 <= sequence(rank), rank <= front, is_led_to, is_within)
}
