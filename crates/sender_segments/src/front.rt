//! The front of a sender: its last number before the first gap, over the segments that its ends lead through.
ghost use Rattle.std.specs.Prelude.{◌≡◌, ◌≤◌, Bool, ℕ, option_map, true};
ghost use Rattle.work_ids.specs.Segments.{base_of, greatest_rank, index_of, segment_of, sequence_of};
ghost use Rattle.work_ids.specs.declared.segment.Segment.TheVariants.{Year};
ghost use Rattle.sender_segments.specs.Ways.{AreNumbers, AreRight, AreWithinEnds, StatedEnds, IsGap, LeadToYears, end_stated, is_reached};

use work_ids::{FIRST_YEAR, SegmentEnd, YEAR};

/// What is kept of a sender: its numbers, by their ranks, and the ends that it stated.
pub trait Numbers {
    /// Whether a number is there.
    ghost there: { Self → ℕ → Bool };

    /// The ends, each by the place of its segment.
    ghost ends: { Self → StatedEnds };

    /// Whether the number of a rank is there.
    fn has(&self, rank: u32) -> bool
        ensures { result ≡ there self.now rank };

    /// The end of the segment that a rank belongs to, none where none was stated.
    fn end_of(&self, rank: u32) -> Option<SegmentEnd>
        requires { rank ≤ greatest_rank }
        ensures { option_map end_stated result ≡ ends self.now (segment_of rank) };
}

/// The rank before the first number of a year.
pub fn first_rank(year: u8) -> u32
    ensures { result ≡ base_of (index_of (Year year)) }
{
    FIRST_YEAR + YEAR * u32::from(year)
}

/// The number that a rank has within its segment.
pub fn sequence(rank: u32) -> u32
    ensures { result ≡ sequence_of rank }
{
    if rank < FIRST_YEAR {
        rank
    } else {
        (rank - FIRST_YEAR) % YEAR
    }
}

/// The front of a sender, on from a rank that is reached: the last number before a gap, or a year's 0 where nothing of it is there.
pub fn front_from<N: Numbers>(numbers: &N, reached: u32) -> u32
    requires reached { is_reached (N.there numbers.now) (N.ends numbers.now) reached ≡ true }
    requires limit { reached ≤ greatest_rank }
    requires numbers { AreNumbers (N.there numbers.now) }
    requires right { AreRight (N.ends numbers.now) }
    requires years { LeadToYears (N.ends numbers.now) }
    requires within { AreWithinEnds (N.there numbers.now) (N.ends numbers.now) }
    ensures reached { is_reached (N.there numbers.now) (N.ends numbers.now) result ≡ true }
    ensures gap { IsGap (N.there numbers.now) (N.ends numbers.now) result }
    ensures limit { result ≤ greatest_rank }
{
    let mut front = reached;
    loop {
        if numbers.has(front + 1) {
            front += 1;
        } else {
            match numbers.end_of(front) {
                Some(end) if end.last() <= sequence(front) => front = first_rank(end.next()),
                _ => return front,
            }
        }
    }
}
