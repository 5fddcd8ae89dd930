//! The place of a segment among all.
ghost use Rattle.std.specs.Prelude.{◌≡◌, ◌≤◌};
ghost use Rattle.work_ids.specs.Segments.{greatest_rank, index_of, segment_of};

use crate::transmission_number::{FIRST_YEAR, GREATEST_YEAR, YEAR};
use crate::{Segment, SegmentEnd};
use std::cmp::Ordering;
use std::marker::Model;

/// A segment by its place among all: the plain one first, then the years 00 to 99 in order (profile). Clauses see the place,
/// from 0.
#[derive(Clone, Copy, Debug)]
pub struct SegmentPlace {
    segment: Segment,
}

impl Model for SegmentPlace {
    ghost use Rattle.std.specs.Prelude.{◌≡◌, ◌≤◌, ℕ};
    ghost use Rattle.work_ids.specs.Segments.{index_of, segment_at};

    ghost Value = { ℕ };

    ghost view = { λ p. index_of p.segment };

    ghost invariant = { λ p. index_of p.segment ≤ 100 };

    ghost inverse = { λ place. record { segment = segment_at place } };
}

impl PartialEq for SegmentPlace {
    ghost use Rattle.std.specs.Prelude.{nat_eq};
    ghost use Rattle.std.proofs.Common.{rules};
    ghost use Rattle.std.specs.Cmp.Rules.{comparing};

    ghost eq = { nat_eq };

    ghost laws = { Prim.search (comparing, rules) };

    fn eq(&self, other: &SegmentPlace) -> bool {
        self.segment == other.segment
    }
}

impl Eq for SegmentPlace {
    ghost use Rattle.std.proofs.Common.{rules};
    ghost use Rattle.std.specs.Cmp.Rules.{comparing};

    ghost laws = { Prim.search (comparing, rules) };
}

impl Ord for SegmentPlace {
    ghost use Rattle.std.specs.Ordering.{nat_cmp};
    ghost use Rattle.std.proofs.Common.{rules};
    ghost use Rattle.std.specs.Cmp.Rules.{comparing};

    ghost cmp = { nat_cmp };

    ghost total = { Prim.search (comparing, rules) };

    ghost matches_partial_cmp = { Prim.search (comparing, rules) };

    ghost matches_eq = { Prim.search (comparing, rules) };

    fn cmp(&self, other: &SegmentPlace) -> Ordering {
        self.segment.cmp(&other.segment)
    }
}

impl PartialOrd for SegmentPlace {
    ghost use Rattle.std.specs.Ordering.{nat_cmp, as_partial_cmp};
    ghost use Rattle.std.proofs.Common.{rules};
    ghost use Rattle.std.specs.Cmp.Rules.{comparing};
    ghost use Rattle.std.specs.Cmp.{partial_order_from_own_ties};

    ghost partial_cmp = { as_partial_cmp nat_cmp };

    ghost laws = { partial_order_from_own_ties (Prim.search (comparing, rules)) (Prim.search (comparing, rules)) };

    fn partial_cmp(&self, other: &SegmentPlace) -> Option<Ordering> {
        Some(self.cmp(other))
    }
}

impl SegmentPlace {
    /// The place of the segment that a rank belongs to.
    pub fn of_rank(rank: u32) -> SegmentPlace
        requires { rank ≤ greatest_rank }
        ensures { result ≡ segment_of rank }
    {
        let segment = if rank < FIRST_YEAR {
            Segment::Plain
        } else {
            Segment::Year(((rank - FIRST_YEAR) / YEAR) as u8)
        };
        SegmentPlace { segment }
    }

    /// The place of the segment that an end ends.
    pub(crate) fn of_end(end: &SegmentEnd) -> SegmentPlace
        ensures { result ≡ index_of end.now.segment }
    {
        // That an end has no fault is part of what it says of itself.
        let _last = end.last();
        SegmentPlace {
            segment: end.segment(),
        }
    }

    /// The segment at the place.
    pub fn segment(self) -> Segment
        ensures place { index_of result ≡ self }
        ensures limit { self ≤ 100 }
    {
        self.segment
    }
}
