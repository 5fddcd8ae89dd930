//! Where a sender says that a segment of its numbers ends, and which year comes next.
ghost use Rattle.std.specs.Prelude.{◌≡◌, None};
ghost use Rattle.work_ids.specs.Segments.{index_of};
ghost use Rattle.work_ids.specs.SegmentEnds.{is_next_not_later, segment_fault, segment_fault_number, stated_end};

use crate::transmission_number::GREATEST_YEAR;
use crate::{Segment, SegmentPlace};
use std::marker::Model;
use thiserror::Error;

/// Why numbers end no segment; fault 1, another shape, is that of the text that spells them (profile).
#[derive(Clone, Copy, Debug, PartialEq, Eq, Error)]
pub enum SegmentFault {
    /// The last number is over the greatest of the segment, or the next year is over 99.
    #[error("out of range")]
    OutOfRange,
    /// The next year does not come after the segment.
    #[error("not later")]
    NotLater,
}

impl SegmentFault {
    /// The number of the fault, 2 or 3.
    pub fn number(self) -> u8
        ensures { result ≡ segment_fault_number self }
    {
        match self {
            SegmentFault::OutOfRange => 2,
            SegmentFault::NotLater => 3,
        }
    }
}

/// Where a sender says that a segment of its numbers ends: the last number, and the year whose numbers come next, which is
/// later (profile). Clauses see a record of the three.
#[derive(Clone, Copy, Debug, PartialEq, Eq)]
pub struct SegmentEnd {
    segment: Segment,
    last: u32,
    next: u8,
}

impl Model for SegmentEnd {
    ghost use Rattle.std.specs.Prelude.{◌≡◌, None};
    ghost use Rattle.work_ids.specs.Segments.{index_of};
    ghost use Rattle.work_ids.specs.SegmentEnds.{StatedEnd, segment_fault};

    ghost Value = { StatedEnd };

    ghost view = { λ e. record { segment = e.segment; last = e.last; next = e.next } };

    ghost invariant = { λ e. segment_fault e.segment e.last e.next ≡ None };

    ghost inverse = { λ e. record { segment = e.segment; last = e.last; next = e.next } };
}

// Whether a year does not come after a segment.
fn is_next_not_later(segment: Segment, next: u64) -> bool
    ensures { result ≡ is_next_not_later segment next }
{
    match segment {
        Segment::Plain => false,
        Segment::Year(year) => next <= u64::from(year),
    }
}

impl SegmentEnd {
    /// The end that these numbers make; else the fault with the least number (profile).
    pub fn new(segment: Segment, last: u64, next: u64) -> Result<SegmentEnd, SegmentFault>
        ensures { result ≡ stated_end segment last next (segment_fault segment last next) }
    {
        if last > u64::from(segment.greatest()) || next > u64::from(GREATEST_YEAR) {
            return Err(SegmentFault::OutOfRange);
        }
        if is_next_not_later(segment, next) {
            return Err(SegmentFault::NotLater);
        }
        Ok(SegmentEnd {
            segment,
            last: last as u32,
            next: next as u8,
        })
    }

    /// The segment that ends.
    pub fn segment(&self) -> Segment
        ensures { result ≡ self.now.segment }
    {
        self.segment
    }

    /// The place of the segment that ends.
    pub fn place(&self) -> SegmentPlace
        ensures { result ≡ index_of self.now.segment }
    {
        SegmentPlace::of_end(self)
    }

    /// Its last number, 0 where it has none.
    pub fn last(&self) -> u32
        ensures value { result ≡ self.now.last }
        ensures right { segment_fault self.now.segment self.now.last self.now.next ≡ None }
    {
        self.last
    }

    /// The year whose numbers come next.
    pub fn next(&self) -> u8
        ensures { result ≡ self.now.next }
    {
        self.next
    }
}
