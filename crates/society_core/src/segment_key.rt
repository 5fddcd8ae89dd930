//! Where the end of a segment stands in the book.
use work_ids::{SegmentPlace, SenderKey};

/// A sender and one of its segments: where the end of the segment stands in the book.
#[derive(Clone, Copy, Debug, PartialEq, Eq, PartialOrd, Ord)]
pub struct SegmentKey {
    pub sender: SenderKey,
    pub segment: SegmentPlace,
}
