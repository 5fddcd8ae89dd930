//! What is wrong with the end of a segment.
ghost use Rattle.std.specs.Prelude.{◌≡◌};
ghost use Rattle.society_core.specs.Ends.{end_fault_number};

use thiserror::Error;
use work_ids::SegmentFault;

/// Why what was sent is no end of a segment (profile). Of several faults the one with the least number is told.
#[derive(Clone, Copy, Debug, PartialEq, Eq, Error)]
pub enum EndFault {
    /// 1 It has another shape than an end.
    #[error("no end")]
    Shape,
    /// 2 or 3 Its numbers end no segment.
    #[error("numbers that end no segment")]
    Numbers(SegmentFault),
}

impl EndFault {
    /// The fault's number, 1 to 3.
    pub fn number(self) -> u8
        ensures { result ≡ end_fault_number self }
    {
        match self {
            EndFault::Shape => 1,
            EndFault::Numbers(fault) => fault.number(),
        }
    }
}
