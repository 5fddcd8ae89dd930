//! Versions of works.
use work_ids::TransmissionNumber;

/// An accepted version of a work: the number of its transmission, its place there from 0 among the transactions of types
/// NWR and REV, its work's number among the sender's accepted works from 1, and which revision it is from 0 (profile).
#[derive(Clone, Copy, Debug, PartialEq, Eq)]
pub struct WorkVersion {
    pub transmission: TransmissionNumber,
    pub place: usize,
    pub ordinal: u64,
    pub revision: u64,
}

/// An accepted version with the index of the one before it of the same work, none for a work's first.
#[derive(Clone, Copy)]
pub struct LinkedVersion {
    pub version: WorkVersion,
    pub before: Option<usize>,
}
