//! What an order credits for one recording, and why.
use crate::parts::Parts;
use pool_split::Holders;
use work_ids::{Isrc, SenderKey, WorkNumber};

/// The version of a work that owns a recording at the cut of an order: whose work it is, which one, which of its revisions, and its holders,
/// in order, with their weights in the order's right, in hundredths of a percent.
#[derive(Debug, Drop)]
pub struct OwnedVersion {
    pub sender: SenderKey,
    pub work: WorkNumber,
    pub revision: u64,
    pub holders: Holders,
}

/// What an order credits for a recording, or for none where nothing was played: the recording's points, its part of the amount in units of
/// money, what the whole units of that leave of amount times points, which decides who gets a last unit, and the version that owns it at
/// the cut, none where no work or more than one names it there; and the part of each of its holders, or all of the units where it has none.
#[derive(Debug, Drop)]
pub struct RecordingShare {
    pub isrc: Option<Isrc>,
    pub points: u64,
    pub units: u64,
    pub remainder: u64,
    pub owner: Option<OwnedVersion>,
    pub parts: Parts,
}
