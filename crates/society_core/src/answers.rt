//! What the office answers.
use crate::inquiry::Showing;
use crate::refusal::Refusal;
use share_rules::Holder;
use work_ids::{Isrc, Iswc, PoolNumber, TransmissionNumber, WorkNumber};
use works_core::WorkVersion;

/// Whether a transmission counts: applied where its number is in its sender's line, else held.
#[derive(Clone, Copy, Debug, PartialEq, Eq)]
pub enum Standing {
    /// It counts: its sender's ends lead to it, and all numbers before it have come.
    Applied,
    /// It waits behind its sender's first gap.
    Held,
}

/// How a transmission that was put stands now.
#[derive(Clone, Copy, Debug, PartialEq, Eq)]
pub struct Arrival {
    /// Whether the same bytes had come before under this number.
    pub known: bool,
    /// The sender's front, as a rank: the greatest number that its ends lead to and up to which all have come.
    pub front: u32,
    /// Whether its number is in the sender's line.
    pub standing: Standing,
}

/// Whether an end, a return or an order is new to the book, or came again.
#[derive(Clone, Copy, Debug, PartialEq, Eq)]
pub enum Receipt {
    /// It was added.
    New,
    /// The same had come before under its number.
    Repeated,
}

/// How a sender stands: its front, as a rank, and the numbers under which transmissions wait, ascending.
#[derive(Debug, Drop)]
pub struct SenderStatus {
    pub front: u32,
    pub held: Vec<TransmissionNumber>,
}

/// A work as its version at the sender's front shows it: title without the blanks at its end, ISRCs in order with
/// repeats, holders with weights in hundredths of a percent, what nobody claims last (profile).
#[derive(Debug, Drop)]
pub struct Work {
    pub number: WorkNumber,
    pub version: WorkVersion,
    pub title: Vec<u8>,
    pub iswc: Option<Iswc>,
    pub isrcs: Vec<Isrc>,
    pub holders: Vec<Holder>,
}

/// What the office answers.
#[derive(Drop)]
pub enum Answer {
    /// A put was taken: how the transmission stands.
    Arrived(Arrival),
    /// The end of a segment is taken down: the sender's front, as a rank.
    Ended(Receipt, u32),
    /// A return is stored.
    Stored(Receipt),
    /// A pool is closed.
    Closed(Receipt, PoolNumber),
    /// What a question asked for is shown.
    Showed(Showing),
    /// Why the request is refused.
    Refused(Refusal),
}
