//! Where a transmission stands in the book.
use work_ids::{SenderKey, TransmissionNumber};

/// A sender and a number: where a transmission stands in the book, and, in an order, the last transmission of a sender
/// that its cut takes in.
#[derive(Clone, Copy, Debug, PartialEq, Eq, PartialOrd, Ord)]
pub struct TransmissionKey {
    pub sender: SenderKey,
    pub number: TransmissionNumber,
}
