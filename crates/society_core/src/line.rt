//! The numbers and the ends that are kept of a sender.
ghost use Rattle.std.specs.Prelude.{◌≡◌, ◌≤◌, true};
ghost use Rattle.society_core.specs.Book.{AreOrderly, ends_among, front_in, is_among, is_one_of};
ghost use Rattle.society_core.specs.PlainMaps.{ends_kept, transmissions_of};
ghost use Rattle.sender_segments.specs.Ways.{is_reached, numbers_up_to};
ghost use Rattle.work_ids.specs.Segments.{greatest_rank};

use crate::segment_key::SegmentKey;
use crate::transmission_key::TransmissionKey;
use sender_segments::{Numbers, front_from, is_up_to};
use std::collections::BTreeMap;
use work_ids::{SegmentEnd, SegmentPlace, SenderKey, TransmissionNumber};

/// What is kept of a sender: its transmissions, and the ends that it stated.
#[derive(Drop)]
pub(crate) struct SenderNumbers<'a> {
    transmissions: &'a BTreeMap<TransmissionKey, Vec<u8>>,
    ends: &'a BTreeMap<SegmentKey, SegmentEnd>,
    sender: SenderKey,
    ghost orderly: { AreOrderly (transmissions_of transmissions.now) (ends_kept ends.now) sender },
}

impl Numbers for SenderNumbers<'_> {
    ghost use Rattle.society_core.specs.Book.{ends_among, is_among};
    ghost use Rattle.society_core.specs.PlainMaps.{ends_kept, transmissions_of};

    ghost there = { λ n. is_among (transmissions_of n.transmissions.now) n.sender };

    ghost ends = { λ n. ends_among (ends_kept n.ends.now) n.sender };

    fn has(&self, rank: u32) -> bool {
        match TransmissionNumber::from_u32(rank) {
            Some(number) => self.transmissions.contains_key(&TransmissionKey {
                sender: self.sender,
                number,
            }),
            None => false,
        }
    }

    fn end_of(&self, rank: u32) -> Option<SegmentEnd> {
        let key = SegmentKey {
            sender: self.sender,
            segment: SegmentPlace::of_rank(rank),
        };
        self.ends.get(&key).copied()
    }
}

/// A sender's front, on from a number that is reached.
pub(crate) fn front_on(
    transmissions: &BTreeMap<TransmissionKey, Vec<u8>>,
    ends: &BTreeMap<SegmentKey, SegmentEnd>,
    sender: &SenderKey,
    reached: u32,
) -> u32
    requires reached { is_reached (is_among (transmissions_of transmissions.now) sender.now) (ends_among (ends_kept ends.now) sender.now) reached ≡ true }
    requires limit { reached ≤ greatest_rank }
    requires orderly { AreOrderly (transmissions_of transmissions.now) (ends_kept ends.now) sender.now }
    ensures { result ≡ front_in (transmissions_of transmissions.now) (ends_kept ends.now) sender.now }
{
    let numbers = SenderNumbers {
        transmissions,
        ends,
        sender: *sender,
    };
    front_from(&numbers, reached)
}

/// A sender's line: it knows which numbers are in it.
#[derive(Drop)]
pub(crate) struct Line<'a> {
    transmissions: &'a BTreeMap<TransmissionKey, Vec<u8>>,
    ends: &'a BTreeMap<SegmentKey, SegmentEnd>,
    sender: SenderKey,
    front: u32,
    ghost orderly: { AreOrderly (transmissions_of transmissions.now) (ends_kept ends.now) sender },
    ghost reached: { front ≡ front_in (transmissions_of transmissions.now) (ends_kept ends.now) sender },
}

impl<'a> Line<'a> {
    /// The line of a sender up to its front.
    pub(crate) fn new(
        transmissions: &'a BTreeMap<TransmissionKey, Vec<u8>>,
        ends: &'a BTreeMap<SegmentKey, SegmentEnd>,
        sender: &SenderKey,
        front: u32,
    ) -> Line<'a>
        requires front { front ≡ front_in (transmissions_of transmissions.now) (ends_kept ends.now) sender.now }
        requires orderly { AreOrderly (transmissions_of transmissions.now) (ends_kept ends.now) sender.now }
        ensures ends { result.ends ≡ ends.entry }
        ensures sender { result.sender ≡ sender.now }
        ensures front { result.front ≡ front }
    {
        Line {
            transmissions,
            ends,
            sender: *sender,
            front,
        }
    }

    /// Whether a number is in the line.
    pub(crate) fn has(&self, number: TransmissionNumber) -> bool
        ensures { result ≡ is_one_of (numbers_up_to (ends_among (ends_kept self.now.ends.now) self.now.sender) self.now.front) number }
    {
        let numbers = SenderNumbers {
            transmissions: self.transmissions,
            ends: self.ends,
            sender: self.sender,
        };
        is_up_to(&numbers, self.front, number.value())
    }
}
