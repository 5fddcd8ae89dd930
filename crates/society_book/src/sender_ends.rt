//! The ends that a sender stated of its segments.
ghost use Rattle.std.specs.Prelude.{◌≡◌, ◌++◌, ◌∷◌, ◌&&◌, ◌<◌, ◌≤◌, [], IfSome, OnOk, option_map, true};
ghost use Rattle.sender_segments.specs.Ways.{AreRight, IsWithinEnd, LeadToYears, end_stated, leads_to, numbers_up_to};
ghost use Rattle.society_core.specs.Book.{is_one_of};
ghost use Rattle.society_core.specs.Ends.{end_known_by, last_below, place_stated};
ghost use Rattle.society_book.specs.EndLists.{behind_end, end_listed, passed_to};
ghost use Rattle.work_ids.specs.Segments.{base_of, greatest_rank, segment_of, sequence_of};

use sender_segments::{Numbers, first_rank, is_up_to_end, leads, sequence};
use society_core::Known;
use std::alloc::{AllocError, Global};
use std::marker::Model;
use work_ids::{SegmentEnd, SegmentPlace, TransmissionNumber};

/// The ends that a sender stated of its segments; of a segment the first one counts.
#[derive(Drop)]
pub struct SenderEnds {
    list: Vec<SegmentEnd>,
}

impl Model for SenderEnds {
    ghost use Rattle.std.specs.Prelude.{◌≡◌, List, true};
    ghost use Rattle.std.specs.List.{list_all};
    ghost use Rattle.society_book.specs.EndLists.{is_faultless};
    ghost use Rattle.work_ids.specs.SegmentEnds.{StatedEnd};

    ghost Value = { List StatedEnd };

    ghost view = { λ ends. ends.list.items };

    ghost invariant = { λ ends. list_all is_faultless ends.list.items ≡ true };
}

// The first of some ends that is of the segment at a place.
fn find_end(list: &[SegmentEnd], place: SegmentPlace) -> Option<SegmentEnd>
    ensures { option_map end_stated result ≡ end_listed list.now place }
{
    list.iter().find(|end| end.place() == place).copied()
}

// Four tests that hold. A call of its own for the proof, which then has one test to look at.
fn are_all(a: bool, b: bool, c: bool, d: bool) -> bool
    ensures { result ≡ (a && (b && (c && d))) }
{
    a && b && c && d
}

impl SenderEnds {
    /// No ends.
    pub(crate) fn new(alloc: Global) -> SenderEnds
        ensures { result ≡ [] }
    {
        SenderEnds {
            list: Vec::new(alloc),
        }
    }

    /// Takes an end more.
    pub fn push(&mut self, end: &SegmentEnd) -> Result<(), AllocError>
        ensures { OnOk result (self.new ≡ self.old ++ end.now ∷ []) }
    {
        // That an end has no fault is part of what it says of itself.
        let _last = end.last();
        self.list.push(*end)?;
        Ok(())
    }

    /// Does nothing: it tells a proof that each end leads to a later year.
    pub(crate) fn see_years(&self)
        ensures right { AreRight (end_listed self.now) }
        ensures years { LeadToYears (end_listed self.now) }
    {
        let _list = &self.list;
    }

    // The end of the segment at a place, none where none was stated.
    fn end_at(&self, place: SegmentPlace) -> Option<SegmentEnd>
        ensures { option_map end_stated result ≡ end_listed self.now place }
    {
        find_end(self.list.as_slice(), place)
    }

    /// Whether a number is in the line up to a front, where the ends lead to the front and it is not above the end of its segment.
    pub fn is_in_line(&self, front: u32, number: TransmissionNumber) -> bool
        ensures { leads_to (end_listed self.now) front ≡ true → IsWithinEnd (end_listed self.now) front
            → result ≡ is_one_of (numbers_up_to (end_listed self.now) front) number }
    {
        self.see_years();
        let rank = number.value();
        let is_led_to = leads(self, rank);
        let is_within = is_up_to_end(self, rank);
        are_all(1 <= sequence(rank), rank <= front, is_led_to, is_within)
    }

    /// The last number of a number's segment, where the number is above it.
    pub(crate) fn ended_before(&self, number: TransmissionNumber) -> Option<u32>
        ensures { result ≡ last_below (sequence_of number) (end_listed self.now (segment_of number)) }
    {
        match self.end_of(number.value()) {
            Some(end) if end.last() < number.sequence() => Some(end.last()),
            _ => None,
        }
    }

    /// Whether the segment of an end has this end, another one, or none.
    pub(crate) fn known_end(&self, end: &SegmentEnd) -> Known
        ensures { result ≡ end_known_by (end_stated end.now) (end_listed self.now (place_stated end.now)) }
    {
        match self.end_at(end.place()) {
            None => Known::Absent,
            Some(kept) if kept.last() == end.last() && kept.next() == end.next() => Known::Same,
            Some(_) => Known::Other,
        }
    }

    /// The first rank behind the end of a rank's segment, where a number is not below the end.
    pub fn behind(&self, rank: u32, reached: u32) -> Option<u32>
        requires { rank ≤ greatest_rank }
        ensures value { result ≡ behind_end (base_of (segment_of rank)) reached (end_listed self.now (segment_of rank)) }
        ensures later { IfSome result (λ next. (rank < next) × (next ≤ greatest_rank)) }
    {
        self.see_years();
        let first = rank - sequence(rank);
        match self.end_of(rank) {
            Some(end) if first + end.last() <= reached => Some(first_rank(end.next())),
            _ => None,
        }
    }

    /// The first rank behind the end of a rank's segment, where a front is not below that rank.
    pub(crate) fn rank_passed_to(&self, rank: u32, front: u32) -> Option<u32>
        requires { rank ≤ greatest_rank }
        ensures value { result ≡ passed_to front (end_listed self.now (segment_of rank)) }
        ensures later { IfSome result (λ next. (rank < next) × (next ≤ greatest_rank)) }
    {
        self.see_years();
        match self.end_of(rank) {
            Some(end) if first_rank(end.next()) <= front => Some(first_rank(end.next())),
            _ => None,
        }
    }
}

impl Numbers for SenderEnds {
    ghost use Rattle.std.specs.Prelude.{false};
    ghost use Rattle.society_book.specs.EndLists.{end_listed};

    ghost there = { λ _ _. false };

    ghost ends = { λ ends. end_listed ends };

    fn has(&self, _rank: u32) -> bool {
        false
    }

    fn end_of(&self, rank: u32) -> Option<SegmentEnd> {
        self.end_at(SegmentPlace::of_rank(rank))
    }
}
