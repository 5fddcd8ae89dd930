//! The number of a transmission, plain or of a year.
ghost use Rattle.std.specs.Prelude.{◌≡◌, ◌≤◌, true};
ghost use Rattle.work_ids.specs.Numbers.{is_plain_number, number_in_text, number_where};
ghost use Rattle.work_ids.specs.Segments.{transmission_number_in, index_of, is_transmission_number, segment_of, sequence_of, greatest_rank};

use crate::Segment;
use crate::digits::number_from_one;
use crate::segment::GREATEST_PLAIN;
use std::cmp::Ordering;
use std::marker::Model;

/// Greatest year: the last two digits of one (profile).
pub(crate) const GREATEST_YEAR: u8 = 99;

/// The rank of the number before the first of year 00; plain numbers are below it (profile).
pub const FIRST_YEAR: u32 = 1_000_000;

/// Ranks from the first number of a year to that of the next (profile).
pub const YEAR: u32 = 10_000;

/// The greatest rank of a number, that of number 9,999 of year 99 (profile).
pub const GREATEST_RANK: u32 = 1_999_999;

/// The number of a sender's transmission: a plain number of 1 to 999,999, or a number of 1 to 9,999 within a year of 00 to 99
/// (profile). Plain ones come first, then those of a year by year and number. Clauses see the rank in this order.
#[derive(Clone, Copy, Debug)]
pub struct TransmissionNumber {
    segment: Segment,
    sequence: u32,
}

impl Model for TransmissionNumber {
    ghost use Rattle.std.specs.Prelude.{◌≡◌, ℕ, true};
    ghost use Rattle.work_ids.specs.Segments.{is_in_segment, rank_in, segment_at, segment_of, sequence_of};

    ghost Value = { ℕ };

    ghost view = { λ n. rank_in n.segment n.sequence };

    ghost invariant = { λ n. is_in_segment n.segment n.sequence ≡ true };

    ghost inverse = { λ rank. record { segment = segment_at (segment_of rank); sequence = sequence_of rank } };
}

impl PartialEq for TransmissionNumber {
    ghost use Rattle.std.specs.Prelude.{nat_eq};
    ghost use Rattle.std.proofs.Common.{rules};
    ghost use Rattle.std.specs.Cmp.Rules.{comparing};

    ghost eq = { nat_eq };

    ghost laws = { Prim.search (comparing, rules) };

    fn eq(&self, other: &TransmissionNumber) -> bool {
        self.segment == other.segment && self.sequence == other.sequence
    }
}

impl Eq for TransmissionNumber {
    ghost use Rattle.std.proofs.Common.{rules};
    ghost use Rattle.std.specs.Cmp.Rules.{comparing};

    ghost laws = { Prim.search (comparing, rules) };
}

impl Ord for TransmissionNumber {
    ghost use Rattle.std.specs.Ordering.{nat_cmp};
    ghost use Rattle.std.proofs.Common.{rules};
    ghost use Rattle.std.specs.Cmp.Rules.{comparing};

    ghost cmp = { nat_cmp };

    ghost total = { Prim.search (comparing, rules) };

    ghost matches_partial_cmp = { Prim.search (comparing, rules) };

    ghost matches_eq = { Prim.search (comparing, rules) };

    fn cmp(&self, other: &TransmissionNumber) -> Ordering {
        self.segment
            .cmp(&other.segment)
            .then(self.sequence.cmp(&other.sequence))
    }
}

impl PartialOrd for TransmissionNumber {
    ghost use Rattle.std.specs.Ordering.{nat_cmp, as_partial_cmp};
    ghost use Rattle.std.proofs.Common.{rules};
    ghost use Rattle.std.specs.Cmp.Rules.{comparing};
    ghost use Rattle.std.specs.Cmp.{partial_order_from_own_ties};

    ghost partial_cmp = { as_partial_cmp nat_cmp };

    ghost laws = { partial_order_from_own_ties (Prim.search (comparing, rules)) (Prim.search (comparing, rules)) };

    fn partial_cmp(&self, other: &TransmissionNumber) -> Option<Ordering> {
        Some(self.cmp(other))
    }
}

impl TransmissionNumber {
    /// The number of a segment, where it is within the limits.
    pub fn new(segment: Segment, sequence: u32) -> Option<TransmissionNumber>
        ensures { result ≡ transmission_number_in segment sequence }
    {
        let is_year = match segment {
            Segment::Plain => true,
            Segment::Year(year) => year <= GREATEST_YEAR,
        };
        if is_year && 1 <= sequence && sequence <= segment.greatest() {
            Some(TransmissionNumber { segment, sequence })
        } else {
            None
        }
    }

    /// The number with a rank, where one has it.
    pub fn from_u32(rank: u32) -> Option<TransmissionNumber>
        ensures { result ≡ number_where is_transmission_number rank }
    {
        if rank < FIRST_YEAR {
            return TransmissionNumber::new(Segment::Plain, rank);
        }
        let year = (rank - FIRST_YEAR) / YEAR;
        if year > u32::from(GREATEST_YEAR) {
            return None;
        }
        TransmissionNumber::new(Segment::Year(year as u8), (rank - FIRST_YEAR) % YEAR)
    }

    /// The plain number, where it is within the limits (profile).
    pub fn plain(number: u32) -> Option<TransmissionNumber>
        ensures { result ≡ number_where is_plain_number number }
    {
        TransmissionNumber::new(Segment::Plain, number)
    }

    /// The plain number that decimal digits without a leading zero spell, where it is within the limits (profile).
    pub fn from_text(text: &[u8]) -> Option<TransmissionNumber>
        ensures { result ≡ number_in_text is_plain_number text.now }
    {
        TransmissionNumber::plain(number_from_one(text, GREATEST_PLAIN)?)
    }

    /// Its rank: a plain number is itself, number `k` of year `y` is 1,000,000 + 10,000 × `y` + `k`.
    pub fn value(self) -> u32
        ensures value { result ≡ self }
        ensures limits { (1 ≤ self) × (self ≤ greatest_rank) }
        ensures number { is_transmission_number self ≡ true }
    {
        match self.segment {
            Segment::Plain => self.sequence,
            Segment::Year(year) => FIRST_YEAR + YEAR * u32::from(year) + self.sequence,
        }
    }

    /// Its segment.
    pub fn segment(self) -> Segment
        ensures { index_of result ≡ segment_of self }
    {
        self.segment
    }

    /// The number within its segment.
    pub fn sequence(self) -> u32
        ensures { result ≡ sequence_of self }
    {
        self.sequence
    }
}
