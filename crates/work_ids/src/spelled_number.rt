//! Numbers as texts and orders spell them; they may be none.
ghost use Rattle.std.specs.Prelude.{◌≡◌, ◌≤◌, Some};
ghost use Rattle.work_ids.specs.SpelledNumber.{dated_in_text, dated_text, transmission_number_spelled, is_dated_text};
ghost use Rattle.work_ids.specs.declared.spelled_number.SpelledNumber.TheVariants.{Dated};

use crate::characters::{are_digits, is_hyphen};
use crate::digits::{last_digits, short_number};
use crate::{Segment, TransmissionNumber};

/// Characters of the text of a number of a year, as in `26-0001`.
const DATED_LENGTH: usize = 7;

/// A number as it is spelled, which may be none: an order may name a plain number of any size, or number 0 of a year
/// (profile).
#[derive(Clone, Copy, Debug, PartialEq, Eq)]
pub enum SpelledNumber {
    /// A number by itself.
    Plain(u64),
    /// A number behind the last two digits of a year.
    Dated { year: u8, sequence: u16 },
}

// Whether a text is two digits, a hyphen and four digits.
#[tactic(auto, unfolding(crate::specs::SpelledNumber::is_dated_text))]
fn is_dated_text(text: &[u8]) -> bool
    ensures { result ≡ is_dated_text text.now }
{
    text.len() == DATED_LENGTH
        && are_digits(&text[..2])
        && is_hyphen(text[2])
        && are_digits(&text[3..7])
}

/// The text of a number of a year, as in `26-0001`: the last two digits of the year, a hyphen and the last four digits of
/// the number (profile). `SpelledNumber::from_text` reads back a year of 0 to 99 and a number of 0 to 9,999.
pub fn dated_text(year: u8, sequence: u16) -> [u8; 7]
    ensures text { result ≡ dated_text year sequence }
    ensures back { year ≤ 99 → sequence ≤ 9999 → dated_in_text result ≡ Some (Dated year sequence) }
{
    let year = last_digits::<2>(u64::from(year));
    let sequence = last_digits::<4>(u64::from(sequence));
    [
        year[0],
        year[1],
        b'-',
        sequence[0],
        sequence[1],
        sequence[2],
        sequence[3],
    ]
}

impl SpelledNumber {
    ghost use Rattle.std.specs.Prelude.{◌↔◌, ℕ};
    ghost use Rattle.work_ids.specs.SpelledNumber.{IsDatedText};

    /// The number that a text of two digits, a hyphen and four digits spells, as in `26-0001`; none where a text has
    /// another form (profile). `dated_text` writes the text back.
    pub fn from_text(text: &[u8]) -> Option<SpelledNumber>
        ensures value { result ≡ dated_in_text text.now }
        ensures exact { (year sequence : ℕ) → (result ≡ Some (Dated year sequence)) ↔ IsDatedText year sequence text.now }
    {
        if !is_dated_text(text) {
            return None;
        }
        Some(SpelledNumber::Dated {
            year: short_number(&text[..2]) as u8,
            sequence: short_number(&text[3..7]),
        })
    }

    /// The number that is spelled, where it is within the limits.
    pub fn number(self) -> Option<TransmissionNumber>
        ensures { result ≡ transmission_number_spelled self }
    {
        match self {
            SpelledNumber::Plain(number) => {
                TransmissionNumber::new(Segment::Plain, u32::try_from(number).ok()?)
            }
            SpelledNumber::Dated { year, sequence } => {
                TransmissionNumber::new(Segment::Year(year), u32::from(sequence))
            }
        }
    }
}
