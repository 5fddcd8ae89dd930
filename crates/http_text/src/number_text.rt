//! Numbers of transmissions, fronts and segments as texts.
ghost use Rattle.std.specs.Prelude.{◌≡◌, ◌≤◌, ◌-◌, ◌/◌, ◌%◌};
ghost use Rattle.work_ids.specs.SpelledNumber.{dated_text};
ghost use Rattle.http_text.specs.NumberTexts.{rank_in_text, segment_named};

use work_ids::{FIRST_YEAR, Segment, SpelledNumber, TransmissionNumber, YEAR, last_digits, number};

/// The name of the plain segment.
const PLAIN: &[u8] = b"plain";

/// Digits of the name of a year's segment.
const YEAR_DIGITS: usize = 2;

/// The number of a transmission that a text spells: a plain one, or one of a year as in `26-0001` (profile).
pub(crate) fn number_spelled(text: &[u8]) -> Option<TransmissionNumber>
    ensures { result ≡ rank_in_text text.now }
{
    match SpelledNumber::from_text(text) {
        Some(spelled) => spelled.number(),
        None => TransmissionNumber::from_text(text),
    }
}

/// The segment that a text names: `plain`, or the last two digits of a year (profile).
pub(crate) fn segment_named(text: &[u8]) -> Option<Segment>
    ensures { result ≡ segment_named text.now }
{
    if text == PLAIN {
        return Some(Segment::Plain);
    }
    if text.len() != YEAR_DIGITS {
        return None;
    }
    let year = number(text)?;
    Some(Segment::Year(year as u8))
}

/// The text of a number of a year, given by its rank: the last two digits of the year, a hyphen and four digits.
pub fn dated_text_of(rank: u32) -> [u8; 7]
    requires { 1000000 ≤ rank }
    ensures { result ≡ dated_text ((rank - 1000000) / 10000) ((rank - 1000000) % 10000) }
{
    let year = last_digits::<2>(u64::from((rank - FIRST_YEAR) / YEAR));
    let sequence = last_digits::<4>(u64::from((rank - FIRST_YEAR) % YEAR));
    [
        year[0],
        year[1],
        b'-',
        sequence[0],
        sequence[1],
        sequence[2],
        sequence[3],
    ]
}
