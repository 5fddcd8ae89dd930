//! Numbers of transmissions, returns and pools: which there are, how they are spelled, and where segments of them end.
use crate::told::Told;
use test_sheets::first_word;
use work_ids::{
    GREATEST_RANK, PoolNumber, ReturnNumber, Segment, SegmentEnd, SegmentFault, SegmentPlace,
    SpelledNumber, TransmissionNumber, dated_text, read_file_name,
};

/// Tells what a word asks of numbers; whether there is such a word.
pub fn tell_number(told: &mut Told, word: &str, rest: &str, text: &[u8]) -> bool {
    match word {
        "number" => tell_numbered(told, rest),
        "spelled" => tell_spelled(told, text),
        "rank" => tell_rank(told, rest),
        "within" => tell_within(told, rest),
        "plain" => tell_plain(told, rest),
        "order" => tell_order(told, rest),
        "place" => tell_place(told, rest),
        "dated" => tell_dated(told, text),
        "plain-spelled" => tell_plain_spelled(told, rest),
        "year-spelled" => tell_year_spelled(told, rest),
        "file-to-900" => tell_rank_of(told, read_file_name(text, 900)),
        "file-to-7" => tell_rank_of(told, read_file_name(text, 7)),
        "end" => tell_end(told, rest),
        _ => return false,
    }
    true
}

/// The segment that a word names: `plain`, or a year.
fn segment(told: &mut Told, word: &str) -> Segment {
    match word.parse::<u8>() {
        Ok(year) => Segment::Year(year),
        Err(_) => {
            if word != "plain" {
                told.word(b"no segment:");
            }
            Segment::Plain
        }
    }
}

fn tell_segment(told: &mut Told, segment: Segment) {
    match segment {
        Segment::Plain => told.word(b"plain"),
        Segment::Year(year) => told.value(year),
    }
}

fn rank_of(number: Option<TransmissionNumber>) -> Option<u32> {
    match number {
        Some(number) => Some(number.value()),
        None => None,
    }
}

fn tell_rank_of(told: &mut Told, number: Option<TransmissionNumber>) {
    told.option(rank_of(number));
}

/// Tells a number of a return.
fn tell_return(told: &mut Told, number: Option<ReturnNumber>) {
    match number {
        Some(number) => told.value(number.value()),
        None => told.word(b"none"),
    }
}

/// Tells a number of a pool.
fn tell_pool(told: &mut Told, number: Option<PoolNumber>) {
    match number {
        Some(number) => told.value(number.value()),
        None => told.word(b"none"),
    }
}

/// Tells a number as that of a transmission, of a return and of a pool.
fn tell_numbered(told: &mut Told, rest: &str) {
    let number = told.number(rest);
    tell_rank_of(told, TransmissionNumber::from_u32(number));
    tell_return(told, ReturnNumber::from_u32(number));
    tell_pool(told, PoolNumber::from_u32(number));
}

/// Tells the number that a text spells, as that of a transmission, of a return and of a pool.
fn tell_spelled(told: &mut Told, text: &[u8]) {
    tell_rank_of(told, TransmissionNumber::from_text(text));
    tell_return(told, ReturnNumber::from_text(text));
    tell_pool(told, PoolNumber::from_text(text));
}

/// Tells the segment and the number there that have a rank, and the rank of these.
fn tell_rank(told: &mut Told, rest: &str) {
    match TransmissionNumber::from_u32(told.number(rest)) {
        Some(number) => {
            tell_segment(told, number.segment());
            told.value(number.sequence());
            tell_rank_of(
                told,
                TransmissionNumber::new(number.segment(), number.sequence()),
            );
        }
        None => told.word(b"none"),
    }
}

/// The number that two words name: a segment, and a number there.
fn number_within(told: &mut Told, rest: &str) -> Option<TransmissionNumber> {
    let (year, sequence) = first_word(rest);
    let segment = segment(told, year);
    TransmissionNumber::new(segment, told.number(sequence))
}

/// Tells the rank of a number of a segment.
fn tell_within(told: &mut Told, rest: &str) {
    let number = number_within(told, rest);
    tell_rank_of(told, number);
}

fn tell_plain(told: &mut Told, rest: &str) {
    let number = told.number(rest);
    tell_rank_of(told, TransmissionNumber::plain(number));
}

/// Tells whether it comes before.
fn tell_before(told: &mut Told, is_before: bool) {
    if is_before {
        told.word(b"before");
    } else {
        told.word(b"not before");
    }
}

/// Tells whether one number comes before another: a segment and a number there, a comma, and the same of the other.
fn tell_order(told: &mut Told, rest: &str) {
    let (one, other) = rest.split_once(", ").unwrap_or((rest, ""));
    let one = number_within(told, one);
    let other = number_within(told, other);
    match (one, other) {
        (Some(one), Some(other)) => tell_before(told, one < other),
        _ => told.word(b"no numbers"),
    }
}

/// Tells the segment that a rank belongs to, and whether it is before the segment of an end.
fn tell_place(told: &mut Told, rest: &str) {
    let (rank, end) = first_word(rest);
    let rank = told.number(rank);
    let end = stated_end(told, end);
    if rank > GREATEST_RANK {
        told.word(b"no place");
        return;
    }
    let place = SegmentPlace::of_rank(rank);
    tell_segment(told, place.segment());
    match end {
        Ok(end) => tell_before(told, place < end.place()),
        Err(fault) => told.value(fault),
    }
}

/// Tells the year and the number that a text spells, and how they are written.
fn tell_dated(told: &mut Told, text: &[u8]) {
    match SpelledNumber::from_text(text) {
        Some(SpelledNumber::Dated { year, sequence }) => {
            told.value(year);
            told.value(sequence);
            told.word(dated_text(year, sequence).as_slice());
        }
        Some(SpelledNumber::Plain(number)) => told.value(number),
        None => told.word(b"none"),
    }
}

/// Tells the rank of a plain number that is spelled.
fn tell_plain_spelled(told: &mut Told, rest: &str) {
    let spelled = SpelledNumber::Plain(told.long_number(rest));
    tell_rank_of(told, spelled.number());
}

/// Tells the rank of a number of a year that is spelled.
fn tell_year_spelled(told: &mut Told, rest: &str) {
    let (year, sequence) = first_word(rest);
    match (year.parse::<u8>(), sequence.parse::<u16>()) {
        (Ok(year), Ok(sequence)) => {
            tell_rank_of(told, SpelledNumber::Dated { year, sequence }.number());
        }
        _ => told.word(b"no numbers"),
    }
}

/// The end that three words state: a segment, its last number, and the next year.
fn stated_end(told: &mut Told, rest: &str) -> Result<SegmentEnd, SegmentFault> {
    let (year, rest) = first_word(rest);
    let (last, next) = first_word(rest);
    let segment = segment(told, year);
    let last = told.long_number(last);
    SegmentEnd::new(segment, last, told.long_number(next))
}

/// Tells what an end says, or its fault by number and name.
fn tell_end(told: &mut Told, rest: &str) {
    match stated_end(told, rest) {
        Ok(end) => {
            tell_segment(told, end.segment());
            told.value(end.last());
            told.value(end.next());
        }
        Err(fault) => {
            told.value(fault.number());
            told.value(fault);
        }
    }
}
