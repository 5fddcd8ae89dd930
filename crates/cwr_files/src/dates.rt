//! Dates and times of a transmission header.
ghost use Rattle.std.specs.Prelude.{◌≡◌};
ghost use Rattle.cwr_files.specs.Dates.{is_real_date, is_real_time, is_date, is_time};
ghost use Rattle.cwr_files.specs.RightLines.{is_dated};

use cwr_records::{Fixed, Line, TransmissionHeader, read_as};
use jiff::civil::Date;

// Whether eight digits, year, month and day, are a date of the calendar with a year from 1.
#[tactic(auto, unfolding(crate::specs::Dates::is_real_date))]
fn is_real_date(digits: u64) -> bool
    ensures { result ≡ is_real_date digits }
{
    if digits >= 100_000_000 {
        return false;
    }
    let year = (digits / 10_000) as i16;
    let month = (digits / 100 % 100) as i8;
    let day = (digits % 100) as i8;
    year >= 1 && Date::new(year, month, day).is_ok()
}

// Whether six digits are hours to 23, minutes and seconds to 59.
#[tactic(auto, unfolding(crate::specs::Dates::is_real_time))]
fn is_real_time(digits: u64) -> bool
    ensures { result ≡ is_real_time digits }
{
    digits / 10_000 <= 23 && digits / 100 % 100 <= 59 && digits % 100 <= 59
}

// Whether a field is a date, in digits alone.
#[tactic(auto, unfolding(crate::specs::Dates::is_date))]
fn is_date(field: &Fixed<'_, 8>) -> bool
    ensures { result ≡ is_date field.now }
{
    match field.field().number() {
        Some(digits) => is_real_date(digits),
        None => false,
    }
}

// Whether a field is a time of day, in digits alone.
#[tactic(auto, unfolding(crate::specs::Dates::is_time))]
fn is_time(field: &Fixed<'_, 6>) -> bool
    ensures { result ≡ is_time field.now }
{
    match field.field().number() {
        Some(digits) => is_real_time(digits),
        None => false,
    }
}

/// Whether a header's creation date, creation time and transmission date are right.
#[tactic(auto, unfolding(crate::specs::RightLines::is_dated))]
pub fn is_dated(line: &Line) -> bool
    ensures { result ≡ is_dated line.now }
{
    let header: TransmissionHeader = read_as(line);
    is_date(&header.creation_date)
        && is_time(&header.creation_time)
        && is_date(&header.transmission_date)
}
