//! Rows that words make.
use society_rows::{
    BalanceRow, CreditRow, FrontRow, MechanicalPoolRow, PoolCutRow, PoolReturnRow, PoolRow,
    RecordingRow, ReturnRow, SegmentEndRow, TransmissionRow, VerdictRow, VersionRow,
};
use work_ids::Segment;

/// The segment that a word names: `plain`, or a year by its last two digits.
pub fn segment_of(word: &str) -> Option<Segment> {
    match word {
        "plain" => Some(Segment::Plain),
        _ => Some(Segment::Year(word.parse::<u8>().ok()?)),
    }
}

/// The number that a word spells.
pub fn count(word: &str) -> Option<u32> {
    word.parse::<u32>().ok()
}

/// The number that a word spells, which may be long, or below 0.
pub fn amount(word: &str) -> Option<i64> {
    word.parse::<i64>().ok()
}

/// A row that words make.
pub trait FromWords<'a>: Sized {
    /// The row of its words, none where they are not those of such a row.
    fn of(words: &[&'a str]) -> Option<Self>;
}

impl<'a> FromWords<'a> for TransmissionRow<'a> {
    fn of(words: &[&'a str]) -> Option<TransmissionRow<'a>> {
        let [sender, number, body @ ..] = words else {
            return None;
        };
        Some(TransmissionRow {
            sender: sender.as_bytes(),
            number: count(number)?,
            body: body.first().copied().unwrap_or("").as_bytes(),
        })
    }
}

impl<'a> FromWords<'a> for ReturnRow<'a> {
    fn of(words: &[&'a str]) -> Option<ReturnRow<'a>> {
        let [reporter, number, body] = words else {
            return None;
        };
        Some(ReturnRow {
            reporter: reporter.as_bytes(),
            number: count(number)?,
            body: body.as_bytes(),
        })
    }
}

impl<'a> FromWords<'a> for SegmentEndRow<'a> {
    fn of(words: &[&'a str]) -> Option<SegmentEndRow<'a>> {
        let [sender, segment, last, next] = words else {
            return None;
        };
        Some(SegmentEndRow {
            sender: sender.as_bytes(),
            segment: segment_of(segment)?,
            last: count(last)?,
            next: count(next)?,
        })
    }
}

impl<'a> FromWords<'a> for PoolRow {
    fn of(words: &[&'a str]) -> Option<PoolRow> {
        let [pool, units] = words else {
            return None;
        };
        Some(PoolRow {
            pool: count(pool)?,
            amount: amount(units)?,
        })
    }
}

impl<'a> FromWords<'a> for MechanicalPoolRow {
    fn of(words: &[&'a str]) -> Option<MechanicalPoolRow> {
        let [pool] = words else {
            return None;
        };
        Some(MechanicalPoolRow { pool: count(pool)? })
    }
}

impl<'a> FromWords<'a> for BalanceRow<'a> {
    fn of(words: &[&'a str]) -> Option<BalanceRow<'a>> {
        let [account, units] = words else {
            return None;
        };
        Some(BalanceRow {
            account: account.as_bytes(),
            units: amount(units)?,
        })
    }
}

impl<'a> FromWords<'a> for FrontRow<'a> {
    fn of(words: &[&'a str]) -> Option<FrontRow<'a>> {
        let [sender, front, works] = words else {
            return None;
        };
        Some(FrontRow {
            sender: sender.as_bytes(),
            front: count(front)?,
            works: amount(works)?,
        })
    }
}

impl<'a> FromWords<'a> for PoolCutRow<'a> {
    fn of(words: &[&'a str]) -> Option<PoolCutRow<'a>> {
        let [pool, sender, number] = words else {
            return None;
        };
        Some(PoolCutRow {
            pool: count(pool)?,
            sender: sender.as_bytes(),
            number: count(number)?,
        })
    }
}

impl<'a> FromWords<'a> for PoolReturnRow<'a> {
    fn of(words: &[&'a str]) -> Option<PoolReturnRow<'a>> {
        let [reporter, number, pool] = words else {
            return None;
        };
        Some(PoolReturnRow {
            reporter: reporter.as_bytes(),
            number: count(number)?,
            pool: count(pool)?,
        })
    }
}

impl<'a> FromWords<'a> for VersionRow<'a> {
    fn of(words: &[&'a str]) -> Option<VersionRow<'a>> {
        let [sender, work, revision, number, place, ordinal] = words else {
            return None;
        };
        Some(VersionRow {
            sender: sender.as_bytes(),
            work: work.as_bytes(),
            revision: amount(revision)?,
            number: count(number)?,
            place: count(place)?,
            ordinal: amount(ordinal)?,
        })
    }
}

impl<'a> FromWords<'a> for RecordingRow<'a> {
    fn of(words: &[&'a str]) -> Option<RecordingRow<'a>> {
        let [sender, work, revision, isrc] = words else {
            return None;
        };
        Some(RecordingRow {
            sender: sender.as_bytes(),
            work: work.as_bytes(),
            revision: amount(revision)?,
            isrc: isrc.as_bytes(),
        })
    }
}

impl<'a> FromWords<'a> for VerdictRow<'a> {
    fn of(words: &[&'a str]) -> Option<VerdictRow<'a>> {
        let [sender, number, place, fault, ordinal, revision] = words else {
            return None;
        };
        Some(VerdictRow {
            sender: sender.as_bytes(),
            number: count(number)?,
            place: count(place)?,
            fault: count(fault)?,
            ordinal: amount(ordinal)?,
            revision: amount(revision)?,
        })
    }
}

impl<'a> FromWords<'a> for CreditRow<'a> {
    fn of(words: &[&'a str]) -> Option<CreditRow<'a>> {
        let [pool, line, isrc, account, units] = words else {
            return None;
        };
        Some(CreditRow {
            pool: count(pool)?,
            line: count(line)?,
            isrc: isrc.as_bytes(),
            account: account.as_bytes(),
            units: amount(units)?,
        })
    }
}
