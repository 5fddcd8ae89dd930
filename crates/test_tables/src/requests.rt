//! Requests of a sender and of a reporter.
use crate::rows::segment_of;
use share_rules::Kind;
use society_core::{Desk, PoolOrder, Refusal, ReturnKey, Store};
use std::alloc::Global;
use test_bodies::{changed, number};
use test_sheets::{file, first_word};
use work_ids::{PoolNumber, Reporter, ReturnNumber, SegmentEnd, SenderKey, TransmissionNumber};

/// The number of a transmission, by its rank.
pub fn number_of(word: &str) -> Option<TransmissionNumber> {
    number(word.parse::<u32>().ok()?).ok()
}

/// The pool of a number.
pub fn pool_of(word: &str) -> Option<PoolNumber> {
    PoolNumber::from_u32(word.parse::<u32>().ok()?)
}

/// The bytes of a file, in which those that words name are changed: `9:261=2` puts a 2 at position 261 of line 9.
pub fn body_of(rt: &HostRuntime, text: &str) -> Option<Vec<u8>> {
    let alloc = rt.alloc();
    let (name, changes) = first_word(text);
    let mut body = file(rt, name).ok()?;
    for change in changes.split_whitespace() {
        let (place, by) = change.split_once('=')?;
        let (line, position) = place.split_once(':')?;
        let (line, position) = (line.parse::<usize>().ok()?, position.parse::<usize>().ok()?);
        body = changed(alloc, &body, &[(line, position, by.as_bytes())]).ok()?;
    }
    Some(body)
}

/// A return of so many plays of one recording.
pub fn return_of(alloc: Global, plays: &str) -> Option<String> {
    format!(in alloc; "isrc,plays,seconds\nATABC2600001,{plays},200\n").ok()
}

/// The first return of the reporter.
pub fn first_return() -> Option<ReturnKey> {
    Some(ReturnKey {
        reporter: Reporter::from_bytes(b"RADIO1").ok()?,
        number: ReturnNumber::from_u32(1)?,
    })
}

/// The order of a right, an amount and a cut of the sender's files, over the first return.
pub fn order_of(alloc: Global, sender: &SenderKey, text: &str) -> Option<PoolOrder> {
    let (right, rest) = first_word(text);
    let (amount, cut) = first_word(rest);
    let kind = match right {
        "performing" => Kind::Performing,
        "mechanical" => Kind::Mechanical,
        _ => return None,
    };
    let cuts = [(*sender, cut.parse::<u64>().ok()?)];
    let returns = [(first_return()?.reporter, 1)];
    PoolOrder::new(alloc, kind, amount.parse::<u64>().ok()?, &cuts, &returns).ok()
}

/// The end of a segment, by its last number and the year that comes next.
fn end_of(text: &str) -> Option<SegmentEnd> {
    let (segment, rest) = first_word(text);
    let (last, next) = first_word(rest);
    let (last, next) = (last.parse::<u64>().ok()?, next.parse::<u64>().ok()?);
    SegmentEnd::new(segment_of(segment)?, last, next).ok()
}

/// Sends the request that a line makes, and tells why it is refused, if it is; none where it makes none.
pub fn send<S: Store>(
    rt: &HostRuntime,
    desk: &mut Desk<S>,
    sender: &SenderKey,
    word: &str,
    rest: &str,
) -> Option<Option<Refusal>> {
    let alloc = rt.alloc();
    let (first, behind) = first_word(rest);
    Some(match word {
        "put" => {
            let body = body_of(rt, behind)?;
            desk.put_transmission(alloc, sender, number_of(first)?, &body)
                .err()
        }
        "ends" => desk.put_end(alloc, sender, &end_of(rest)?).err(),
        "played" => {
            let body = return_of(alloc, rest)?;
            desk.put_return(alloc, &first_return()?, body.as_bytes())
                .err()
        }
        "close" => {
            let order = order_of(alloc, sender, behind)?;
            desk.close_pool(alloc, pool_of(first)?, &order).err()
        }
        _ => return None,
    })
}
