//! The candidates of a pool.
use perf_returns::read_return;
use share_rules::{Kind, Office};
use society_closings::{PoolWorks, Wanted, candidates_in};
use society_core::{Candidate, PoolOrder, Tally};
use sqlite::{Alter, Transaction};
use std::alloc::Global;
use test_bodies::sender;
use test_sheets::first_word;
use work_ids::SenderKey;

/// The order that looks in all works of two senders, the first of which is cut at a number.
fn order_at(alloc: Global, cut: &str) -> Option<PoolOrder> {
    let other = SenderKey::from_bytes(b"PB000000034").ok()?;
    let cuts = [(sender().ok()?, cut.parse::<u64>().ok()?), (other, 1)];
    PoolOrder::new(alloc, Kind::Performing, 100, &cuts, &[]).ok()
}

/// The right in which works are weighed beforehand, if in any.
fn right_of(word: &str) -> Option<Option<Kind>> {
    match word {
        "unweighed" => Some(None),
        "performing" => Some(Some(Kind::Performing)),
        "mechanical" => Some(Some(Kind::Mechanical)),
        _ => None,
    }
}

/// The tally of a return in which these recordings are played.
fn tally_of(alloc: Global, recordings: &str) -> Option<Tally> {
    let mut body = String::from_str(alloc, "isrc,plays,seconds\n").ok()?;
    for isrc in recordings.split(' ') {
        let row = format!(in alloc; "{isrc},10,200\n").ok()?;
        body.push_str(row.as_str()).ok()?;
    }
    let performances = read_return(alloc, body.as_bytes()).ok()?;
    let mut tally = Tally::new(alloc);
    tally.add_all(performances.rows.as_slice()).ok()?;
    Some(tally)
}

/// Each candidate, a sender and a recording, `;` behind each.
fn told(alloc: Global, candidates: &[Candidate]) -> Option<String> {
    let mut text = String::new(alloc);
    for candidate in candidates {
        let sender = str::from_utf8(candidate.sender.as_bytes()).ok()?;
        let isrc = str::from_utf8(candidate.isrc.as_bytes()).ok()?;
        let line = format!(in alloc; "{sender} {isrc};").ok()?;
        text.push_str(line.as_str()).ok()?;
    }
    Some(text)
}

/// Tells the candidates for recordings where the first sender is cut at a number, and works were weighed in a right before, or not.
pub fn tell_candidates<S: Alter>(
    alloc: Global,
    tx: &mut Transaction<'_, S>,
    office: &Office,
    text: &str,
) -> Option<String> {
    let (cut, rest) = first_word(text);
    let (right, recordings) = first_word(rest);
    let order = order_at(alloc, cut)?;
    let tally = tally_of(alloc, recordings)?;
    let mut wanted = Wanted::new(alloc);
    wanted
        .add(order.cut(), tally.recordings(alloc).ok()?.as_slice())
        .ok()?;
    let mut works = PoolWorks::of(alloc, wanted.works(alloc, tx).ok()?);
    if let Some(kind) = right_of(right)? {
        works.weigh(alloc, tx, office, kind, &wanted).ok()?;
    }
    let found = candidates_in(alloc, order.kind(), tx, office, &tally, &order, &works);
    told(alloc, &found.ok()?)
}
