//! What the calls of a store answer that bytes do not show as they are: over tables in memory, and over the plain store.
use crate::requests::{body_of, first_return, number_of, order_of, pool_of, return_of, send};
use crate::told::{asked, compare, done, words};
use pool_split::Credit;
use share_rules::Office;
use society_core::{
    Desk, Inquiry, Known, KnownTransmission, NumberPlace, Payment, PlainStore, Refusal, Showing,
    Store,
};
use std::alloc::Global;
use std::io::{self, ErrorKind};
use test_bodies::sender;
use test_sheets::{Sheet, first_word};
use work_ids::SenderKey;
use works_core::Verdict;

fn told_refusal(alloc: Global, refusal: Option<Refusal>) -> Option<String> {
    match refusal {
        None => done(alloc),
        Some(refusal) => format!(in alloc; "{refusal}").ok(),
    }
}

fn told_known(alloc: Global, known: Known) -> Option<String> {
    match known {
        Known::Absent => words(alloc, "absent"),
        Known::Same => words(alloc, "same"),
        Known::Other => words(alloc, "other"),
    }
}

fn told_place(alloc: Global, place: NumberPlace) -> Option<String> {
    let standing = if place.is_applied { "applied" } else { "held" };
    format!(in alloc; "front {}, {standing}", place.front).ok()
}

fn told_transmission(alloc: Global, known: KnownTransmission) -> Option<String> {
    match known {
        KnownTransmission::Absent => words(alloc, "absent"),
        KnownTransmission::Other => words(alloc, "other"),
        KnownTransmission::Ended(last) => format!(in alloc; "ended {last}").ok(),
        KnownTransmission::Same(place) => {
            format!(in alloc; "same, {}", told_place(alloc, place)?).ok()
        }
    }
}

fn told_payment(alloc: Global, payment: Payment) -> Option<String> {
    match payment {
        Payment::Unknown => words(alloc, "unknown"),
        Payment::Unpaid => words(alloc, "unpaid"),
        Payment::Paid(pool) => format!(in alloc; "paid {}", pool.value()).ok(),
    }
}

/// Tells verdicts, `;` behind each; that there are none, of a file without a transaction.
fn told_verdicts(alloc: Global, verdicts: &[Verdict]) -> Option<String> {
    let mut text = String::new(alloc);
    for verdict in verdicts {
        let told = match verdict {
            Verdict::Accepted { ordinal, revision } => {
                format!(in alloc; "accepted {ordinal} {revision};").ok()?
            }
            Verdict::Rejected(fault) => format!(in alloc; "rejected {fault};").ok()?,
        };
        text.push_str(told.as_str()).ok()?;
    }
    if text.is_empty() {
        return words(alloc, "none");
    }
    Some(text)
}

fn told_credit(alloc: Global, credit: &Credit) -> Option<String> {
    let isrc = credit.isrc?;
    let isrc = str::from_utf8(isrc.as_bytes()).ok()?;
    let (kind, party, number) = credit.account.pieces();
    let kind = str::from_utf8(kind).ok()?;
    let party = str::from_utf8(party).ok()?;
    let number = str::from_utf8(number).ok()?;
    format!(in alloc; "{isrc} {kind}{party}{number} {};", credit.units).ok()
}

/// Tells credits, each its recording, its account and its units.
fn told_credits(alloc: Global, credits: &[Credit]) -> Option<String> {
    let mut text = String::new(alloc);
    for credit in credits {
        text.push_str(told_credit(alloc, credit)?.as_str()).ok()?;
    }
    Some(text)
}

/// Tells what a desk shows to a question.
fn tell_shown<S: Store>(alloc: Global, desk: &mut Desk<S>, inquiry: &Inquiry) -> Option<String> {
    match desk.look_up(alloc, inquiry) {
        Ok(Showing::Verdicts(verdicts)) => told_verdicts(alloc, &verdicts),
        Ok(Showing::Credits(credits)) => told_credits(alloc, &credits),
        Ok(_) => None,
        Err(refusal) => told_refusal(alloc, Some(refusal)),
    }
}

/// Tells what a store answers to a question about the sender or the reporter.
fn tell_of<S: Store>(
    rt: &HostRuntime,
    store: &mut S,
    sender: &SenderKey,
    word: &str,
    rest: &str,
) -> Option<String> {
    let alloc = rt.alloc();
    let (first, behind) = first_word(rest);
    match word {
        "known" => {
            let body = body_of(rt, behind)?;
            let known = store.known_transmission(sender, number_of(first)?, &body);
            told_transmission(alloc, known.ok()?)
        }
        "place" => told_place(alloc, store.place(sender, number_of(first)?).ok()?),
        "known-return" => {
            let body = return_of(alloc, first)?;
            let known = store.known_return(&first_return()?, body.as_bytes());
            told_known(alloc, known.ok()?)
        }
        "payment" => told_payment(alloc, store.payment(&first_return()?).ok()?),
        "known-pool" => {
            let order = order_of(alloc, sender, behind)?;
            told_known(alloc, store.known_pool(pool_of(first)?, &order).ok()?)
        }
        _ => None,
    }
}

/// Sends the request of a line, or asks its question, and tells what comes of it; the desk comes back.
pub fn tell_at_desk<S: Store>(
    rt: &HostRuntime,
    mut desk: Desk<S>,
    sender: &SenderKey,
    text: &str,
) -> (Option<String>, Desk<S>) {
    let alloc = rt.alloc();
    let (word, rest) = first_word(text);
    if let Some(refusal) = send(rt, &mut desk, sender, word, rest) {
        return (told_refusal(alloc, refusal), desk);
    }
    let inquiry = match (word, number_of(rest), pool_of(rest)) {
        ("verdicts", Some(number), _) => Some(Inquiry::Verdicts {
            sender: *sender,
            number,
        }),
        ("credits", _, Some(pool)) => Some(Inquiry::Credits { pool }),
        _ => None,
    };
    if let Some(inquiry) = inquiry {
        return (tell_shown(alloc, &mut desk, &inquiry), desk);
    }
    let mut store = desk.into_store();
    let told = tell_of(rt, &mut store, sender, word, rest);
    (told, Desk::new(store))
}

/// Does the lines of a case over the plain store.
pub fn run_plain(
    rt: &HostRuntime,
    office: &Office,
    sheet: &mut Sheet,
    text: &str,
) -> io::Result<()> {
    let Ok(sender) = sender() else {
        return Err(ErrorKind::InvalidInput.into());
    };
    let mut desk = Desk::new(PlainStore::new(rt.alloc(), office));
    for line in text.lines() {
        let (told, after) = tell_at_desk(rt, desk, &sender, asked(line));
        desk = after;
        compare(rt, sheet, line, told)?;
    }
    Ok(())
}
