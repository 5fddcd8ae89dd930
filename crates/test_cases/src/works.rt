//! Lines of a sender: what is judged of its transmissions, with which verdicts, and which versions its works have at a cut.
use crate::told::Told;
use cwr_files::read_transmission;
use cwr_records::TransactionKind;
use std::alloc::Global;
use test_bodies::{office, sender};
use test_sheets::{file, first_word};
use work_ids::{TransmissionNumber, WorkNumber};
use works_core::{Judged, LineEnd, SenderLine, Verdict, WorkVersion, isrcs, judge_all};

/// Tells what a word asks of a sender's line, or of a body; whether there is such a word.
pub fn tell_line(rt: &HostRuntime, told: &mut Told, word: &str, rest: &str, body: &[u8]) -> bool {
    match word {
        "front" => tell_front(rt, told, body),
        "verdicts" => tell_verdicts_of(rt, told, rest, body),
        "version" => tell_version_at(rt, told, rest, body),
        "judged" => tell_judged(rt.alloc(), told, body),
        "isrcs" => tell_isrcs(rt.alloc(), told, body),
        "settle" => tell_settled(rt.alloc(), told, rest, body),
        _ => return false,
    }
    true
}

/// Applies a transmission to a line: its number, and the file that it is.
fn send(rt: &HostRuntime, line: &mut SenderLine, row: &str) -> Option<()> {
    let (number, name) = first_word(row);
    let number = TransmissionNumber::from_u32(number.parse::<u32>().ok()?)?;
    if number.value() <= line.front() {
        return None;
    }
    let sender = sender().ok()?;
    let body = file(rt, name).ok()?;
    let transmission = read_transmission(rt.alloc(), &body, &sender).ok()?;
    line.apply(number, &transmission).ok()
}

/// The line of the transmissions that the lines of a body name.
fn line_of(rt: &HostRuntime, body: &[u8]) -> Option<SenderLine> {
    let office = office().ok()?;
    let mut line = SenderLine::new(rt.alloc(), &office);
    for row in str::from_utf8(body).ok()?.lines() {
        send(rt, &mut line, row)?;
    }
    Some(line)
}

/// Tells the last number of a line, by its rank.
fn tell_front(rt: &HostRuntime, told: &mut Told, body: &[u8]) {
    match line_of(rt, body) {
        Some(line) => told.value(line.front()),
        None => told.word(b"no line"),
    }
}

fn tell_verdict(told: &mut Told, verdict: Verdict) {
    match verdict {
        Verdict::Accepted { ordinal, revision } => {
            told.word(b"accepted");
            told.value(ordinal);
            told.value(revision);
        }
        Verdict::Rejected(fault) => {
            told.word(b"rejected");
            told.value(fault);
        }
    }
    told.bytes(b";");
}

fn tell_verdicts(told: &mut Told, verdicts: &[Verdict]) {
    for verdict in verdicts {
        tell_verdict(told, *verdict);
    }
}

/// Tells the verdicts of the transmission with a number.
fn tell_verdicts_of(rt: &HostRuntime, told: &mut Told, rest: &str, body: &[u8]) {
    let number = TransmissionNumber::from_u32(told.number(rest));
    match (line_of(rt, body), number) {
        (Some(line), Some(number)) => match line.verdicts(number) {
            Some(verdicts) => tell_verdicts(told, verdicts),
            None => told.word(b"none"),
        },
        _ => told.word(b"no line"),
    }
}

/// Tells a version: its transmission by rank, its place there, its ordinal, and its revision.
fn tell_version(told: &mut Told, version: Option<WorkVersion>) {
    match version {
        Some(version) => {
            told.value(version.transmission.value());
            told.value(version.place);
            told.value(version.ordinal);
            told.value(version.revision);
        }
        None => told.word(b"none"),
    }
}

/// Tells the version of a work at a cut.
fn tell_version_at(rt: &HostRuntime, told: &mut Told, rest: &str, body: &[u8]) {
    let (work, cut) = first_word(rest);
    let cut = TransmissionNumber::from_u32(told.number(cut));
    let work = WorkNumber::from_bytes(work.as_bytes()).ok();
    match (line_of(rt, body), work, cut) {
        (Some(line), Some(work), Some(cut)) => tell_version(told, line.work_at(&work, cut)),
        _ => told.word(b"no line"),
    }
}

fn tell_judged_one(told: &mut Told, judged: &Judged) {
    match judged {
        Judged::Clean(kind, work) => {
            told.word(kind.code().trim());
            told.word(work.as_bytes());
        }
        Judged::Faulty(fault) => told.value(*fault),
    }
    told.bytes(b";");
}

/// What is judged of the transactions of a body.
fn judged_of(alloc: Global, body: &[u8]) -> Option<Vec<Judged>> {
    let office = office().ok()?;
    let sender = sender().ok()?;
    let transmission = read_transmission(alloc, body, &sender).ok()?;
    judge_all(alloc, &transmission, &office).ok()
}

fn tell_judged(alloc: Global, told: &mut Told, body: &[u8]) {
    match judged_of(alloc, body) {
        Some(list) => {
            for judged in list.iter() {
                tell_judged_one(told, judged);
            }
        }
        None => told.word(b"no file"),
    }
}

/// Tells the recordings of the first transaction of a body.
fn tell_isrcs(alloc: Global, told: &mut Told, body: &[u8]) {
    let Ok(sender) = sender() else {
        told.word(b"no sender");
        return;
    };
    let Ok(transmission) = read_transmission(alloc, body, &sender) else {
        told.word(b"no file");
        return;
    };
    let Some(song) = transmission.transaction(0) else {
        told.word(b"no song");
        return;
    };
    match isrcs(alloc, song) {
        Ok(list) => {
            for isrc in list.iter() {
                told.word(isrc.as_bytes());
            }
        }
        Err(_) => told.word(b"memory"),
    }
}

/// The version that three words make: its transmission, its ordinal and its revision; it is the first of its transmission.
fn version_of(words: &str) -> Option<WorkVersion> {
    let (transmission, rest) = first_word(words);
    let (ordinal, revision) = first_word(rest);
    Some(WorkVersion {
        transmission: TransmissionNumber::from_u32(transmission.parse::<u32>().ok()?)?,
        place: 0,
        ordinal: ordinal.parse::<u64>().ok()?,
        revision: revision.parse::<u64>().ok()?,
    })
}

/// What is judged of a transaction: its kind and its work, or a fault.
fn judged_as(kind: &str, rest: &str) -> Option<Judged> {
    match kind {
        "NWR" => Some(Judged::Clean(TransactionKind::Nwr, work(rest)?)),
        "REV" => Some(Judged::Clean(TransactionKind::Rev, work(rest)?)),
        "faulty" => Some(Judged::Faulty(rest.parse::<u8>().ok()?)),
        _ => None,
    }
}

fn work(word: &str) -> Option<WorkNumber> {
    WorkNumber::from_bytes(word.as_bytes()).ok()
}

/// Learns the last version of a work, if it has one.
fn learn(end: &mut LineEnd, rest: &str) -> Option<()> {
    let (name, words) = first_word(rest);
    end.learn(work(name)?, version_of(words)).ok()
}

/// Takes in a line of a body: a work that is learned, or a transaction.
fn take_in(end: &mut LineEnd, transactions: &mut Vec<Judged>, row: &str) -> Option<()> {
    let (kind, rest) = first_word(row);
    if kind == "learn" {
        return learn(end, rest);
    }
    transactions.push(judged_as(kind, rest)?).ok()
}

/// Settles the transactions that the lines of a body name, behind a line of so many works, as the transmission of a number.
fn settle(alloc: Global, told: &mut Told, rest: &str, body: &[u8]) -> Option<()> {
    let (works, number) = first_word(rest);
    let number = TransmissionNumber::from_u32(told.number(number))?;
    let mut end = LineEnd::new(alloc, told.long_number(works));
    let mut transactions = Vec::new(alloc);
    for row in str::from_utf8(body).ok()?.lines() {
        take_in(&mut end, &mut transactions, row)?;
    }
    let verdicts = end.apply(alloc, number, &transactions).ok()?;
    tell_verdicts(told, &verdicts);
    told.value(end.works());
    Some(())
}

/// Tells the verdicts of such transactions, and how many works the line has then.
fn tell_settled(alloc: Global, told: &mut Told, rest: &str, body: &[u8]) {
    if settle(alloc, told, rest, body).is_none() {
        told.word(b"no line");
    }
}
