//! Calls of the desk that bytes do not show: bodies that are fed in two pieces, runs of requests, and what the book has then.
use crate::stream::Stream;
use cwr_files::FileReader;
use society_core::{
    Answer, Arrival, Desk, Inquiry, PlainStore, Refusal, Request, SenderStatus, Showing, Standing,
    run,
};
use std::alloc::{AllocError, Global};
use test_bodies::{number, sender, work};
use test_sheets::{file, first_word};
use work_ids::{SenderKey, TransmissionNumber};

/// The number of a transmission that a word spells.
fn number_of(word: &str) -> Option<TransmissionNumber> {
    number(word.parse::<u32>().ok()?).ok()
}

/// Whether a transmission was known, whether it is applied or held, and its sender's front.
fn told_arrival(alloc: Global, arrival: &Arrival) -> Result<String, AllocError> {
    let known = if arrival.known { "known, " } else { "" };
    let standing = match arrival.standing {
        Standing::Applied => "applied",
        Standing::Held => "held",
    };
    let front = arrival.front;
    format!(in alloc; "{known}{standing} {front}")
}

/// Why a put was refused.
fn told_refusal(alloc: Global, refusal: &Refusal) -> Result<String, AllocError> {
    match refusal {
        Refusal::File(fault) => format!(in alloc; "fault {} at line {}", fault.number, fault.line),
        _ => format!(in alloc; "{refusal}"),
    }
}

/// Puts a body under a number, fed in two pieces, the second from a byte on where the words give one, and tells how it stands then.
pub fn tell_put(
    alloc: Global,
    desk: &mut Desk<PlainStore>,
    body: &[u8],
    words: &str,
) -> Option<String> {
    let (number, second) = first_word(words);
    let number = number_of(number)?;
    let second = second.parse::<usize>().unwrap_or(usize::MAX);
    let (front, rest) = body.split_at(second.min(body.len()));
    let sender = sender().ok()?;
    let mut reader = FileReader::new(alloc, &sender);
    // A fault that is known is told again by the put.
    let _ = reader.feed(front);
    let _ = reader.feed(rest);
    match desk.put_fed(alloc, &sender, number, reader) {
        Ok(arrival) => told_arrival(alloc, &arrival).ok(),
        Err(refusal) => told_refusal(alloc, &refusal).ok(),
    }
}

/// The puts that the lines of a text make, each a number and a file.
fn puts_of(rt: &HostRuntime, text: &[u8]) -> Option<Vec<(TransmissionNumber, Vec<u8>)>> {
    let mut puts = Vec::new(rt.alloc());
    for line in str::from_utf8(text).ok()?.lines() {
        let (number, name) = first_word(line);
        let body = file(rt, name).ok()?;
        puts.push((number_of(number)?, body)).ok()?;
    }
    Some(puts)
}

/// The requests that puts are.
fn requests_of<'a>(
    alloc: Global,
    sender: SenderKey,
    puts: &'a [(TransmissionNumber, Vec<u8>)],
) -> Result<Vec<Request<'a>>, AllocError> {
    let mut requests = Vec::new(alloc);
    for (number, body) in puts {
        requests.push(Request::PutTransmission {
            sender,
            number: *number,
            body: body.as_slice(),
        })?;
    }
    Ok(requests)
}

/// The answer to a put of a run.
fn told_answer(alloc: Global, answer: &Answer) -> Result<String, AllocError> {
    match answer {
        Answer::Arrived(arrival) => told_arrival(alloc, arrival),
        Answer::Refused(refusal) => told_refusal(alloc, refusal),
        _ => String::from_str(alloc, "no answer to a put"),
    }
}

/// Tells the answers to a run of puts, a line for each; `all` where they are the wanted ones.
pub fn tell_run(rt: &HostRuntime, desk: &mut Desk<PlainStore>, stream: &Stream) -> Option<String> {
    let alloc = rt.alloc();
    let puts = puts_of(rt, &stream.input)?;
    let requests = requests_of(alloc, sender().ok()?, &puts).ok()?;
    let mut answers = Vec::new(alloc);
    run(alloc, desk, &requests, &mut answers).ok()?;
    let mut lines = String::new(alloc);
    for answer in answers.iter() {
        lines
            .push_str(told_answer(alloc, answer).ok()?.as_str())
            .ok()?;
        lines.push('\n').ok()?;
    }
    if lines.as_bytes() == stream.answers.as_slice() {
        return String::from_str(alloc, "all").ok();
    }
    Some(lines)
}

/// What an acknowledgement is beside the one that is wanted.
fn told_ack(ack: &[u8], wanted: &[u8]) -> &'static str {
    if ack.is_empty() {
        "no acknowledgement"
    } else if ack == wanted {
        "acknowledged"
    } else {
        "another acknowledgement"
    }
}

/// Tells the sender's front, how many of its transmissions wait, and whether the first one's acknowledgement is a file.
pub fn tell_book(rt: &HostRuntime, desk: &mut Desk<PlainStore>, name: &str) -> Option<String> {
    let alloc = rt.alloc();
    let sender = sender().ok()?;
    let Ok(Showing::Sender(status)) = desk.look_up(alloc, &Inquiry::Sender { sender }) else {
        return None;
    };
    let SenderStatus { front, held } = status;
    let number = number(1).ok()?;
    let ack = match desk.look_up(alloc, &Inquiry::Acknowledgement { sender, number }) {
        Ok(Showing::Acknowledgement(text)) => text,
        _other => Vec::new(alloc),
    };
    let ack = told_ack(&ack, &file(rt, name).ok()?);
    format!(in alloc; "front {front}, {} held, {ack}", held.len()).ok()
}

/// Tells the version of a work: its transmission, its place there, its ordinal, and its revision.
pub fn tell_work(alloc: Global, desk: &mut Desk<PlainStore>, name: &str) -> Option<String> {
    let work = work(name.as_bytes()).ok()?;
    let sender = sender().ok()?;
    let Ok(Showing::Work(shown)) = desk.look_up(alloc, &Inquiry::Work { sender, work }) else {
        return None;
    };
    let version = shown.version;
    let transmission = version.transmission.value();
    format!(in alloc;
        "{transmission} {} {} {}",
        version.place, version.ordinal, version.revision
    )
    .ok()
}
