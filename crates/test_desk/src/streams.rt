//! A connection: what it reads comes in pieces, breaks off or waits; what is written to it is compared with the answers that are wanted.
use crate::course::Course;
use crate::stream::Stream;
use http_desk::{Counted, DeskFault, Served, serve};
use society_core::{Desk, Store};
use std::alloc::{AllocError, Global};
use std::cell::Cell;
use std::io::{ErrorKind, Read, Write};

/// How many bytes of answers a peer has got, and whether a read of what it sends has failed.
#[derive(Drop)]
struct Peer {
    got: Cell<usize>,
    is_gone: Cell<bool>,
}

/// What a peer sends: bytes, and behind them further ones so many times, once so many bytes of answers have come.
#[derive(Drop)]
struct Source<'a> {
    bytes: &'a [u8],
    next: &'a [u8],
    times: u64,
    due: usize,
    piece: usize,
    failure: Option<ErrorKind>,
    peer: &'a Peer,
}

impl Read for Source<'_> {
    fn read(&mut self, buf: &mut [u8]) -> std::io::Result<usize> {
        let got = self.peer.got.get();
        if self.bytes.is_empty() && self.times > 0 && got >= self.due {
            self.times -= 1;
            self.bytes = self.next;
        }
        if let (true, Some(failure)) = (self.bytes.is_empty(), self.failure) {
            self.peer.is_gone.set(true);
            return Err(failure.into());
        }
        let count = self.piece.min(buf.len());
        self.bytes.read(&mut buf[..count])
    }
}

/// What a peer gets: so many bytes, which are to be the wanted ones, again and again. It fails at others, and keeps them; it takes nothing
/// once a read has failed.
#[derive(Drop)]
struct Sink<'a> {
    wanted: &'a [u8],
    rest: &'a [u8],
    room: usize,
    others: Vec<u8>,
    peer: &'a Peer,
}

impl Write for Sink<'_> {
    fn write(&mut self, buf: &[u8]) -> std::io::Result<usize> {
        if self.rest.is_empty() {
            self.rest = self.wanted;
        }
        let count = self.room.min(buf.len()).min(self.rest.len());
        if count == 0 || self.peer.is_gone.get() {
            return Err(ErrorKind::BrokenPipe.into());
        }
        if buf[..count] != self.rest[..count] {
            self.others.extend_from_slice(b"; and then: ")?;
            self.others.extend_from_slice(buf)?;
            return Err(ErrorKind::InvalidData.into());
        }
        self.rest = &self.rest[count..];
        self.room = self.room.saturating_sub(count);
        let got = self.peer.got.get();
        self.peer.got.set(got.saturating_add(count));
        Ok(count)
    }

    fn flush(&mut self) -> std::io::Result<()> {
        Ok(())
    }
}

/// So many bytes of so many that are wanted.
fn told_bytes(alloc: Global, got: u64, all: u64) -> Result<String, AllocError> {
    if got == all {
        return String::from_str(alloc, "all");
    }
    format!(in alloc; "{got} bytes")
}

/// Tells how a connection ended, how many requests were answered, how much was written, and what else would have been.
fn told(
    alloc: Global,
    end: Result<Served, DeskFault>,
    bytes: &str,
    others: &[u8],
) -> Result<String, AllocError> {
    let others = String::from_utf8_lossy(alloc, others)?;
    match end {
        Ok(served) => format!(in alloc; "served {}, {bytes}{others}", served.requests),
        Err(fault) => format!(in alloc; "{} {}, {bytes}{others}", fault.kind, fault.requests),
    }
}

/// Serves a stream over a connection that goes so, and tells what came of it.
pub fn serve_stream<S: Store>(
    alloc: Global,
    desk: &mut Desk<S>,
    stream: &Stream,
    course: &Course,
) -> Result<String, AllocError> {
    let peer = Peer {
        got: Cell::new(0),
        is_gone: Cell::new(false),
    };
    let input = stream.input.as_slice();
    let input = input.get(..course.first).unwrap_or(input);
    let (bytes, next) = input.split_at(course.pause.min(input.len()));
    let mut reader = Counted::new(Source {
        bytes,
        next,
        times: course.rounds,
        due: course.due,
        piece: course.piece,
        failure: course.failure,
        peer: &peer,
    });
    let mut writer = Counted::new(Sink {
        wanted: &stream.answers,
        rest: b"",
        room: course.room,
        others: Vec::new(alloc),
        peer: &peer,
    });
    let end = serve(alloc, desk, &mut reader, &mut writer, course.turns);
    let all = (stream.answers.len() as u64).saturating_mul(course.rounds);
    let Sink { others, .. } = writer.into_inner();
    let bytes = told_bytes(alloc, peer.got.get() as u64, all)?;
    told(alloc, end, bytes.as_str(), &others)
}
