//! Rows over bytes: two files, the requests of a stream and the answers that are wanted.
use crate::course::Course;
use crate::stream::Stream;
use crate::streams::serve_stream;
use share_rules::Office;
use society_core::{Desk, PlainStore};
use std::alloc::Global;
use std::io;
use test_sheets::file;

/// The stream whose requests and answers the files of a row have.
fn stream_of(rt: &HostRuntime, name: &str) -> io::Result<Stream> {
    let alloc = rt.alloc();
    Ok(Stream {
        input: file(rt, format!(in alloc; "rows/{name}.http")?.as_str())?,
        answers: file(rt, format!(in alloc; "rows/{name}.answers")?.as_str())?,
    })
}

/// What comes of a stream over a connection that goes so, at an office to which nothing has come.
fn served(alloc: Global, office: &Office, stream: &Stream, course: &str) -> Option<String> {
    let mut desk = Desk::new(PlainStore::new(alloc, office));
    serve_stream(alloc, &mut desk, stream, &Course::of(course)?).ok()
}

/// Serves a row as it is and with one byte a read, and tells what comes of both: once where that is the same.
pub fn serve_row(rt: &HostRuntime, office: &Office, name: &str) -> Option<String> {
    let alloc = rt.alloc();
    let stream = stream_of(rt, name).ok()?;
    let whole = served(alloc, office, &stream, "")?;
    let slow = served(alloc, office, &stream, "pieces 1")?;
    if whole == slow {
        return Some(whole);
    }
    format!(in alloc; "{whole}; with one byte a read {slow}").ok()
}
