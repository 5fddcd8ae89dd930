//! Requests to the office over files, and what is answered.
use crate::database::opened;
use crate::files::{Fused, OPTIONS};
use http_desk::{Counted, serve};
use share_rules::Office;
use society_core::{Desk, Store};
use society_opening::OpenFault;
use sqlite::{Alter, Connection, FileStore, Files};
use sqlite_disk::Disk;
use std::alloc::Global;

/// What is answered to each of some requests.
pub type Answers = Vec<Vec<u8>>;

/// What is answered to a request.
fn answer<S: Store>(alloc: Global, desk: &mut Desk<S>, request: &[u8]) -> Vec<u8> {
    let mut reader = Counted::new(request);
    let mut writer = Counted::new(Vec::new(alloc));
    let _ = serve(alloc, desk, &mut reader, &mut writer, u64::MAX);
    writer.into_inner()
}

/// Whether the store failed at a request.
fn is_failure(answer: &[u8]) -> bool {
    answer.is_empty() || answer.starts_with(b"HTTP/1.1 503")
}

/// Whether a request was taken.
pub fn is_taken(answer: &[u8]) -> bool {
    answer.starts_with(b"HTTP/1.1 2")
}

/// Whether two lists of answers are the same.
pub fn are_same(some: &[Vec<u8>], others: &[Vec<u8>]) -> bool {
    some.len() == others.len()
        && some
            .iter()
            .zip(others.iter())
            .all(|(one, other)| one.as_slice() == other.as_slice())
}

/// The answers to requests, up to the first at which the store fails.
fn answers<S: Store>(alloc: Global, desk: &mut Desk<S>, requests: &[&[u8]]) -> Option<Answers> {
    let mut told = Vec::new(alloc);
    for request in requests {
        let text = answer(alloc, desk, request);
        if is_failure(text.as_slice()) {
            return Some(told);
        }
        told.push(text).ok()?;
    }
    Some(told)
}

/// The same of the office over a connection, and its store; no answers where the office is not opened since the store fails.
fn ask_store<S: Alter + Drop>(
    alloc: Global,
    office: &Office,
    conn: Connection<S>,
    requests: &[&[u8]],
) -> Option<(Option<Answers>, S)> {
    match opened(alloc, conn, office) {
        Ok(tables) => {
            let mut desk = Desk::new(tables);
            let told = answers(alloc, &mut desk, requests)?;
            Some((Some(told), desk.into_store().into_connection().into_store()))
        }
        Err((OpenFault::Store, conn)) => Some((None, conn.into_store())),
        Err(_) => None,
    }
}

/// The same over files, which are left with no call of the store's own.
fn ask_files<D: Disk + Drop>(
    alloc: Global,
    office: &Office,
    files: Files<D>,
    requests: &[&[u8]],
) -> Option<(Option<Answers>, Files<D>)> {
    if !files.log.may_be_used() || !files.db.may_be_used() {
        return None;
    }
    match Connection::open_files(alloc, files, OPTIONS) {
        Ok(conn) => {
            let (told, store) = ask_store(alloc, office, conn, requests)?;
            Some((told, store.close()))
        }
        Err((_, left)) => Some((None, left.into_files())),
    }
}

/// The same over files that fail each call after so many.
pub fn ask(
    alloc: Global,
    office: &Office,
    files: Files<Fused>,
    requests: &[&[u8]],
) -> Option<(Option<Answers>, Files<Fused>)> {
    ask_files(alloc, office, files, requests)
}
