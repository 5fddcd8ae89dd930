//! What is told of a line, beside what is wanted.
use std::alloc::Global;
use std::io;
use test_sheets::Sheet;

/// A line up to what is to be told of it, and that: where the line says nothing, that it is done.
fn parts(line: &str) -> (&str, &str) {
    line.split_once(" -> ").unwrap_or((line, "done"))
}

/// What a line asks or does: what stands behind its name, if it has one.
pub fn asked(line: &str) -> &str {
    let (named, _) = parts(line);
    match named.split_once(": ") {
        Some((_, asked)) => asked,
        None => named,
    }
}

/// Compares what is told of a line with what is wanted; none is told of a line that says nothing.
pub fn compare(
    rt: &HostRuntime,
    sheet: &mut Sheet,
    line: &str,
    told: Option<String>,
) -> io::Result<()> {
    let (named, wanted) = parts(line);
    match told {
        Some(told) => sheet.compare(rt, named, told.as_bytes(), wanted),
        None => sheet.refuse(rt, named),
    }
}

/// These words.
pub fn words(alloc: Global, words: &str) -> Option<String> {
    String::from_str(alloc, words).ok()
}

/// That all is done.
pub fn done(alloc: Global) -> Option<String> {
    words(alloc, "done")
}
