//! The lines of a file of courses.
use crate::course::Course;
use crate::requests::body_of;
use crate::run::tell_answers;
use crate::stops::tell_stops;
use share_rules::Office;
use std::alloc::Global;
use std::io;
use test_sheets::first_word;

/// A request as it is sent: its first line, and the bytes of the file that is its body, if it has one.
fn request(rt: &HostRuntime, alloc: Global, method: &str, rest: &str) -> Option<Vec<u8>> {
    let (path, file) = first_word(rest);
    let body = if file.is_empty() {
        Vec::new(alloc)
    } else {
        body_of(rt, file)?
    };
    let count = body.len();
    let head = format!(in alloc; "{method} {path} HTTP/1.1\r\nContent-Length: {count}\r\n\r\n");
    let head = head.ok()?;
    let mut bytes = Vec::from_slice(alloc, head.as_bytes()).ok()?;
    bytes.extend_from_slice(body.as_slice()).ok()?;
    Some(bytes)
}

/// Does what a line says.
fn take(rt: &HostRuntime, office: &Office, course: &mut Course, line: &str) -> io::Result<()> {
    let alloc = rt.alloc();
    let (word, rest) = first_word(line);
    match word {
        "" | "#" => Ok(()),
        "course" => {
            *course = Course::new(alloc);
            println!(rt; "{rest}")
        }
        "questions" => {
            course.asks = true;
            Ok(())
        }
        "GET" | "PUT" => match request(rt, alloc, word, rest) {
            Some(bytes) => Ok(course.add(bytes)?),
            None => println!(rt; "no such request: {line}"),
        },
        "answers" => tell_answers(rt, office, course),
        "stops" | "opens" => tell_stops(rt, office, course, word, rest),
        _ => println!(rt; "no such line: {line}"),
    }
}

/// Takes all lines of a text.
pub fn take_all(rt: &HostRuntime, office: &Office, text: &str) -> io::Result<()> {
    let mut course = Course::new(rt.alloc());
    for line in text.lines() {
        take(rt, office, &mut course, line)?;
    }
    Ok(())
}
