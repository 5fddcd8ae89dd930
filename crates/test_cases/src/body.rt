//! The bodies that cases ask about, made line by line.
use std::alloc::{AllocError, Global};
use test_bodies::{changed, joined, lines};
use test_sheets::{bytes_of, first_word, push_line};

/// The digit of a number with so many digits behind it.
fn digit(number: u64, behind: usize) -> u8 {
    let mut left = number;
    for _ in 0..behind {
        left /= 10;
    }
    b'0' + (left % 10) as u8
}

/// Appends a text in which marks `?` side by side are the digits of a number.
fn push_counted(body: &mut Vec<u8>, text: &[u8], number: u64) -> Result<(), AllocError> {
    for (index, byte) in text.iter().enumerate() {
        let marks = text
            .iter()
            .skip(index)
            .take_while(|byte| **byte == b'?')
            .count();
        match marks.checked_sub(1) {
            Some(behind) => body.push(digit(number, behind))?,
            None => body.push(*byte)?,
        }
    }
    Ok(())
}

/// Appends a text so many times, its marks counting upwards from a number.
fn repeat(alloc: Global, body: &mut Vec<u8>, rest: &str) -> Result<(), AllocError> {
    let (times, rest) = first_word(rest);
    let (from, text) = first_word(rest);
    let text = bytes_of(alloc, text)?;
    let from = from.parse::<u64>().unwrap_or(0);
    for count in 0..times.parse::<u64>().unwrap_or(0) {
        push_counted(body, &text, from.saturating_add(count))?;
    }
    Ok(())
}

/// Appends blanks up to so many bytes, each byte whose place is a multiple of `width` a line feed.
fn fill(body: &mut Vec<u8>, bytes: usize, width: usize) -> Result<(), AllocError> {
    for at in body.len()..bytes {
        let ends = width > 0 && at % width == 0;
        body.push(if ends { b'\n' } else { b' ' })?;
    }
    Ok(())
}

/// A body with other bytes in place of a line, from 1.
fn replaced(alloc: Global, body: &[u8], line: usize, by: &[u8]) -> Result<Vec<u8>, AllocError> {
    let mut all = Vec::new(alloc);
    for (index, own) in body.split_inclusive(|byte| *byte == b'\n').enumerate() {
        let is_it = index.saturating_add(1) == line;
        all.extend_from_slice(if is_it { by } else { own })?;
    }
    Ok(all)
}

/// A body with other bytes at a line and a position there, each from 1.
fn changed_at(alloc: Global, body: &[u8], rest: &str) -> Result<Vec<u8>, AllocError> {
    let (line, rest) = first_word(rest);
    let (position, text) = first_word(rest);
    let bytes = bytes_of(alloc, text)?;
    changed(
        alloc,
        body,
        &[(count(line), count(position), bytes.as_slice())],
    )
}

/// A body with a text and CR LF in place of a line.
fn with_line(alloc: Global, body: &[u8], rest: &str) -> Result<Vec<u8>, AllocError> {
    let (line, text) = first_word(rest);
    let mut bytes = bytes_of(alloc, text)?;
    bytes.extend_from_slice(b"\r\n")?;
    replaced(alloc, body, count(line), &bytes)
}

/// A body whose lines end with a line feed alone.
fn with_line_feeds(alloc: Global, body: &[u8]) -> Result<Vec<u8>, AllocError> {
    let lines = lines(alloc, body)?;
    joined(alloc, &lines, b"\n")
}

/// The number that a word spells; 0 where it spells none.
pub fn count(word: &str) -> usize {
    word.parse::<usize>().unwrap_or(0)
}

/// Changes a body as a line of a file of cases says; whether there is such a change.
pub fn change(
    alloc: Global,
    body: &mut Vec<u8>,
    word: &str,
    rest: &str,
) -> Result<bool, AllocError> {
    match word {
        "|" => push_line(alloc, body, rest)?,
        "repeat" => repeat(alloc, body, rest)?,
        "line" => *body = with_line(alloc, body, rest)?,
        "without-line" => *body = replaced(alloc, body, count(rest), b"")?,
        "at" => *body = changed_at(alloc, body, rest)?,
        "first" => body.truncate(count(rest)),
        "blanks-to" => fill(body, count(rest), 0)?,
        "blank-lines-to" => fill(body, count(rest), 1_024)?,
        "line-feeds" => *body = with_line_feeds(alloc, body)?,
        _ => return Ok(false),
    }
    Ok(true)
}
