//! The words of a line.
ghost use Rattle.std.specs.Prelude.{◌<◌};

use std::alloc::{AllocError, Global};

/// The first word of a line, and what stands behind the blank after it.
pub fn first_word(line: &str) -> (&str, &str) {
    line.split_once(' ').unwrap_or((line, ""))
}

/// What a digit of a byte's two is worth.
fn worth(digit: u8) -> u8
    ensures { result < 16 }
{
    match digit {
        b'0'..=b'9' => digit - b'0',
        b'A'..=b'F' => digit - b'A' + 10,
        _ => 0,
    }
}

/// The byte that is written behind a backslash, and what stands behind that.
fn escaped(text: &[u8]) -> (u8, &[u8]) {
    match text {
        [b'n', rest @ ..] => (b'\n', rest),
        [b'r', rest @ ..] => (b'\r', rest),
        [b't', rest @ ..] => (b'\t', rest),
        [b'x', high, low, rest @ ..] => (worth(*high) * 16 + worth(*low), rest),
        rest => (b'\\', rest),
    }
}

/// The bytes that a text writes: those within its quotes, if it has them, where `\n`, `\r`, `\t` and `\xC3` stand for one byte.
pub fn bytes_of(alloc: Global, text: &str) -> Result<Vec<u8>, AllocError> {
    let mut bytes = Vec::new(alloc);
    let text = inside(text).as_bytes();
    for (index, piece) in text.split(|byte| *byte == b'\\').enumerate() {
        let mut rest = piece;
        if index > 0 {
            let (byte, behind) = escaped(piece);
            bytes.push(byte)?;
            rest = behind;
        }
        bytes.extend_from_slice(rest)?;
    }
    Ok(bytes)
}

/// Appends the bytes that a text writes, and a line feed.
pub fn push_line(alloc: Global, out: &mut Vec<u8>, text: &str) -> Result<(), AllocError> {
    out.extend_from_slice(&bytes_of(alloc, text)?)?;
    out.push(b'\n')?;
    Ok(())
}

/// A text without the quotes around it.
fn inside(text: &str) -> &str {
    match text.strip_prefix('"') {
        Some(behind) => behind.strip_suffix('"').unwrap_or(text),
        None => text,
    }
}
