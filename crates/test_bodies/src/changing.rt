//! Other bodies, made of the samples.
use crate::bodies::REGISTERED;
use std::alloc::{AllocError, Global};

/// Other bytes in a body: the line and the position in it at which they stand, each counted from 1 as CWR counts, and the bytes.
pub type Change<'a> = (usize, usize, &'a [u8]);

/// A body with other bytes at these lines and positions; bytes past its end are left out.
pub fn changed(alloc: Global, body: &[u8], changes: &[Change<'_>]) -> Result<Vec<u8>, AllocError> {
    let mut copy = Vec::from_slice(alloc, body)?;
    for (line, position, by) in changes {
        let at = start_of(body, *line).saturating_add(position.saturating_sub(1));
        overwrite(&mut copy, at, by);
    }
    Ok(copy)
}

/// Where a line of a body begins.
fn start_of(body: &[u8], line: usize) -> usize {
    let mut at = 0usize;
    for before in body
        .split(|byte| *byte == b'\n')
        .take(line.saturating_sub(1))
    {
        at = at.saturating_add(before.len()).saturating_add(1);
    }
    at
}

/// Puts bytes in place of those at a place.
fn overwrite(body: &mut Vec<u8>, at: usize, by: &[u8]) {
    for (index, byte) in by.iter().enumerate() {
        if let Some(place) = body.get_mut(at.saturating_add(index)) {
            *place = *byte;
        }
    }
}

/// The lines of a body, without their line ends.
pub fn lines<'a>(alloc: Global, body: &'a [u8]) -> Result<Vec<&'a [u8]>, AllocError> {
    let mut all = Vec::new(alloc);
    for line in body.split(|byte| *byte == b'\n') {
        all.push(line.strip_suffix(b"\r").unwrap_or(line))?;
    }
    all.pop();
    Ok(all)
}

/// These lines, each with this line end.
pub fn joined(alloc: Global, lines: &[&[u8]], end: &[u8]) -> Result<Vec<u8>, AllocError> {
    let mut body = Vec::new(alloc);
    for line in lines {
        body.extend_from_slice(line)?;
        body.extend_from_slice(end)?;
    }
    Ok(body)
}

/// The registration behind a group of agreements, which is counted and not read.
pub fn with_unread_group(alloc: Global) -> Result<Vec<u8>, AllocError> {
    let mut all = Vec::new(alloc);
    for (index, line) in lines(alloc, REGISTERED)?.iter().enumerate() {
        match index {
            1 => {
                all.push(b"GRHAGR0000102.200000000000".as_slice())?;
                all.push(b"AGRXXXXXXXX00000005")?;
                all.push(b"GRT000010000000100000003")?;
                all.push(b"GRHNWR0000202.200000000000")?;
            }
            9 => all.push(b"GRT000020000000100000009")?,
            10 => all.push(b"TRL000020000000200000014")?,
            _ => all.push(*line)?,
        }
    }
    joined(alloc, all.as_slice(), b"\r\n")
}
