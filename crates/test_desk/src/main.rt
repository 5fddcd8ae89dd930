//! The cases of the desk: its calls, streams over connections that break off, wait or fail, and rows over bytes. Each word names a file of cases
//! (data/), whose first lines say how a case is written. A line tells of each group whether all of its cases are as wanted; of a case that is
//! not, what there is and what is wanted.
#![tactic(auto)]

mod calls;
mod cases;
mod course;
mod orders;
mod rows;
mod stream;
mod streams;

use cases::Cases;
use std::io::{self, ErrorKind};
use test_bodies::office;
use test_sheets::texts;

fn main(rt: HostRuntime) -> io::Result<()> {
    let Ok(office) = office() else {
        return Err(ErrorKind::InvalidInput.into());
    };
    let texts = texts(&rt)?;
    for text in texts.iter() {
        let mut cases = Cases::new(rt.alloc(), &office);
        for line in text.as_str().lines() {
            cases.take(&rt, line)?;
        }
        cases.end(&rt)?;
    }
    Ok(())
}
