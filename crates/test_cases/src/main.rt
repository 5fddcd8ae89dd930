//! The cases of the crates below the desk. Each word names a file of cases (data/), whose first lines say how a case is written. A
//! line tells of each group whether all of its cases are as wanted; of a case that is not, what there is and what is wanted.
#![tactic(auto)]

mod answers;
mod body;
mod cases;
mod files;
mod ids;
mod numbers;
mod records;
mod returns;
mod shares;
mod splits;
mod told;
mod works;

use cases::Cases;
use std::io;
use test_sheets::texts;

fn main(rt: HostRuntime) -> io::Result<()> {
    let texts = texts(&rt)?;
    for text in texts.iter() {
        let mut cases = Cases::new(rt.alloc());
        for line in text.as_str().lines() {
            cases.take(&rt, line)?;
        }
        cases.end(&rt)?;
    }
    Ok(())
}
