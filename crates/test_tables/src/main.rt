//! The cases of the office's tables, over files in memory. Each word names a file of data/, whose first lines say how it is written: one of cases
//! (rows that are read back as they were written; candidates of a pool; what each call of a store answers, over the plain store too; databases that
//! are opened and audited), or one of courses (stops at each call of a file). A line tells of each group whether all of its cases are as wanted; of
//! a case that is not, what there is and what is wanted; and of each stretch of a course whether all is as wanted that stops in it left. The built
//! program is tried over files, and over databases that SQLite reads and changes, by the scripts of trials/ (files.py, leaving.py, openings.py,
//! damages.py).
#![tactic(auto)]

mod asking;
mod candidates;
mod cases;
mod course;
mod courses;
mod database;
mod files;
mod offices;
mod questions;
mod reads;
mod requests;
mod rows;
mod run;
mod statements;
mod stops;
mod stores;
mod told;
mod transaction;
mod typed;
mod writes;

use share_rules::Office;
use std::env;
use std::io::{self, ErrorKind};
use test_bodies::office;
use test_sheets::text;

/// Takes all lines of a file, by its ending of cases or of courses.
fn take_all(rt: &HostRuntime, office: &Office, name: &str) -> io::Result<()> {
    let text = text(rt, name)?;
    if name.ends_with(".courses") {
        courses::take_all(rt, office, text.as_str())
    } else {
        cases::take_all(rt, office, text.as_str())
    }
}

fn main(rt: HostRuntime) -> io::Result<()> {
    let Ok(office) = office() else {
        return Err(ErrorKind::InvalidInput.into());
    };
    let names = env::args(&rt)?.collect::<Vec<String>>(rt.alloc())?;
    for name in names.iter().skip(1) {
        take_all(&rt, &office, name.as_str())?;
    }
    Ok(())
}
