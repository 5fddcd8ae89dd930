//! The cases of a file, each of which is run when its last line has been read.
use crate::files::{Image, connected, whole};
use crate::offices::run_case;
use crate::stores::run_plain;
use share_rules::Office;
use sqlite::Files;
use sqlite_disk::Disk;
use std::alloc::Global;
use std::io::ErrorKind;
use std::{io, mem};
use test_sheets::{Line, Sheet};

/// What has come of a file of cases; the name and the lines of the case under way.
#[derive(Drop)]
struct Cases {
    office: Office,
    sheet: Sheet,
    name: String,
    lines: String,
}

/// Runs lines over the databases in two pairs of files.
fn run_over_files<D: Disk + Drop>(
    rt: &HostRuntime,
    sheet: &mut Sheet,
    office: &Office,
    files: (Files<D>, Files<D>),
    lines: &str,
) -> io::Result<()> {
    let (here, beside) = files;
    match (connected(rt.alloc(), here), connected(rt.alloc(), beside)) {
        (Some(here), Some(beside)) => run_case(rt, sheet, office, (here, beside), lines),
        _ => Err(ErrorKind::OutOfMemory.into()),
    }
}

impl Cases {
    /// Nothing has been read.
    fn new(alloc: Global, office: &Office) -> Cases {
        Cases {
            office: *office,
            sheet: Sheet::new(alloc),
            name: String::new(alloc),
            lines: String::new(alloc),
        }
    }

    /// Runs lines over two databases that have no table, in files that pass all calls.
    fn run_over_tables(&mut self, rt: &HostRuntime, lines: &str) -> io::Result<()> {
        let empty = Image::empty(rt.alloc());
        match (whole(rt.alloc(), &empty), whole(rt.alloc(), &empty)) {
            (Some(here), Some(beside)) => {
                run_over_files(rt, &mut self.sheet, &self.office, (here, beside), lines)
            }
            _ => Err(ErrorKind::OutOfMemory.into()),
        }
    }

    /// Runs lines over the plain store, by a name of their own.
    fn run_over_plain(&mut self, rt: &HostRuntime, lines: &str) -> io::Result<()> {
        let name = format!(in rt.alloc(); "{}, in the plain store", self.name)?;
        self.sheet.begin_case(rt.alloc(), name.as_str())?;
        run_plain(rt, &self.office, &mut self.sheet, lines)
    }

    /// Runs the case whose lines have been read, and begins another of this name.
    fn next(&mut self, rt: &HostRuntime, name: &str) -> io::Result<()> {
        let lines = mem::replace(&mut self.lines, String::new(rt.alloc()));
        match lines.as_str().strip_prefix("both stores\n") {
            Some(rest) => {
                self.run_over_tables(rt, rest)?;
                self.run_over_plain(rt, rest)?;
            }
            None => self.run_over_tables(rt, lines.as_str())?,
        }
        self.name = String::from_str(rt.alloc(), name)?;
        Ok(self.sheet.begin_case(rt.alloc(), name)?)
    }

    /// Keeps a line of the case.
    fn keep(&mut self, line: &str) -> io::Result<()> {
        self.lines.push_str(line)?;
        self.lines.push('\n')?;
        Ok(())
    }

    /// Reads a line.
    fn take(&mut self, rt: &HostRuntime, line: &str) -> io::Result<()> {
        match Line::of(line) {
            Line::Remark => Ok(()),
            Line::Group(name) => {
                self.next(rt, "")?;
                self.sheet.begin_group(rt, name)
            }
            Line::Name(name) => self.next(rt, name),
            Line::Case(_, _) | Line::Part(_, _) => self.keep(line),
        }
    }

    /// Runs the last case, and tells of the last group.
    fn end(&mut self, rt: &HostRuntime) -> io::Result<()> {
        self.next(rt, "")?;
        self.sheet.end_group(rt)
    }
}

/// Runs all cases of a text, and tells of its groups.
pub fn take_all(rt: &HostRuntime, office: &Office, text: &str) -> io::Result<()> {
    let mut cases = Cases::new(rt.alloc(), office);
    for line in text.lines() {
        cases.take(rt, line)?;
    }
    cases.end(rt)
}
