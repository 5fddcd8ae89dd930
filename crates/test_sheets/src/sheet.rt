//! What has come of a file of cases.
use std::alloc::{AllocError, Global};
use std::io::ErrorKind;
use std::{env, fs, io};

/// What has been read of a file: the group, whether a case of it was asked, and whether all were as wanted; and the name of the case.
#[derive(Drop)]
pub struct Sheet {
    group: String,
    is_asked: bool,
    is_well: bool,
    name: String,
}

impl Sheet {
    /// Nothing has been read.
    pub fn new(alloc: Global) -> Sheet {
        Sheet {
            group: String::new(alloc),
            is_asked: false,
            is_well: true,
            name: String::new(alloc),
        }
    }

    /// Prints of a group that has ended whether all of its cases were as wanted; before the first one nothing.
    pub fn end_group(&self, rt: &HostRuntime) -> io::Result<()> {
        let group = self.group.as_str();
        if group.is_empty() {
            return Ok(());
        }
        let verdict = match (self.is_well, self.is_asked) {
            (false, _) => "not as wanted",
            (true, false) => "no case",
            (true, true) => "as wanted",
        };
        println!(rt; "{group}: {verdict}")
    }

    /// Ends a group, and begins another of this name, which has no case yet.
    pub fn begin_group(&mut self, rt: &HostRuntime, name: &str) -> io::Result<()> {
        self.end_group(rt)?;
        *self = Sheet::new(rt.alloc());
        self.group = String::from_str(rt.alloc(), name)?;
        Ok(())
    }

    /// Begins a case of this name.
    pub fn begin_case(&mut self, alloc: Global, name: &str) -> Result<(), AllocError> {
        self.name = String::from_str(alloc, name)?;
        Ok(())
    }

    /// Compares what is told of a case with what is wanted, and prints both where they differ.
    pub fn compare(
        &mut self,
        rt: &HostRuntime,
        case: &str,
        told: &[u8],
        wanted: &str,
    ) -> io::Result<()> {
        self.is_asked = true;
        if told == wanted.as_bytes() {
            return Ok(());
        }
        self.is_well = false;
        let there = String::from_utf8_lossy(rt.alloc(), told)?;
        let name = self.name.as_str();
        println!(rt; "{name}: {case}\n  there is: {there}\n  wanted is: {wanted}")
    }

    /// Prints a line that says nothing, by which its group is not as wanted.
    pub fn refuse(&mut self, rt: &HostRuntime, line: &str) -> io::Result<()> {
        self.compare(rt, line, b"no such line", "a line that says something")
    }
}

/// The texts of the files of cases that the arguments name, without their ending.
pub fn texts(rt: &HostRuntime) -> io::Result<Vec<String>> {
    let alloc = rt.alloc();
    let names = env::args(rt)?.collect::<Vec<String>>(alloc)?;
    let mut texts = Vec::new(alloc);
    for name in names.iter().skip(1) {
        let path = format!(in alloc; "{name}.cases")?;
        texts.push(text(rt, path.as_str())?)?;
    }
    Ok(texts)
}

/// The bytes of a file that a case names; the name of one that cannot be read is printed.
pub fn file(rt: &HostRuntime, name: &str) -> io::Result<Vec<u8>> {
    // Here alone a file is opened: each program that does so by itself proves once more how one is closed.
    let read = fs::read(rt, name);
    if read.is_err() {
        println!(rt; "{name} cannot be read")?;
    }
    read
}

/// The text of a file; the name of one that cannot be read is printed.
pub fn text(rt: &HostRuntime, name: &str) -> io::Result<String> {
    match String::from_utf8(file(rt, name)?) {
        Ok(text) => Ok(text),
        Err(_) => Err(ErrorKind::InvalidData.into()),
    }
}
