//! The cases of a file, and the desks that they ask.
use crate::calls::{tell_book, tell_put, tell_run, tell_work};
use crate::course::Course;
use crate::orders::tell_order;
use crate::rows::serve_row;
use crate::stream::Stream;
use crate::streams::serve_stream;
use share_rules::Office;
use society_core::{Desk, PlainStore};
use std::alloc::Global;
use std::{io, mem};
use test_sheets::{Line, Sheet, first_word};
use test_store::FailingStore;

/// What has come of a file of cases, the lines that a row stands for, what is sent and wanted, a stream that was kept; and the desks over the
/// two stores.
#[derive(Drop)]
pub struct Cases {
    office: Office,
    sheet: Sheet,
    rows: String,
    stream: Stream,
    kept: Stream,
    desk: Desk<PlainStore>,
    failing: Desk<FailingStore>,
}

impl Cases {
    /// Nothing has been read, and nothing has come to the desks of this office.
    pub fn new(alloc: Global, office: &Office) -> Cases {
        Cases {
            office: *office,
            sheet: Sheet::new(alloc),
            rows: String::new(alloc),
            stream: Stream::new(alloc),
            kept: Stream::new(alloc),
            desk: Desk::new(PlainStore::new(alloc, office)),
            failing: Desk::new(FailingStore::new(office)),
        }
    }

    /// Tells of the last group.
    pub fn end(&self, rt: &HostRuntime) -> io::Result<()> {
        self.sheet.end_group(rt)
    }

    /// Begins a group: all is as at first.
    fn begin_group(&mut self, rt: &HostRuntime, name: &str) -> io::Result<()> {
        self.end(rt)?;
        *self = Cases::new(rt.alloc(), &self.office);
        self.sheet.begin_group(rt, name)
    }

    /// Nothing has come to the desks.
    fn begin_desks(&mut self, alloc: Global) {
        self.desk = Desk::new(PlainStore::new(alloc, &self.office));
        self.failing = Desk::new(FailingStore::new(&self.office));
    }

    /// Begins a case: nothing is sent or wanted, and nothing has come to the desks.
    fn begin_case(&mut self, alloc: Global, name: &str) -> io::Result<()> {
        self.stream = Stream::new(alloc);
        self.begin_desks(alloc);
        Ok(self.sheet.begin_case(alloc, name)?)
    }

    /// What is told of a case; none where there is no such question.
    fn told(&mut self, rt: &HostRuntime, case: &str) -> Option<String> {
        let alloc = rt.alloc();
        let (word, rest) = first_word(case);
        match word {
            "serve" => {
                serve_stream(alloc, &mut self.desk, &self.stream, &Course::of(rest)?).ok()
            }
            "serve-failing" => {
                serve_stream(alloc, &mut self.failing, &self.stream, &Course::of(rest)?).ok()
            }
            "serve-kept" => {
                serve_stream(alloc, &mut self.desk, &self.kept, &Course::of(rest)?).ok()
            }
            "serve-row" => serve_row(rt, &self.office, rest),
            "put" => tell_put(alloc, &mut self.desk, &self.stream.input, rest),
            "run" => tell_run(rt, &mut self.desk, &self.stream),
            "book" => tell_book(rt, &mut self.desk, rest),
            "work" => tell_work(alloc, &mut self.desk, rest),
            "order" => tell_order(alloc, rest),
            _ => None,
        }
    }

    /// Asks a case, and compares what is told.
    fn ask(&mut self, rt: &HostRuntime, case: &str, wanted: &str) -> io::Result<()> {
        match self.told(rt, case) {
            Some(told) => self.sheet.compare(rt, case, told.as_bytes(), wanted),
            None => self.sheet.compare(rt, case, b"no such question", wanted),
        }
    }

    /// Begins again with empty desks, keeps a stream, or adds to what is sent or wanted; whether a line says such a thing.
    fn build(&mut self, rt: &HostRuntime, word: &str, rest: &str) -> io::Result<bool> {
        match word {
            "anew" => self.begin_desks(rt.alloc()),
            "keep" => self.kept = mem::replace(&mut self.stream, Stream::new(rt.alloc())),
            _ => return self.stream.build(rt, word, rest),
        }
        Ok(true)
    }

    /// Reads a line that stands for itself.
    fn take_line(&mut self, rt: &HostRuntime, line: &str) -> io::Result<()> {
        match Line::of(line) {
            Line::Remark => {}
            Line::Group(name) => self.begin_group(rt, name)?,
            Line::Name(name) => self.begin_case(rt.alloc(), name)?,
            Line::Case(case, wanted) => self.ask(rt, case, wanted)?,
            Line::Part(word, rest) => {
                if !self.build(rt, word, rest)? {
                    self.sheet.refuse(rt, line)?;
                }
            }
        }
        Ok(())
    }

    /// Reads lines, each with a value in place of its marks.
    fn take_lines(&mut self, rt: &HostRuntime, lines: &str, value: &str) -> io::Result<()> {
        for line in lines.split(" && ") {
            let line = line.replace(rt.alloc(), "?", value)?;
            self.take_line(rt, line.as_str())?;
        }
        Ok(())
    }

    /// Reads lines for each number from one to another.
    fn take_each(&mut self, rt: &HostRuntime, words: &str) -> io::Result<()> {
        let (from, rest) = first_word(words);
        let (to, lines) = first_word(rest);
        match (from.parse::<u64>(), to.parse::<u64>()) {
            (Ok(from), Ok(to)) if from <= to => {
                for number in from..=to {
                    let value = format!(in rt.alloc(); "{number}")?;
                    self.take_lines(rt, lines, value.as_str())?;
                }
                Ok(())
            }
            _ => self
                .sheet
                .compare(rt, words, b"no numbers", "one number and a greater one"),
        }
    }

    /// Reads a row: its value stands for the marks of the lines that were given for such rows.
    fn take_row(&mut self, rt: &HostRuntime, value: &str) -> io::Result<()> {
        let lines = String::from_str(rt.alloc(), self.rows.as_str())?;
        self.take_lines(rt, lines.as_str(), value)
    }

    /// Reads a line of a file, which may stand for several.
    pub fn take(&mut self, rt: &HostRuntime, line: &str) -> io::Result<()> {
        let (word, rest) = first_word(line);
        match word {
            "rows" => self.rows = String::from_str(rt.alloc(), rest)?,
            "-" => self.take_row(rt, rest)?,
            "each" => self.take_each(rt, rest)?,
            _ => self.take_line(rt, line)?,
        }
        Ok(())
    }
}
