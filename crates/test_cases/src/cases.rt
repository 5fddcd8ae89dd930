//! The cases of a file, and the body that they ask about.
use crate::answers::answer;
use crate::body::change;
use crate::told::Told;
use std::alloc::Global;
use std::io;
use test_sheets::{Line, Sheet, bytes_of, file, first_word};

/// What has come of a file of cases, and the body that its lines have made.
#[derive(Drop)]
pub struct Cases {
    sheet: Sheet,
    body: Vec<u8>,
}

impl Cases {
    /// Nothing has been read.
    pub fn new(alloc: Global) -> Cases {
        Cases {
            sheet: Sheet::new(alloc),
            body: Vec::new(alloc),
        }
    }

    /// Asks a case, and compares what is answered.
    fn ask(&mut self, rt: &HostRuntime, case: &str, wanted: &str) -> io::Result<()> {
        let (word, rest) = first_word(case);
        let text = bytes_of(rt.alloc(), rest)?;
        let mut told = Told::new(rt.alloc());
        if !answer(rt, &mut told, word, rest, &text, &self.body) {
            told.word(b"no such question");
        }
        self.sheet.compare(rt, case, told.line(), wanted)
    }

    /// Puts a file behind the body, or changes the body in another way; whether there is such a way.
    fn build(&mut self, rt: &HostRuntime, word: &str, rest: &str) -> io::Result<bool> {
        if word == "take" {
            self.body.extend_from_slice(&file(rt, rest)?)?;
            return Ok(true);
        }
        Ok(change(rt.alloc(), &mut self.body, word, rest)?)
    }

    /// Reads a line. A group and a case begin with nothing in the body.
    pub fn take(&mut self, rt: &HostRuntime, line: &str) -> io::Result<()> {
        match Line::of(line) {
            Line::Remark => {}
            Line::Group(name) => {
                self.body.clear();
                self.sheet.begin_group(rt, name)?;
            }
            Line::Name(name) => {
                self.body.clear();
                self.sheet.begin_case(rt.alloc(), name)?;
            }
            Line::Case(case, wanted) => self.ask(rt, case, wanted)?,
            Line::Part(word, rest) => {
                if !self.build(rt, word, rest)? {
                    self.sheet.refuse(rt, line)?;
                }
            }
        }
        Ok(())
    }

    /// Tells of the last group.
    pub fn end(&self, rt: &HostRuntime) -> io::Result<()> {
        self.sheet.end_group(rt)
    }
}
