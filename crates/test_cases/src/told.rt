//! What the libraries answer to a case, as a line of words.
use std::alloc::Global;
use std::fmt::Display;
use std::io::Write;

/// A line that is written word by word. A word for which there is no memory is left out, and the line is then not as wanted.
#[derive(Drop)]
pub struct Told {
    line: Vec<u8>,
}

impl Told {
    /// A line with nothing in it.
    pub fn new(alloc: Global) -> Told {
        Told {
            line: Vec::new(alloc),
        }
    }

    /// What has been written.
    pub fn line(&self) -> &[u8] {
        self.line.as_slice()
    }

    /// Writes bytes, with no blank before them.
    pub fn bytes(&mut self, bytes: &[u8]) {
        let _ = self.line.extend_from_slice(bytes);
    }

    /// Writes a blank behind what has been written.
    fn blank(&mut self) {
        if !self.line.is_empty() {
            self.bytes(b" ");
        }
    }

    /// Writes a word; an empty one is none.
    pub fn word(&mut self, word: &[u8]) {
        if !word.is_empty() {
            self.blank();
            self.bytes(word);
        }
    }

    /// Writes a value in its own words.
    pub fn value<T: Display + Drop>(&mut self, value: T) {
        self.blank();
        let _ = write!(self.line, "{value}");
    }

    /// Writes a value, or that there is none.
    pub fn option<T: Display + Drop>(&mut self, value: Option<T>) {
        match value {
            Some(value) => self.value(value),
            None => self.word(b"none"),
        }
    }

    /// The number that a word spells. A word that spells none is told, so that the line is not as wanted.
    pub fn number(&mut self, word: &str) -> u32 {
        match word.parse::<u32>() {
            Ok(number) => number,
            Err(_) => self.no_number(word),
        }
    }

    /// The long number that a word spells.
    pub fn long_number(&mut self, word: &str) -> u64 {
        match word.parse::<u64>() {
            Ok(number) => number,
            Err(_) => u64::from(self.no_number(word)),
        }
    }

    /// Tells that a word spells no number.
    fn no_number(&mut self, word: &str) -> u32 {
        self.word(b"no number:");
        self.word(word.as_bytes());
        0
    }
}
