//! What a connection is sent, and the answers that are wanted.
use std::alloc::{AllocError, Global};
use std::io;
use test_sheets::{bytes_of, file, first_word, push_line};

/// The bytes that a connection reads, and those that are wanted of it.
#[derive(Drop)]
pub struct Stream {
    pub input: Vec<u8>,
    pub answers: Vec<u8>,
}

/// The bytes that a text writes, in quotes, or else those of the file that it names; of an empty text none.
fn bytes_or_file(rt: &HostRuntime, text: &str) -> io::Result<Vec<u8>> {
    if text.is_empty() || text.starts_with('"') {
        return Ok(bytes_of(rt.alloc(), text)?);
    }
    file(rt, text)
}

impl Stream {
    /// Nothing is sent, and nothing is wanted.
    pub fn new(alloc: Global) -> Stream {
        Stream {
            input: Vec::new(alloc),
            answers: Vec::new(alloc),
        }
    }

    /// Appends a request: its method, its target, and its body.
    fn ask(&mut self, rt: &HostRuntime, words: &str) -> io::Result<()> {
        let (method, rest) = first_word(words);
        let (target, body) = first_word(rest);
        let body = bytes_or_file(rt, body)?;
        let length = body.len();
        let head = format!(in rt.alloc();
            "{method} {target} HTTP/1.1\r\nContent-Length: {length}\r\n\r\n"
        )?;
        self.input.extend_from_slice(head.as_bytes())?;
        self.input.extend_from_slice(&body)?;
        Ok(())
    }

    /// Appends an answer in JSON: its status, fields behind it, and its text.
    fn answer(&mut self, alloc: Global, fields: &str, words: &str) -> Result<(), AllocError> {
        let (status, text) = words.split_once(": ").unwrap_or((words, ""));
        let length = text.len();
        let answer = format!(in alloc;
            "HTTP/1.1 {status}\r\nContent-Type: application/json\r\nContent-Length: {length}\r\n{fields}\r\n{text}"
        )?;
        self.answers.extend_from_slice(answer.as_bytes())
    }

    /// Appends a text to the input so many times.
    fn repeat(&mut self, alloc: Global, words: &str) -> Result<(), AllocError> {
        let (times, text) = first_word(words);
        let bytes = bytes_of(alloc, text)?;
        for _ in 0..times.parse::<u64>().unwrap_or(0) {
            self.input.extend_from_slice(&bytes)?;
        }
        Ok(())
    }

    /// Adds to the stream what a line of a file of cases says; whether there is such a line.
    pub fn build(&mut self, rt: &HostRuntime, word: &str, rest: &str) -> io::Result<bool> {
        let alloc = rt.alloc();
        match word {
            "|" => push_line(alloc, &mut self.input, rest)?,
            "=" => push_line(alloc, &mut self.answers, rest)?,
            ">" => self.ask(rt, rest)?,
            ">>" => self.input.extend_from_slice(&bytes_or_file(rt, rest)?)?,
            "<" => self.answer(alloc, "", rest)?,
            "<closing" => self.answer(alloc, "Connection: close\r\n", rest)?,
            "<<" => self.answers.extend_from_slice(&bytes_or_file(rt, rest)?)?,
            "times" => self.repeat(alloc, rest)?,
            "first" => self.input.truncate(rest.parse::<usize>().unwrap_or(0)),
            _ => return Ok(false),
        }
        Ok(true)
    }
}
