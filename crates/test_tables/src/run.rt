//! The run of a course without a stop, with which all others are compared.
use crate::asking::{Answers, ask, is_taken};
use crate::course::Course;
use crate::files::{Image, whole, written};
use share_rules::Office;
use std::alloc::Global;
use std::io;

/// A run without a stop: what it left behind each of its requests, and what was answered.
#[derive(Drop)]
pub struct Run {
    /// One more than there are requests: the first is of files that nothing was written to.
    pub left: Vec<Image>,
    pub answers: Answers,
}

/// The answers to requests over files that hold this and do not fail, and what is left.
pub fn asked(
    alloc: Global,
    office: &Office,
    image: &Image,
    requests: &[&[u8]],
) -> Option<(Answers, Image)> {
    let (told, files) = ask(alloc, office, whole(alloc, image)?, requests)?;
    let told = told?;
    if told.len() != requests.len() {
        return None;
    }
    let left = written(alloc, &files)?;
    Some((told, left))
}

impl Run {
    /// No request was sent.
    fn new(alloc: Global) -> Option<Run> {
        let mut left = Vec::new(alloc);
        left.push(Image::empty(alloc)).ok()?;
        Some(Run {
            left,
            answers: Vec::new(alloc),
        })
    }

    /// Sends one request more.
    fn send(&mut self, alloc: Global, office: &Office, request: &[u8]) -> Option<()> {
        let (told, left) = asked(alloc, office, self.left.last()?, &[request])?;
        self.answers.push(told.into_iter().next()?).ok()?;
        self.left.push(left).ok()?;
        Some(())
    }

    /// The run of a course.
    pub fn of(alloc: Global, office: &Office, course: &Course) -> Option<Run> {
        let mut run = Run::new(alloc)?;
        for request in course.requests.iter() {
            run.send(alloc, office, request.as_slice())?;
        }
        Some(run)
    }

    /// Those of the first requests of a course that were taken; what was refused may be taken later.
    fn taken<'a>(&self, alloc: Global, course: &'a Course, count: usize) -> Option<Vec<&'a [u8]>> {
        let mut list = Vec::new(alloc);
        let first = course.requests.iter().zip(self.answers.iter()).take(count);
        for (request, answer) in first {
            if is_taken(answer.as_slice()) {
                list.push(request.as_slice()).ok()?;
            }
        }
        Some(list)
    }

    /// What is sent to a book to which the first requests came: those that were taken, again; the questions; all that comes after; and the
    /// questions.
    pub fn behind<'a>(
        &self,
        alloc: Global,
        course: &'a Course,
        count: usize,
    ) -> Option<Vec<&'a [u8]>> {
        let mut list = self.taken(alloc, course, count)?;
        add_all(&mut list, course.questions.as_slice(), 0)?;
        add_all(&mut list, course.requests.as_slice(), count)?;
        add_all(&mut list, course.questions.as_slice(), 0)?;
        Some(list)
    }
}

/// Adds requests from a place on.
fn add_all<'a>(list: &mut Vec<&'a [u8]>, requests: &'a [Vec<u8>], from: usize) -> Option<()> {
    for request in requests.iter().skip(from) {
        list.push(request.as_slice()).ok()?;
    }
    Some(())
}

/// The first line of an answer, and its body.
fn parts(answer: &[u8]) -> (&str, &str) {
    let text = std::str::from_utf8(answer).unwrap_or("no text");
    let (head, body) = text.split_once("\r\n\r\n").unwrap_or((text, ""));
    let (first, _) = head.split_once("\r\n").unwrap_or((head, ""));
    (first, body)
}

/// Prints the first line of an answer, and then the lines of its body.
fn tell_answer(rt: &HostRuntime, answer: &[u8]) -> io::Result<()> {
    let (first, body) = parts(answer);
    println!(rt; "  {first}")?;
    for line in body.lines() {
        println!(rt; "    {line}")?;
    }
    Ok(())
}

/// Prints the answer to each request and to each question.
pub fn tell_answers(rt: &HostRuntime, office: &Office, course: &Course) -> io::Result<()> {
    let alloc = rt.alloc();
    let image = Image::empty(alloc);
    let list = Run::new(alloc).and_then(|run| run.behind(alloc, course, 0));
    let Some(list) = list else {
        return println!(rt; "  no memory");
    };
    let Some((told, _)) = asked(alloc, office, &image, list.as_slice()) else {
        return println!(rt; "  the store fails");
    };
    for answer in told.iter().skip(course.questions.len()) {
        tell_answer(rt, answer.as_slice())?;
    }
    Ok(())
}
