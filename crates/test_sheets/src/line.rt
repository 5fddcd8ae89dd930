//! A line of a file of cases.
use crate::words::first_word;

/// What a line says.
#[derive(Clone, Copy)]
pub enum Line<'a> {
    /// Nothing: it is empty, or a remark.
    Remark,
    /// A group begins, which has this name.
    Group(&'a str),
    /// A case begins, which has this name.
    Name(&'a str),
    /// What is asked, and the answer that is wanted.
    Case(&'a str, &'a str),
    /// What a program makes of it: its first word, and what stands behind that.
    Part(&'a str, &'a str),
}

impl<'a> Line<'a> {
    /// What the text of a line says.
    pub fn of(text: &'a str) -> Line<'a> {
        let (word, rest) = first_word(text);
        match word {
            "" | "#" => Line::Remark,
            "==" => Line::Group(rest),
            ":" => Line::Name(rest),
            _ => match text.split_once(" -> ") {
                Some((case, wanted)) => Line::Case(case, wanted),
                None => Line::Part(word, rest),
            },
        }
    }
}
