//! How a connection goes.
use std::io::ErrorKind;
use test_sheets::first_word;

/// How a connection goes: how its bytes come, and how much is taken of what is written to it.
#[derive(Clone, Copy)]
pub struct Course {
    /// The most bytes that a read gives.
    pub piece: usize,
    /// How many bytes come at all.
    pub first: usize,
    /// How often they come.
    pub rounds: u64,
    /// How many of them come before the peer waits.
    pub pause: usize,
    /// For how many bytes of answers it waits.
    pub due: usize,
    /// How a read fails behind the last byte; where none does, the bytes end.
    pub failure: Option<ErrorKind>,
    /// How many bytes are taken.
    pub room: usize,
    /// How many reads may give bytes.
    pub turns: u64,
}

impl Course {
    /// All bytes come at once, and all are taken.
    fn plain() -> Course {
        Course {
            piece: usize::MAX,
            first: usize::MAX,
            rounds: 1,
            pause: 0,
            due: 0,
            failure: None,
            room: usize::MAX,
            turns: u64::MAX,
        }
    }

    /// The course that names and numbers make, with commas between them; none where a name is not known.
    pub fn of(pairs: &str) -> Option<Course> {
        let mut course = Course::plain();
        if pairs.is_empty() {
            return Some(course);
        }
        for pair in pairs.split(", ") {
            let (name, number) = first_word(pair);
            course.set(name, number.parse::<usize>().ok()?)?;
        }
        Some(course)
    }

    fn set(&mut self, name: &str, number: usize) -> Option<()> {
        match name {
            "pieces" => self.piece = number,
            "breaks" => {
                self.first = number;
                self.failure = Some(ErrorKind::ConnectionReset);
            }
            "rounds" => self.rounds = number as u64,
            "waits" => {
                self.pause = number;
                self.failure = Some(ErrorKind::WouldBlock);
            }
            "due" => self.due = number,
            "room" => self.room = number,
            "turns" => self.turns = number as u64,
            _ => return None,
        }
        Some(())
    }
}
