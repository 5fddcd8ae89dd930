//! The office stops at each call of a file in turn, and what is left then is opened and asked: it answers as the run without a stop does,
//! behind the requests that were answered, or behind the one that was under way too.
use crate::asking::{Answers, are_same, ask};
use crate::course::Course;
use crate::files::{Counting, Fused, Image, changed, files_of, synced, written};
use crate::run::{Run, asked};
use share_rules::Office;
use sqlite::Files;
use std::alloc::Global;
use std::io;

/// More calls than a stretch here makes of a file.
const MOST_CALLS: u64 = 4_096;

/// What makes layout 2 of layout 3.
const SECOND: &str =
    "DROP TABLE mechanical_pools; DROP TABLE segment_ends; UPDATE office SET layout = 2";

/// What makes layout 1 of layout 3.
const FIRST: &str =
    "DROP TABLE mechanical_pools; DROP TABLE segment_ends; DROP TABLE balances; DROP TABLE credits; DROP TABLE recordings; DROP TABLE versions; DROP TABLE verdicts; DROP TABLE fronts; UPDATE office SET layout = 1";

/// A stretch of a course: the files before it, and from which request to which it goes, counted from 0.
#[derive(Clone, Copy)]
struct Stretch<'a> {
    course: &'a Course,
    run: &'a Run,
    start: &'a Image,
    from: usize,
    to: usize,
}

/// What stops of a stretch left, and whether the request under way was there at one of them, and not there at another.
#[derive(Drop)]
struct Seen {
    left: Vec<Image>,
    kept: bool,
    lost: bool,
}

impl Seen {
    /// No stop is seen.
    fn new(alloc: Global) -> Seen {
        Seen {
            left: Vec::new(alloc),
            kept: false,
            lost: false,
        }
    }

    /// Whether a stop left the same.
    fn has(&self, image: &Image) -> bool {
        self.left.iter().any(|other| image.is_same(other))
    }

    /// What was seen, in words.
    fn words(&self) -> &'static str {
        match (self.kept, self.lost) {
            (true, true) => "kept and lost",
            (true, false) => "kept",
            (false, true) => "lost",
            (false, false) => "nothing",
        }
    }
}

impl Stretch<'_> {
    /// What the run without a stop answers to these requests, over what it left behind so many.
    fn wanted(
        &self,
        alloc: Global,
        office: &Office,
        count: usize,
        list: &[&[u8]],
    ) -> Option<Answers> {
        let image = if count == self.from {
            self.start
        } else {
            self.run.left.get(count)?
        };
        let (told, _) = asked(alloc, office, image, list)?;
        Some(told)
    }

    /// Whether what a stop left, behind so many answers, answers as it should.
    fn look(
        &self,
        alloc: Global,
        office: &Office,
        count: usize,
        image: Image,
        seen: &mut Seen,
    ) -> Option<bool> {
        if seen.has(&image) {
            return Some(true);
        }
        let list = self.run.behind(alloc, self.course, count)?;
        let (told, _) = asked(alloc, office, &image, list.as_slice())?;
        seen.left.push(image).ok()?;
        let before = self.wanted(alloc, office, count, list.as_slice())?;
        if are_same(told.as_slice(), before.as_slice()) {
            seen.lost = true;
            return Some(true);
        }
        if count >= self.to {
            return Some(false);
        }
        let after = self.wanted(alloc, office, count.saturating_add(1), list.as_slice())?;
        seen.kept = true;
        Some(are_same(told.as_slice(), after.as_slice()))
    }

    /// The same of what a stop of the process leaves, and of what one of the machine does.
    fn look_at_both(
        &self,
        alloc: Global,
        office: &Office,
        count: usize,
        files: Files<Fused>,
        seen: &mut Seen,
    ) -> Option<bool> {
        let image = written(alloc, &files)?;
        let well = self.look(alloc, office, count, image, seen)?;
        let image = synced(alloc, files)?;
        Some(well && self.look(alloc, office, count, image, seen)?)
    }

    /// Whether these are the answers of the run without a stop.
    fn are_answers(&self, told: &[Vec<u8>]) -> bool {
        let end = self.from.saturating_add(told.len());
        match self.run.answers.get(self.from..end) {
            Some(wanted) => are_same(told, wanted),
            None => false,
        }
    }

    /// One run that stops behind so many calls of a file: whether it came to its end, where all is as it should be.
    fn stop(
        &self,
        alloc: Global,
        office: &Office,
        requests: &[&[u8]],
        file: Counting,
        passing: u64,
        seen: &mut Seen,
    ) -> Option<Option<bool>> {
        let files = files_of(alloc, self.start, file, passing)?;
        let (told, files) = ask(alloc, office, files, requests)?;
        let (opened, told) = match told {
            Some(told) => (true, told),
            None => (false, Vec::new(alloc)),
        };
        let count = self.from.saturating_add(told.len());
        let well = self.are_answers(told.as_slice())
            && self.look_at_both(alloc, office, count, files, seen)?;
        if !well {
            return Some(None);
        }
        Some(Some(opened && count >= self.to))
    }

    /// The requests of the stretch.
    fn requests(&self, alloc: Global) -> Option<Vec<&[u8]>> {
        let mut list = Vec::new(alloc);
        for request in self.course.requests.get(self.from..self.to)? {
            list.push(request.as_slice()).ok()?;
        }
        Some(list)
    }

    /// Stops at each call of a file in turn, up to the one run that comes to its end: what was seen, or behind how many calls something was
    /// not as it should be.
    fn stops(&self, alloc: Global, office: &Office, file: Counting) -> Option<Result<Seen, u64>> {
        let requests = self.requests(alloc)?;
        let mut seen = Seen::new(alloc);
        for passing in 0..MOST_CALLS {
            let ended = self.stop(alloc, office, requests.as_slice(), file, passing, &mut seen)?;
            match ended {
                None => return Some(Err(passing)),
                Some(true) => return Some(Ok(seen)),
                Some(false) => {}
            }
        }
        None
    }

    /// Prints what stops of a file came to.
    fn tell(&self, rt: &HostRuntime, office: &Office, file: Counting) -> io::Result<()> {
        let name = file.name();
        match self.stops(rt.alloc(), office, file) {
            Some(Ok(seen)) => {
                let words = seen.words();
                println!(rt; "  in the {name}: {words}, as wanted")
            }
            Some(Err(calls)) => println!(rt; "  in the {name}: not as wanted behind {calls} calls"),
            None => println!(rt; "  in the {name}: not tried"),
        }
    }
}

/// From which request to which a stretch goes, as two words count from 1; none for an opening.
fn stretch_in(word: &str, rest: &str, count: usize) -> Option<(usize, usize)> {
    if word == "opens" {
        let at = if rest == "new" { 0 } else { count };
        return Some((at, at));
    }
    let (first, last) = rest.split_once(' ')?;
    let first = first.parse::<usize>().ok()?.checked_sub(1)?;
    let last = last.parse::<usize>().ok()?;
    if first <= last && last <= count {
        Some((first, last))
    } else {
        None
    }
}

/// The files before a stretch: those of the run, of the layout that an opening names.
fn start_of(alloc: Global, run: &Run, rest: &str, from: usize) -> Option<Image> {
    let image = run.left.get(from)?;
    let statements = match rest {
        "layout 1" => FIRST,
        "layout 2" => SECOND,
        "layout 3" => "",
        _ => {
            return Some(Image {
                log: Vec::from_slice(alloc, image.log.as_slice()).ok()?,
                db: Vec::from_slice(alloc, image.db.as_slice()).ok()?,
            });
        }
    };
    changed(alloc, image, statements)
}

/// Prints what stops come to in each file, in the stretch or the opening that a line names.
pub fn tell_stops(
    rt: &HostRuntime,
    office: &Office,
    course: &Course,
    word: &str,
    rest: &str,
) -> io::Result<()> {
    let alloc = rt.alloc();
    println!(rt; " {word} {rest}")?;
    let Some(run) = Run::of(alloc, office, course) else {
        return println!(rt; "  the store fails");
    };
    let Some((from, to)) = stretch_in(word, rest, course.requests.len()) else {
        return println!(rt; "  no such stretch");
    };
    let Some(start) = start_of(alloc, &run, rest, from) else {
        return println!(rt; "  no such files");
    };
    let stretch = Stretch {
        course,
        run: &run,
        start: &start,
        from,
        to,
    };
    stretch.tell(rt, office, Counting::Log)?;
    stretch.tell(rt, office, Counting::Database)
}
