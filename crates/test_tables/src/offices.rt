//! Two databases, and the lines of a case that are not in a transaction.
use crate::database::{Database, opened, opened_after};
use crate::questions::question_of;
use crate::reads::shown_or_fault;
use crate::stores::tell_at_desk;
use crate::told::{asked, compare, done, words};
use crate::transaction::run_transaction;
use crate::writes::told_result;
use share_rules::Office;
use society_core::Desk;
use society_opening::reopen;
use society_rows::{Found, Idle, OfficeRow, RowFault, ask, create, layout_found};
use sqlite::{Alter, Connection};
use std::alloc::Global;
use std::io::{self, ErrorKind};
use std::mem;
use std::str::Lines;
use test_bodies::sender;
use test_sheets::{Sheet, bytes_of, first_word};
use work_ids::SenderKey;

/// The database that lines are about, and one beside it; the office, and the sender whose files are put.
#[derive(Drop)]
struct Offices<S: Alter> {
    office: Office,
    sender: SenderKey,
    here: Database<S>,
    beside: Database<S>,
}

/// An office by its society, its territory and its name in quotes.
fn office_of(alloc: Global, text: &str) -> Option<Office> {
    let (society, rest) = first_word(text);
    let (territory, name) = first_word(rest);
    let name = bytes_of(alloc, name).ok()?;
    Office::new(
        society.parse::<u16>().ok()?,
        territory.parse::<u16>().ok()?,
        &name,
    )
}

/// Makes the tables of an office in a database that has none.
fn begin<S: Alter>(conn: &mut Idle<S>, office: &Office) -> Result<(), RowFault> {
    match layout_found(conn) {
        Found::Nothing => create(
            conn,
            &OfficeRow {
                society: u32::from(office.society),
                territory: u32::from(office.territory),
                name: office.name(),
            },
        ),
        Found::Layout | Found::Older(_) | Found::Other => Err(RowFault::Schema),
    }
}

/// Makes the tables of an office, or asks them by a question of its own transaction.
fn tell_at_rest<S: Alter>(
    alloc: Global,
    conn: &mut Idle<S>,
    office: &Office,
    text: &str,
) -> Option<String> {
    let (word, rest) = first_word(text);
    if word == "create" {
        return told_result(alloc, begin(conn, office));
    }
    let list = rest.split(' ').collect::<Vec<&str>>(alloc).ok()?;
    shown_or_fault(alloc, ask(conn, question_of(&list)?))
}

impl<S: Alter + Drop> Offices<S> {
    /// Does a line over the database at rest.
    fn tell_closed(&mut self, alloc: Global, text: &str) -> Option<String> {
        let mut conn = Idle::new(self.here.take_connection()?).ok()?;
        let told = tell_at_rest(alloc, &mut conn, &self.office, text);
        self.here.put_connection(conn.into_connection());
        told
    }

    /// Opens the database as another office's, and tells what that came to.
    fn open_as(&mut self, alloc: Global, text: &str) -> Option<String> {
        let office = office_of(alloc, text)?;
        let opened = opened(alloc, self.here.take_connection()?, &office);
        words(alloc, self.here.keep(opened))
    }

    /// Opens the database of the desk anew.
    fn open_again(&mut self, alloc: Global) -> Option<String> {
        let desk = self.here.take_desk(alloc, &self.office)?;
        let opened = reopen(alloc, desk.into_store());
        words(alloc, self.here.keep(opened))
    }

    /// Opens the database beside as what a crash leaves of this one.
    fn open_beside(&mut self, alloc: Global) -> Option<String> {
        let found = self.beside.take_connection()?;
        let tables = self.here.take_desk(alloc, &self.office)?.into_store();
        let opened = opened_after(alloc, &tables, found);
        self.here.put_desk(Desk::new(tables));
        words(alloc, self.beside.keep(opened))
    }

    /// Does a line at the desk.
    fn tell_open(&mut self, rt: &HostRuntime, text: &str) -> Option<String> {
        let desk = self.here.take_desk(rt.alloc(), &self.office)?;
        let (told, desk) = tell_at_desk(rt, desk, &self.sender, text);
        self.here.put_desk(desk);
        told
    }

    /// Tells what a line asks, or that it is done.
    fn tell(&mut self, rt: &HostRuntime, text: &str) -> Option<String> {
        let alloc = rt.alloc();
        let (word, rest) = first_word(text);
        match word {
            "sender" => self.sender = SenderKey::from_bytes(rest.as_bytes()).ok()?,
            "beside" => mem::swap(&mut self.here, &mut self.beside),
            "create" | "ask" => return self.tell_closed(alloc, text),
            "open-as" => return self.open_as(alloc, rest),
            "reopen" => return self.open_again(alloc),
            "after-crash" => return self.open_beside(alloc),
            _ => return self.tell_open(rt, text),
        }
        done(alloc)
    }

    /// Does the lines of a transaction, up to its end.
    fn run_inside(
        &mut self,
        rt: &HostRuntime,
        sheet: &mut Sheet,
        lines: &mut Lines<'_>,
    ) -> io::Result<()> {
        let Some(mut connection) = self.here.take_connection() else {
            return sheet.refuse(rt, "begin");
        };
        run_transaction(rt, sheet, &self.office, &mut connection, lines)?;
        self.here.put_connection(connection);
        Ok(())
    }
}

/// Does the lines of a case, over the first of two databases.
pub fn run_case<S: Alter + Drop>(
    rt: &HostRuntime,
    sheet: &mut Sheet,
    office: &Office,
    databases: (Connection<S>, Connection<S>),
    text: &str,
) -> io::Result<()> {
    let Ok(sender) = sender() else {
        return Err(ErrorKind::InvalidInput.into());
    };
    let (here, beside) = databases;
    let mut offices = Offices {
        office: *office,
        sender,
        here: Database::over(here),
        beside: Database::over(beside),
    };
    let mut lines = text.lines();
    for _ in 0..u64::MAX {
        let Some(line) = lines.next() else {
            break;
        };
        if line == "begin" {
            offices.run_inside(rt, sheet, &mut lines)?;
        } else {
            let told = offices.tell(rt, asked(line));
            compare(rt, sheet, line, told)?;
        }
    }
    Ok(())
}
