//! A database as it comes to hand: behind a connection at rest, or behind the desk of the office whose tables it was opened as.
use share_rules::Office;
use society_core::Desk;
use society_opening::{OpenFault, open, open_after_crash};
use society_tables::Tables;
use sqlite::{Alter, Connection};
use std::alloc::Global;

// What is done over a store is done over any, and with no clause: over a store by its name each call takes a minute to prove.

/// A database, behind the one or the other; behind neither, where it could not be opened.
#[derive(Drop)]
pub struct Database<S: Alter> {
    connection: Option<Connection<S>>,
    desk: Option<Desk<Tables<S>>>,
}

/// A database that is opened as the tables of an office, or why it is not.
pub type Opened<S> = Result<Tables<S>, (OpenFault, Connection<S>)>;

/// Opens a database as the tables of an office.
pub fn opened<S: Alter>(alloc: Global, connection: Connection<S>, office: &Office) -> Opened<S> {
    if !connection.is_autocommit() {
        return Err((OpenFault::Store, connection));
    }
    open(alloc, connection, office)
}

/// Opens a database as what a crash leaves of these tables.
pub fn opened_after<S: Alter>(
    alloc: Global,
    tables: &Tables<S>,
    found: Connection<S>,
) -> Opened<S> {
    if !found.is_autocommit() {
        return Err((OpenFault::Store, found));
    }
    open_after_crash(alloc, tables, found)
}

impl<S: Alter> Database<S> {
    /// The database behind a connection.
    pub fn over(connection: Connection<S>) -> Database<S> {
        Database {
            connection: Some(connection),
            desk: None,
        }
    }

    /// Takes the connection out; the desk is closed.
    pub fn take_connection(&mut self) -> Option<Connection<S>> {
        match self.desk.take() {
            Some(desk) => Some(desk.into_store().into_connection()),
            None => self.connection.take(),
        }
    }
}

impl<S: Alter + Drop> Database<S> {
    /// Puts a connection back.
    pub fn put_connection(&mut self, connection: Connection<S>) {
        self.connection = Some(connection);
    }

    /// Takes the desk out; where there is none yet, the database is opened as this office's.
    pub fn take_desk(&mut self, alloc: Global, office: &Office) -> Option<Desk<Tables<S>>> {
        match self.desk.take() {
            Some(desk) => Some(desk),
            None => Some(Desk::new(opened(alloc, self.connection.take()?, office).ok()?)),
        }
    }

    /// Puts a desk back.
    pub fn put_desk(&mut self, desk: Desk<Tables<S>>) {
        self.desk = Some(desk);
    }

    /// Keeps what an opening came to, and tells it.
    pub fn keep(&mut self, opened: Opened<S>) -> &'static str {
        match opened {
            Ok(tables) => {
                self.put_desk(Desk::new(tables));
                "opened"
            }
            Err((fault, connection)) => {
                self.put_connection(connection);
                words_of(fault)
            }
        }
    }
}

/// Why a database is not opened.
fn words_of(fault: OpenFault) -> &'static str {
    match fault {
        OpenFault::Memory => "out of memory",
        OpenFault::Store => "the store failed",
        OpenFault::Empty => "no table",
        OpenFault::Schema => "other tables",
        OpenFault::OtherOffice => "another office",
        OpenFault::Damaged => "damaged",
        OpenFault::Log => "a damaged log",
    }
}
