//! Why the program does not do what it was asked to: each has a line on standard error.
ghost use Rattle.std.specs.Prelude.{◌≡◌, ◌++◌, codes, decimal};
ghost use Rattle.desk_connections.specs.Connections.{Prints};
ghost use Rattle.society_commands.specs.Refusals.{database_fault};
ghost use Rattle.desk_connections.specs.Faults.{fault_text};
ghost use Rattle.society_commands.specs.Troubles.{Tells, TellsOfOthers, trouble_text};

use crate::replaying::BROKEN_OFF;
use desk_connections::{print, print_fault, print_number};
use http_desk::{Counted, DeskFault};
use society_opening::OpenFault;
use std::io::Write;

/// Why the program ends with status 1.
#[derive(Clone, Copy, Debug, PartialEq, Eq)]
pub enum Trouble {
    /// The database is not opened as the office's.
    Database(OpenFault),
    /// Nothing can listen at this port.
    NoListener(u16),
    /// A connection could not be accepted.
    NoConnection,
    /// A stream broke off.
    Stream(DeskFault),
    /// A listing of orders broke off.
    Orders(DeskFault),
}

/// Writes the line of a trouble; what is not taken of it is passed over. Answers the status.
pub fn tell<E: Write>(err: &mut Counted<E>, trouble: Trouble) -> u8
    ensures status { result ≡ 1 }
    ensures told { Tells E.contents err.old err.new trouble }
{
    print(err, b"society: ");
    print_trouble(err, trouble);
    print(err, b"\n");
    BROKEN_OFF
}

/// Writes that others may write the file of a path, where they may; what is not taken of the line is passed over.
pub(crate) fn warn<E: Write>(err: &mut Counted<E>, path: &str, others_write: bool)
    ensures { TellsOfOthers E.contents err.old err.new path.now others_write }
{
    if others_write {
        print(err, b"society: others may write ");
        print(err, path.as_bytes());
        print(err, b"\n");
    }
}

// Writes what a trouble is called.
fn print_trouble<E: Write>(err: &mut Counted<E>, trouble: Trouble)
    ensures { Prints E.contents err.old err.new (trouble_text trouble) }
{
    match trouble {
        Trouble::Database(fault) => print_database(err, fault),
        Trouble::NoListener(port) => print_no_listener(err, port),
        Trouble::NoConnection => print(err, b"cannot accept"),
        Trouble::Stream(fault) => print_stream(err, fault),
        Trouble::Orders(fault) => print_orders(err, fault),
    }
}

// Writes what a fault of a database is called.
fn print_database<E: Write>(err: &mut Counted<E>, fault: OpenFault)
    ensures { Prints E.contents err.old err.new (codes "database " ++ database_fault fault) }
{
    print(err, b"database ");
    print(err, database_fault(fault).as_bytes());
}

// Writes at which port nothing can listen.
fn print_no_listener<E: Write>(err: &mut Counted<E>, port: u16)
    ensures { Prints E.contents err.old err.new (codes "cannot listen at port " ++ decimal port) }
{
    print(err, b"cannot listen at port ");
    print_number(err, u128::from(port));
}

// Writes what the fault of a stream is called, and after how many requests it came.
fn print_stream<E: Write>(err: &mut Counted<E>, fault: DeskFault)
    ensures { Prints E.contents err.old err.new (fault_text fault ++ codes " requests") }
{
    print_fault(err, &fault);
    print(err, b" requests");
}

// Writes what the fault of a listing is called, and after how many orders it came.
fn print_orders<E: Write>(err: &mut Counted<E>, fault: DeskFault)
    ensures { Prints E.contents err.old err.new (fault_text fault ++ codes " orders") }
{
    print_fault(err, &fault);
    print(err, b" orders");
}

// What a fault of a database is called.
fn database_fault(fault: OpenFault) -> &'static str
    ensures { result.now ≡ database_fault fault }
{
    match fault {
        OpenFault::Memory => "memory",
        OpenFault::Store => "store",
        OpenFault::Empty => "empty",
        OpenFault::Schema => "schema",
        OpenFault::OtherOffice => "of another office",
        OpenFault::Damaged => "damaged",
        OpenFault::Log => "log",
    }
}
