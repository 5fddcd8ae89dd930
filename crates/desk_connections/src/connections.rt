//! Connections are served one after another, and a line is printed for each.
ghost use Rattle.std.specs.Prelude.{◌≡◌, true, IfOk, OnOk, OnErr};
ghost use Rattle.desk_connections.specs.Connections.{AdmitsMore, Prints, ServesConnections, ServesNext, StopsEarly, connection_line, outcome_text};
ghost use Rattle.desk_connections.specs.Doors.{ways_by};

use crate::door::{AcceptFault, Door};
use crate::faults::{TURNS, print_fault};
use crate::printing::{print, print_number};
use http_desk::{Counted, DeskFault, Served, serve};
use society_core::{Desk, Store};
use std::alloc::Global;
use std::io::Write;

/// Serves so many connections at the desk, one after another as they come in by a door, and prints for each a line that says how many
/// requests it brought and how it ended. A connection that breaks off does not end it; it ends early at the first that cannot be accepted.
/// The book is then that of a run of all requests that came.
pub fn serve_connections<D: Door, S: Store, W: Write>(
    alloc: Global,
    desk: &mut Desk<S>,
    door: &mut D,
    connections: u32,
    out: &mut Counted<W>,
) -> Result<(), AcceptFault>
    ensures served { OnOk result (ServesConnections (ways_by D.Door D.Sent.Read.remaining D.Given.Write.contents)
        S.state desk.old desk.new W.contents out.old out.new door.old door.new connections) }
    ensures admitted { OnOk result (AdmitsMore (ways_by D.Door D.Sent.Read.remaining D.Given.Write.contents)
        door.old door.new connections (D.Door.has_failed door.old)) }
    ensures err { OnErr result (StopsEarly (ways_by D.Door D.Sent.Read.remaining D.Given.Write.contents)
        S.state desk.old desk.new W.contents out.old out.new door.old door.new connections) }
{
    for number in 0..connections {
        let Ok(outcome) = serve_next(alloc, desk, door) else {
            return Err(AcceptFault);
        };
        print_line(out, number + 1, &outcome);
    }
    Ok(())
}

// Serves the next connection, and lets it go.
fn serve_next<D: Door, S: Store>(
    alloc: Global,
    desk: &mut Desk<S>,
    door: &mut D,
) -> Result<Result<Served, DeskFault>, AcceptFault>
    ensures served { IfOk result (ServesNext (ways_by D.Door D.Sent.Read.remaining D.Given.Write.contents) S.state desk.old desk.new door.old door.new) }
    ensures err { OnErr result ((desk.new ≡ desk.old) × (D.Door.accepted door.new ≡ D.Door.accepted door.old) × (D.Door.has_failed door.new ≡ true)) }
{
    let (sent, given) = door.accept()?;
    let mut reader = Counted::new(sent);
    let mut writer = Counted::new(given);
    let outcome = serve(alloc, desk, &mut reader, &mut writer, TURNS);
    door.part(reader.into_inner(), writer.into_inner());
    Ok(outcome)
}

// Prints how a connection ended.
fn print_outcome<W: Write>(out: &mut Counted<W>, outcome: &Result<Served, DeskFault>)
    ensures { Prints W.contents out.old out.new (outcome_text outcome.now) }
{
    match outcome {
        Ok(served) => print_number(out, served.requests),
        Err(fault) => print_fault(out, fault),
    }
}

// Prints the line of a connection.
fn print_line<W: Write>(out: &mut Counted<W>, number: u32, outcome: &Result<Served, DeskFault>)
    ensures { Prints W.contents out.old out.new (connection_line number outcome.now) }
{
    print(out, b"connection ");
    print_number(out, u128::from(number));
    print(out, b": ");
    print_outcome(out, outcome);
    print(out, b" requests\n");
}
