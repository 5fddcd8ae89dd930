//! The office over a database: how one is opened, and what is said where it is not.
ghost use Rattle.std.specs.Prelude.{◌≡◌, ◌⊎◌, IfErr, IfOk, OnErr, false};
ghost use Rattle.sqlite.specs.Files.{file_state};
ghost use Rattle.sqlite.specs.Held.{state};
ghost use Rattle.sqlite.specs.Held.{IsNew};
ghost use Rattle.society_commands.specs.Connections.{IsNotOpened, IsOpenedAt, IsOver, LeavesBroken, LeavesRefused, LeavesServed, ServesOpened, StopsServing, serving_as};
ghost use Rattle.society_commands.specs.Troubles.{TellsDone, Warns};

use crate::closing::close_left;
use crate::file_tables::FileTables;
use crate::left::Left;
use crate::listened::Listened;
use crate::machine::OpenDatabase;
use crate::serving::serve_store;
use crate::trouble::{Trouble, tell, warn};
use desk_connections::{Listen, Network};
use http_desk::Counted;
use share_rules::Office;
use society_arguments::{Database, Listening};
use society_core::{Desk, Store};
use society_opening::{OpenFault, open, open_existing};
use society_tables::Tables;
use sqlite::{Alter, Connection, FileStore};
use std::alloc::Global;
use std::io::Write;

/// What a start is to serve: a database, and where connections come in and how many.
#[derive(Clone, Copy)]
pub struct Job<'a> {
    pub database: Database<'a>,
    pub place: Listening,
}

/// Opens the database of a path as the office's, serves so many connections over it, and closes it, so that its file alone is the book. Answers
/// the exit status: 0, or 1 with one line on `err` where the database is not opened, or the port cannot be listened on or a connection
/// not accepted. That it can't be closed changes no status: its file and the log together are the book then, as while it was open. Before that
/// one line where others may write the file. What is left of the database comes back, or the opener where it opened nothing; and what is left
/// of the network.
pub fn serve_file<N: Listen, O: OpenDatabase, W: Write, E: Write>(
    net: N,
    opener: O,
    alloc: Global,
    job: Job<'_>,
    office: &Office,
    out: &mut Counted<W>,
    err: &mut Counted<E>,
) -> (u8, Left<O::File, O>, Listened<N, N::Door>)
    ensures status { (result.0 ≡ 0) ⊎ (result.0 ≡ 1) }
    ensures served { result.0 ≡ 0 → ServesOpened ⟦<N as Network>⟧.network ⟦<O as FileTables>⟧.files (serving_as job.entry office.now)
        W.contents out.old out.new result.1 result.2 }
    ensures quiet { result.0 ≡ 0 → TellsDone O.OpenDatabase E.contents err.old err.new job.entry.database.path.now result.1 }
    // Nothing is printed where the database is not opened, or nothing can be listened on; else fewer connections came. In each case
    // the clause names what is left of the database.
    ensures broken_off { result.0 ≡ 1 → StopsServing ⟦<N as Network>⟧.network ⟦<O as FileTables>⟧.files net opener
        (serving_as job.entry office.now) W.contents out.old out.new E.contents err.old err.new result.1 result.2 }
{
    match open_there(opener, job.database, err) {
        Ok(connection) => {
            let (status, left, listened) = serve_database::<N, O, W, E>(
                net, alloc, connection, job, office, out, err,
            );
            (status, close_left(left, status, err), listened)
        }
        Err((fault, left)) => (
            tell(err, Trouble::Database(fault)),
            left,
            Listened::Unused(net),
        ),
    }
}

/// A connection to the database of a path; where others may write its file, one line says so. Where it has to be there and is not, nothing is
/// opened, and this is `Empty`; else the faults are the opener's. What is left comes back: the opener, where it was not used, or what an
/// opening that was refused leaves.
pub(crate) fn open_there<O: OpenDatabase, E: Write>(
    opener: O,
    database: Database<'_>,
    err: &mut Counted<E>,
) -> Result<Connection<FileStore<O::File>>, (OpenFault, Left<O::File, O>)>
    ensures opened { IfOk result (IsOpenedAt O.OpenDatabase database.entry.path.now database.entry.existing) }
    ensures refused { IfErr result (λ e. LeavesRefused O.OpenDatabase opener database.entry.path.now database.entry.existing e.0 e.1) }
    ensures warned { IfOk result (λ _. Warns O.OpenDatabase E.contents err.old err.new database.entry.path.now) }
    ensures unwarned { OnErr result (err.new ≡ err.old) }
{
    if database.existing {
        match opener.has_database(database.path) {
            Ok(true) => {}
            Ok(false) => return Err((OpenFault::Empty, Left::Unused(opener))),
            Err(fault) => return Err((fault, Left::Unused(opener))),
        }
    }
    match opener.open_database(database.path) {
        Ok((connection, others_write)) => {
            warn(err, database.path, others_write);
            Ok(connection)
        }
        Err((fault, left)) => Err((fault, left)),
    }
}

/// Opens a database as the office's, and serves so many connections over it. Answers the exit status as `serve_file`, and hands back
/// the tables, as the last request left them, or the connection where the office was not opened, and what is left of the network.
fn serve_database<N: Listen, O: OpenDatabase, W: Write, E: Write>(
    net: N,
    alloc: Global,
    connection: Connection<FileStore<O::File>>,
    job: Job<'_>,
    office: &Office,
    out: &mut Counted<W>,
    err: &mut Counted<E>,
) -> (
    u8,
    Result<Tables<FileStore<O::File>>, Connection<FileStore<O::File>>>,
    Listened<N, N::Door>,
)
    requires { connection.in_transaction ≡ false }
    ensures status { (result.0 ≡ 0) ⊎ (result.0 ≡ 1) }
    ensures served { result.0 ≡ 0 → LeavesServed ⟦<N as Network>⟧.network ⟦<O as FileTables>⟧.files.state (serving_as job.entry office.now)
        (file_state connection) result.1 W.contents out.old out.new result.2 }
    ensures quiet { result.0 ≡ 0 → err.new ≡ err.old }
    ensures broken_off { result.0 ≡ 1 → LeavesBroken ⟦<N as Network>⟧.network ⟦<O as FileTables>⟧.files net
        (serving_as job.entry office.now) connection result.1 W.contents out.old out.new E.contents err.old err.new result.2 }
{
    match open_tables(alloc, connection, job.database.existing, office) {
        Ok(tables) => {
            let mut desk = Desk::new(tables);
            let (status, listened) = serve_store(net, alloc, &mut desk, job.place, out, err);
            (status, Ok(desk.into_store()), listened)
        }
        Err((fault, connection)) => (
            tell(err, Trouble::Database(fault)),
            Err(connection),
            Listened::Unused(net),
        ),
    }
}

/// The office's tables in a database, which has to hold them already or gets them where it has none.
fn open_tables<M: Alter>(
    alloc: Global,
    connection: Connection<M>,
    existing: bool,
    office: &Office,
) -> Result<Tables<M>, (OpenFault, Connection<M>)>
    requires { connection.in_transaction ≡ false }
    ensures over { IfOk result (λ t. IsOver office.now existing (state M.Store connection) (⟦<Tables<M> as Store>⟧.state t)) }
    ensures err { IfErr result (λ e. IsNotOpened office.now existing e.0 (state M.Store connection) (state M.Store e.1)) }
{
    if existing {
        open_existing(alloc, connection, office)
    } else {
        open(alloc, connection, office)
    }
}
