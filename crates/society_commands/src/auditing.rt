//! Whether a database holds an office's book: told without a word to it.
ghost use Rattle.std.specs.Prelude.{◌≡◌, ◌⊎◌, codes, false, true};
ghost use Rattle.sqlite.specs.Held.{state};
ghost use Rattle.society_commands.specs.Connections.{FindsSound, FindsUnsound, IsSoundDatabase, TellsUnsound};
ghost use Rattle.desk_connections.specs.Connections.{Prints};
ghost use Rattle.society_commands.specs.Troubles.{Tells, TellsDone};

use crate::left::Left;
use crate::machine::OpenDatabase;
use crate::opening::open_there;
use crate::replaying::SERVED;
use crate::trouble::{Trouble, tell};
use desk_connections::print;
use http_desk::Counted;
use share_rules::Office;
use society_arguments::Database;
use society_opening::audit_existing;
use sqlite::{Alter, Connection};
use std::alloc::Global;
use std::io::Write;

/// Audits the database at a path, which has to be there, as the office's, and writes nothing to it. Prints `sound` and answers
/// 0 where it holds the office's book; else writes one line on `err`, prints nothing, and answers 1. Before that one line where others may
/// write the file. What is left of it comes back, or the opener where it opened nothing.
pub fn audit_file<O: OpenDatabase, W: Write, E: Write>(
    opener: O,
    alloc: Global,
    path: &str,
    office: &Office,
    out: &mut Counted<W>,
    err: &mut Counted<E>,
) -> (u8, Left<O::File, O>)
    ensures status { (result.0 ≡ 0) ⊎ (result.0 ≡ 1) }
    ensures sound { result.0 ≡ 0 → FindsSound O.OpenDatabase path.now office.now W.contents out.old out.new result.1 }
    ensures quiet { result.0 ≡ 0 → TellsDone O.OpenDatabase E.contents err.old err.new path.now result.1 }
    ensures err { result.0 ≡ 1 → FindsUnsound O.OpenDatabase opener path.now office.now out.old out.new E.contents err.old err.new result.1 }
{
    let database = Database {
        path,
        existing: true,
    };
    match open_there(opener, database, err) {
        Ok(connection) => {
            let (status, connection) = audit_database(alloc, connection, office, out, err);
            (status, Left::Connection(connection))
        }
        Err((fault, left)) => (tell(err, Trouble::Database(fault)), left),
    }
}

/// Audits a database as the office's, and writes nothing to it. Prints `sound` and answers 0 where it holds the office's book, or is of
/// an older layout and could be taken over; else
/// writes one line on `err`, prints nothing, and answers 1. The connection comes back.
pub fn audit_database<M: Alter, W: Write, E: Write>(
    alloc: Global,
    connection: Connection<M>,
    office: &Office,
    out: &mut Counted<W>,
    err: &mut Counted<E>,
) -> (u8, Connection<M>)
    requires { connection.in_transaction ≡ false }
    ensures status { (result.0 ≡ 0) ⊎ (result.0 ≡ 1) }
    ensures sound { result.0 ≡ 0 → IsSoundDatabase office.now (state M.Store connection) (state M.Store result.1)
        × Prints W.contents out.old out.new (codes "sound\n") }
    ensures quiet { result.0 ≡ 0 → err.new ≡ err.old }
    ensures err { result.0 ≡ 1 → TellsUnsound office.now (state M.Store connection) (state M.Store result.1) (Tells E.contents err.old err.new)
        × (out.new ≡ out.old) }
{
    match audit_existing(alloc, connection, office) {
        Ok(connection) => {
            print(out, b"sound\n");
            (SERVED, connection)
        }
        Err((fault, connection)) => (tell(err, Trouble::Database(fault)), connection),
    }
}
