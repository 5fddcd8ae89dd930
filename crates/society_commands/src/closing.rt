//! The end of an office's database.
ghost use Rattle.std.specs.Prelude.{◌≡◌, ◌≢◌, codes};
ghost use Rattle.desk_connections.specs.Connections.{Prints};
ghost use Rattle.society_commands.specs.Closing.{Closes, HandsBack};
ghost use Rattle.society_commands.specs.Troubles.{TellsOfLog};

use crate::left::Left;
use crate::replaying::SERVED;
use desk_connections::print;
use http_desk::Counted;
use society_core::Store;
use society_tables::Tables;
use sqlite::{Connection, FileStore};
use sqlite_disk::Disk;
use std::io::Write;

/// Closes an office's database: its log is copied into the database file, so that this alone is the book. Where the disk fails or memory is
/// refused for that, both files together hold what was committed, as before, and one line is written on `err`, unless the status says that
/// one was written already.
fn close_tables<D: Disk + Drop, O, E: Write>(
    tables: Tables<FileStore<D>>,
    status: u8,
    err: &mut Counted<E>,
) -> Left<D, O>
    ensures quiet { status ≢ 0 → err.new ≡ err.old }
    ensures told { status ≡ 0 → TellsOfLog E.contents err.old err.new result }
    ensures closed { Closes ⟦<Tables<FileStore<D>> as Store>⟧.state (λ t. t.conn) tables result }
{
    match tables.into_connection().close_files() {
        Ok(files) => Left::Closed(files),
        Err((error, store)) => {
            tell_of_log(status, err);
            Left::Unclosed(error, store)
        }
    }
}

// Writes that the log was not copied, unless the status says that a line was written already.
fn tell_of_log<E: Write>(status: u8, err: &mut Counted<E>)
    ensures quiet { status ≢ 0 → err.new ≡ err.old }
    ensures told { status ≡ 0 → Prints E.contents err.old err.new (codes "society: log not copied\n") }
{
    if status == SERVED {
        print(err, b"society: log not copied\n");
    }
}

/// Closes what is left of a database where it is an office's tables; a connection that was not opened as the office's stays as it is.
pub(crate) fn close_left<D: Disk + Drop, O, E: Write>(
    left: Result<Tables<FileStore<D>>, Connection<FileStore<D>>>,
    status: u8,
    err: &mut Counted<E>,
) -> Left<D, O>
    ensures quiet { status ≢ 0 → err.new ≡ err.old }
    ensures told { status ≡ 0 → TellsOfLog E.contents err.old err.new result }
    ensures handed { HandsBack ⟦<Tables<FileStore<D>> as Store>⟧.state (λ t. t.conn) left result }
{
    match left {
        Ok(tables) => close_tables(tables, status, err),
        Err(connection) => Left::Connection(connection),
    }
}
