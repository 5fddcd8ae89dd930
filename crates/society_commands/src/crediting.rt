//! What orders would credit over a database, told without a word to it.
ghost use Rattle.std.specs.Prelude.{◌≡◌, ◌⊎◌, IfOk, Ok, false, true};
ghost use Rattle.sqlite.specs.Held.{state};
ghost use Rattle.sqlite.specs.State.{HasCleanDisk};
ghost use Rattle.society_rows.specs.Between.{between};
ghost use Rattle.society_commands.specs.Connections.{CreditsOpened, CreditsOver, EndsOver, ShowsStill, ListsEach, StopsCrediting, StopsListing, StopsOver, WhereClean};
ghost use Rattle.society_commands.specs.Troubles.{TellsDone};

use crate::left::Left;
use crate::machine::OpenDatabase;
use crate::opening::open_there;
use crate::replaying::{BROKEN_OFF, SERVED};
use crate::trouble::{Trouble, tell};
use credit_listing::list_credits;
use http_desk::{Counted, DeskFault};
use share_rules::Office;
use society_arguments::Database;
use society_opening::{OpenFault, audit_existing};
use society_rows::{Found, Idle, RowFault, layout_found};
use sqlite::{Alter, Connection};
use std::alloc::Global;
use std::io::{Read, Write};

/// Tells what the orders that a reader gives would credit over the database at a path, which has to be there and hold the office's book in
/// the newest layout; writes nothing to it. Answers 0 where each order was answered by rows on `out`; else 1, with a line on `err` for each
/// that was refused, or why no more were answered. What is left of the database comes back, or the opener where it opened nothing.
pub fn credit_file<O: OpenDatabase, R: Read, W: Write, E: Write>(
    opener: O,
    alloc: Global,
    path: &str,
    office: &Office,
    reader: &mut Counted<R>,
    out: &mut Counted<W>,
    err: &mut Counted<E>,
) -> (u8, Left<O::File, O>)
    ensures status { (result.0 ≡ 0) ⊎ (result.0 ≡ 1) }
    ensures quiet { result.0 ≡ 0 → TellsDone O.OpenDatabase E.contents err.old err.new path.now result.1 }
    ensures credited { result.0 ≡ 0 → CreditsOpened O.OpenDatabase path.now office.now 0
        (ListsEach _ E.contents office.now R.remaining W.contents reader.old reader.new out.old out.new) result.1 }
    ensures stopped { result.0 ≡ 1 → StopsCrediting O.OpenDatabase opener path.now office.now R.remaining W.contents E.contents
        reader.old reader.new out.old out.new err.old err.new result.1 }
{
    let database = Database {
        path,
        existing: true,
    };
    match open_there(opener, database, err) {
        Ok(connection) => {
            let (status, connection) = credit_database(alloc, connection, office, reader, out, err);
            (status, Left::Connection(connection))
        }
        Err((fault, left)) => (tell(err, Trouble::Database(fault)), left),
    }
}

// Audits a database as the office's, and then tells what orders would credit over it.
fn credit_database<M: Alter, R: Read, W: Write, E: Write>(
    alloc: Global,
    connection: Connection<M>,
    office: &Office,
    reader: &mut Counted<R>,
    out: &mut Counted<W>,
    err: &mut Counted<E>,
) -> (u8, Connection<M>)
    requires { connection.in_transaction ≡ false }
    ensures status { (result.0 ≡ 0) ⊎ (result.0 ≡ 1) }
    ensures quiet { result.0 ≡ 0 → err.new ≡ err.old }
    ensures credits { CreditsOver office.now (state M.Store connection) (state M.Store result.1) result.0
        (ListsEach _ E.contents office.now R.remaining W.contents reader.old reader.new out.old out.new) }
    ensures stopped { result.0 ≡ 1 → StopsOver office.now (state M.Store connection) (state M.Store result.1) R.remaining W.contents E.contents
        reader.old reader.new out.old out.new err.old err.new }
{
    match audit_existing(alloc, connection, office) {
        Ok(connection) => {
            let mut conn = Idle { connection };
            let status = credit_tables(alloc, &mut conn, office, reader, out, err);
            (status, conn.into_connection())
        }
        Err((fault, connection)) => (tell(err, Trouble::Database(fault)), connection),
    }
}

// Tells what orders would credit over tables of the newest layout.
fn credit_tables<M: Alter, R: Read, W: Write, E: Write>(
    alloc: Global,
    conn: &mut Idle<M>,
    office: &Office,
    reader: &mut Counted<R>,
    out: &mut Counted<W>,
    err: &mut Counted<E>,
) -> u8
    ensures status { (result ≡ 0) ⊎ (result ≡ 1) }
    ensures quiet { result ≡ 0 → err.new ≡ err.old }
    ensures listed { result ≡ 0 → HasCleanDisk (state M.Store conn.new)
        → ListsEach _ E.contents office.now R.remaining W.contents reader.old reader.new out.old out.new (state M.Store conn.old).now.trees }
    ensures stopped { result ≡ 1 → StopsListing (WhereClean (state M.Store conn.old) (state M.Store conn.new)) office.now
        R.remaining W.contents E.contents reader.old reader.new out.old out.new err.old err.new }
    ensures kept { between M.Store conn.old conn.new ShowsStill }
{
    let Found::Layout = layout_found(conn) else {
        conn.see_last_commit();
        return tell(err, Trouble::Database(OpenFault::Schema));
    };
    match credits_listed(alloc, conn, office, reader, out, err) {
        Ok(Ok(all)) => status_of(all),
        Ok(Err(fault)) => tell(err, Trouble::Orders(fault)),
        Err(fault) => tell(err, Trouble::Database(OpenFault::from(fault))),
    }
}

// The status by whether each order was answered by rows.
fn status_of(all: bool) -> u8
    ensures status { (result ≡ 0) ⊎ (result ≡ 1) }
    ensures all { result ≡ 0 → all ≡ true }
    ensures some { result ≡ 1 → all ≡ false }
{
    if all { SERVED } else { BROKEN_OFF }
}

// Lists what orders would credit in a transaction that is rolled back.
fn credits_listed<M: Alter, R: Read, W: Write, E: Write>(
    alloc: Global,
    conn: &mut Idle<M>,
    office: &Office,
    reader: &mut Counted<R>,
    out: &mut Counted<W>,
    err: &mut Counted<E>,
) -> Result<Result<bool, DeskFault>, RowFault>
    ensures quiet { IfOk result (λ listed. listed ≡ Ok true → err.new ≡ err.old) }
    ensures listed { EndsOver (state M.Store conn.old) (state M.Store conn.new) office.now
        R.remaining W.contents E.contents reader.old reader.new out.old out.new err.old err.new result }
    ensures kept { between M.Store conn.old conn.new ShowsStill }
{
    let mut tx = conn.connection.transaction();
    let listed = list_credits(alloc, &mut tx, office, reader, out, err);
    tx.rollback();
    listed
}
