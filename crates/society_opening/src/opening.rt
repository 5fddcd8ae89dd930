//! How a database is opened as an office's tables.
ghost use Rattle.std.specs.Prelude.{◌≡◌, ◌≢◌, ◌↔◌, IsTrue, IfErr, IfOk, MatchResult, OnErr, OnOk, false};
ghost use Rattle.std.specs.Result.{IsErrAnd};
ghost use Rattle.sqlite.specs.Held.{state};
ghost use Rattle.sqlite.specs.State.{HasCleanDisk, Survives};
ghost use Rattle.society_core.specs.Book.{empty_book};
ghost use Rattle.society_rows.specs.Effects.{MayFail};
ghost use Rattle.society_rows.specs.NewBook.{Begins, IsBare, IsNewBook};
ghost use Rattle.society_book.specs.Kept.{office_row};
ghost use Rattle.society_opening.specs.Existing.{FailsByStore, FindsOffice, SparesCommitted, SparesOlder, SurvivesTaking, WhenOpen};
ghost use Rattle.society_opening.specs.Audits.{TriesNewest};
ghost use Rattle.society_opening.specs.Opening.{IsOutside, Opens, ShowsAs, SurvivesOpening};
ghost use Rattle.society_opening.specs.declared.open_fault.OpenFault.TheVariants as fault;
ghost use Rattle.society_opening.specs.declared.open_fault.OpenFault.TheVariants.{Empty};
ghost use Rattle.society_rows.specs.Between.{between};
ghost use Rattle.society_opening.specs.OpenSteps.{AuditsOffice, TakesCommitted, WasOpenable, TellsCommitted, ShowsCommitted};

use crate::OpenFault;
use crate::examining::examine_office;
use crate::taking_over::take_over;
use book_derivation::fault_of_writing;
use share_rules::Office;
use society_core::Store;
use society_rows::{Found, Idle, OfficeRow, create, layout_found};
use society_tables::Tables;
use sqlite::{Alter, Connection};
use std::alloc::Global;

/// Whether tables of layout 3 are this office's and hold the book that they stand for, examined in a transaction that is rolled back.
pub(crate) fn audit<S: Alter>(
    alloc: Global,
    conn: &mut Idle<S>,
    office: &Office,
) -> Result<(), OpenFault>
    ensures tries { between S.Store conn.old conn.new (TriesNewest office.now) result }
    ensures there { IfErr result (λ e. e ≢ Empty) }
{
    conn.see_last_commit();
    let mut tx = conn.connection.transaction();
    let found = examine_office(alloc, &mut tx, office);
    tx.rollback();
    found
}

// Makes the tables of an office to which nothing has come.
fn begin<S: Alter>(conn: &mut Idle<S>, office: &Office) -> Result<(), OpenFault>
    requires bare { IsBare (state S.Store conn.old).now }
    ensures created { between S.Store conn.old conn.new (λ old new. HasCleanDisk new → OnOk result (Begins (office_row office.now) new.now × (new.now ≡ new.committed))) }
    ensures neither { between S.Store conn.old conn.new (λ old new. HasCleanDisk new → OnErr result (ShowsAs old.committed new)) }
    ensures err { IfErr result IsOutside }
    ensures medium { between S.Store conn.old conn.new (λ old new. HasCleanDisk new → IfErr result (λ e. e ≡ fault.Store → MayFail old new)) }
    ensures crash { between S.Store conn.old conn.new Survives (IsNewBook (office_row office.now)) }
{
    let row = OfficeRow {
        society: u32::from(office.society),
        territory: u32::from(office.territory),
        name: office.name(),
    };
    match create(conn, &row) {
        Ok(()) => Ok(()),
        Err(fault) => Err(OpenFault::from(fault_of_writing(fault))),
    }
}

// Makes a database an office's tables, or leaves it as it is.
fn prepare<S: Alter>(alloc: Global, conn: &mut Idle<S>, office: &Office) -> Result<(), OpenFault>
    ensures opens { between S.Store conn.old conn.new (Opens office.now) result }
    ensures begins { IfErr result (λ e. e ≢ Empty) }
{
    match layout_found(conn) {
        Found::Nothing => begin(conn, office),
        Found::Layout => audit(alloc, conn, office),
        Found::Older(layout) => take_over(alloc, conn, office, layout),
        Found::Other => Err(OpenFault::Schema),
    }
}

// Whether a database has no table, index or view; no row is read.
fn is_bare<S: Alter>(conn: &Idle<S>) -> bool
    ensures { IsTrue result ↔ IsBare (state S.Store conn.now).now }
{
    matches!(layout_found(conn), Found::Nothing)
}

/// The tables of an office in a database, which gets them where it has no table, index or view.
///
/// Where it has those of layout 3 they are audited: they have to be this office's, and exactly what the requests that
/// they keep make of an empty book. The audit changes no row. Those of layout 1 or 2 are taken over: audited in the same way, of
/// layout 1 what there is, and made tables of layout 3 in one transaction, so that a stop leaves one or the other, whole; all
/// their pools are of the performing right. `Schema` where there is something else, or no office that can
/// be read; `OtherOffice` where the tables are another office's; `Damaged` where they are not what they should be; `Memory`
/// and `Store` where memory or the database failed, so tables that hold a sound book of the office are opened else. `Store`
/// says that the medium failed in this opening, or the connection was shut or has a limit of steps. After a
/// fault the connection comes back, in no transaction, and the database is as it was committed.
pub fn open<S: Alter>(
    alloc: Global,
    connection: Connection<S>,
    office: &Office,
) -> Result<Tables<S>, (OpenFault, Connection<S>)>
    requires { connection.in_transaction ≡ false }
    ensures office { IfOk result (λ t. (⟦<Tables<S> as Store>⟧.state t).office ≡ office.now) }
    // A store that has counted all failures refuses every call.
    ensures uncounted { IfOk result (λ t. (⟦<Tables<S> as Store>⟧.state t).failures ≡ 0) }
    ensures begun { IfOk result (λ t. WhenOpen (state S.Store connection) (state S.Store t.conn) (IsBare (state S.Store connection).committed → (⟦<Tables<S> as Store>⟧.state t).book ≡ empty_book)) }
    ensures audited { IfOk result (λ t. between S.Store connection t.conn (AuditsOffice office.now)) }
    ensures taken { IfOk result (λ t. between S.Store connection t.conn (TakesCommitted office.now)) }
    ensures known { IfOk result (λ t. between S.Store connection t.conn WasOpenable) }
    ensures err { IfErr result (λ e. between S.Store connection e.1 (TellsCommitted office.now e.0)) }
    ensures begins { IfErr result (λ e. e.0 ≢ Empty) }
    ensures opens { IfErr result (λ e. SparesCommitted office.now (state S.Store connection) (state S.Store e.1) e.0) }
    ensures takes { IfErr result (λ e. SparesOlder office.now (state S.Store connection) (state S.Store e.1) e.0) }
    ensures medium { IfErr result (λ e. between S.Store connection e.1 (FailsByStore e.0)) }
    ensures unchanged { IfErr result (λ e. between S.Store connection e.1 ShowsCommitted) }
    ensures idle { IfErr result (λ e. e.1.in_transaction ≡ false) }
    ensures crash { MatchResult result (λ t. between S.Store connection t.conn (SurvivesOpening office.now)) (λ e. between S.Store connection e.1 (SurvivesOpening office.now)) }
{
    let mut conn = Idle { connection };
    match prepare(alloc, &mut conn, office) {
        Ok(()) => Ok(Tables::over(conn, office)),
        Err(fault) => Err((fault, conn.into_connection())),
    }
}

/// The tables of an office in a database that has tables already; nothing is made.
///
/// `Empty` where the database has no table, index or view, so where `open` would begin a book: then the connection comes back
/// as it was. Otherwise the outcome is that of `open`. After any fault the database is as it was committed, and a crash leaves
/// what it left before, or, where the tables are of layout 1 or 2, the whole of those of layout 3.
pub fn open_existing<S: Alter>(
    alloc: Global,
    connection: Connection<S>,
    office: &Office,
) -> Result<Tables<S>, (OpenFault, Connection<S>)>
    requires { connection.in_transaction ≡ false }
    ensures office { IfOk result (λ t. (⟦<Tables<S> as Store>⟧.state t).office ≡ office.now) }
    // A store that has counted all failures refuses every call.
    ensures uncounted { IfOk result (λ t. (⟦<Tables<S> as Store>⟧.state t).failures ≡ 0) }
    ensures empty { IsTrue (state S.Store connection).is_open → IsBare (state S.Store connection).committed → IsErrAnd result (λ e. (e.0 ≡ Empty) × (e.1 ≡ connection)) }
    ensures audited { IfOk result (λ t. FindsOffice office.now (state S.Store connection) (state S.Store t.conn)) }
    ensures err { IfErr result (λ e. between S.Store connection e.1 (TellsCommitted office.now e.0)) }
    ensures opens { IfErr result (λ e. SparesCommitted office.now (state S.Store connection) (state S.Store e.1) e.0) }
    ensures takes { IfErr result (λ e. SparesOlder office.now (state S.Store connection) (state S.Store e.1) e.0) }
    ensures untouched { IfErr result (λ e. e.0 ≡ Empty → e.1 ≡ connection) }
    ensures medium { IfErr result (λ e. between S.Store connection e.1 (FailsByStore e.0)) }
    ensures unchanged { IfErr result (λ e. between S.Store connection e.1 ShowsCommitted) }
    ensures idle { IfErr result (λ e. e.1.in_transaction ≡ false) }
    ensures crash { MatchResult result (λ t. between S.Store connection t.conn (SurvivesTaking office.now)) (λ e. between S.Store connection e.1 (SurvivesTaking office.now)) }
{
    let conn = Idle { connection };
    conn.see_last_commit();
    if is_bare(&conn) {
        return Err((OpenFault::Empty, conn.into_connection()));
    }
    open(alloc, conn.into_connection(), office)
}
