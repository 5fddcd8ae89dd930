//! Whether a database holds an office's book, with nothing written to it.
ghost use Rattle.std.specs.Prelude.{◌≡◌, ◌≢◌, IfErr, IfOk, IsTrue, MatchResult, false};
ghost use Rattle.std.specs.Result.{IsErrAnd};
ghost use Rattle.sqlite.specs.Held.{state};
ghost use Rattle.sqlite.specs.State.{Survives};
ghost use Rattle.society_rows.specs.Between.{between};
ghost use Rattle.society_rows.specs.NewBook.{IsBare};
ghost use Rattle.society_opening.specs.Audits.{Audits, TriesOver};
ghost use Rattle.society_opening.specs.Existing.{FailsByStore, FindsSoundly};
ghost use Rattle.society_opening.specs.OpenSteps.{ShowsCommitted, TellsCommitted};
ghost use Rattle.society_opening.specs.declared.open_fault.OpenFault.TheVariants.{Empty};

use crate::OpenFault;
use crate::opening::audit;
use crate::taking_over::take_office;
use share_rules::Office;
use society_rows::{Found, Idle, OlderLayout, layout_found};
use sqlite::{Alter, Connection};
use std::alloc::Global;

// Whether the tables of an older layout can be taken over, tried in a transaction that is rolled back.
fn try_over<S: Alter>(
    alloc: Global,
    conn: &mut Idle<S>,
    office: &Office,
    layout: OlderLayout,
) -> Result<(), OpenFault>
    ensures tries { between S.Store conn.old conn.new (TriesOver office.now layout) result }
    ensures there { IfErr result (λ e. e ≢ Empty) }
{
    conn.see_last_commit();
    let mut tx = conn.connection.transaction();
    let taken = take_office(alloc, &mut tx, office, layout);
    tx.rollback();
    taken
}

// That what a database has is an office's book.
fn audit_found<S: Alter>(
    alloc: Global,
    conn: &mut Idle<S>,
    office: &Office,
) -> Result<(), OpenFault>
    ensures audits { between S.Store conn.old conn.new (Audits office.now) result }
{
    match layout_found(conn) {
        Found::Nothing => Err(OpenFault::Empty),
        Found::Layout => audit(alloc, conn, office),
        Found::Older(layout) => try_over(alloc, conn, office, layout),
        Found::Other => Err(OpenFault::Schema),
    }
}

/// Audits an office's tables in a database as an opening does, and changes nothing: tables of layout 1 or 2 are sound where an opening
/// would take them over. The faults are those of `open_existing`. The connection comes back, in no transaction.
pub fn audit_existing<S: Alter>(
    alloc: Global,
    connection: Connection<S>,
    office: &Office,
) -> Result<Connection<S>, (OpenFault, Connection<S>)>
    requires { connection.in_transaction ≡ false }
    ensures sound { IfOk result (λ c. between S.Store connection c (FindsSoundly office.now)) }
    ensures err { IfErr result (λ e. between S.Store connection e.1 (TellsCommitted office.now e.0)) }
    ensures empty { IsTrue (state S.Store connection).is_open → IsBare (state S.Store connection).committed → IsErrAnd result (λ e. e.0 ≡ Empty) }
    ensures medium { IfErr result (λ e. between S.Store connection e.1 (FailsByStore e.0)) }
    ensures unchanged { IfErr result (λ e. between S.Store connection e.1 ShowsCommitted) }
    ensures idle { MatchResult result (λ c. c.in_transaction ≡ false) (λ e. e.1.in_transaction ≡ false) }
    ensures crash { MatchResult result (λ c. between S.Store connection c Survives (λ _. ⊥)) (λ e. between S.Store connection e.1 Survives (λ _. ⊥)) }
{
    let mut conn = Idle { connection };
    match audit_found(alloc, &mut conn, office) {
        Ok(()) => Ok(conn.into_connection()),
        Err(fault) => Err((fault, conn.into_connection())),
    }
}
