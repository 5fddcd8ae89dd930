//! What was answered is kept: what an opening finds of a store.
ghost use Rattle.std.specs.Prelude.{◌≡◌, IfErr, IfOk, IsTrue, false};
ghost use Rattle.sqlite.specs.Held.{state};
ghost use Rattle.sqlite.specs.State.{HasCleanDisk};
ghost use Rattle.society_opening.specs.Existing.{AfterCrash, FindsBook, FindsLeft, HoldsOffice, AfterAnyCrash};
ghost use Rattle.society_opening.specs.Opening.{IsOutside};

use crate::OpenFault;
use crate::opening::open;
use society_core::Store;
use society_tables::Tables;
use sqlite::{Alter, Connection};
use std::alloc::Global;

/// Opens the database of a store anew. Of a clean store it finds the store's book, and so all that was answered as accepted; a
/// fault is `Memory` or `Store` then.
pub fn reopen<S: Alter>(
    alloc: Global,
    tables: Tables<S>,
) -> Result<Tables<S>, (OpenFault, Connection<S>)>
    ensures office { IfOk result (λ t. (⟦<Tables<S> as Store>⟧.state t).office ≡ (⟦<Tables<S> as Store>⟧.state tables).office) }
    ensures kept { IsTrue (⟦<Tables<S> as Store>⟧.state tables).is_clean → IfOk result (λ t. FindsBook (⟦<Tables<S> as Store>⟧.state tables) (⟦<Tables<S> as Store>⟧.state t)) }
    ensures err { IsTrue (⟦<Tables<S> as Store>⟧.state tables).is_clean → IfErr result (λ e. HasCleanDisk (state S.Store e.1) → IsOutside e.0) }
{
    let office = *tables.office();
    open(alloc, tables.into_connection(), &office)
}

/// Opens the database that a crash leaves of a store, in a connection of its own. Of a clean store that database has layout 3 and
/// holds a book of the office (`taken`), and the opening finds the store's book, so all that was answered as accepted (`kept`); a
/// fault is `Memory` or `Store` then (`err`). Of any store, where what is left has layout 3, the opening finds a book that a
/// crash may leave (`left`).
pub fn open_after_crash<S: Alter, T: Alter>(
    alloc: Global,
    tables: &Tables<S>,
    found: Connection<T>,
) -> Result<Tables<T>, (OpenFault, Connection<T>)>
    requires { found.in_transaction ≡ false }
    ensures office { IfOk result (λ t. (⟦<Tables<T> as Store>⟧.state t).office ≡ (⟦<Tables<S> as Store>⟧.state tables.now).office) }
    ensures taken { AfterCrash (state S.Store tables.now.conn) (state T.Store found) (HoldsOffice tables.now.office (state T.Store found).committed) }
    ensures kept { AfterCrash (state S.Store tables.now.conn) (state T.Store found) (IfOk result (λ t. FindsBook (⟦<Tables<S> as Store>⟧.state tables.now) (⟦<Tables<T> as Store>⟧.state t))) }
    ensures err { AfterCrash (state S.Store tables.now.conn) (state T.Store found) (IfErr result (λ e. HasCleanDisk (state T.Store e.1) → IsOutside e.0)) }
    ensures left { AfterAnyCrash (state S.Store tables.now.conn) (state T.Store found) (IfOk result (λ t. FindsLeft (⟦<Tables<S> as Store>⟧.state tables.now) (⟦<Tables<T> as Store>⟧.state t))) }
{
    // A list of tables is that of one schema at most, and both connections obey theirs.
    let _kept = tables.schema();
    let _found = found.schema();
    open(alloc, found, tables.office())
}
