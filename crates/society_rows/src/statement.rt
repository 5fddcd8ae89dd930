//! One statement in a transaction.
ghost use Rattle.std.specs.Prelude.{◌≡◌, false, IsTrue, IfErr, OnOk};
ghost use Rattle.sqlite.specs.Held.{state};
ghost use Rattle.sqlite.specs.State.{HasCleanDisk, Survives};
ghost use Rattle.sqlite.specs.Values.{bound};
ghost use Rattle.society_rows.specs.Effects.{RanAs};
ghost use Rattle.society_rows.specs.Faults.{IsFailure};
ghost use Rattle.society_rows.specs.Reads.{Selected};
ghost use Rattle.society_rows.specs.Between.{within};

use crate::RowFault;
use sqlite::{Alter, Row, Transaction};
use sqlite_value::value::ValueRef;

/// Runs a statement that shows no rows.
pub(crate) fn run<S: Alter>(
    tx: &mut Transaction<'_, S>,
    sql: &str,
    params: &[ValueRef<'_>],
) -> Result<(), RowFault>
    ensures same_reference { tx.new.conn.ghost_name ≡ tx.old.conn.ghost_name }
    ensures ran { within S.Store tx.old tx.new (λ old new. HasCleanDisk new → IsTrue old.in_transaction → RanAs sql.now (bound params.now) old new result) }
    ensures survives { within S.Store tx.old tx.new Survives (λ _. ⊥) }
    ensures ended { (state S.Store tx.old.conn.now).in_transaction ≡ false → IfErr result IsFailure }
    ensures within { OnOk result (IsTrue (state S.Store tx.old.conn.now).in_transaction) }
{
    tx.execute(sql, params)?;
    Ok(())
}

/// Runs a query and gives all its rows.
pub(crate) fn select<S: Alter>(
    tx: &mut Transaction<'_, S>,
    sql: &str,
    params: &[ValueRef<'_>],
) -> Result<Vec<Row>, RowFault>
    ensures same_reference { tx.new.conn.ghost_name ≡ tx.old.conn.ghost_name }
    ensures selected { within S.Store tx.old tx.new (λ old new. HasCleanDisk new → Selected sql.now (bound params.now) old new result) }
    ensures survives { within S.Store tx.old tx.new Survives (λ _. ⊥) }
{
    Ok(tx.query_all(sql, params)?)
}
