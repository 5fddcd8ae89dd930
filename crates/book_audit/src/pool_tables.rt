//! The rows of pools, and of what their orders say.
ghost use Rattle.std.specs.Prelude.{◌≡◌};
ghost use Rattle.society_book.specs.Steps.{Examines, Never};
ghost use Rattle.book_audit.specs.Pools.{ListPools};
ghost use Rattle.society_rows.specs.Between.{Within};

use crate::reading::list_of;
use society_rows::{RowFault, TableName};
use sqlite::{Alter, Row, Transaction};

/// The rows of pools, of their cuts, of the returns that they pay, and of their marks.
#[derive(Drop)]
pub(crate) struct PoolRows {
    pub pools: Vec<Row>,
    pub cuts: Vec<Row>,
    pub paid: Vec<Row>,
    pub marks: Vec<Row>,
}

/// The rows of pools, and of what their orders say; `Memory` or `Refused` where memory or the database failed.
pub(crate) fn pool_rows<S: Alter>(tx: &mut Transaction<'_, S>) -> Result<PoolRows, RowFault>
    ensures examined { Within S.Store tx.old tx.new (Examines Never) result ListPools }
{
    let pools = list_of(tx, TableName::Pools)?;
    let cuts = list_of(tx, TableName::PoolCuts)?;
    let paid = list_of(tx, TableName::PoolReturns)?;
    let marks = list_of(tx, TableName::MechanicalPools)?;
    Ok(PoolRows {
        pools,
        cuts,
        paid,
        marks,
    })
}
