//! The table of pools.
ghost use Rattle.std.specs.Prelude.{◌≡◌, IfOk, IfErr, FitsSigned};
ghost use Rattle.std.specs.Int.{w64};
ghost use Rattle.sqlite.specs.Values.{bound};
ghost use Rattle.society_rows.specs.declared.fault.RowFault.TheVariants.{Damaged};
ghost use Rattle.society_rows.specs.Forms.{IsRead, pool_forms};
ghost use Rattle.society_rows.specs.Rows.{pool_values};

use crate::RowFault;
use crate::reading::{integer, whole};
use crate::shapes::{Rows, TableShape};
use sqlite::Row;
use sqlite::types::ToSql;
use sqlite_schema::schema::Kind::Integer;
use sqlite_value::value::ValueRef;

/// The table, and the statements over all of it.
pub(crate) const POOLS: TableShape<'static> = TableShape {
    name: "pools",
    columns: &[("pool", Integer), ("amount", Integer)],
    rows: Rows::Numbered,
    key: &[0],
    parents: &[],
    create: "CREATE TABLE pools (pool INTEGER NOT NULL PRIMARY KEY, amount INTEGER NOT NULL) STRICT",
    listing: "SELECT pool, amount FROM pools ORDER BY pool",
    rowids: "SELECT rowid FROM pools",
};

/// What adds a row.
pub(crate) const INSERT: &str = "INSERT INTO pools (pool, amount) VALUES (?1, ?2)";

/// The query for a pool by its number.
pub(crate) const OF_NUMBER: &str = "SELECT pool, amount FROM pools WHERE pool = ?1 ORDER BY pool";

/// A pool: its number and its amount in units of money.
#[derive(Clone, Copy, Debug)]
pub struct PoolRow {
    pub pool: u32,
    pub amount: i64,
}

impl PoolRow {
    /// The row that these values are, in the order of the columns; else `Damaged`.
    #[tactic(auto, using(crate::proofs::lemmas::changes::Columns::row_columns))]
    pub fn from_row(row: &Row) -> Result<PoolRow, RowFault>
        ensures value { IfOk result (λ x. pool_values x ≡ row.now) }
        ensures range { IfOk result (λ x. FitsSigned w64 x.amount) }
        ensures read { IsRead pool_forms row.now result }
        ensures err { IfErr result (λ e. e ≡ Damaged) }
    {
        if row.column_count() != 2 {
            return Err(RowFault::Damaged);
        }
        Ok(PoolRow {
            pool: whole(row, 0)?,
            amount: integer(row, 1)?,
        })
    }

    /// The values of its columns.
    pub(crate) fn params(&self) -> [ValueRef<'_>; 2]
        ensures { bound result ≡ pool_values self.now }
    {
        [self.pool.to_sql(), ValueRef::Int(self.amount)]
    }
}
