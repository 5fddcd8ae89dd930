//! The table of pools of mechanical rights.
ghost use Rattle.std.specs.Prelude.{◌≡◌, IfOk, IfErr};
ghost use Rattle.sqlite.specs.Values.{bound};
ghost use Rattle.society_rows.specs.declared.fault.RowFault.TheVariants.{Damaged};
ghost use Rattle.society_rows.specs.Forms.{IsRead, mechanical_pool_forms};
ghost use Rattle.society_rows.specs.Rows.{mechanical_pool_values};

use crate::RowFault;
use crate::reading::whole;
use crate::shapes::{Parent, Rows, TableShape};
use sqlite::Row;
use sqlite::types::ToSql;
use sqlite_schema::schema::Kind::Integer;
use sqlite_value::value::ValueRef;

/// The table, and the statements over all of it.
pub(crate) const MECHANICAL_POOLS: TableShape<'static> = TableShape {
    name: "mechanical_pools",
    columns: &[("pool", Integer)],
    rows: Rows::Numbered,
    key: &[0],
    parents: &[Parent {
        columns: &[0],
        parent: "pools",
        parent_columns: &["pool"],
    }],
    create: "CREATE TABLE mechanical_pools (pool INTEGER NOT NULL PRIMARY KEY, FOREIGN KEY (pool) REFERENCES pools (pool)) STRICT",
    listing: "SELECT pool FROM mechanical_pools ORDER BY pool",
    rowids: "SELECT rowid FROM mechanical_pools",
};

/// What adds a row.
pub(crate) const INSERT: &str = "INSERT INTO mechanical_pools (pool) VALUES (?1)";

/// The query for a row by the number of its pool.
pub(crate) const OF_NUMBER: &str =
    "SELECT pool FROM mechanical_pools WHERE pool = ?1 ORDER BY pool";

/// A pool of mechanical rights, by its number; any other pool is of performing rights.
#[derive(Clone, Copy, Debug)]
pub struct MechanicalPoolRow {
    pub pool: u32,
}

impl MechanicalPoolRow {
    /// The row that these values are, in the order of the columns; else `Damaged`.
    #[tactic(auto, using(crate::proofs::lemmas::changes::Columns::row_columns))]
    pub fn from_row(row: &Row) -> Result<MechanicalPoolRow, RowFault>
        ensures value { IfOk result (λ x. mechanical_pool_values x ≡ row.now) }
        ensures read { IsRead mechanical_pool_forms row.now result }
        ensures err { IfErr result (λ e. e ≡ Damaged) }
    {
        if row.column_count() != 1 {
            return Err(RowFault::Damaged);
        }
        Ok(MechanicalPoolRow {
            pool: whole(row, 0)?,
        })
    }

    /// The values of its columns.
    pub(crate) fn params(&self) -> [ValueRef<'_>; 1]
        ensures { bound result ≡ mechanical_pool_values self.now }
    {
        [self.pool.to_sql()]
    }
}
