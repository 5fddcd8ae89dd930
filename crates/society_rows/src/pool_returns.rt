//! The table of the returns that pools pay.
ghost use Rattle.std.specs.Prelude.{◌≡◌, IfOk, IfErr};
ghost use Rattle.sqlite.specs.Values.{bound};
ghost use Rattle.society_rows.specs.declared.fault.RowFault.TheVariants.{Damaged};
ghost use Rattle.society_rows.specs.Forms.{IsRead, pool_return_forms};
ghost use Rattle.society_rows.specs.Layout.{pool_returns};
ghost use Rattle.society_rows.specs.Rows.{pool_return_values};

use crate::RowFault;
use crate::new_rows::NewRows;
use crate::pairing::PairedRow;
use crate::reading::{text, whole};
use crate::shapes::{Parent, Rows, TableShape};
use sqlite::Row;
use sqlite::types::ToSql;
use sqlite_schema::schema::Kind::{Integer, Text};
use sqlite_value::value::ValueRef;

/// The table, and the statements over all of it.
pub(crate) const POOL_RETURNS: TableShape<'static> = TableShape {
    name: "pool_returns",
    columns: &[("reporter", Text), ("number", Integer), ("pool", Integer)],
    rows: Rows::Keyed,
    key: &[1, 2],
    parents: &[
        Parent {
            columns: &[1, 2],
            parent: "returns",
            parent_columns: &["reporter", "number"],
        },
        Parent {
            columns: &[3],
            parent: "pools",
            parent_columns: &["pool"],
        },
    ],
    create: "CREATE TABLE pool_returns (reporter TEXT NOT NULL, number INTEGER NOT NULL, pool INTEGER NOT NULL, PRIMARY KEY (reporter, number), FOREIGN KEY (reporter, number) REFERENCES returns (reporter, number), FOREIGN KEY (pool) REFERENCES pools (pool)) STRICT",
    listing: "SELECT reporter, number, pool FROM pool_returns ORDER BY reporter, number, pool",
    rowids: "SELECT rowid FROM pool_returns",
};

/// What adds a row.
pub(crate) const INSERT: &str =
    "INSERT INTO pool_returns (reporter, number, pool) VALUES (?1, ?2, ?3)";

/// What adds two rows.
pub(crate) const INSERT_TWO: &str =
    "INSERT INTO pool_returns (reporter, number, pool) VALUES (?1, ?2, ?3), (?4, ?5, ?6)";

/// The query for the pool that pays a return.
pub(crate) const OF_KEY: &str =
    "SELECT reporter, number, pool FROM pool_returns WHERE reporter = ?1 AND number = ?2 ORDER BY reporter, number";

/// The query for the returns that a pool pays.
pub(crate) const OF_POOL: &str =
    "SELECT reporter, number, pool FROM pool_returns WHERE pool = ?1 ORDER BY reporter, number";

/// Which pool pays a return.
#[derive(Clone, Copy, Debug)]
pub struct PoolReturnRow<'a> {
    pub reporter: &'a [u8],
    pub number: u32,
    pub pool: u32,
}

impl<'a> PoolReturnRow<'a> {
    /// The row that these values are, in the order of the columns; else `Damaged`.
    #[tactic(auto, using(crate::proofs::lemmas::changes::Columns::row_columns))]
    pub fn from_row(row: &'a Row) -> Result<PoolReturnRow<'a>, RowFault>
        ensures value { IfOk result (λ x. pool_return_values x ≡ row.now) }
        ensures read { IsRead pool_return_forms row.now result }
        ensures err { IfErr result (λ e. e ≡ Damaged) }
    {
        if row.column_count() != 3 {
            return Err(RowFault::Damaged);
        }
        Ok(PoolReturnRow {
            reporter: text(row, 0)?,
            number: whole(row, 1)?,
            pool: whole(row, 2)?,
        })
    }

    /// The values of its columns.
    pub(crate) fn params(&self) -> [ValueRef<'_>; 3]
        ensures { bound result ≡ pool_return_values self.now }
    {
        [
            ValueRef::Text(self.reporter),
            self.number.to_sql(),
            self.pool.to_sql(),
        ]
    }
}

impl<'a> PairedRow for PoolReturnRow<'a> {
    ghost table = { pool_returns };

    ghost values = { pool_return_values };

    fn one<'b>(row: &'b Self) -> NewRows<'b> {
        NewRows::PoolReturn(row)
    }

    fn two<'b>(one: &'b Self, two: &'b Self) -> NewRows<'b> {
        NewRows::PoolReturns(one, two)
    }
}
