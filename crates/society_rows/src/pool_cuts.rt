//! The table of the cuts of pools.
ghost use Rattle.std.specs.Prelude.{◌≡◌, IfOk, IfErr};
ghost use Rattle.sqlite.specs.Values.{bound};
ghost use Rattle.society_rows.specs.declared.fault.RowFault.TheVariants.{Damaged};
ghost use Rattle.society_rows.specs.Forms.{IsRead, pool_cut_forms};
ghost use Rattle.society_rows.specs.Layout.{pool_cuts};
ghost use Rattle.society_rows.specs.Rows.{pool_cut_values};

use crate::RowFault;
use crate::new_rows::NewRows;
use crate::pairing::PairedRow;
use crate::reading::{text, whole};
use crate::shapes::{Parent, Rows, TableShape};
use sqlite::Row;
use sqlite::types::ToSql;
use sqlite_schema::schema::Kind::{Integer, Text};
use sqlite_value::value::ValueRef;

/// The table, and the statements over all of it.
pub(crate) const POOL_CUTS: TableShape<'static> = TableShape {
    name: "pool_cuts",
    columns: &[("pool", Integer), ("sender", Text), ("number", Integer)],
    rows: Rows::Keyed,
    key: &[1, 2],
    parents: &[
        Parent {
            columns: &[1],
            parent: "pools",
            parent_columns: &["pool"],
        },
        Parent {
            columns: &[2, 3],
            parent: "transmissions",
            parent_columns: &["sender", "number"],
        },
    ],
    create: "CREATE TABLE pool_cuts (pool INTEGER NOT NULL, sender TEXT NOT NULL, number INTEGER NOT NULL, PRIMARY KEY (pool, sender), FOREIGN KEY (pool) REFERENCES pools (pool), FOREIGN KEY (sender, number) REFERENCES transmissions (sender, number)) STRICT",
    listing: "SELECT pool, sender, number FROM pool_cuts ORDER BY pool, sender, number",
    rowids: "SELECT rowid FROM pool_cuts",
};

/// What adds a row.
pub(crate) const INSERT: &str = "INSERT INTO pool_cuts (pool, sender, number) VALUES (?1, ?2, ?3)";

/// What adds two rows.
pub(crate) const INSERT_TWO: &str =
    "INSERT INTO pool_cuts (pool, sender, number) VALUES (?1, ?2, ?3), (?4, ?5, ?6)";

/// The query for the cut of a pool.
pub(crate) const OF_POOL: &str =
    "SELECT pool, sender, number FROM pool_cuts WHERE pool = ?1 ORDER BY pool, sender";

/// How far a pool goes for a sender: the number of the last transmission that counts.
#[derive(Clone, Copy, Debug)]
pub struct PoolCutRow<'a> {
    pub pool: u32,
    pub sender: &'a [u8],
    pub number: u32,
}

impl<'a> PoolCutRow<'a> {
    /// The row that these values are, in the order of the columns; else `Damaged`.
    #[tactic(auto, using(crate::proofs::lemmas::changes::Columns::row_columns))]
    pub fn from_row(row: &'a Row) -> Result<PoolCutRow<'a>, RowFault>
        ensures value { IfOk result (λ x. pool_cut_values x ≡ row.now) }
        ensures read { IsRead pool_cut_forms row.now result }
        ensures err { IfErr result (λ e. e ≡ Damaged) }
    {
        if row.column_count() != 3 {
            return Err(RowFault::Damaged);
        }
        Ok(PoolCutRow {
            pool: whole(row, 0)?,
            sender: text(row, 1)?,
            number: whole(row, 2)?,
        })
    }

    /// The values of its columns.
    pub(crate) fn params(&self) -> [ValueRef<'_>; 3]
        ensures { bound result ≡ pool_cut_values self.now }
    {
        [
            self.pool.to_sql(),
            ValueRef::Text(self.sender),
            self.number.to_sql(),
        ]
    }
}

impl<'a> PairedRow for PoolCutRow<'a> {
    ghost table = { pool_cuts };

    ghost values = { pool_cut_values };

    fn one<'b>(row: &'b Self) -> NewRows<'b> {
        NewRows::PoolCut(row)
    }

    fn two<'b>(one: &'b Self, two: &'b Self) -> NewRows<'b> {
        NewRows::PoolCuts(one, two)
    }
}
