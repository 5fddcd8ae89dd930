//! The table of credits.
ghost use Rattle.std.specs.Prelude.{◌≡◌, IfOk, IfErr};
ghost use Rattle.sqlite.specs.Values.{bound};
ghost use Rattle.society_rows.specs.declared.fault.RowFault.TheVariants.{Damaged};
ghost use Rattle.society_rows.specs.Forms.{IsRead, credit_forms};
ghost use Rattle.society_rows.specs.Layout.{credits_table};
ghost use Rattle.society_rows.specs.Rows.{credit_values};

use crate::RowFault;
use crate::new_rows::NewRows;
use crate::pairing::PairedRow;
use crate::reading::{integer, text, whole};
use crate::shapes::{Rows, TableShape};
use sqlite::Row;
use sqlite::types::ToSql;
use sqlite_schema::schema::Kind::{Integer, Text};
use sqlite_value::value::ValueRef;

/// The table, and the statements over all of it.
pub(crate) const CREDITS: TableShape<'static> = TableShape {
    name: "credits",
    columns: &[
        ("pool", Integer),
        ("line", Integer),
        ("isrc", Text),
        ("account", Text),
        ("units", Integer),
    ],
    rows: Rows::Keyed,
    key: &[1, 2],
    parents: &[],
    create: "CREATE TABLE credits (pool INTEGER NOT NULL, line INTEGER NOT NULL, isrc TEXT NOT NULL, account TEXT NOT NULL, units INTEGER NOT NULL, PRIMARY KEY (pool, line)) STRICT",
    listing: "SELECT pool, line, isrc, account, units FROM credits ORDER BY pool, line",
    rowids: "SELECT rowid FROM credits",
};

/// What adds a row.
pub(crate) const INSERT: &str =
    "INSERT INTO credits (pool, line, isrc, account, units) VALUES (?1, ?2, ?3, ?4, ?5)";

/// What adds two rows.
pub(crate) const INSERT_TWO: &str =
    "INSERT INTO credits (pool, line, isrc, account, units) VALUES (?1, ?2, ?3, ?4, ?5), (?6, ?7, ?8, ?9, ?10)";

/// The query for the credits of a pool.
pub(crate) const OF_POOL: &str =
    "SELECT pool, line, isrc, account, units FROM credits WHERE pool = ?1 ORDER BY pool, line";

/// The query for the first column of every row.
pub(crate) const FIRST_COLUMN: &str = "SELECT pool FROM credits";

/// A credit of a pool: its line from 0, its ISRC or `-`, its account, and its units of money.
#[derive(Clone, Copy, Debug)]
pub struct CreditRow<'a> {
    pub pool: u32,
    pub line: u32,
    pub isrc: &'a [u8],
    pub account: &'a [u8],
    pub units: i64,
}

impl<'a> CreditRow<'a> {
    /// The row that these values are, in the order of the columns; else `Damaged`.
    #[tactic(auto, using(crate::proofs::lemmas::changes::Columns::row_columns))]
    pub fn from_row(row: &'a Row) -> Result<CreditRow<'a>, RowFault>
        ensures value { IfOk result (λ x. credit_values x ≡ row.now) }
        ensures read { IsRead credit_forms row.now result }
        ensures err { IfErr result (λ e. e ≡ Damaged) }
    {
        if row.column_count() != 5 {
            return Err(RowFault::Damaged);
        }
        Ok(CreditRow {
            pool: whole(row, 0)?,
            line: whole(row, 1)?,
            isrc: text(row, 2)?,
            account: text(row, 3)?,
            units: integer(row, 4)?,
        })
    }

    /// The values of its columns.
    pub(crate) fn params(&self) -> [ValueRef<'_>; 5]
        ensures { bound result ≡ credit_values self.now }
    {
        [
            self.pool.to_sql(),
            self.line.to_sql(),
            ValueRef::Text(self.isrc),
            ValueRef::Text(self.account),
            ValueRef::Int(self.units),
        ]
    }
}

impl<'a> PairedRow for CreditRow<'a> {
    ghost table = { credits_table };

    ghost values = { credit_values };

    fn one<'b>(row: &'b Self) -> NewRows<'b> {
        NewRows::Credit(row)
    }

    fn two<'b>(one: &'b Self, two: &'b Self) -> NewRows<'b> {
        NewRows::Credits(one, two)
    }
}
