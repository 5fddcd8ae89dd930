//! The table of performance returns.
ghost use Rattle.std.specs.Prelude.{◌≡◌, IfOk, IfErr};
ghost use Rattle.sqlite.specs.Values.{bound};
ghost use Rattle.society_rows.specs.declared.fault.RowFault.TheVariants.{Damaged};
ghost use Rattle.society_rows.specs.Forms.{IsRead, return_forms};
ghost use Rattle.society_rows.specs.Rows.{return_values};

use crate::RowFault;
use crate::reading::{bytes, text, whole};
use crate::shapes::{Rows, TableShape};
use sqlite::Row;
use sqlite::types::ToSql;
use sqlite_schema::schema::Kind::{Blob, Integer, Text};
use sqlite_value::value::ValueRef;

/// The table, and the statements over all of it.
pub(crate) const RETURNS: TableShape<'static> = TableShape {
    name: "returns",
    columns: &[("reporter", Text), ("number", Integer), ("body", Blob)],
    rows: Rows::Keyed,
    key: &[1, 2],
    parents: &[],
    create: "CREATE TABLE returns (reporter TEXT NOT NULL, number INTEGER NOT NULL, body BLOB NOT NULL, PRIMARY KEY (reporter, number)) STRICT",
    listing: "SELECT reporter, number, body FROM returns ORDER BY reporter, number",
    rowids: "SELECT rowid FROM returns",
};

/// What adds a row.
pub(crate) const INSERT: &str = "INSERT INTO returns (reporter, number, body) VALUES (?1, ?2, ?3)";

/// The query for a return by its key.
pub(crate) const OF_KEY: &str =
    "SELECT reporter, number, body FROM returns WHERE reporter = ?1 AND number = ?2 ORDER BY reporter, number";

/// The query for a key.
pub(crate) const KEY: &str =
    "SELECT reporter, number FROM returns WHERE reporter = ?1 AND number = ?2 ORDER BY reporter, number";

/// The query for all keys.
pub(crate) const KEYS: &str = "SELECT reporter, number FROM returns ORDER BY reporter, number";

/// A performance return: its reporter, its number, and the bytes of its file.
#[derive(Clone, Copy, Debug)]
pub struct ReturnRow<'a> {
    pub reporter: &'a [u8],
    pub number: u32,
    pub body: &'a [u8],
}

impl<'a> ReturnRow<'a> {
    /// The row that these values are, in the order of the columns; else `Damaged`.
    #[tactic(auto, using(crate::proofs::lemmas::changes::Columns::row_columns))]
    pub fn from_row(row: &'a Row) -> Result<ReturnRow<'a>, RowFault>
        ensures value { IfOk result (λ x. return_values x ≡ row.now) }
        ensures read { IsRead return_forms row.now result }
        ensures err { IfErr result (λ e. e ≡ Damaged) }
    {
        if row.column_count() != 3 {
            return Err(RowFault::Damaged);
        }
        Ok(ReturnRow {
            reporter: text(row, 0)?,
            number: whole(row, 1)?,
            body: bytes(row, 2)?,
        })
    }

    /// The values of its columns.
    pub(crate) fn params(&self) -> [ValueRef<'_>; 3]
        ensures { bound result ≡ return_values self.now }
    {
        [
            ValueRef::Text(self.reporter),
            self.number.to_sql(),
            ValueRef::Blob(self.body),
        ]
    }
}
