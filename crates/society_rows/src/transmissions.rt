//! The table of transmissions.
ghost use Rattle.std.specs.Prelude.{◌≡◌, IfOk, IfErr};
ghost use Rattle.sqlite.specs.Values.{bound};
ghost use Rattle.society_rows.specs.declared.fault.RowFault.TheVariants.{Damaged};
ghost use Rattle.society_rows.specs.Forms.{IsRead, transmission_forms, transmission_key_forms};
ghost use Rattle.society_rows.specs.Rows.{transmission_values, transmission_key_values};

use crate::RowFault;
use crate::reading::{bytes, text, whole};
use crate::shapes::{Rows, TableShape};
use sqlite::Row;
use sqlite::types::ToSql;
use sqlite_schema::schema::Kind::{Blob, Integer, Text};
use sqlite_value::value::ValueRef;

/// The table, and the statements over all of it.
pub(crate) const TRANSMISSIONS: TableShape<'static> = TableShape {
    name: "transmissions",
    columns: &[("sender", Text), ("number", Integer), ("body", Blob)],
    rows: Rows::Keyed,
    key: &[1, 2],
    parents: &[],
    create: "CREATE TABLE transmissions (sender TEXT NOT NULL, number INTEGER NOT NULL, body BLOB NOT NULL, PRIMARY KEY (sender, number)) STRICT",
    listing: "SELECT sender, number, body FROM transmissions ORDER BY sender, number",
    rowids: "SELECT rowid FROM transmissions",
};

/// What adds a row.
pub(crate) const INSERT: &str =
    "INSERT INTO transmissions (sender, number, body) VALUES (?1, ?2, ?3)";

/// The query for a transmission by its key.
pub(crate) const OF_KEY: &str =
    "SELECT sender, number, body FROM transmissions WHERE sender = ?1 AND number = ?2 ORDER BY sender, number";

/// The query for the keys of a sender above a number.
pub(crate) const KEYS_ABOVE: &str =
    "SELECT sender, number FROM transmissions WHERE sender = ?1 AND number > ?2 ORDER BY sender, number";

/// The query for the keys of a sender above one number and below another.
pub(crate) const KEYS_BETWEEN: &str =
    "SELECT sender, number FROM transmissions WHERE sender = ?1 AND number > ?2 AND number < ?3 ORDER BY sender, number";

/// The query for all keys.
pub(crate) const KEYS: &str = "SELECT sender, number FROM transmissions ORDER BY sender, number";

/// A transmission: its sender key, its number, and the bytes of its file.
#[derive(Clone, Copy, Debug)]
pub struct TransmissionRow<'a> {
    pub sender: &'a [u8],
    pub number: u32,
    pub body: &'a [u8],
}

impl<'a> TransmissionRow<'a> {
    /// The row that these values are, in the order of the columns; else `Damaged`.
    #[tactic(auto, using(crate::proofs::lemmas::changes::Columns::row_columns))]
    pub fn from_row(row: &'a Row) -> Result<TransmissionRow<'a>, RowFault>
        ensures value { IfOk result (λ x. transmission_values x ≡ row.now) }
        ensures read { IsRead transmission_forms row.now result }
        ensures err { IfErr result (λ e. e ≡ Damaged) }
    {
        if row.column_count() != 3 {
            return Err(RowFault::Damaged);
        }
        Ok(TransmissionRow {
            sender: text(row, 0)?,
            number: whole(row, 1)?,
            body: bytes(row, 2)?,
        })
    }

    /// The values of its columns.
    pub(crate) fn params(&self) -> [ValueRef<'_>; 3]
        ensures { bound result ≡ transmission_values self.now }
    {
        [
            ValueRef::Text(self.sender),
            self.number.to_sql(),
            ValueRef::Blob(self.body),
        ]
    }
}

/// The key of a transmission: its sender key and its number.
#[derive(Clone, Copy, Debug)]
pub struct TransmissionKeyRow<'a> {
    pub sender: &'a [u8],
    pub number: u32,
}

impl<'a> TransmissionKeyRow<'a> {
    /// The key that these values are, in the order of the columns; else `Damaged`.
    #[tactic(auto, using(crate::proofs::lemmas::changes::Columns::row_columns))]
    pub fn from_row(row: &'a Row) -> Result<TransmissionKeyRow<'a>, RowFault>
        ensures value { IfOk result (λ x. transmission_key_values x ≡ row.now) }
        ensures read { IsRead transmission_key_forms row.now result }
        ensures err { IfErr result (λ e. e ≡ Damaged) }
    {
        if row.column_count() != 2 {
            return Err(RowFault::Damaged);
        }
        Ok(TransmissionKeyRow {
            sender: text(row, 0)?,
            number: whole(row, 1)?,
        })
    }
}
