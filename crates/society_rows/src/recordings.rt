//! The table of recordings of versions.
ghost use Rattle.std.specs.Prelude.{◌≡◌, IfOk, IfErr};
ghost use Rattle.sqlite_value.specs.declared.value.Value.TheVariants.{Text};
ghost use Rattle.sqlite.specs.Values.{bound};
ghost use Rattle.society_rows.specs.declared.fault.RowFault.TheVariants.{Damaged};
ghost use Rattle.society_rows.specs.Forms.{IsRead, recording_forms};
ghost use Rattle.society_rows.specs.Layout.{recordings};
ghost use Rattle.society_rows.specs.Rows.{recording_values};

use crate::RowFault;
use crate::new_rows::NewRows;
use crate::pairing::PairedRow;
use crate::reading::{integer, text};
use crate::shapes::{Rows, TableShape};
use sqlite::Row;
use sqlite_schema::schema::Kind::{Integer, Text};
use sqlite_value::value::ValueRef;

/// The table, and the statements over all of it.
pub(crate) const RECORDINGS: TableShape<'static> = TableShape {
    name: "recordings",
    columns: &[
        ("sender", Text),
        ("work", Text),
        ("revision", Integer),
        ("isrc", Text),
    ],
    rows: Rows::Keyed,
    key: &[1, 2, 3, 4],
    parents: &[],
    create: "CREATE TABLE recordings (sender TEXT NOT NULL, work TEXT NOT NULL, revision INTEGER NOT NULL, isrc TEXT NOT NULL, PRIMARY KEY (sender, work, revision, isrc)) STRICT",
    listing: "SELECT sender, work, revision, isrc FROM recordings ORDER BY sender, work, revision, isrc",
    rowids: "SELECT rowid FROM recordings",
};

/// What adds a row.
pub(crate) const INSERT: &str =
    "INSERT INTO recordings (sender, work, revision, isrc) VALUES (?1, ?2, ?3, ?4)";

/// What adds two rows.
pub(crate) const INSERT_TWO: &str =
    "INSERT INTO recordings (sender, work, revision, isrc) VALUES (?1, ?2, ?3, ?4), (?5, ?6, ?7, ?8)";

/// The query for all recordings of a sender.
pub(crate) const OF_SENDER: &str =
    "SELECT sender, work, revision, isrc FROM recordings WHERE sender = ?1 ORDER BY sender, work, revision, isrc";

/// The query for the first column of every row.
pub(crate) const FIRST_COLUMN: &str = "SELECT sender FROM recordings";

/// A recording of a version of a work: its ISRC.
#[derive(Clone, Copy, Debug)]
pub struct RecordingRow<'a> {
    pub sender: &'a [u8],
    pub work: &'a [u8],
    pub revision: i64,
    pub isrc: &'a [u8],
}

impl<'a> RecordingRow<'a> {
    /// The row that these values are, in the order of the columns; else `Damaged`.
    #[tactic(auto, using(crate::proofs::lemmas::changes::Columns::row_columns))]
    pub fn from_row(row: &'a Row) -> Result<RecordingRow<'a>, RowFault>
        ensures value { IfOk result (λ x. recording_values x ≡ row.now) }
        ensures read { IsRead recording_forms row.now result }
        ensures err { IfErr result (λ e. e ≡ Damaged) }
    {
        if row.column_count() != 4 {
            return Err(RowFault::Damaged);
        }
        Ok(RecordingRow {
            sender: text(row, 0)?,
            work: text(row, 1)?,
            revision: integer(row, 2)?,
            isrc: text(row, 3)?,
        })
    }

    /// The values of its columns.
    pub(crate) fn params(&self) -> [ValueRef<'_>; 4]
        ensures { bound result ≡ recording_values self.now }
    {
        [
            ValueRef::Text(self.sender),
            ValueRef::Text(self.work),
            ValueRef::Int(self.revision),
            ValueRef::Text(self.isrc),
        ]
    }
}

impl<'a> PairedRow for RecordingRow<'a> {
    ghost table = { recordings };

    ghost values = { recording_values };

    fn one<'b>(row: &'b Self) -> NewRows<'b> {
        NewRows::Recording(row)
    }

    fn two<'b>(one: &'b Self, two: &'b Self) -> NewRows<'b> {
        NewRows::Recordings(one, two)
    }
}
