//! The table of versions of works.
ghost use Rattle.std.specs.Prelude.{◌≡◌, IfOk, IfErr};
ghost use Rattle.sqlite.specs.Values.{bound};
ghost use Rattle.society_rows.specs.declared.fault.RowFault.TheVariants.{Damaged};
ghost use Rattle.society_rows.specs.Forms.{IsRead, version_forms};
ghost use Rattle.society_rows.specs.Layout.{versions};
ghost use Rattle.society_rows.specs.Rows.{version_values};

use crate::RowFault;
use crate::new_rows::NewRows;
use crate::pairing::PairedRow;
use crate::reading::{integer, text, whole};
use crate::shapes::{Rows, TableShape};
use sqlite::Row;
use sqlite::types::ToSql;
use sqlite_schema::schema::Kind::{Integer, Text};
use sqlite_value::value::ValueRef;

/// The table, and the statements over all of it.
pub(crate) const VERSIONS: TableShape<'static> = TableShape {
    name: "versions",
    columns: &[
        ("sender", Text),
        ("work", Text),
        ("revision", Integer),
        ("number", Integer),
        ("place", Integer),
        ("ordinal", Integer),
    ],
    rows: Rows::Keyed,
    key: &[1, 2, 3],
    parents: &[],
    create: "CREATE TABLE versions (sender TEXT NOT NULL, work TEXT NOT NULL, revision INTEGER NOT NULL, number INTEGER NOT NULL, place INTEGER NOT NULL, ordinal INTEGER NOT NULL, PRIMARY KEY (sender, work, revision)) STRICT",
    listing: "SELECT sender, work, revision, number, place, ordinal FROM versions ORDER BY sender, work, revision, number, place, ordinal",
    rowids: "SELECT rowid FROM versions",
};

/// What adds a row.
pub(crate) const INSERT: &str =
    "INSERT INTO versions (sender, work, revision, number, place, ordinal) VALUES (?1, ?2, ?3, ?4, ?5, ?6)";

/// What adds two rows.
pub(crate) const INSERT_TWO: &str =
    "INSERT INTO versions (sender, work, revision, number, place, ordinal) VALUES (?1, ?2, ?3, ?4, ?5, ?6), (?7, ?8, ?9, ?10, ?11, ?12)";

/// The query for the versions of a work.
pub(crate) const OF_WORK: &str =
    "SELECT sender, work, revision, number, place, ordinal FROM versions WHERE sender = ?1 AND work = ?2 ORDER BY sender, work, revision";

/// The query for the last version of a work.
pub(crate) const LAST_OF_WORK: &str =
    "SELECT sender, work, revision, number, place, ordinal FROM versions WHERE sender = ?1 AND work = ?2 ORDER BY sender DESC, work DESC, revision DESC LIMIT 1";

/// The query for all versions of a sender.
pub(crate) const OF_SENDER: &str =
    "SELECT sender, work, revision, number, place, ordinal FROM versions WHERE sender = ?1 ORDER BY sender, work, revision";

/// The query for the first column of every row.
pub(crate) const FIRST_COLUMN: &str = "SELECT sender FROM versions";

/// A version of a work: where its transaction stands, and its work's ordinal.
#[derive(Clone, Copy, Debug)]
pub struct VersionRow<'a> {
    pub sender: &'a [u8],
    pub work: &'a [u8],
    pub revision: i64,
    pub number: u32,
    pub place: u32,
    pub ordinal: i64,
}

impl<'a> VersionRow<'a> {
    /// The row that these values are, in the order of the columns; else `Damaged`.
    #[tactic(auto, using(crate::proofs::lemmas::changes::Columns::row_columns))]
    pub fn from_row(row: &'a Row) -> Result<VersionRow<'a>, RowFault>
        ensures value { IfOk result (λ x. version_values x ≡ row.now) }
        ensures read { IsRead version_forms row.now result }
        ensures err { IfErr result (λ e. e ≡ Damaged) }
    {
        if row.column_count() != 6 {
            return Err(RowFault::Damaged);
        }
        Ok(VersionRow {
            sender: text(row, 0)?,
            work: text(row, 1)?,
            revision: integer(row, 2)?,
            number: whole(row, 3)?,
            place: whole(row, 4)?,
            ordinal: integer(row, 5)?,
        })
    }

    /// The values of its columns.
    pub(crate) fn params(&self) -> [ValueRef<'_>; 6]
        ensures { bound result ≡ version_values self.now }
    {
        [
            ValueRef::Text(self.sender),
            ValueRef::Text(self.work),
            ValueRef::Int(self.revision),
            self.number.to_sql(),
            self.place.to_sql(),
            ValueRef::Int(self.ordinal),
        ]
    }
}

impl<'a> PairedRow for VersionRow<'a> {
    ghost table = { versions };

    ghost values = { version_values };

    fn one<'b>(row: &'b Self) -> NewRows<'b> {
        NewRows::Version(row)
    }

    fn two<'b>(one: &'b Self, two: &'b Self) -> NewRows<'b> {
        NewRows::Versions(one, two)
    }
}
