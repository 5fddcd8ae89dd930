//! The table of verdicts.
ghost use Rattle.std.specs.Prelude.{◌≡◌, IfOk, IfErr};
ghost use Rattle.sqlite.specs.Values.{bound};
ghost use Rattle.society_rows.specs.declared.fault.RowFault.TheVariants.{Damaged};
ghost use Rattle.society_rows.specs.Forms.{IsRead, verdict_forms};
ghost use Rattle.society_rows.specs.Layout.{verdicts};
ghost use Rattle.society_rows.specs.Rows.{verdict_values};

use crate::RowFault;
use crate::new_rows::NewRows;
use crate::pairing::PairedRow;
use crate::reading::{integer, text, whole};
use crate::shapes::{Rows, TableShape};
use sqlite::Row;
use sqlite::types::ToSql;
use sqlite_schema::schema::Kind::{Integer, Text};
use sqlite_value::value::ValueRef;

/// The table, and the statements over all of it.
pub(crate) const VERDICTS: TableShape<'static> = TableShape {
    name: "verdicts",
    columns: &[
        ("sender", Text),
        ("number", Integer),
        ("place", Integer),
        ("fault", Integer),
        ("ordinal", Integer),
        ("revision", Integer),
    ],
    rows: Rows::Keyed,
    key: &[1, 2, 3],
    parents: &[],
    create: "CREATE TABLE verdicts (sender TEXT NOT NULL, number INTEGER NOT NULL, place INTEGER NOT NULL, fault INTEGER NOT NULL, ordinal INTEGER NOT NULL, revision INTEGER NOT NULL, PRIMARY KEY (sender, number, place)) STRICT",
    listing: "SELECT sender, number, place, fault, ordinal, revision FROM verdicts ORDER BY sender, number, place, fault, ordinal, revision",
    rowids: "SELECT rowid FROM verdicts",
};

/// What adds a row.
pub(crate) const INSERT: &str =
    "INSERT INTO verdicts (sender, number, place, fault, ordinal, revision) VALUES (?1, ?2, ?3, ?4, ?5, ?6)";

/// What adds two rows.
pub(crate) const INSERT_TWO: &str =
    "INSERT INTO verdicts (sender, number, place, fault, ordinal, revision) VALUES (?1, ?2, ?3, ?4, ?5, ?6), (?7, ?8, ?9, ?10, ?11, ?12)";

/// The query for the verdicts of a transmission.
pub(crate) const OF_TRANSMISSION: &str =
    "SELECT sender, number, place, fault, ordinal, revision FROM verdicts WHERE sender = ?1 AND number = ?2 ORDER BY sender, number, place";

/// The query for all verdicts of a sender.
pub(crate) const OF_SENDER: &str =
    "SELECT sender, number, place, fault, ordinal, revision FROM verdicts WHERE sender = ?1 ORDER BY sender, number, place";

/// The query for the first column of every row.
pub(crate) const FIRST_COLUMN: &str = "SELECT sender FROM verdicts";

/// What a transaction was answered: fault 0 is accepted; ordinal and revision are 0 where it was rejected.
#[derive(Clone, Copy, Debug)]
pub struct VerdictRow<'a> {
    pub sender: &'a [u8],
    pub number: u32,
    pub place: u32,
    pub fault: u32,
    pub ordinal: i64,
    pub revision: i64,
}

impl<'a> VerdictRow<'a> {
    /// The row that these values are, in the order of the columns; else `Damaged`.
    #[tactic(auto, using(crate::proofs::lemmas::changes::Columns::row_columns))]
    pub fn from_row(row: &'a Row) -> Result<VerdictRow<'a>, RowFault>
        ensures value { IfOk result (λ x. verdict_values x ≡ row.now) }
        ensures read { IsRead verdict_forms row.now result }
        ensures err { IfErr result (λ e. e ≡ Damaged) }
    {
        if row.column_count() != 6 {
            return Err(RowFault::Damaged);
        }
        Ok(VerdictRow {
            sender: text(row, 0)?,
            number: whole(row, 1)?,
            place: whole(row, 2)?,
            fault: whole(row, 3)?,
            ordinal: integer(row, 4)?,
            revision: integer(row, 5)?,
        })
    }

    /// The values of its columns.
    pub(crate) fn params(&self) -> [ValueRef<'_>; 6]
        ensures { bound result ≡ verdict_values self.now }
    {
        [
            ValueRef::Text(self.sender),
            self.number.to_sql(),
            self.place.to_sql(),
            self.fault.to_sql(),
            ValueRef::Int(self.ordinal),
            ValueRef::Int(self.revision),
        ]
    }
}

impl<'a> PairedRow for VerdictRow<'a> {
    ghost table = { verdicts };

    ghost values = { verdict_values };

    fn one<'b>(row: &'b Self) -> NewRows<'b> {
        NewRows::Verdict(row)
    }

    fn two<'b>(one: &'b Self, two: &'b Self) -> NewRows<'b> {
        NewRows::Verdicts(one, two)
    }
}
