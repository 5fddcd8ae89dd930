//! The table of fronts.
ghost use Rattle.std.specs.Prelude.{◌≡◌, IfOk, IfErr};
ghost use Rattle.sqlite.specs.Values.{bound};
ghost use Rattle.society_rows.specs.declared.fault.RowFault.TheVariants.{Damaged};
ghost use Rattle.society_rows.specs.Effects.{BlamesMedium, IsAllOrNothing, OnlyFails, Writes};
ghost use Rattle.society_rows.specs.Forms.{IsRead, front_forms};
ghost use Rattle.society_rows.specs.Layout.{fronts};
ghost use Rattle.society_rows.specs.Rows.{front_values};
ghost use Rattle.society_rows.specs.Stored.{Puts};
ghost use Rattle.society_rows.specs.Between.{Within, within};

use crate::RowFault;
use crate::reading::{integer, text, whole};
use crate::shapes::{Rows, TableShape};
use crate::statement::run;
use sqlite::types::ToSql;
use sqlite::{Alter, Row, Transaction};
use sqlite_schema::schema::Kind::{Integer, Text};
use sqlite_value::value::ValueRef;

/// The table, and the statements over all of it.
pub(crate) const FRONTS: TableShape<'static> = TableShape {
    name: "fronts",
    columns: &[("sender", Text), ("front", Integer), ("works", Integer)],
    rows: Rows::Keyed,
    key: &[1],
    parents: &[],
    create: "CREATE TABLE fronts (sender TEXT NOT NULL PRIMARY KEY, front INTEGER NOT NULL, works INTEGER NOT NULL) STRICT",
    listing: "SELECT sender, front, works FROM fronts ORDER BY sender",
    rowids: "SELECT rowid FROM fronts",
};

/// The query for the front of a sender.
pub(crate) const OF_SENDER: &str =
    "SELECT sender, front, works FROM fronts WHERE sender = ?1 ORDER BY sender";

/// The query for the first column of every row.
pub(crate) const FIRST_COLUMN: &str = "SELECT sender FROM fronts";

/// How far a sender's transmissions came: the greatest number up to which all are there, and its accepted works up
/// to it.
#[derive(Clone, Copy, Debug)]
pub struct FrontRow<'a> {
    pub sender: &'a [u8],
    pub front: u32,
    pub works: i64,
}

impl<'a> FrontRow<'a> {
    /// The row that these values are, in the order of the columns; else `Damaged`.
    #[tactic(auto, using(crate::proofs::lemmas::changes::Columns::row_columns))]
    pub fn from_row(row: &'a Row) -> Result<FrontRow<'a>, RowFault>
        ensures value { IfOk result (λ x. front_values x ≡ row.now) }
        ensures read { IsRead front_forms row.now result }
        ensures err { IfErr result (λ e. e ≡ Damaged) }
    {
        if row.column_count() != 3 {
            return Err(RowFault::Damaged);
        }
        Ok(FrontRow {
            sender: text(row, 0)?,
            front: whole(row, 1)?,
            works: integer(row, 2)?,
        })
    }

    /// The values of its columns.
    pub(crate) fn params(&self) -> [ValueRef<'_>; 3]
        ensures { bound result ≡ front_values self.now }
    {
        [
            ValueRef::Text(self.sender),
            self.front.to_sql(),
            ValueRef::Int(self.works),
        ]
    }
}

/// Puts a front, in place of the one that is there under its key.
pub fn put_front<S: Alter>(tx: &mut Transaction<'_, S>, row: &FrontRow<'_>) -> Result<(), RowFault>
    ensures written { Within S.Store tx.old tx.new Writes result
        (Puts fronts (front_values row.now)) }
    ensures whole { within S.Store tx.old tx.new IsAllOrNothing result }
    ensures err { within S.Store tx.old tx.new OnlyFails result }
    ensures blamed { within S.Store tx.old tx.new BlamesMedium result }
{
    run(
        tx,
        "INSERT INTO fronts (sender, front, works) VALUES (?1, ?2, ?3) ON CONFLICT (sender) DO UPDATE SET sender = excluded.sender, front = excluded.front, works = excluded.works",
        &row.params(),
    )
}
