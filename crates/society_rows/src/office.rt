//! The table of the office, which has one row.
ghost use Rattle.std.specs.Prelude.{◌≡◌, IfOk, IfErr};
ghost use Rattle.sqlite.specs.Values.{bound};
ghost use Rattle.society_rows.specs.declared.fault.RowFault.TheVariants.{Damaged};
ghost use Rattle.society_rows.specs.Forms.{IsRead, office_forms, office_forms_under};
ghost use Rattle.society_rows.specs.Rows.{office_values, office_values_under};

use crate::RowFault;
use crate::reading::{text, whole};
use crate::shapes::{Rows, TableShape};
use sqlite::Row;
use sqlite::types::ToSql;
use sqlite_schema::schema::Kind::{Integer, Text};
use sqlite_value::value::ValueRef;

/// The table, and the statements over all of it.
pub(crate) const OFFICE: TableShape<'static> = TableShape {
    name: "office",
    columns: &[
        ("one", Integer),
        ("layout", Integer),
        ("society", Integer),
        ("territory", Integer),
        ("name", Text),
    ],
    rows: Rows::Single,
    key: &[0],
    parents: &[],
    create: "CREATE TABLE office (one INTEGER NOT NULL PRIMARY KEY CHECK (one = 1), layout INTEGER NOT NULL, society INTEGER NOT NULL, territory INTEGER NOT NULL, name TEXT NOT NULL) STRICT",
    listing: "SELECT one, layout, society, territory, name FROM office ORDER BY one",
    rowids: "SELECT rowid FROM office",
};

/// What adds a row.
pub(crate) const INSERT: &str =
    "INSERT INTO office (one, layout, society, territory, name) VALUES (?1, ?2, ?3, ?4, ?5)";

/// The layout that is written: 3, the book, what is derived from it, where segments end, and pools of mechanical rights.
pub const LAYOUT: u32 = 3;

/// The office whose tables these are: its society, its territory and its name.
#[derive(Clone, Copy, Debug)]
pub struct OfficeRow<'a> {
    pub society: u32,
    pub territory: u32,
    pub name: &'a [u8],
}

impl<'a> OfficeRow<'a> {
    /// The row that these values are, in the order of the columns; else `Damaged`, also where the layout is not 3.
    pub fn from_row(row: &'a Row) -> Result<OfficeRow<'a>, RowFault>
        ensures value { IfOk result (λ x. office_values x ≡ row.now) }
        ensures read { IsRead office_forms row.now result }
        ensures err { IfErr result (λ e. e ≡ Damaged) }
    {
        OfficeRow::from_row_under(row, LAYOUT)
    }

    /// The row that these values are under a layout, by its number; else `Damaged`, also where the layout is another.
    #[tactic(auto, using(crate::proofs::lemmas::changes::Columns::row_columns))]
    pub fn from_row_under(row: &'a Row, layout: u32) -> Result<OfficeRow<'a>, RowFault>
        ensures value { IfOk result (λ x. office_values_under layout x ≡ row.now) }
        ensures read { IsRead (office_forms_under layout) row.now result }
        ensures err { IfErr result (λ e. e ≡ Damaged) }
    {
        if row.column_count() != 5 {
            return Err(RowFault::Damaged);
        }
        let one = whole(row, 0)?;
        let said = whole(row, 1)?;
        if one != 1 || said != layout {
            return Err(RowFault::Damaged);
        }
        Ok(OfficeRow {
            society: whole(row, 2)?,
            territory: whole(row, 3)?,
            name: text(row, 4)?,
        })
    }

    /// The values of its columns.
    pub(crate) fn params(&self) -> [ValueRef<'_>; 5]
        ensures { bound result ≡ office_values self.now }
    {
        [
            1u32.to_sql(),
            LAYOUT.to_sql(),
            self.society.to_sql(),
            self.territory.to_sql(),
            ValueRef::Text(self.name),
        ]
    }
}
