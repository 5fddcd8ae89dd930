//! The table of the ends of segments.
ghost use Rattle.std.specs.Prelude.{◌≡◌, ◌≤◌, FitsSigned, IfOk, IfErr};
ghost use Rattle.std.specs.Int.{w64};
ghost use Rattle.sqlite.specs.Values.{bound};
ghost use Rattle.society_rows.specs.declared.fault.RowFault.TheVariants.{Damaged};
ghost use Rattle.society_rows.specs.Forms.{IsRead, segment_end_forms};
ghost use Rattle.society_rows.specs.Rows.{segment_end_values};
ghost use Rattle.society_rows.specs.SegmentColumns.{segment_column};
ghost use Rattle.work_ids.specs.Segments.{index_of};

use crate::RowFault;
use crate::reading::{segment, text, whole};
use crate::shapes::{Rows, TableShape};
use sqlite::Row;
use sqlite::types::ToSql;
use sqlite_schema::schema::Kind::{Integer, Text};
use sqlite_value::value::ValueRef;
use work_ids::Segment;

/// The table, and the statements over all of it.
pub(crate) const SEGMENT_ENDS: TableShape<'static> = TableShape {
    name: "segment_ends",
    columns: &[
        ("sender", Text),
        ("segment", Integer),
        ("last", Integer),
        ("next", Integer),
    ],
    rows: Rows::Keyed,
    key: &[1, 2],
    parents: &[],
    create: "CREATE TABLE segment_ends (sender TEXT NOT NULL, segment INTEGER NOT NULL, last INTEGER NOT NULL, next INTEGER NOT NULL, PRIMARY KEY (sender, segment)) STRICT",
    listing: "SELECT sender, segment, last, next FROM segment_ends ORDER BY sender, segment, last, next",
    rowids: "SELECT rowid FROM segment_ends",
};

/// What adds a row.
pub(crate) const INSERT: &str =
    "INSERT INTO segment_ends (sender, segment, last, next) VALUES (?1, ?2, ?3, ?4)";

/// The query for the ends of a sender.
pub(crate) const OF_SENDER: &str =
    "SELECT sender, segment, last, next FROM segment_ends WHERE sender = ?1 ORDER BY sender, segment";

/// Where a segment of a sender's numbers ends: its last number, and the year whose numbers come next. The column of a segment is -1 of the
/// plain one, and the year of any other.
#[derive(Clone, Copy, Debug)]
pub struct SegmentEndRow<'a> {
    pub sender: &'a [u8],
    pub segment: Segment,
    pub last: u32,
    pub next: u32,
}

impl<'a> SegmentEndRow<'a> {
    /// The row that these values are, in the order of the columns; else `Damaged`, also where the segment is a year above 99.
    #[tactic(auto, using(crate::proofs::lemmas::changes::Columns::row_columns))]
    pub fn from_row(row: &'a Row) -> Result<SegmentEndRow<'a>, RowFault>
        ensures value { IfOk result (λ x. segment_end_values x ≡ row.now) }
        ensures read { IsRead segment_end_forms row.now result }
        ensures range { IfOk result (λ x. index_of x.segment ≤ 100) }
        ensures err { IfErr result (λ e. e ≡ Damaged) }
    {
        if row.column_count() != 4 {
            return Err(RowFault::Damaged);
        }
        Ok(SegmentEndRow {
            sender: text(row, 0)?,
            segment: segment(row, 1)?,
            last: whole(row, 2)?,
            next: whole(row, 3)?,
        })
    }

    /// The values of its columns.
    pub(crate) fn params(&self) -> [ValueRef<'_>; 4]
        ensures { bound result ≡ segment_end_values self.now }
    {
        [
            ValueRef::Text(self.sender),
            ValueRef::Int(column_of(self.segment)),
            self.last.to_sql(),
            self.next.to_sql(),
        ]
    }
}

// The column of a segment.
fn column_of(segment: Segment) -> i64
    ensures value { result ≡ segment_column (index_of segment) }
    ensures range { FitsSigned w64 result }
{
    match segment {
        Segment::Plain => -1,
        Segment::Year(year) => i64::from(year),
    }
}
