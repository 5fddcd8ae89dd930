//! The rowids of the rows.
ghost use Rattle.std.specs.Prelude.{◌≡◌, ◌↔◌, IsTrue};
ghost use Rattle.std.specs.List.{list_all};
ghost use Rattle.sqlite_value.specs.Order.{column};
ghost use Rattle.sqlite_trees.specs.View.{is_int};
ghost use Rattle.society_rows.specs.Effects.{ErrsByMediumOver, OnlyFailsOver};
ghost use Rattle.society_rows.specs.Layouts.{HasTable};
ghost use Rattle.society_rows.specs.Reads.{ReadsOver};
ghost use Rattle.society_rows.specs.Stored.{AreNumbered};
ghost use Rattle.society_rows.specs.TableNames.{table_called};
ghost use Rattle.society_rows.specs.Between.{Within, within};

use crate::statement::select;
use crate::tables::shape_of;
use crate::{RowFault, TableName};
use sqlite::{Alter, Row, Transaction};
use sqlite_value::value::ValueRef;

// Whether the first value of a row is a whole number.
fn begins_whole(row: &Row) -> bool
    ensures { result ≡ is_int (column row.now 0) }
{
    matches!(row.get_ref(0), Ok(ValueRef::Int(_)))
}

// Whether the first value of each row is a whole number.
fn begin_whole(rows: &[Row]) -> bool
    ensures { result ≡ list_all (λ r. is_int (column r 0)) rows.now }
{
    rows.iter().all(|row| begins_whole(row))
}

/// Whether each row of a table has a whole number as its rowid, as every row has that SQLite wrote; also in a database of an older layout
/// that has it.
pub fn are_numbered<S: Alter>(
    tx: &mut Transaction<'_, S>,
    table: TableName,
) -> Result<bool, RowFault>
    ensures read { Within S.Store tx.old tx.new (ReadsOver (HasTable table)) result
        (λ db yes. IsTrue yes ↔ AreNumbered (table_called table) db) }
    ensures err { within S.Store tx.old tx.new (OnlyFailsOver (HasTable table)) result }
    ensures medium { within S.Store tx.old tx.new (ErrsByMediumOver (HasTable table)) result }
{
    let rows = select(tx, shape_of(table).rowids, &[])?;
    Ok(begin_whole(&rows))
}
