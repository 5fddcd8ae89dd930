//! The tables of what is derived, by their first columns.
ghost use Rattle.std.specs.Prelude.{◌≡◌};
ghost use Rattle.society_rows.specs.FirstColumns.{first_column_text};

use crate::{credits, fronts, recordings, verdicts, versions};

/// A table of what is derived of senders' lines, or of pools; its first column is the sender, or the pool.
#[derive(Clone, Copy)]
pub enum DerivedTable {
    Fronts,
    Verdicts,
    Versions,
    Recordings,
    Credits,
}

/// The query that shows the first column of every row of a table.
#[tactic(auto, unfolding(crate::specs::Layout::written_out))]
pub(crate) fn first_column_of(table: DerivedTable) -> &'static str
    ensures { result.now ≡ first_column_text table }
{
    match table {
        DerivedTable::Fronts => fronts::FIRST_COLUMN,
        DerivedTable::Verdicts => verdicts::FIRST_COLUMN,
        DerivedTable::Versions => versions::FIRST_COLUMN,
        DerivedTable::Recordings => recordings::FIRST_COLUMN,
        DerivedTable::Credits => credits::FIRST_COLUMN,
    }
}
