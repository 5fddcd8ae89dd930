//! How a database of an older layout gets layout 3.
ghost use Rattle.std.specs.Prelude.{◌≡◌};
ghost use Rattle.society_rows.specs.Effects.{BlamesMedium, BlamesMediumOver, OnlyFails, OnlyFailsInside, Writes, WritesOver};
ghost use Rattle.society_rows.specs.Layouts.{HasOlder};
ghost use Rattle.society_rows.specs.Raising.{BecomesNewest, Renames};
ghost use Rattle.society_rows.specs.Between.{Within, within};

use crate::layout::make_tables;
use crate::office::LAYOUT;
use crate::statement::run;
use crate::{OlderLayout, RowFault};
use sqlite::types::ToSql;
use sqlite::{Alter, Transaction};

// Says layout 3 in the row of the office.
fn rename<S: Alter>(tx: &mut Transaction<'_, S>) -> Result<(), RowFault>
    ensures renamed { Within S.Store tx.old tx.new Writes result Renames }
    ensures err { within S.Store tx.old tx.new OnlyFails result }
    ensures blamed { within S.Store tx.old tx.new BlamesMedium result }
{
    run(tx, "UPDATE office SET layout = ?1", &[LAYOUT.to_sql()])
}

/// Makes the tables that an older layout lacks, and says layout 3 in the row of the office, whatever layout it said. The tables that are
/// made are empty, and can be filled in the same transaction.
pub fn raise_inside<S: Alter>(
    tx: &mut Transaction<'_, S>,
    from: OlderLayout,
) -> Result<(), RowFault>
    ensures raised { Within S.Store tx.old tx.new (WritesOver (HasOlder from)) result
        (BecomesNewest from) }
    ensures err { within S.Store tx.old tx.new (OnlyFailsInside (HasOlder from)) result }
    ensures blamed { within S.Store tx.old tx.new (BlamesMediumOver (HasOlder from)) result }
{
    make_tables(tx, from.table_count())?;
    rename(tx)
}
