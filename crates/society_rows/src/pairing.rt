//! Lists of rows that are written two a statement.
ghost use Rattle.std.specs.Prelude.{◌≡◌, ◌≤◌, map, take, [], ◌∷◌, length};
ghost use Rattle.society_rows.specs.Effects.{BlamesMedium, FailsWhole, LeavesFirst, OnlyFails, OnlyFailsInside, Writes};
ghost use Rattle.society_rows.specs.Stored.{Adds, HasLayout};
ghost use Rattle.society_rows.specs.NewRows.{rows_added};
ghost use Rattle.society_rows.specs.TableNames.{table_called};
ghost use Rattle.society_rows.specs.Between.{Within, within};

use crate::RowFault;
use crate::new_rows::{NewRows, add};
use sqlite::{Alter, Transaction};

/// A row of which two are added by one statement.
pub trait PairedRow {
    ghost use Rattle.sqlite_schema.specs.declared.schema.Table.{Table};
    ghost use Rattle.sqlite_value.specs.Order.{Row};

    /// The table of such rows.
    ghost table: { Table };

    /// The values of a row, in the order of the table's columns.
    ghost values: { Self → Row };

    /// The row, as what one statement adds.
    fn one<'b>(row: &'b Self) -> NewRows<'b>
        ensures table { table_called (rows_added result).table ≡ table }
        ensures rows { (rows_added result).rows ≡ values row.now ∷ [] };

    /// Two rows, as what one statement adds.
    fn two<'b>(one: &'b Self, two: &'b Self) -> NewRows<'b>
        ensures table { table_called (rows_added result).table ≡ table }
        ensures rows { (rows_added result).rows ≡ values one.now ∷ values two.now ∷ [] };
}

// Adds up to two rows, all or none.
fn add_part<S: Alter, R: PairedRow>(tx: &mut Transaction<'_, S>, part: &[R]) -> Result<(), RowFault>
    requires { length part.now ≤ 2 }
    ensures written { Within S.Store tx.old tx.new Writes result (Adds R.table (map R.values part.now)) }
    ensures whole { within S.Store tx.old tx.new FailsWhole result }
    ensures err { within S.Store tx.old tx.new OnlyFails result }
    ensures blamed { within S.Store tx.old tx.new BlamesMedium result }
{
    match part {
        [] => Ok(()),
        [one] => add(tx, R::one(one)),
        [one, two, ..] => add(tx, R::two(one, two)),
    }
}

/// Adds rows, whose keys have to be free. After an error the first of them may be in the transaction.
pub fn add_all<S: Alter, R: PairedRow>(
    tx: &mut Transaction<'_, S>,
    rows: &[R],
) -> Result<(), RowFault>
    ensures written { Within S.Store tx.old tx.new Writes result (Adds R.table (map R.values rows.now)) }
    ensures left { within S.Store tx.old tx.new LeavesFirst result (λ count. Adds R.table (map R.values (take count rows.now))) }
    ensures err { within S.Store tx.old tx.new (OnlyFailsInside HasLayout) result }
    ensures blamed { within S.Store tx.old tx.new BlamesMedium result }
{
    // Two rows a statement have nearly all that many would gain, for one more text that is kept compiled.
    for part in rows.chunks(2) {
        add_part(tx, part)?;
    }
    Ok(())
}
