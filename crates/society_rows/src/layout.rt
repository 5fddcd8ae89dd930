//! The layout of the tables, and how they begin.
ghost use Rattle.std.specs.Prelude.{◌≡◌, ◌⊎◌, ◌≤◌, IsTrue, IfErr, OnOk, OnErr};
ghost use Rattle.sqlite.specs.Held.{state};
ghost use Rattle.sqlite.specs.State.{HasCleanDisk, Survives};
ghost use Rattle.society_rows.specs.Effects.{BlamesMediumOver, TellsOfMedium, WritesOver, OnlyFailsInside};
ghost use Rattle.society_rows.specs.Faults.{IsFailure};
ghost use Rattle.society_rows.specs.Layouts.{HasFirst};
ghost use Rattle.society_rows.specs.Raising.{Extends};
ghost use Rattle.society_rows.specs.NewBook.{IsBare, IsEmptyBook, IsNewBook, Begins};
ghost use Rattle.society_rows.specs.Rows.{office_values};
ghost use Rattle.society_rows.specs.Between.{Within, between, within};

use crate::new_rows::{NewRows, add};
use crate::statement::run;
use crate::tables::{TABLE_COUNT, name_at, shape_of};
use crate::{Idle, OfficeRow, RowFault};
use sqlite::{Alter, Transaction};

/// Makes the tables behind so many first ones: behind none, or behind those of an older layout.
pub(crate) fn make_tables<S: Alter>(
    tx: &mut Transaction<'_, S>,
    from: usize,
) -> Result<(), RowFault>
    requires start { (from ≡ 0) ⊎ (6 ≤ from) }
    requires some { from ≤ 14 }
    ensures made { Within S.Store tx.old tx.new (WritesOver (HasFirst from)) result
        (Extends from) }
    ensures err { within S.Store tx.old tx.new (OnlyFailsInside (HasFirst from)) result }
    ensures blamed { within S.Store tx.old tx.new (BlamesMediumOver (HasFirst from)) result }
{
    for at in from..TABLE_COUNT {
        run(tx, shape_of(name_at(at)).create, &[])?;
    }
    Ok(())
}

/// Makes the tables of layout 3 in a database that has none.
pub(crate) fn lay_out<S: Alter>(tx: &mut Transaction<'_, S>) -> Result<(), RowFault>
    ensures made { Within S.Store tx.old tx.new (WritesOver IsBare) result
        (λ _. IsEmptyBook) }
    ensures err { within S.Store tx.old tx.new (OnlyFailsInside IsBare) result }
    ensures blamed { within S.Store tx.old tx.new (BlamesMediumOver IsBare) result }
{
    make_tables(tx, 0)
}

// Makes the tables and writes the row of the office.
fn begin_book<S: Alter>(tx: &mut Transaction<'_, S>, office: &OfficeRow<'_>) -> Result<(), RowFault>
    ensures begun { Within S.Store tx.old tx.new (WritesOver IsBare) result
        (λ _. Begins (office_values office.now)) }
    ensures err { within S.Store tx.old tx.new (OnlyFailsInside IsBare) result }
    ensures blamed { within S.Store tx.old tx.new (BlamesMediumOver IsBare) result }
{
    lay_out(tx)?;
    add(tx, NewRows::Office(office))
}

/// Makes the tables of layout 3 in a database that has none, and writes the row of the office, in one transaction;
/// `layout_found` says whether it has any. After an error, and after a crash, the database is as it was or the whole new book.
pub fn create<S: Alter>(conn: &mut Idle<S>, office: &OfficeRow<'_>) -> Result<(), RowFault>
    requires bare { IsBare (state S.Store conn.old).now }
    ensures created { between S.Store conn.old conn.new (λ old new. HasCleanDisk new → OnOk result (Begins (office_values office.now) new.now × (new.now ≡ new.committed))) }
    ensures neither { between S.Store conn.old conn.new (λ old new. HasCleanDisk new → IsTrue new.is_open → OnErr result ((new.now ≡ old.committed) × (new.committed ≡ old.committed))) }
    ensures crash { between S.Store conn.old conn.new Survives (IsNewBook (office_values office.now)) }
    ensures err { HasCleanDisk (state S.Store conn.new) → IfErr result IsFailure }
    ensures blamed { between S.Store conn.old conn.new (λ old new. HasCleanDisk new → TellsOfMedium old new result) }
{
    let mut tx = conn.connection.transaction();
    begin_book(&mut tx, office)?;
    tx.commit()?;
    Ok(())
}
