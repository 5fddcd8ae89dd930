//! What an audit finds of the tables of layout 3 in a transaction.
ghost use Rattle.std.specs.Prelude.{[], ◌∷◌, ◌≡◌, ◌≢◌, IfErr, IfOk};
ghost use Rattle.book_audit.specs.Audited.{IsNumbered, IsRegistered};
ghost use Rattle.book_audit.specs.Examining.{HoldsNot};
ghost use Rattle.society_book.specs.Steps.{Examines};
ghost use Rattle.society_book.specs.Kept.{HoldsOwnBook};
ghost use Rattle.society_opening.specs.Older.{office_row_under};
ghost use Rattle.society_opening.specs.Opening.{TellsOffice};
ghost use Rattle.society_opening.specs.OpenSteps.{DeniesIn, FailsIn, TellsIn};
ghost use Rattle.society_opening.specs.TakingOver.{DoesOver, IsOffice};
ghost use Rattle.society_opening.specs.declared.open_fault.OpenFault.TheVariants as fault;
ghost use Rattle.society_opening.specs.declared.open_fault.OpenFault.TheVariants.{Damaged, Empty};
ghost use Rattle.society_rows.specs.Between.{Within, within};
ghost use Rattle.society_rows.specs.Layouts.{HasTable};
ghost use Rattle.society_rows.specs.Stored.{AreNumbered, HasLayout};
ghost use Rattle.society_rows.specs.declared.tables.TableName.TheVariants.{Office as OfficeTable};
ghost use Rattle.society_rows.specs.TableNames.{table_called};

use crate::OpenFault;
use crate::reading_fault::fault_of_reading;
use book_audit::audit;
use share_rules::Office;
use society_rows::{LAYOUT, OfficeRow, RowFault, TableName, all_rows, are_numbered};
use sqlite::{Alter, Row, Transaction};
use std::alloc::Global;

// That the rows of offices are the one row of this office under a layout; `Schema` where it cannot be read.
fn check_office(rows: &[Row], office: &Office, layout: u32) -> Result<(), OpenFault>
    ensures same { IfOk result (λ _. rows.now ≡ office_row_under layout office.now ∷ []) }
    ensures err { IfErr result (TellsOffice layout office.now rows.now) }
    ensures other { IfErr result (λ e. e ≢ Damaged) }
    ensures there { IfErr result (λ e. e ≢ Empty) }
    ensures read { IfErr result (λ e. e ≢ fault.Store) }
{
    let [row] = rows else {
        return Err(OpenFault::Schema);
    };
    let Ok(row) = OfficeRow::from_row_under(row, layout) else {
        return Err(OpenFault::Schema);
    };
    if row.society == u32::from(office.society)
        && row.territory == u32::from(office.territory)
        && row.name == office.name()
    {
        Ok(())
    } else {
        Err(OpenFault::OtherOffice)
    }
}

/// That the tables are those of this office, under the layout of a number.
pub(crate) fn office_agrees<S: Alter>(
    tx: &mut Transaction<'_, S>,
    office: &Office,
    number: u32,
) -> Result<(), OpenFault>
    ensures finds { Within S.Store tx.old tx.new (DoesOver (HasTable OfficeTable)) result (IsOffice office.now number) }
    ensures err { within S.Store tx.old tx.new (TellsIn (HasTable OfficeTable) number office.now) result }
    ensures medium { within S.Store tx.old tx.new (FailsIn (HasTable OfficeTable)) result }
    ensures other { IfErr result (λ e. e ≢ Damaged) }
    ensures there { IfErr result (λ e. e ≢ Empty) }
{
    match all_rows(tx, TableName::Office) {
        Ok(rows) => check_office(rows.as_slice(), office, number),
        Err(fault) => Err(fault_of_reading(fault)),
    }
}

// That each row of a table has a whole number as its rowid; else `Damaged`.
fn check_numbers<S: Alter>(tx: &mut Transaction<'_, S>, table: TableName) -> Result<(), RowFault>
    ensures examined { Within S.Store tx.old tx.new (Examines (λ db. AreNumbered (table_called table) db → ⊥)) result (λ db _. AreNumbered (table_called table) db) }
{
    if are_numbered(tx, table)? {
        Ok(())
    } else {
        Err(RowFault::Damaged)
    }
}

// That what is put over another row has a whole number as its rowid; else `Damaged`.
fn fronts_and_balances_numbered<S: Alter>(tx: &mut Transaction<'_, S>) -> Result<(), RowFault>
    ensures examined { Within S.Store tx.old tx.new (Examines (λ db. IsNumbered db → ⊥)) result (λ db _. IsNumbered db) }
{
    check_numbers(tx, TableName::Fronts)?;
    check_numbers(tx, TableName::Balances)
}

/// That tables with the row of this office hold the book that they stand for, with exactly what is derived of it, and can be written; else
/// `Damaged`, and `Memory` or `Refused` where memory or the database failed. Nothing is written.
pub(crate) fn examine_whole<S: Alter>(
    alloc: Global,
    tx: &mut Transaction<'_, S>,
    office: &Office,
) -> Result<(), RowFault>
    ensures examined { Within S.Store tx.old tx.new (Examines (HoldsNot office.now)) result (λ db _. IsRegistered office.now db → HoldsOwnBook office.now db) }
{
    fronts_and_balances_numbered(tx)?;
    audit(alloc, tx, office)
}

/// That tables of layout 3 are this office's, and hold the book that they stand for, with exactly what is derived of it. Nothing is written.
pub(crate) fn examine_office<S: Alter>(
    alloc: Global,
    tx: &mut Transaction<'_, S>,
    office: &Office,
) -> Result<(), OpenFault>
    ensures does { Within S.Store tx.old tx.new (DoesOver HasLayout) result (λ before after _. (after ≡ before) × HoldsOwnBook office.now before.trees) }
    ensures err { within S.Store tx.old tx.new (TellsIn HasLayout 3 office.now) result }
    ensures damaged { within S.Store tx.old tx.new (DeniesIn HasLayout (HoldsOwnBook office.now)) result }
    ensures medium { within S.Store tx.old tx.new (FailsIn HasLayout) result }
    ensures there { IfErr result (λ e. e ≢ Empty) }
{
    office_agrees(tx, office, LAYOUT)?;
    Ok(examine_whole(alloc, tx, office)?)
}
