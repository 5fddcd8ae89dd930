//! How the tables of an older layout become those of layout 3.
ghost use Rattle.std.specs.Prelude.{◌≡◌, ◌≢◌, IfErr};
ghost use Rattle.book_derivation.specs.Deriving.{Derives};
ghost use Rattle.society_rows.specs.Between.{Within, between, within};
ghost use Rattle.society_rows.specs.Layouts.{HasOlder, number_of};
ghost use Rattle.society_opening.specs.Older.{HoldsOlder};
ghost use Rattle.society_opening.specs.TakingOver.{CompletesRaised, DoesOver, FaultsOver, LacksRaised, TakesNamed, TakesOffice};
ghost use Rattle.society_opening.specs.OpenSteps.{DeniesIn, FailsIn, FailsTaking, TakesOver, TellsIn};
ghost use Rattle.society_opening.specs.declared.open_fault.OpenFault.TheVariants.{Empty};

use crate::OpenFault;
use crate::examining::{examine_whole, office_agrees};
use book_derivation::{derive, fault_of_writing};
use share_rules::Office;
use society_rows::{Idle, OlderLayout, RowFault, raise_inside};
use sqlite::{Alter, Transaction};
use std::alloc::Global;

// Makes raised tables of an office, whose row they have, hold the book that they stand for: of layout 1 what is derived is written, of
// layout 2 all is audited; else `Damaged`.
fn complete<S: Alter>(
    alloc: Global,
    tx: &mut Transaction<'_, S>,
    office: &Office,
    layout: OlderLayout,
) -> Result<(), RowFault>
    ensures derives { Within S.Store tx.old tx.new (Derives (LacksRaised office.now layout)) result (λ before after _. CompletesRaised office.now layout before after) }
{
    match layout {
        OlderLayout::First => derive(alloc, tx, office),
        OlderLayout::Second => examine_whole(alloc, tx, office),
    }
}

// Makes the tables of an older layout those of layout 3 that they stand for; `Damaged` where these hold no sound book.
fn take_inside<S: Alter>(
    alloc: Global,
    tx: &mut Transaction<'_, S>,
    office: &Office,
    layout: OlderLayout,
) -> Result<(), RowFault>
    ensures does { Within S.Store tx.old tx.new (DoesOver (HasOlder layout)) result (TakesNamed office.now layout) }
    ensures faults { within S.Store tx.old tx.new (FaultsOver office.now layout) result }
{
    match raise_inside(tx, layout) {
        Ok(()) => complete(alloc, tx, office, layout),
        Err(fault) => Err(fault_of_writing(fault)),
    }
}

/// Makes the tables of an older layout of this office those of layout 3 that they stand for.
pub(crate) fn take_office<S: Alter>(
    alloc: Global,
    tx: &mut Transaction<'_, S>,
    office: &Office,
    layout: OlderLayout,
) -> Result<(), OpenFault>
    ensures does { Within S.Store tx.old tx.new (DoesOver (HasOlder layout)) result (TakesOffice office.now layout) }
    ensures err { within S.Store tx.old tx.new (TellsIn (HasOlder layout) (number_of layout) office.now) result }
    ensures damaged { within S.Store tx.old tx.new (DeniesIn (HasOlder layout) (HoldsOlder office.now layout)) result }
    ensures medium { within S.Store tx.old tx.new (FailsIn (HasOlder layout)) result }
    ensures there { IfErr result (λ e. e ≢ Empty) }
{
    office_agrees(tx, office, layout.number())?;
    Ok(take_inside(alloc, tx, office, layout)?)
}

/// Makes a database of an older layout one of layout 3, in one transaction: its office is read first, and then the missing tables are
/// made; of layout 1 what is derived is worked out and written, of layout 2 all is audited as tables of layout 3 are. Memory is that of an
/// audit.
pub(crate) fn take_over<S: Alter>(
    alloc: Global,
    conn: &mut Idle<S>,
    office: &Office,
    layout: OlderLayout,
) -> Result<(), OpenFault>
    ensures takes { between S.Store conn.old conn.new (TakesOver office.now layout) result }
    ensures medium { between S.Store conn.old conn.new (FailsTaking (HasOlder layout)) result }
    ensures there { IfErr result (λ e. e ≢ Empty) }
{
    conn.see_last_commit();
    let mut tx = conn.connection.transaction();
    take_office(alloc, &mut tx, office, layout)?;
    tx.commit()?;
    Ok(())
}
