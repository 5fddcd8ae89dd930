//! Rows that are gone over one at a time, so that no answer is kept.
ghost use Rattle.std.specs.Prelude.{◌≡◌, IfErr, OnOk};
ghost use Rattle.sqlite_value.specs.Order.{Row as SqlRow};
ghost use Rattle.society_rows.specs.Folds.{ErrsByRun, HasTaken, IsRun, ReadsInside, StopsRun};
ghost use Rattle.society_rows.specs.declared.fault.RowFault.TheVariants.{Damaged};
ghost use Rattle.society_rows.specs.Between.{Within, within};

use crate::{Question, RowFault, answer};
use sqlite::{Alter, Row, Transaction};

/// What goes over rows, one at a time, and keeps what it wants of them.
pub trait RowFold {
    ghost use Rattle.society_rows.specs.declared.fault.RowFault.{RowFault};

    /// What it is once it has taken the row.
    ghost step: { Self → SqlRow → Self };

    /// Why it takes no row: the fault that it tells of it.
    ghost refusal: { Self → SqlRow → RowFault → Type 0 };

    /// Takes a row. An error ends the reading.
    fn take(&mut self, row: &Row) -> Result<(), RowFault>
        ensures taken { OnOk result (self.new ≡ step self.old row.now) }
        ensures err { IfErr result (refusal self.old row.now) };
}

/// Goes over the transmissions of a sender from a number upwards, up to the first number that is not there, each by its
/// key. After an error some have been taken; `Damaged` also says that a key has two rows, or that no number is free.
pub fn fold_run<S: Alter, F: RowFold>(
    tx: &mut Transaction<'_, S>,
    sender: &[u8],
    first: u32,
    into: &mut F,
) -> Result<(), RowFault>
    ensures taken { Within S.Store tx.old tx.new ReadsInside result
        (λ db _. HasTaken F.step (IsRun sender.now first db) into.old into.new) }
    ensures err { IfErr result
        (within S.Store tx.old tx.new (StopsRun F.step F.refusal) sender.now first into.old) }
    ensures medium { within S.Store tx.old tx.new (ErrsByRun F.step F.refusal sender.now first into.old) result }
{
    for number in first..=u32::MAX {
        let rows = answer(tx, Question::Transmission(sender, number))?;
        match rows.as_slice() {
            [] => return Ok(()),
            [row] => into.take(row)?,
            _ => return Err(RowFault::Damaged),
        }
    }
    Err(RowFault::Damaged)
}
