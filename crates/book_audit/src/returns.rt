//! Whether returns that pools pay are there, and each is paid once.
ghost use Rattle.std.specs.Prelude.{◌≡◌};
ghost use Rattle.society_book.specs.Steps.{Examines, Never};
ghost use Rattle.book_audit.specs.Standing.{OfLines, TellsPaid, TellsReturns, is_paid_once};
ghost use Rattle.society_core.specs.Book.{return_at};
ghost use Rattle.society_rows.specs.Between.{Within};
ghost use Rattle.std.specs.Prelude.{is_some};

use crate::reading::ask;
use society_core::ReturnKey;
use society_rows::{Question, RowFault};
use sqlite::{Alter, Transaction};

/// Whether a return is there.
pub fn is_there<S: Alter>(tx: &mut Transaction<'_, S>, key: &ReturnKey) -> Result<bool, RowFault>
    ensures examined { Within S.Store tx.old tx.new (Examines Never) result (λ db told. OfLines (λ book. told ≡ is_some (return_at book key.now)) db) }
{
    let rows = ask(
        tx,
        Question::HasReturn(key.reporter.as_bytes(), key.number.value()),
    )?;
    Ok(!rows.as_slice().is_empty())
}

/// Whether each return is there.
pub(crate) fn are_there<S: Alter>(
    tx: &mut Transaction<'_, S>,
    keys: &[ReturnKey],
) -> Result<bool, RowFault>
    ensures examined { Within S.Store tx.old tx.new (Examines Never) result (TellsReturns keys.now) }
{
    for key in keys {
        if !is_there(tx, key)? {
            return Ok(false);
        }
    }
    Ok(true)
}

// Whether one row of a return says that a pool pays it.
fn is_paid_once<S: Alter>(tx: &mut Transaction<'_, S>, key: &ReturnKey) -> Result<bool, RowFault>
    ensures examined { Within S.Store tx.old tx.new (Examines Never) result (λ db told. told ≡ is_paid_once db key.now) }
{
    let rows = ask(
        tx,
        Question::Payer(key.reporter.as_bytes(), key.number.value()),
    )?;
    Ok(rows.as_slice().len() == 1)
}

/// Whether each return is paid once.
pub(crate) fn are_paid_once<S: Alter>(
    tx: &mut Transaction<'_, S>,
    keys: &[ReturnKey],
) -> Result<bool, RowFault>
    ensures examined { Within S.Store tx.old tx.new (Examines Never) result (TellsPaid keys.now) }
{
    for key in keys {
        if !is_paid_once(tx, key)? {
            return Ok(false);
        }
    }
    Ok(true)
}
