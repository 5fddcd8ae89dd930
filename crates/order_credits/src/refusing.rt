//! Why an order is not answered.
ghost use Rattle.std.specs.Prelude.{◌≡◌};
ghost use Rattle.society_core.specs.Answers.{cut_refusal, first_refusal};
ghost use Rattle.society_book.specs.Steps.{Looks};
ghost use Rattle.society_rows.specs.Between.{Within};
ghost use Rattle.book_audit.specs.Standing.{OfLines};
ghost use Rattle.order_credits.specs.Refused.{credit_refusal, unknown_refusal};

use book_audit::{is_there, reach_of};
use society_core::{PoolOrder, Refusal, ReturnKey, TransmissionKey};
use society_rows::RowFault;
use sqlite::{Alter, Transaction};

// The refusal of a number that is not in its sender's line.
fn number_refusal<S: Alter>(
    tx: &mut Transaction<'_, S>,
    key: &TransmissionKey,
) -> Result<Option<Refusal>, RowFault>
    ensures looks { Within S.Store tx.old tx.new Looks result (λ db refusal. OfLines (λ book. refusal ≡ cut_refusal book key.now) db) }
{
    let reach = reach_of(tx, &key.sender)?;
    if reach.is_in_line(key.number) {
        return Ok(None);
    }
    Ok(Some(Refusal::Cut {
        sender: key.sender,
        front: reach.front(),
    }))
}

// The refusal of the first number of a cut that is not in its sender's line.
fn cut_refusal<S: Alter>(
    tx: &mut Transaction<'_, S>,
    cut: &[TransmissionKey],
) -> Result<Option<Refusal>, RowFault>
    ensures looks { Within S.Store tx.old tx.new Looks result (λ db refusal. OfLines (λ book. refusal ≡ first_refusal (cut_refusal book) cut.now) db) }
{
    for key in cut {
        let refusal = number_refusal(tx, key)?;
        if refusal.is_some() {
            return Ok(refusal);
        }
    }
    Ok(None)
}

// The refusal of the first return that is not there.
fn return_refusal<S: Alter>(
    tx: &mut Transaction<'_, S>,
    returns: &[ReturnKey],
) -> Result<Option<Refusal>, RowFault>
    ensures looks { Within S.Store tx.old tx.new Looks result (λ db refusal. OfLines (λ book. refusal ≡ first_refusal (unknown_refusal book) returns.now) db) }
{
    for key in returns {
        if !is_there(tx, key)? {
            return Ok(Some(Refusal::ReturnUnknown(*key)));
        }
    }
    Ok(None)
}

/// Why an order can't be answered: a number of its cut that is not in its sender's line up to its front, else a return that is not there;
/// none where neither is so.
pub(crate) fn refusal_of<S: Alter>(
    tx: &mut Transaction<'_, S>,
    order: &PoolOrder,
) -> Result<Option<Refusal>, RowFault>
    ensures looks { Within S.Store tx.old tx.new Looks result (λ db refusal. OfLines (λ book. refusal ≡ credit_refusal book order.now) db) }
{
    match cut_refusal(tx, order.cut())? {
        Some(refusal) => Ok(Some(refusal)),
        None => return_refusal(tx, order.returns()),
    }
}
