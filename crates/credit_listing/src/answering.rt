//! What a line is answered.
ghost use Rattle.society_book.specs.Steps.{Looks};
ghost use Rattle.society_rows.specs.Between.{Within};
ghost use Rattle.credit_listing.specs.Answered.{AnswersLine};

use crate::order_line::order_in;
use order_credits::{RecordingShare, credit_order};
use share_rules::Office;
use society_core::Refusal;
use society_rows::RowFault;
use sqlite::{Alter, Transaction};
use std::alloc::Global;

/// What the order on a line would credit, or why it is refused.
pub(crate) fn answer_line<S: Alter>(
    alloc: Global,
    tx: &mut Transaction<'_, S>,
    office: &Office,
    line: &[u8],
) -> Result<Result<Vec<RecordingShare>, Refusal>, RowFault>
    ensures looks { Within S.Store tx.old tx.new Looks result (AnswersLine office.now line.now) }
{
    match order_in(alloc, line)? {
        Ok(asked) => credit_order(alloc, tx, office, &asked.order, asked.wanted.as_ref()),
        Err(fault) => Ok(Err(Refusal::Order(fault))),
    }
}
