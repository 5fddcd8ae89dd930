//! What an order would credit, and why.
ghost use Rattle.std.specs.Prelude.{◌≡◌, option_map};
ghost use Rattle.society_book.specs.Shown.{ByOwnBook};
ghost use Rattle.society_book.specs.Steps.{Looks};
ghost use Rattle.society_rows.specs.Between.{Within};
ghost use Rattle.order_credits.specs.Refused.{credit_answer, listed};

use crate::refusing::refusal_of;
use crate::share::RecordingShare;
use crate::sharing::shares_in;
use share_rules::Office;
use society_core::{PoolOrder, Refusal};
use society_rows::RowFault;
use sqlite::{Alter, Transaction};
use std::alloc::Global;
use std::collections::BTreeSet;
use work_ids::Isrc;

/// What an order would credit, recording by recording, whether or not pools have paid its returns, of the recordings that are wanted where
/// some are named; or why it can't be answered. Where the disk told the truth, an error says that memory ran out, that a count has no
/// room, that the medium may have failed, or that the tables hold no book of this office.
pub fn credit_order<S: Alter>(
    alloc: Global,
    tx: &mut Transaction<'_, S>,
    office: &Office,
    order: &PoolOrder,
    wanted: Option<&BTreeSet<Isrc>>,
) -> Result<Result<Vec<RecordingShare>, Refusal>, RowFault>
    ensures looks { Within S.Store tx.old tx.new Looks result
        (ByOwnBook office.now (λ book answer. listed answer ≡ credit_answer office.now book order.now (option_map (λ set. set.now) wanted.entry))) }
{
    match refusal_of(tx, order)? {
        Some(refusal) => Ok(Err(refusal)),
        None => Ok(Ok(shares_in(alloc, tx, office, order, wanted)?)),
    }
}
