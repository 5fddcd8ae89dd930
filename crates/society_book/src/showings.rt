//! What is shown to a question.
ghost use Rattle.society_core.specs.Asked.{IsShownTo};
ghost use Rattle.society_rows.specs.Between.{between};
ghost use Rattle.society_rows.specs.Questions.{Asks};
ghost use Rattle.society_book.specs.Shown.{ByOwnBook};

use crate::acknowledgements::ack_of;
use crate::pools::{balance_of, pool_credits};
use crate::senders::verdicts_of;
use crate::standing::status_of;
use crate::works::work_of;
use share_rules::Office;
use society_core::{Inquiry, Showing};
use society_rows::{Idle, RowFault};
use sqlite::Alter;
use std::alloc::Global;

/// What is shown at this office to a question, none where it is not there.
pub fn show<S: Alter>(
    alloc: Global,
    conn: &mut Idle<S>,
    office: &Office,
    inquiry: &Inquiry,
) -> Result<Option<Showing>, RowFault>
    ensures asked { between S.Store conn.old conn.new Asks result (ByOwnBook office.now (λ book shown. IsShownTo office.now book inquiry.now shown)) }
{
    match inquiry {
        Inquiry::Acknowledgement { sender, number } => {
            let text = ack_of(alloc, conn, office, sender, *number)?;
            Ok(text.map(Showing::Acknowledgement))
        }
        Inquiry::Sender { sender } => {
            let status = status_of(alloc, conn, sender.as_bytes())?;
            Ok(Some(Showing::Sender(status)))
        }
        Inquiry::Work { sender, work } => {
            let shown = work_of(alloc, conn, office, sender, work)?;
            Ok(shown.map(Showing::Work))
        }
        Inquiry::Verdicts { sender, number } => {
            let verdicts = verdicts_of(alloc, conn, sender.as_bytes(), *number)?;
            Ok(verdicts.map(Showing::Verdicts))
        }
        Inquiry::Credits { pool } => {
            let credits = pool_credits(alloc, conn, pool.value())?;
            Ok(credits.map(Showing::Credits))
        }
        Inquiry::Balance { account } => {
            let units = balance_of(alloc, conn, account)?;
            Ok(Some(Showing::Balance(*account, units)))
        }
    }
}
