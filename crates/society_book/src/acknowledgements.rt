//! The acknowledgement of a transmission.
ghost use Rattle.std.specs.Prelude.{◌≡◌, List, ℕ, Option, IfOk};
ghost use Rattle.society_core.specs.Book.{ack, body_at};
ghost use Rattle.society_rows.specs.Questions.{Asks};
ghost use Rattle.society_book.specs.Shown.{ByBook, ByOwnBook, ShowBody};
ghost use Rattle.society_rows.specs.Between.{between};
ghost use Rattle.society_book.specs.Items.{items_of};
ghost use Rattle.society_book.specs.AnswersShown.{IsAcknowledged};

use crate::bodies::transmission_of;
use crate::senders::verdicts_of;
use ack_files::write_ack;
use share_rules::Office;
use society_rows::{Idle, Question, RowFault, ask};
use sqlite::{Alter, Row};
use std::alloc::Global;
use work_ids::{SenderKey, TransmissionNumber};
use works_core::Verdict;

// The acknowledgement of the transmission that rows show, with these verdicts; `Damaged` where they are not one row, or its
// body is no transmission of the sender.
fn acknowledgement_in(
    alloc: Global,
    office: &Office,
    sender: &SenderKey,
    rows: &[Row],
    verdicts: &[Verdict],
) -> Result<Option<Vec<u8>>, RowFault>
    ensures { (kept : Option (List ℕ)) → ShowBody kept rows.now → IfOk result (IsAcknowledged office.now sender.now verdicts.now kept) }
{
    let transmission = transmission_of(alloc, rows, sender)?;
    let text = write_ack(alloc, office, sender, &transmission, verdicts)?;
    Ok(Some(text))
}

// The acknowledgement of a sender's transmission with these verdicts.
fn acknowledgement_of<S: Alter>(
    alloc: Global,
    conn: &mut Idle<S>,
    office: &Office,
    sender: &SenderKey,
    number: u32,
    verdicts: &[Verdict],
) -> Result<Option<Vec<u8>>, RowFault>
    ensures asked { between S.Store conn.old conn.new Asks result (ByBook (λ _ book text. IsAcknowledged office.now sender.now verdicts.now (body_at book sender.now number) text)) }
{
    let rows = ask(conn, Question::Transmission(sender.as_bytes(), number))?;
    acknowledgement_in(alloc, office, sender, rows.as_slice(), verdicts)
}

/// The acknowledgement of a sender's transmission at this office, none where its number is not in the sender's line.
pub(crate) fn ack_of<S: Alter>(
    alloc: Global,
    conn: &mut Idle<S>,
    office: &Office,
    sender: &SenderKey,
    number: TransmissionNumber,
) -> Result<Option<Vec<u8>>, RowFault>
    ensures asked { between S.Store conn.old conn.new Asks result (ByOwnBook office.now (λ book text. items_of text ≡ ack office.now book sender.now number)) }
{
    let Some(verdicts) = verdicts_of(alloc, conn, sender.as_bytes(), number)? else {
        return Ok(None);
    };
    acknowledgement_of(
        alloc,
        conn,
        office,
        sender,
        number.value(),
        verdicts.as_slice(),
    )
}
