//! What is shown to questions, as the book in memory has it.
ghost use Rattle.std.specs.Prelude.{IfOk};
ghost use Rattle.society_core.specs.Asked.{IsShownTo};
ghost use Rattle.society_core.specs.Book.{IsSound};

use crate::answers::SenderStatus;
use crate::inquiry::{Inquiry, Showing};
use crate::plain_book::PlainBook;
use crate::plain_lines::{ack_of, verdicts_of, work_of};
use crate::plain_pools::{balance_of, credits_of_pool};
use share_rules::Office;
use std::alloc::{AllocError, Global};

/// What is shown to a question, none where it is not there.
pub(crate) fn showing_in(
    alloc: Global,
    office: &Office,
    book: &PlainBook,
    inquiry: &Inquiry,
) -> Result<Option<Showing>, AllocError>
    requires sound { IsSound book.now }
    ensures { IfOk result (IsShownTo office.now book.now inquiry.now) }
{
    match inquiry {
        Inquiry::Acknowledgement { sender, number } => {
            let text = ack_of(alloc, office, book, sender, *number)?;
            Ok(text.map(Showing::Acknowledgement))
        }
        Inquiry::Sender { sender } => {
            let held = book.held_numbers(alloc, sender)?;
            let front = book.front(sender);
            Ok(Some(Showing::Sender(SenderStatus { front, held })))
        }
        Inquiry::Work { sender, work } => {
            let shown = work_of(alloc, office, book, sender, work)?;
            Ok(shown.map(Showing::Work))
        }
        Inquiry::Verdicts { sender, number } => {
            let verdicts = verdicts_of(alloc, office, book, sender, *number)?;
            Ok(verdicts.map(Showing::Verdicts))
        }
        Inquiry::Credits { pool } => {
            let credits = credits_of_pool(alloc, office, book, *pool)?;
            Ok(credits.map(Showing::Credits))
        }
        Inquiry::Balance { account } => {
            let units = balance_of(alloc, office, book, account)?;
            Ok(Some(Showing::Balance(*account, units)))
        }
    }
}
