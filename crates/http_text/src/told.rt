//! Answers with the bodies that are made before they are sent.
ghost use Rattle.std.specs.Prelude.{IfOk, OnErr};
ghost use Rattle.society_core.specs.Requests.{reply_of, showing_of};
ghost use Rattle.http_text.specs.Told.{HasBody, HasText, IsReadyToSend, IsShown, NeedsText, TellsReply, told_reply};

use crate::json::{balance_text, sender_text, verdicts_text, work_text};
use crate::table::table_text;
use society_core::{Answer, Refusal, Showing};
use std::alloc::{AllocError, Global};

/// An answer, and its body where it answers a question whose text asks memory: that can be refused, and then the office is
/// unavailable; such a question left the book as it was.
#[derive(Drop)]
pub struct Told {
    pub answer: Answer,
    pub body: Vec<u8>,
}

// The text of what is shown; of an acknowledgement nothing, which is sent as it was looked up.
fn text_of(alloc: Global, showing: &Showing) -> Result<Vec<u8>, AllocError>
    ensures made { IfOk result (λ body. HasText (showing_of showing.now) body.items) }
    ensures refused { OnErr result (NeedsText (showing_of showing.now)) }
{
    match showing {
        Showing::Acknowledgement(_) => Ok(Vec::new(alloc)),
        Showing::Sender(status) => sender_text(alloc, status),
        Showing::Work(work) => work_text(alloc, work),
        Showing::Verdicts(verdicts) => verdicts_text(alloc, verdicts),
        Showing::Credits(credits) => table_text(alloc, credits),
        Showing::Balance(account, units) => balance_text(alloc, account, *units),
    }
}

// The body of an answer to a question that shows something; of another answer nothing.
fn body_of(alloc: Global, answer: &Answer) -> Result<Vec<u8>, AllocError>
    ensures made { IfOk result (λ body. HasBody (reply_of answer.now) body.items) }
    ensures refused { OnErr result (IsShown (reply_of answer.now)) }
{
    match answer {
        Answer::Showed(showing) => text_of(alloc, showing),
        _ => Ok(Vec::new(alloc)),
    }
}

/// Makes the body of an answer where one is made before it is sent; where memory is refused for it, the office is
/// unavailable.
pub fn tell(alloc: Global, answer: Answer) -> Told
    ensures ready { IsReadyToSend result }
    ensures tells { TellsReply (reply_of answer) (told_reply result) }
{
    match body_of(alloc, &answer) {
        Ok(body) => Told { answer, body },
        Err(_) => Told {
            answer: Answer::Refused(Refusal::Unavailable),
            body: Vec::new(alloc),
        },
    }
}
