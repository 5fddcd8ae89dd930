//! The one door to the desk: what is asked, with its body as it came.
ghost use Rattle.society_core.specs.Requests.{Query, reply_of};
ghost use Rattle.society_core.specs.Runs.{Calls};
ghost use Rattle.http_text.specs.Wanted.{StandsFor};

use crate::fed_put::FedPut;
use society_core::{Answer, Desk, Request, Store, answer};
use std::alloc::Global;

/// What is asked of the desk, with its body.
#[derive(Drop)]
pub enum Asked<'b> {
    /// To put a transmission that was fed while it came.
    Fed(FedPut),
    /// Anything else; its body was read whole.
    Whole(Request<'b>),
}

/// Asks it at the desk.
pub fn ask<S: Store>(alloc: Global, desk: &mut Desk<S>, asked: Asked<'_>) -> Answer
    ensures { (query : Query) → StandsFor asked.entry query
        → Calls S.state desk.old desk.new query (reply_of result) }
{
    match asked {
        Asked::Fed(FedPut { key, reader }) => {
            match desk.put_fed(alloc, &key.sender, key.number, reader) {
                Ok(arrival) => Answer::Arrived(arrival),
                Err(refusal) => Answer::Refused(refusal),
            }
        }
        Asked::Whole(request) => answer(alloc, desk, &request),
    }
}
