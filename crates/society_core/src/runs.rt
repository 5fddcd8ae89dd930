//! Runs: what is answered to a list of requests, one after another.
ghost use Rattle.std.specs.Prelude.{◌≡◌, IsTrue, OnOk, OnErr};
ghost use Rattle.society_core.specs.Book.{IsSound};
ghost use Rattle.society_core.specs.Requests.{query_of, reply_of};
ghost use Rattle.society_core.specs.Runs.{AppendsAnswers, Calls, TellsWhatStoreHolds};
ghost use Rattle.society_core.specs.State.{StaysClean};

use crate::answers::Answer;
use crate::desk::Desk;
use crate::refusal::Refusal;
use crate::request::Request;
use crate::store::Store;
use std::alloc::{AllocError, Global};

/// Answers one request. What asks nothing of the store leaves it untouched, and what the office does not have is unknown,
/// never unavailable.
pub fn answer<S: Store>(alloc: Global, desk: &mut Desk<S>, request: &Request<'_>) -> Answer
    ensures { Calls S.state desk.old desk.new (query_of request.now) (reply_of result) }
{
    match request {
        Request::PutTransmission {
            sender,
            number,
            body,
        } => match desk.put_transmission(alloc, sender, *number, body) {
            Ok(arrival) => Answer::Arrived(arrival),
            Err(refusal) => Answer::Refused(refusal),
        },
        Request::PutEnd { sender, end } => match desk.put_end(alloc, sender, end) {
            Ok((receipt, front)) => Answer::Ended(receipt, front),
            Err(refusal) => Answer::Refused(refusal),
        },
        Request::FaultyEnd { fault } => Answer::Refused(Refusal::End(*fault)),
        Request::PutReturn { key, body } => match desk.put_return(alloc, key, body) {
            Ok(receipt) => Answer::Stored(receipt),
            Err(refusal) => Answer::Refused(refusal),
        },
        Request::ClosePool { pool, order } => match desk.close_pool(alloc, *pool, order) {
            Ok(receipt) => Answer::Closed(receipt, *pool),
            Err(refusal) => Answer::Refused(refusal),
        },
        Request::FaultyOrder { fault } => Answer::Refused(Refusal::Order(*fault)),
        Request::Show(inquiry) => match desk.look_up(alloc, inquiry) {
            Ok(showing) => Answer::Showed(showing),
            Err(refusal) => Answer::Refused(refusal),
        },
        Request::Elsewhere => Answer::Refused(Refusal::Unknown),
    }
}

/// Answers a list of requests, one after another: room for all answers is taken first, and where that is
/// refused no request was taken and all is as before.
pub fn run<S: Store>(
    alloc: Global,
    desk: &mut Desk<S>,
    requests: &[Request<'_>],
    answers: &mut Vec<Answer>,
) -> Result<(), AllocError>
    ensures ran { OnOk result (AppendsAnswers (S.state desk.old) (S.state desk.new) requests.now answers.old.items answers.new.items) }
    // Whatever was lost, repeated or reordered, the book holds exactly what came, each content once.
    ensures headline { OnOk result (TellsWhatStoreHolds (S.state desk.old) (S.state desk.new) requests.now answers.old.items answers.new.items) }
    // The books before and after are sound, whatever was asked.
    ensures sound { IsTrue (S.state desk.new).is_clean → IsSound (S.state desk.old).book × IsSound (S.state desk.new).book }
    ensures office { (S.state desk.new).office ≡ (S.state desk.old).office }
    ensures clean { IsTrue (S.state desk.new).is_clean → IsTrue (S.state desk.old).is_clean }
    ensures stays { StaysClean (S.state desk.old) (S.state desk.new) }
    ensures err { OnErr result ((desk.new ≡ desk.old) × (answers.new.items ≡ answers.old.items)) }
{
    answers.reserve(requests.len())?;
    for request in requests {
        let answer = answer(alloc, desk, request);
        answers.push(answer).unwrap();
    }
    Ok(())
}
