//! Ends of segments that are spelled in JSON.
ghost use Rattle.std.specs.Prelude.{◌≡◌, option_and_then, IfOk};
ghost use Rattle.serde_json.specs.View.{view};
ghost use Rattle.society_core.specs.Requests.{query_of};
ghost use Rattle.http_text.specs.EndText.{end_numbers_in, state_query};
ghost use Rattle.http_text.specs.JsonBodies.{json_of};

use crate::json_body::{has_members, value_of, whole_member};
use serde_json::Value;
use society_core::{EndFault, Request};
use std::alloc::{AllocError, Global};
use work_ids::{Segment, SegmentEnd, SenderKey};

/// Members of an end.
const MEMBERS: usize = 2;

// The last number and the next year, where the value has the shape of an end.
fn end_numbers_of(value: &Value) -> Option<(u64, u64)>
    ensures { result ≡ end_numbers_in (view value.now) }
{
    if !has_members(value, MEMBERS) {
        return None;
    }
    let last = whole_member(value, "last")?;
    let next = whole_member(value, "next")?;
    Some((last, next))
}

// The numbers that a body spells.
fn end_numbers_in(alloc: Global, body: &[u8]) -> Result<Option<(u64, u64)>, AllocError>
    ensures { IfOk result (λ numbers. numbers ≡ option_and_then end_numbers_in (json_of body.now)) }
{
    let Some(value) = value_of(alloc, body)? else {
        return Ok(None);
    };
    Ok(end_numbers_of(&value))
}

/// What a put of a segment asks by its body: to take down the end of it, or the end's least fault. `AllocError` where memory
/// is refused while it is read.
pub(crate) fn state_by<'b>(
    alloc: Global,
    sender: SenderKey,
    segment: Segment,
    body: &[u8],
) -> Result<Request<'b>, AllocError>
    ensures { IfOk result (λ request. query_of request ≡ state_query sender segment body.now) }
{
    let Some((last, next)) = end_numbers_in(alloc, body)? else {
        return Ok(Request::FaultyEnd {
            fault: EndFault::Shape,
        });
    };
    match SegmentEnd::new(segment, last, next) {
        Ok(end) => Ok(Request::PutEnd { sender, end }),
        Err(fault) => Ok(Request::FaultyEnd {
            fault: EndFault::Numbers(fault),
        }),
    }
}
