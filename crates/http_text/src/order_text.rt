//! Orders that are spelled in JSON.
ghost use Rattle.std.specs.Prelude.{◌≡◌, ◌<◌, IfOk};
ghost use Rattle.std.specs.Option.{option_map};
ghost use Rattle.serde_json.specs.Find.{as_array};
ghost use Rattle.serde_json.specs.View.{view};
ghost use Rattle.society_core.specs.Requests.{query_of};
ghost use Rattle.http_text.specs.JsonBodies.{whole_in};
ghost use Rattle.http_text.specs.OrderText.{are_two, close_query, kind_in, kind_named, members_of_order, named_numbers_in, numbers_with, order_with, pair_in, rank_in_value, rank_spelled, return_named, sender_named, spelled_in};
ghost use Rattle.http_text.specs.OrderRead.{numbers_read};

use crate::json_body::{has_members, value_of, whole_member};
use serde_json::Value;
use share_rules::Kind;
use society_core::{OrderError, OrderFault, PoolOrder, Request};
use std::alloc::{AllocError, Global};
use work_ids::{PoolNumber, Reporter, SenderKey, SpelledNumber};

/// Members of an order that does not name its kind.
const MEMBERS: usize = 3;

/// The member by which an order names its kind.
const KIND: &str = "kind";

/// The names of the two rights (CISAC CWR 2.2).
const PERFORMING: &str = "PR";

const MECHANICAL: &str = "MR";

/// Elements of an entry of a cut, or of the list of returns.
const ELEMENTS: usize = 2;

// What an order's JSON spells, whatever its limits: the right that its pool pays and its numbers, those of the cut by their
// ranks.
#[derive(Drop)]
pub(crate) struct Numbers {
    kind: Kind,
    amount: u64,
    cut: Vec<(SenderKey, u64)>,
    returns: Vec<(Reporter, u64)>,
}

// Whether a value is an array of two elements.
fn is_array_of_two(value: &Value) -> bool
    ensures { result ≡ are_two (as_array (view value.now)) }
{
    match value.as_array() {
        Some(elements) => elements.len() == ELEMENTS,
        None => false,
    }
}

// The number that a value spells: a whole number, or a text of one of a year.
fn spelled_number(value: &Value) -> Option<SpelledNumber>
    ensures { result ≡ spelled_in (view value.now) }
{
    if let Some(number) = value.as_u64() {
        return Some(SpelledNumber::Plain(number));
    }
    let text = value.as_str()?;
    SpelledNumber::from_text(text.as_bytes())
}

// The rank of what is spelled; 0, which is out of range, where it is no number of a transmission.
fn rank_of(spelled: SpelledNumber) -> u64
    ensures { result ≡ rank_spelled spelled }
{
    match spelled.number() {
        Some(number) => u64::from(number.value()),
        None => 0,
    }
}

// The rank of the number that a value spells.
fn rank(value: &Value) -> Option<u64>
    ensures { result ≡ rank_in_value (view value.now) }
{
    let spelled = spelled_number(value)?;
    Some(rank_of(spelled))
}

// A text and the rank of a number, where the value is an array of the two.
fn pair_of_rank(value: &Value) -> Option<(&str, u64)>
    ensures { option_map (λ pair. (pair.0.now, pair.1)) result ≡ pair_in rank_in_value (view value.now) }
{
    if !is_array_of_two(value) {
        return None;
    }
    let name = value.get(0usize).and_then(Value::as_str)?;
    let number = value.get(1usize).and_then(rank)?;
    Some((name, number))
}

// A text and a whole number, where the value is an array of the two.
fn pair(value: &Value) -> Option<(&str, u64)>
    ensures { option_map (λ pair. (pair.0.now, pair.1)) result ≡ pair_in whole_in (view value.now) }
{
    if !is_array_of_two(value) {
        return None;
    }
    let name = value.get(0usize).and_then(Value::as_str)?;
    let number = value.get(1usize).and_then(Value::as_u64)?;
    Some((name, number))
}

// A sender and the rank of a number.
fn numbered_sender(value: &Value) -> Option<(SenderKey, u64)>
    ensures { result ≡ sender_named (view value.now) }
{
    let (name, number) = pair_of_rank(value)?;
    let sender = SenderKey::from_bytes(name.as_bytes()).ok()?;
    Some((sender, number))
}

// A reporter and a number.
fn numbered_reporter(value: &Value) -> Option<(Reporter, u64)>
    ensures { result ≡ return_named (view value.now) }
{
    let (name, number) = pair(value)?;
    let reporter = Reporter::from_bytes(name.as_bytes()).ok()?;
    Some((reporter, number))
}

// The cut of an order.
fn cut_of(alloc: Global, value: &Value) -> Result<Option<Vec<(SenderKey, u64)>>, AllocError>
    ensures { IfOk result (λ cut.
        option_map (λ v. v.items) cut ≡ named_numbers_in sender_named (view value.now)) }
{
    let Some(list) = value.as_array() else {
        return Ok(None);
    };
    let mut cut = Vec::new(alloc);
    for entry in list {
        let Some(named) = numbered_sender(entry) else {
            return Ok(None);
        };
        cut.push(named)?;
    }
    Ok(Some(cut))
}

// The returns of an order.
fn returns_of(alloc: Global, value: &Value) -> Result<Option<Vec<(Reporter, u64)>>, AllocError>
    ensures { IfOk result (λ returns.
        option_map (λ v. v.items) returns ≡ named_numbers_in return_named (view value.now)) }
{
    let Some(list) = value.as_array() else {
        return Ok(None);
    };
    let mut returns = Vec::new(alloc);
    for entry in list {
        let Some(named) = numbered_reporter(entry) else {
            return Ok(None);
        };
        returns.push(named)?;
    }
    Ok(Some(returns))
}

// The right that a text names.
fn kind_named(text: &str) -> Option<Kind>
    ensures { result ≡ kind_named text.now }
{
    if text == PERFORMING {
        return Some(Kind::Performing);
    }
    if text == MECHANICAL {
        return Some(Kind::Mechanical);
    }
    None
}

// The right that an order names: performance where it names none.
fn kind_of(value: &Value) -> Option<Kind>
    ensures { result ≡ kind_in (view value.now) }
{
    match value.get(KIND) {
        Some(kind) => kind.as_str().and_then(kind_named),
        None => Some(Kind::Performing),
    }
}

// How many members an order has, the kind where it names it among them.
fn members_of_order(value: &Value) -> usize
    ensures { result ≡ members_of_order (view value.now) }
{
    match value.get(KIND) {
        Some(_) => MEMBERS + 1,
        None => MEMBERS,
    }
}

// The kind and the numbers of an order, where the value has the shape of one with so many members more.
fn numbers_of(alloc: Global, value: &Value, more: usize) -> Result<Option<Numbers>, AllocError>
    requires { more < 1000 }
    ensures { IfOk result (λ numbers. option_map numbers_read numbers ≡ numbers_with more (view value.now)) }
{
    if !has_members(value, members_of_order(value) + more) {
        return Ok(None);
    }
    let Some(kind) = kind_of(value) else {
        return Ok(None);
    };
    let Some(amount) = whole_member(value, "amount") else {
        return Ok(None);
    };
    let Some(cut) = value.get("cut") else {
        return Ok(None);
    };
    let Some(cut) = cut_of(alloc, cut)? else {
        return Ok(None);
    };
    let Some(returns) = value.get("returns") else {
        return Ok(None);
    };
    let Some(returns) = returns_of(alloc, returns)? else {
        return Ok(None);
    };
    Ok(Some(Numbers {
        kind,
        amount,
        cut,
        returns,
    }))
}

/// The order that a value spells with so many members more, or its least fault. `AllocError` where memory is refused.
pub fn order_with(
    alloc: Global,
    value: &Value,
    more: usize,
) -> Result<Result<PoolOrder, OrderFault>, AllocError>
    requires { more < 1000 }
    ensures { IfOk result (λ order. order ≡ order_with more (view value.now)) }
{
    let Some(numbers) = numbers_of(alloc, value, more)? else {
        return Ok(Err(OrderFault::Shape));
    };
    match PoolOrder::new(
        alloc,
        numbers.kind,
        numbers.amount,
        &numbers.cut,
        &numbers.returns,
    ) {
        Ok(order) => Ok(Ok(order)),
        Err(OrderError::Order(fault)) => Ok(Err(fault)),
        Err(OrderError::Memory) => Err(AllocError),
    }
}

/// What a put of a pool asks by its body: to close it by an order, or its least fault. `AllocError` where memory is
/// refused while it is read.
pub(crate) fn close_by<'b>(
    alloc: Global,
    pool: PoolNumber,
    body: &[u8],
) -> Result<Request<'b>, AllocError>
    ensures { IfOk result (λ request. query_of request ≡ close_query pool body.now) }
{
    let Some(value) = value_of(alloc, body)? else {
        return Ok(Request::FaultyOrder {
            fault: OrderFault::Shape,
        });
    };
    match order_with(alloc, &value, 0)? {
        Ok(order) => Ok(Request::ClosePool { pool, order }),
        Err(fault) => Ok(Request::FaultyOrder { fault }),
    }
}
