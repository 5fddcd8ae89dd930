//! An order on a line.
ghost use Rattle.std.specs.Prelude.{◌≡◌, IfOk, None, option_map};
ghost use Rattle.http_text.specs.OrderText.{order_with};
ghost use Rattle.serde_json.specs.View.{view};
ghost use Rattle.credit_listing.specs.Spelled.{IsSetOf, ReadsAs, order_on_line, recording_named, recordings_named, spelled_for, spelled_with};

use http_text::{order_with, value_of};
use serde_json::Value;
use society_core::{OrderFault, PoolOrder};
use std::alloc::{AllocError, Global};
use std::collections::BTreeSet;
use work_ids::Isrc;

/// The member by which a line names the recordings that it wants.
const RECORDINGS: &str = "isrcs";

/// An order, and the recordings that are wanted of it: all where none are named.
#[derive(Drop)]
pub(crate) struct OrderLine {
    pub order: PoolOrder,
    pub wanted: Option<BTreeSet<Isrc>>,
}

// The recording that a value names.
fn recording(value: &Value) -> Option<Isrc>
    ensures { result ≡ recording_named (view value.now) }
{
    let text = value.as_str()?;
    Isrc::from_text(text.as_bytes()).ok()
}

// The recordings that an array names, where all its elements name one.
fn recordings_of(alloc: Global, value: &Value) -> Result<Option<Vec<Isrc>>, AllocError>
    ensures { IfOk result (λ named. option_map (λ v. v.items) named ≡ recordings_named (view value.now)) }
{
    let Some(list) = value.as_array() else {
        return Ok(None);
    };
    let mut recordings = Vec::new(alloc);
    for entry in list {
        let Some(isrc) = recording(entry) else {
            return Ok(None);
        };
        recordings.push(isrc)?;
    }
    Ok(Some(recordings))
}

// The set of these recordings.
fn set_of(alloc: Global, recordings: &[Isrc]) -> Result<BTreeSet<Isrc>, AllocError>
    ensures { IfOk result (IsSetOf recordings.now) }
{
    let mut set = BTreeSet::new(alloc);
    for isrc in recordings {
        set.insert(*isrc)?;
    }
    Ok(set)
}

// The order of a line that names the recordings that it wants.
fn order_for(
    alloc: Global,
    value: &Value,
    named: &Value,
) -> Result<Result<OrderLine, OrderFault>, AllocError>
    ensures { IfOk result (ReadsAs (spelled_for (view value.now) (recordings_named (view named.now)))) }
{
    let Some(recordings) = recordings_of(alloc, named)? else {
        return Ok(Err(OrderFault::Shape));
    };
    let wanted = set_of(alloc, &recordings)?;
    match order_with(alloc, value, 1)? {
        Ok(order) => Ok(Ok(OrderLine {
            order,
            wanted: Some(wanted),
        })),
        Err(fault) => Ok(Err(fault)),
    }
}

// The order of a line that wants all recordings.
fn order_for_all(alloc: Global, value: &Value) -> Result<Result<OrderLine, OrderFault>, AllocError>
    ensures { IfOk result (ReadsAs (spelled_with None (order_with 0 (view value.now)))) }
{
    match order_with(alloc, value, 0)? {
        Ok(order) => Ok(Ok(OrderLine {
            order,
            wanted: None,
        })),
        Err(fault) => Ok(Err(fault)),
    }
}

/// The order that a line spells in JSON, or its least fault.
pub(crate) fn order_in(
    alloc: Global,
    line: &[u8],
) -> Result<Result<OrderLine, OrderFault>, AllocError>
    ensures { IfOk result (ReadsAs (order_on_line line.now)) }
{
    let Some(value) = value_of(alloc, line)? else {
        return Ok(Err(OrderFault::Shape));
    };
    match value.get(RECORDINGS) {
        Some(named) => order_for(alloc, &value, named),
        None => order_for_all(alloc, &value),
    }
}
