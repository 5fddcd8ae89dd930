//! Bodies in JSON.
ghost use Rattle.std.specs.Prelude.{◌≡◌, IfOk};
ghost use Rattle.std.specs.Option.{option_map};
ghost use Rattle.serde_json.specs.Find.{as_object};
ghost use Rattle.serde_json.specs.View.{view};
ghost use Rattle.http_text.specs.JsonBodies.{has_members, json_of, whole_member};

use serde_json::Value;
use std::alloc::{AllocError, Global};

/// The value that a body is, where it is JSON in UTF-8.
pub fn value_of(alloc: Global, body: &[u8]) -> Result<Option<Value>, AllocError>
    ensures { IfOk result (λ value. option_map view value ≡ json_of body.now) }
{
    match Value::from_slice(alloc, body) {
        Ok(value) => Ok(Some(value)),
        Err(error) => {
            if error.is_memory() {
                return Err(AllocError);
            }
            Ok(None)
        }
    }
}

/// Whether a value is an object with so many members.
pub(crate) fn has_members(value: &Value, count: usize) -> bool
    ensures { result ≡ has_members count (as_object (view value.now)) }
{
    match value.as_object() {
        Some(members) => members.len() == count,
        None => false,
    }
}

/// The whole number of a member.
pub(crate) fn whole_member(value: &Value, key: &str) -> Option<u64>
    ensures { result ≡ whole_member key.now (view value.now) }
{
    value.get(key).and_then(Value::as_u64)
}
