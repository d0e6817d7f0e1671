//! Parameters of messages: identifiers, documents, positions and ranges (LSP 3.17, "Basic JSON Structures").
ghost use Rattle.std.specs.Prelude.{◌≡◌, codes, IfOk, option_map, option_and_then};
ghost use Rattle.serde_json.specs.Find.{get};
ghost use Rattle.serde_json.specs.View.{view};
ghost use Rattle.gq_rpc.specs.Decoding.{id_of, id_in, parameter, document_member, string_in, uinteger_in, position_from, range_from, key_in, optional_in};

use crate::keys::key_of;
use crate::messages::Id;
use gq_text::{NoMemory, OwnedText, Position, Range};
use serde_json::Value;
use std::alloc::Global;

/// The integers that LSP calls `uinteger` lie below this.
const UINTEGER_END: u64 = 2_147_483_648;

/// The id that a value is, if it is one.
pub fn read_id(alloc: Global, value: &Value) -> Result<Option<Id>, NoMemory>
    ensures { IfOk result (λ name. name ≡ id_of (view value.now)) }
{
    match value {
        Value::Number(_) => match value.as_i64() {
            Some(n) => Ok(Some(Id::Number(n))),
            None => Ok(None),
        },
        Value::String(_) => match value.as_str() {
            Some(text) => Ok(Some(Id::Text(OwnedText::from_str(alloc, text)?))),
            None => Ok(None),
        },
        _ => Ok(None),
    }
}

/// The id of a message, where it has one that is an id.
pub fn read_id_in(alloc: Global, message: &Value) -> Result<Option<Id>, NoMemory>
    ensures { IfOk result (λ name. name ≡ id_in (view message.now)) }
{
    match message.get("id") {
        Some(id) => read_id(alloc, id),
        None => Ok(None),
    }
}

/// A parameter of a message.
pub fn find_parameter<'v>(message: &'v Value, name: &str) -> Option<&'v Value>
    ensures { option_map (λ v. view v.now) result ≡ parameter name.now (view message.now) }
{
    message.get("params")?.get(name)
}

/// A member of the parameter `textDocument`.
pub fn find_document_member<'v>(message: &'v Value, name: &str) -> Option<&'v Value>
    ensures { option_map (λ v. view v.now) result ≡ document_member name.now (view message.now) }
{
    find_parameter(message, "textDocument")?.get(name)
}

/// A member that may be left out: null counts as missing.
pub fn find_optional<'v>(value: &'v Value, name: &str) -> Option<&'v Value>
    ensures { option_map (λ v. view v.now) result ≡ optional_in (get name.now (view value.now)) }
{
    let member = value.get(name)?;
    if member.is_null() { None } else { Some(member) }
}

/// A coordinate of a position.
fn read_coordinate(position: &Value, name: &str) -> Option<u32>
    ensures { result ≡ uinteger_in (get name.now (view position.now)) }
{
    let n = position.get(name).and_then(Value::as_u64)?;
    if n < UINTEGER_END {
        Some(n as u32)
    } else {
        None
    }
}

/// The position that a value is, if it is one.
pub fn read_position(value: &Value) -> Option<Position>
    ensures { result ≡ position_from (view value.now) }
{
    let line = read_coordinate(value, "line")?;
    let character = read_coordinate(value, "character")?;
    Some(Position { line, character })
}

/// The range that a value is, if it is one.
pub fn read_range(value: &Value) -> Option<Range>
    ensures { result ≡ range_from (view value.now) }
{
    let start = value.get("start").and_then(read_position)?;
    let end = value.get("end").and_then(read_position)?;
    Some(Range { start, end })
}

/// The key of the document that a message names.
pub fn read_key(alloc: Global, message: &Value) -> Result<Option<OwnedText>, NoMemory>
    ensures { IfOk result (λ key. key ≡ key_in (view message.now)) }
{
    match find_document_member(message, "uri").and_then(Value::as_str) {
        Some(uri) => key_of(alloc, uri),
        None => Ok(None),
    }
}
