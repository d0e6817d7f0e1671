//! Requests for code actions read (LSP 3.17, CodeActionParams).
ghost use Rattle.std.specs.Prelude.{◌≡◌, map, IfOk, Some};
ghost use Rattle.serde_json.specs.View.{view, items_of};
ghost use Rattle.gq_rpc.specs.Decoding.{strings_from, only_of, context_from, context_in, code_action_in};

use crate::messages::{CodeActionContext, CodeActionParams, Question};
use crate::parameters::{find_optional, find_parameter, read_key, read_range};
use gq_text::{Items, NoMemory, OwnedText};
use serde_json::Value;
use std::alloc::Global;

/// The strings that values are, unless one of them is none.
fn read_strings(alloc: Global, values: &[Value]) -> Result<Option<Items<OwnedText>>, NoMemory>
    ensures { IfOk result (λ strings. strings ≡ strings_from (items_of (map view values.now))) }
{
    let mut strings = Items::new(alloc);
    for value in values {
        let Some(text) = value.as_str() else {
            return Ok(None);
        };
        strings.push(OwnedText::from_str(alloc, text)?)?;
    }
    Ok(Some(strings))
}

/// The kinds that are asked for, unless they are no array of strings.
fn read_only(alloc: Global, kinds: &Value) -> Result<Option<CodeActionContext>, NoMemory>
    ensures { IfOk result (λ context. context ≡ only_of (Some (view kinds.now))) }
{
    let Some(values) = kinds.as_array() else {
        return Ok(None);
    };
    match read_strings(alloc, values.as_slice())? {
        Some(names) => Ok(Some(CodeActionContext { only: Some(names) })),
        None => Ok(None),
    }
}

/// The context that a value is, if it is one.
fn read_context(alloc: Global, value: &Value) -> Result<Option<CodeActionContext>, NoMemory>
    ensures { IfOk result (λ context. context ≡ context_from (view value.now)) }
{
    if !value.is_object() {
        return Ok(None);
    }
    match find_optional(value, "only") {
        Some(kinds) => read_only(alloc, kinds),
        None => Ok(Some(CodeActionContext { only: None })),
    }
}

/// The context of a message.
fn read_context_in(alloc: Global, message: &Value) -> Result<Option<CodeActionContext>, NoMemory>
    ensures { IfOk result (λ context. context ≡ context_in (view message.now)) }
{
    match find_parameter(message, "context") {
        Some(value) => read_context(alloc, value),
        None => Ok(None),
    }
}

/// The code actions that are asked for.
pub fn read_code_action(alloc: Global, message: &Value) -> Result<Option<Question>, NoMemory>
    ensures { IfOk result (λ question. question ≡ code_action_in (view message.now)) }
{
    let Some(key) = read_key(alloc, message)? else {
        return Ok(None);
    };
    let Some(range) = find_parameter(message, "range").and_then(read_range) else {
        return Ok(None);
    };
    let Some(context) = read_context_in(alloc, message)? else {
        return Ok(None);
    };
    Ok(Some(Question::CodeAction(CodeActionParams {
        key,
        range,
        only: context.only,
    })))
}
