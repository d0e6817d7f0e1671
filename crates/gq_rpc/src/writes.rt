//! Messages written: from a message to the bytes of its frame.
ghost use Rattle.std.specs.Prelude.{◌≡◌, ◌++◌, [], true, codes, IfOk};
ghost use Rattle.std.specs.Fmt.{signed_decimal};
ghost use Rattle.json.specs.Print.{quoted};
ghost use Rattle.serde_json.specs.Data.{Data};
ghost use Rattle.serde_json.specs.View.{view};
ghost use Rattle.serde_json.specs.Written.{compact_text, members_text};
ghost use Rattle.gq_rpc.specs.Encoding.{id_value, id_or_null, response, error_response, code_of, words_of, version_members, diagnostics_value, told, value_of, frame_of};

use crate::capabilities::write_initialize_result;
use crate::edits::write_workspace_edit;
use crate::framer::framed;
use crate::messages::{Id, Outgoing, PublishDiagnosticsParams, ResponseError};
use crate::results::{
    write_code_actions, write_completions, write_diagnostics, write_found_hover,
    write_found_prepared, write_locations,
};
use gq_text::NoMemory;
use json::Writer;
use serde_json::{Value, json};
use std::alloc::{AllocError, Global};

fn write_id(alloc: Global, id: &Id) -> Result<Value, AllocError>
    ensures { IfOk result (λ v. view v ≡ id_value id.now) }
{
    match id {
        Id::Number(n) => Ok(Value::from(*n)),
        Id::Text(text) => Value::try_from_str(alloc, text.as_str()),
    }
}

fn write_optional_id(alloc: Global, id: &Option<Id>) -> Result<Value, AllocError>
    ensures { IfOk result (λ v. view v ≡ id_or_null id.now) }
{
    match id {
        Some(id) => write_id(alloc, id),
        None => Ok(Value::Null),
    }
}

/// A response with a result.
fn write_response(alloc: Global, id: &Id, result_value: Value) -> Result<Value, AllocError>
    ensures { IfOk result (λ v. view v ≡ response id.now (view result_value)) }
{
    let id_value = write_id(alloc, id)?;
    json!(in alloc; {"id": id_value, "jsonrpc": "2.0", "result": result_value})
}

fn error_code(error: &ResponseError) -> i64
    ensures { result ≡ code_of error.now }
{
    match error {
        ResponseError::ParseError => -32700,
        ResponseError::InvalidRequest => -32600,
        ResponseError::MethodNotFound => -32601,
        ResponseError::InvalidParams => -32602,
        ResponseError::NotInitialized => -32002,
        ResponseError::Cancelled => -32800,
        ResponseError::ContentModified => -32801,
        ResponseError::RequestFailed(_) => -32803,
    }
}

fn error_words(error: &ResponseError) -> &str
    ensures { result.now ≡ words_of error.now }
{
    match error {
        ResponseError::ParseError => "parse error",
        ResponseError::InvalidRequest => "invalid request",
        ResponseError::MethodNotFound => "method not found",
        ResponseError::InvalidParams => "invalid params",
        ResponseError::NotInitialized => "not initialized",
        ResponseError::Cancelled => "cancelled",
        ResponseError::ContentModified => "content modified",
        ResponseError::RequestFailed(why) => why.as_str(),
    }
}

/// A response with an error.
fn write_error(alloc: Global, id: &Option<Id>, error: &ResponseError) -> Result<Value, AllocError>
    ensures { IfOk result (λ v. view v ≡ error_response id.now (code_of error.now) (words_of error.now)) }
{
    let id_value = write_optional_id(alloc, id)?;
    let code = error_code(error);
    let words = error_words(error);
    json!(in alloc; {
        "error": {"code": code, "message": words},
        "id": id_value,
        "jsonrpc": "2.0"
    })
}

/// The notification of a document's diagnostics.
fn write_publish(alloc: Global, params: &PublishDiagnosticsParams) -> Result<Value, AllocError>
    ensures { IfOk result (λ v. view v ≡ told (codes "textDocument/publishDiagnostics") (diagnostics_value params.now)) }
{
    let params = write_diagnostics(alloc, params)?;
    json!(in alloc; {
        "jsonrpc": "2.0",
        "method": "textDocument/publishDiagnostics",
        "params": params
    })
}

/// A message as JSON.
fn write_value(alloc: Global, message: &Outgoing) -> Result<Value, AllocError>
    ensures { IfOk result (λ v. view v ≡ value_of message.now) }
{
    match message {
        Outgoing::Initialized(id, capabilities) => {
            write_response(alloc, id, write_initialize_result(alloc, *capabilities)?)
        }
        Outgoing::ShutDown(id) => write_response(alloc, id, Value::Null),
        Outgoing::Completions(id, completions) => {
            write_response(alloc, id, write_completions(alloc, completions.as_slice())?)
        }
        Outgoing::Hover(id, found) => {
            write_response(alloc, id, write_found_hover(alloc, found)?)
        }
        Outgoing::Locations(id, locations) => {
            write_response(alloc, id, write_locations(alloc, locations.as_slice())?)
        }
        Outgoing::Prepared(id, found) => {
            write_response(alloc, id, write_found_prepared(alloc, found)?)
        }
        Outgoing::Renamed(id, edit) => {
            write_response(alloc, id, write_workspace_edit(alloc, edit)?)
        }
        Outgoing::CodeActions(id, actions) => {
            write_response(alloc, id, write_code_actions(alloc, actions.as_slice())?)
        }
        Outgoing::Error(id, error) => write_error(alloc, id, error),
        Outgoing::Diagnostics(params) => write_publish(alloc, params),
    }
}

/// Puts a text behind bytes, as a JSON string.
fn quoted_behind(bytes: Vec<u8>, text: &str) -> Result<Vec<u8>, AllocError>
    ensures { IfOk result (λ all. all.items ≡ bytes.items ++ quoted text.now) }
{
    let mut out = Writer::new(bytes);
    out.string(text)?;
    Ok(out.into_inner())
}

/// Puts a number behind bytes.
fn number_behind(bytes: Vec<u8>, number: i64) -> Result<Vec<u8>, AllocError>
    ensures { IfOk result (λ all. all.items ≡ bytes.items ++ signed_decimal number) }
{
    let mut out = Writer::new(bytes);
    out.i64(number)?;
    Ok(out.into_inner())
}

/// Puts a version behind a member, as the last member of an object, where there is one, and ends the object.
fn version_behind(mut bytes: Vec<u8>, version: Option<i64>) -> Result<Vec<u8>, AllocError>
    ensures { IfOk result (λ all. all.items ≡ bytes.items ++ members_text true (version_members version)) }
{
    if let Some(version) = version {
        bytes.extend_from_slice(b",\"version\":")?;
        bytes = number_behind(bytes, version)?;
    }
    bytes.extend_from_slice(b"}")?;
    Ok(bytes)
}

/// The compact JSON text of the notification that a document has no diagnostics. Nearly every open document gets one after each change,
/// so no `Value` is made for it, and what is the same in all of them is put there whole.
fn write_faultless(alloc: Global, params: &PublishDiagnosticsParams) -> Result<Vec<u8>, AllocError>
    ensures { IfOk result (λ bytes. params.now.diagnostics ≡ []
        → bytes.items ≡ compact_text (told (codes "textDocument/publishDiagnostics") (diagnostics_value params.now))) }
{
    // The rest is at most 128 bytes.
    let room = params.uri.as_str().len().saturating_add(144);
    let mut bytes = Vec::with_capacity(alloc, room)?;
    bytes.extend_from_slice(
        b"{\"jsonrpc\":\"2.0\",\"method\":\"textDocument/publishDiagnostics\",\"params\":{\"diagnostics\":[],\"uri\":",
    )?;
    let bytes = quoted_behind(bytes, params.uri.as_str())?;
    let mut bytes = version_behind(bytes, params.version)?;
    bytes.extend_from_slice(b"}")?;
    Ok(bytes)
}

/// The compact JSON text of a message.
fn write_body(alloc: Global, message: &Outgoing) -> Result<Vec<u8>, AllocError>
    ensures { IfOk result (λ bytes. bytes.items ≡ compact_text (value_of message.now)) }
{
    match message {
        Outgoing::Diagnostics(params) if params.diagnostics.is_empty() => {
            write_faultless(alloc, params)
        }
        _ => write_value(alloc, message)?.to_vec(alloc),
    }
}

/// The frame of a message: a header part with `Content-Length` alone, and its compact JSON text.
pub fn encode(alloc: Global, message: &Outgoing) -> Result<Vec<u8>, NoMemory>
    ensures { IfOk result (λ bytes. bytes.items ≡ frame_of message.now) }
{
    let body = write_body(alloc, message)?;
    Ok(framed(alloc, &body)?)
}
