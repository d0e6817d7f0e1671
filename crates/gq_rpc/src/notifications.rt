//! Notifications read: documents that are opened, changed and closed, and requests that are taken back.
ghost use Rattle.std.specs.Prelude.{◌≡◌, map, IfOk};
ghost use Rattle.serde_json.specs.View.{view, items_of};
ghost use Rattle.gq_rpc.specs.Decoding.{open_in, change_from, changes_from, changes_in, changed_in, closed_of, key_in, cancelled_in, notification_of};

use crate::messages::{DidChangeParams, Notification, TextDocumentItem};
use crate::parameters::{
    find_document_member, find_optional, find_parameter, read_id, read_key, read_range,
};
use gq_text::{Change, Items, NoMemory, OwnedText};
use serde_json::Value;
use std::alloc::Global;

/// The document that is opened.
fn read_open(alloc: Global, message: &Value) -> Result<Notification, NoMemory>
    ensures { IfOk result (λ notification. notification ≡ open_in (view message.now)) }
{
    let Some(uri) = find_document_member(message, "uri").and_then(Value::as_str) else {
        return Ok(Notification::Unknown);
    };
    let Some(key) = read_key(alloc, message)? else {
        return Ok(Notification::Unknown);
    };
    let Some(version) = find_document_member(message, "version").and_then(Value::as_i64) else {
        return Ok(Notification::Unknown);
    };
    let Some(text) = find_document_member(message, "text").and_then(Value::as_str) else {
        return Ok(Notification::Unknown);
    };
    Ok(Notification::DidOpen(TextDocumentItem {
        key,
        uri: OwnedText::from_str(alloc, uri)?,
        version,
        text: OwnedText::from_str(alloc, text)?,
    }))
}

/// The change that a value is, if it is one.
fn read_change(alloc: Global, value: &Value) -> Result<Option<Change>, NoMemory>
    ensures { IfOk result (λ change. change ≡ change_from (view value.now)) }
{
    let Some(text) = value.get("text").and_then(Value::as_str) else {
        return Ok(None);
    };
    let Some(range) = find_optional(value, "range") else {
        return Ok(Some(Change::Whole(OwnedText::from_str(alloc, text)?)));
    };
    match read_range(range) {
        Some(range) => Ok(Some(Change::Part(range, OwnedText::from_str(alloc, text)?))),
        None => Ok(None),
    }
}

/// The changes that values are, unless one of them is none.
fn read_changes(alloc: Global, values: &[Value]) -> Result<Option<Items<Change>>, NoMemory>
    ensures { IfOk result (λ changes. changes ≡ changes_from (items_of (map view values.now))) }
{
    let mut changes = Items::new(alloc);
    for value in values {
        let Some(change) = read_change(alloc, value)? else {
            return Ok(None);
        };
        changes.push(change)?;
    }
    Ok(Some(changes))
}

/// The changes that a message tells.
fn read_changes_in(alloc: Global, message: &Value) -> Result<Option<Items<Change>>, NoMemory>
    ensures { IfOk result (λ changes. changes ≡ changes_in (view message.now)) }
{
    match find_parameter(message, "contentChanges").and_then(Value::as_array) {
        Some(values) => read_changes(alloc, values.as_slice()),
        None => Ok(None),
    }
}

/// The document that is changed, and how.
fn read_changed(alloc: Global, message: &Value) -> Result<Notification, NoMemory>
    ensures { IfOk result (λ notification. notification ≡ changed_in (view message.now)) }
{
    let Some(key) = read_key(alloc, message)? else {
        return Ok(Notification::Unknown);
    };
    Ok(Notification::DidChange(DidChangeParams {
        key,
        version: find_document_member(message, "version").and_then(Value::as_i64),
        changes: read_changes_in(alloc, message)?,
    }))
}

/// The document that is closed.
fn read_closed(alloc: Global, message: &Value) -> Result<Notification, NoMemory>
    ensures { IfOk result (λ notification. notification ≡ closed_of (key_in (view message.now))) }
{
    match read_key(alloc, message)? {
        Some(key) => Ok(Notification::DidClose(key)),
        None => Ok(Notification::Unknown),
    }
}

/// The request that is taken back.
fn read_cancelled(alloc: Global, message: &Value) -> Result<Notification, NoMemory>
    ensures { IfOk result (λ notification. notification ≡ cancelled_in (view message.now)) }
{
    let Some(id) = find_parameter(message, "id") else {
        return Ok(Notification::Unknown);
    };
    match read_id(alloc, id)? {
        Some(id) => Ok(Notification::Cancel(id)),
        None => Ok(Notification::Unknown),
    }
}

/// Which notification this is.
pub fn read_notification(
    alloc: Global,
    method: &str,
    message: &Value,
) -> Result<Notification, NoMemory>
    ensures { IfOk result (λ notification. notification ≡ notification_of method.now (view message.now)) }
{
    if method == "exit" {
        return Ok(Notification::Exit);
    }
    if method == "$/cancelRequest" {
        return read_cancelled(alloc, message);
    }
    if method == "textDocument/didOpen" {
        return read_open(alloc, message);
    }
    if method == "textDocument/didChange" {
        return read_changed(alloc, message);
    }
    if method == "textDocument/didClose" {
        return read_closed(alloc, message);
    }
    Ok(Notification::Unknown)
}
