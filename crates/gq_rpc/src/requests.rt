//! Requests read: what a client says that it can do, and what it asks about open documents.
ghost use Rattle.std.specs.Prelude.{◌≡◌, map, codes, IfOk, option_map, option_and_then};
ghost use Rattle.serde_json.specs.View.{view, items_of};
ghost use Rattle.gq_rpc.specs.Decoding.{member_in, capability, edit_capability, document_capability, is_true_in, is_object_in, takes_code_actions, encoding_named, first_encoding, position_encoding_in, boolean_in, parameter, client_capabilities_of, place_in, references_in, rename_in, asked, question_of, request_of};

use crate::code_actions::read_code_action;
use crate::messages::{
    ClientCapabilities, Question, ReferenceParams, RenameParams, Request,
    TextDocumentPositionParams,
};
use crate::parameters::{find_parameter, read_key, read_position};
use gq_text::{NoMemory, OwnedText, PositionEncoding};
use serde_json::Value;
use std::alloc::Global;

/// A capability of the client.
fn find_capability<'v>(message: &'v Value, name: &str) -> Option<&'v Value>
    ensures { option_map (λ v. view v.now) result ≡ capability name.now (view message.now) }
{
    find_parameter(message, "capabilities")?.get(name)
}

/// A capability of the client for edits.
fn find_edit_capability<'v>(message: &'v Value, name: &str) -> Option<&'v Value>
    ensures { option_map (λ v. view v.now) result ≡ edit_capability name.now (view message.now) }
{
    find_capability(message, "workspace")?
        .get("workspaceEdit")?
        .get(name)
}

/// A capability of the client for documents.
fn find_document_capability<'v>(message: &'v Value, name: &str) -> Option<&'v Value>
    ensures { option_map (λ v. view v.now) result ≡ document_capability name.now (view message.now) }
{
    find_capability(message, "textDocument")?.get(name)
}

/// Whether a capability of the client for documents is an object.
fn has_document_capability(message: &Value, name: &str) -> bool
    ensures { result ≡ is_object_in (document_capability name.now (view message.now)) }
{
    match find_document_capability(message, name) {
        Some(value) => value.is_object(),
        None => false,
    }
}

/// Whether edits of documents may have their versions.
fn takes_document_changes(message: &Value) -> bool
    ensures { result ≡ is_true_in (edit_capability (codes "documentChanges") (view message.now)) }
{
    find_edit_capability(message, "documentChanges")
        .and_then(Value::as_bool)
        .unwrap_or(false)
}

/// Whether the client asks what a rename would be of.
fn prepares_renames(message: &Value) -> bool
    ensures { result ≡ is_true_in (member_in (codes "prepareSupport")
        (document_capability (codes "rename") (view message.now))) }
{
    match find_document_capability(message, "rename") {
        Some(rename) => rename
            .get("prepareSupport")
            .and_then(Value::as_bool)
            .unwrap_or(false),
        None => false,
    }
}

/// Whether code actions need not be commands.
fn has_code_action_literals(message: &Value) -> bool
    ensures { result ≡ is_object_in (member_in (codes "codeActionLiteralSupport")
        (document_capability (codes "codeAction") (view message.now))) }
{
    match find_document_capability(message, "codeAction") {
        Some(actions) => actions
            .get("codeActionLiteralSupport")
            .is_some_and(Value::is_object),
        None => false,
    }
}

/// Whether code actions can hold edits with versions.
fn can_take_code_actions(message: &Value) -> bool
    ensures { result ≡ takes_code_actions (view message.now) }
{
    takes_document_changes(message) && has_code_action_literals(message)
}

/// The encoding of positions that a value names, if this server knows it.
fn read_encoding(value: &Value) -> Option<PositionEncoding>
    ensures { result ≡ encoding_named (view value.now) }
{
    let name = value.as_str()?;
    if name == "utf-8" {
        return Some(PositionEncoding::Utf8);
    }
    if name == "utf-16" {
        return Some(PositionEncoding::Utf16);
    }
    None
}

/// The first encoding that values name, else UTF-16.
fn read_first_encoding(values: &[Value]) -> PositionEncoding
    ensures { result ≡ first_encoding (items_of (map view values.now)) }
{
    for value in values {
        if let Some(encoding) = read_encoding(value) {
            return encoding;
        }
    }
    PositionEncoding::Utf16
}

/// What positions are counted in, where the client lists what it knows.
fn read_position_encoding(message: &Value) -> Option<PositionEncoding>
    ensures { result ≡ position_encoding_in (member_in (codes "positionEncodings")
        (capability (codes "general") (view message.now))) }
{
    let values = find_capability(message, "general")?
        .get("positionEncodings")?
        .as_array()?;
    Some(read_first_encoding(values.as_slice()))
}

/// What the client says that it can do.
fn read_client_capabilities(message: &Value) -> ClientCapabilities
    ensures { result ≡ client_capabilities_of (view message.now) }
{
    ClientCapabilities {
        document_changes: takes_document_changes(message),
        prepare_support: prepares_renames(message),
        code_actions: can_take_code_actions(message),
        completion: has_document_capability(message, "completion"),
        definition: has_document_capability(message, "definition"),
        hover: has_document_capability(message, "hover"),
        publish_diagnostics: has_document_capability(message, "publishDiagnostics"),
        references: has_document_capability(message, "references"),
        position_encoding: read_position_encoding(message),
    }
}

/// The place that is asked about.
fn read_place(
    alloc: Global,
    message: &Value,
) -> Result<Option<TextDocumentPositionParams>, NoMemory>
    ensures { IfOk result (λ place. place ≡ place_in (view message.now)) }
{
    let Some(key) = read_key(alloc, message)? else {
        return Ok(None);
    };
    let Some(position) = find_parameter(message, "position").and_then(read_position) else {
        return Ok(None);
    };
    Ok(Some(TextDocumentPositionParams { key, position }))
}

/// Whether the definitions are asked for too.
fn read_include_declaration(message: &Value) -> Option<bool>
    ensures { result ≡ boolean_in (member_in (codes "includeDeclaration")
        (parameter (codes "context") (view message.now))) }
{
    find_parameter(message, "context")?
        .get("includeDeclaration")?
        .as_bool()
}

/// The references that are asked for.
fn read_references(alloc: Global, message: &Value) -> Result<Option<Question>, NoMemory>
    ensures { IfOk result (λ question. question ≡ references_in (view message.now)) }
{
    let Some(place) = read_place(alloc, message)? else {
        return Ok(None);
    };
    let Some(include_declaration) = read_include_declaration(message) else {
        return Ok(None);
    };
    Ok(Some(Question::References(ReferenceParams {
        key: place.key,
        position: place.position,
        include_declaration,
    })))
}

/// The rename that is asked for.
fn read_rename(alloc: Global, message: &Value) -> Result<Option<Question>, NoMemory>
    ensures { IfOk result (λ question. question ≡ rename_in (view message.now)) }
{
    let Some(place) = read_place(alloc, message)? else {
        return Ok(None);
    };
    let Some(new_name) = find_parameter(message, "newName").and_then(Value::as_str) else {
        return Ok(None);
    };
    Ok(Some(Question::Rename(RenameParams {
        key: place.key,
        position: place.position,
        new_name: OwnedText::from_str(alloc, new_name)?,
    })))
}

/// The request of a question, where its parameters can be read.
fn ask(question: Option<Question>) -> Request
    ensures { result ≡ asked question }
{
    match question {
        Some(question) => Request::Ask(question),
        None => Request::InvalidParams,
    }
}

/// Which question this is.
fn read_question(alloc: Global, method: &str, message: &Value) -> Result<Request, NoMemory>
    ensures { IfOk result (λ request. request ≡ question_of method.now (view message.now)) }
{
    if method == "textDocument/completion" {
        return Ok(ask(read_place(alloc, message)?.map(Question::Completion)));
    }
    if method == "textDocument/definition" {
        return Ok(ask(read_place(alloc, message)?.map(Question::Definition)));
    }
    if method == "textDocument/hover" {
        return Ok(ask(read_place(alloc, message)?.map(Question::Hover)));
    }
    if method == "textDocument/prepareRename" {
        return Ok(ask(read_place(alloc, message)?.map(Question::PrepareRename)));
    }
    if method == "textDocument/references" {
        return Ok(ask(read_references(alloc, message)?));
    }
    if method == "textDocument/rename" {
        return Ok(ask(read_rename(alloc, message)?));
    }
    if method == "textDocument/codeAction" {
        return Ok(ask(read_code_action(alloc, message)?));
    }
    Ok(Request::Unknown)
}

/// Which request this is.
pub fn read_request(alloc: Global, method: &str, message: &Value) -> Result<Request, NoMemory>
    ensures { IfOk result (λ request. request ≡ request_of method.now (view message.now)) }
{
    if method == "initialize" {
        return Ok(Request::Initialize(read_client_capabilities(message)));
    }
    if method == "shutdown" {
        return Ok(Request::Shutdown);
    }
    read_question(alloc, method, message)
}
