//! Answers to questions, and diagnostics, written (LSP 3.17, "Language Features").
ghost use Rattle.std.specs.Prelude.{◌≡◌, List, ℕ, map, codes, IfOk};
ghost use Rattle.serde_json.specs.Data.{Data, array};
ghost use Rattle.serde_json.specs.View.{view, items_of};
ghost use Rattle.gq_rpc.specs.Encoding.{hover_value, hover_or_null, location_value, kind_number, completion_value, prepared_value, prepared_or_null, code_action_value, diagnostic_value, diagnostics_value};

use crate::edits::{write_range, write_workspace_edit};
use crate::messages::{
    CodeAction, CompletionItem, CompletionItemKind, Diagnostic, Hover, Location, PrepareRename,
    PublishDiagnosticsParams,
};
use serde_json::{Value, json};
use std::alloc::{AllocError, Global};

fn write_hover(alloc: Global, hover: &Hover) -> Result<Value, AllocError>
    ensures { IfOk result (λ v. view v ≡ hover_value hover.now) }
{
    let range = write_range(alloc, hover.range)?;
    json!(in alloc; {
        "contents": {"kind": "plaintext", "value": hover.value.as_str()},
        "range": range
    })
}

/// What is shown, or null.
pub fn write_found_hover(alloc: Global, found: &Option<Hover>) -> Result<Value, AllocError>
    ensures { IfOk result (λ v. view v ≡ hover_or_null found.now) }
{
    match found {
        Some(hover) => write_hover(alloc, hover),
        None => Ok(Value::Null),
    }
}

fn write_location(alloc: Global, location: &Location) -> Result<Value, AllocError>
    ensures { IfOk result (λ v. view v ≡ location_value location.now) }
{
    let range = write_range(alloc, location.range)?;
    json!(in alloc; {"range": range, "uri": location.uri.as_str()})
}

pub fn write_locations(alloc: Global, locations: &[Location]) -> Result<Value, AllocError>
    ensures { IfOk result (λ v. view v ≡ array (items_of (map location_value locations.now))) }
{
    let mut values = Vec::new(alloc);
    for location in locations {
        values.push(write_location(alloc, location)?)?;
    }
    Ok(Value::Array(values))
}

fn number_of_kind(kind: CompletionItemKind) -> u64
    ensures { result ≡ kind_number kind }
{
    match kind {
        CompletionItemKind::Field => 5,
        CompletionItemKind::Variable => 6,
        CompletionItemKind::Reference => 18,
    }
}

fn write_completion(alloc: Global, completion: &CompletionItem) -> Result<Value, AllocError>
    ensures { IfOk result (λ v. view v ≡ completion_value completion.now) }
{
    let kind = number_of_kind(completion.kind);
    json!(in alloc; {"kind": kind, "label": completion.label.as_str()})
}

pub fn write_completions(alloc: Global, completions: &[CompletionItem]) -> Result<Value, AllocError>
    ensures { IfOk result (λ v. view v ≡ array (items_of (map completion_value completions.now))) }
{
    let mut values = Vec::new(alloc);
    for completion in completions {
        values.push(write_completion(alloc, completion)?)?;
    }
    Ok(Value::Array(values))
}

fn write_prepared(alloc: Global, prepared: &PrepareRename) -> Result<Value, AllocError>
    ensures { IfOk result (λ v. view v ≡ prepared_value prepared.now) }
{
    let range = write_range(alloc, prepared.range)?;
    json!(in alloc; {"placeholder": prepared.placeholder.as_str(), "range": range})
}

/// What a rename would be of, or null.
pub fn write_found_prepared(
    alloc: Global,
    found: &Option<PrepareRename>,
) -> Result<Value, AllocError>
    ensures { IfOk result (λ v. view v ≡ prepared_or_null found.now) }
{
    match found {
        Some(prepared) => write_prepared(alloc, prepared),
        None => Ok(Value::Null),
    }
}

fn write_code_action(alloc: Global, action: &CodeAction) -> Result<Value, AllocError>
    ensures { IfOk result (λ v. view v ≡ code_action_value action.now) }
{
    let edit = write_workspace_edit(alloc, &action.edit)?;
    let kind = action.kind.name();
    let title = action.kind.title();
    json!(in alloc; {"edit": edit, "kind": kind, "title": title})
}

pub fn write_code_actions(alloc: Global, actions: &[CodeAction]) -> Result<Value, AllocError>
    ensures { IfOk result (λ v. view v ≡ array (items_of (map code_action_value actions.now))) }
{
    let mut values = Vec::new(alloc);
    for action in actions {
        values.push(write_code_action(alloc, action)?)?;
    }
    Ok(Value::Array(values))
}

fn write_diagnostic(alloc: Global, diagnostic: &Diagnostic) -> Result<Value, AllocError>
    ensures { IfOk result (λ v. view v ≡ diagnostic_value diagnostic.now) }
{
    let range = write_range(alloc, diagnostic.range)?;
    json!(in alloc; {
        "code": diagnostic.code.as_str(),
        "message": diagnostic.message.as_str(),
        "range": range,
        "severity": 1u64,
        "source": "gqls"
    })
}

fn write_diagnostic_list(alloc: Global, diagnostics: &[Diagnostic]) -> Result<Value, AllocError>
    ensures { IfOk result (λ v. view v ≡ array (items_of (map diagnostic_value diagnostics.now))) }
{
    let mut values = Vec::new(alloc);
    for diagnostic in diagnostics {
        values.push(write_diagnostic(alloc, diagnostic)?)?;
    }
    Ok(Value::Array(values))
}

/// The diagnostics of a document, with the version where there is one.
pub fn write_diagnostics(
    alloc: Global,
    params: &PublishDiagnosticsParams,
) -> Result<Value, AllocError>
    ensures { IfOk result (λ v. view v ≡ diagnostics_value params.now) }
{
    let diagnostics = write_diagnostic_list(alloc, params.diagnostics.as_slice())?;
    let uri = params.uri.as_str();
    match params.version {
        Some(version) => json!(in alloc; {
            "diagnostics": diagnostics,
            "uri": uri,
            "version": version
        }),
        None => json!(in alloc; {"diagnostics": diagnostics, "uri": uri}),
    }
}
