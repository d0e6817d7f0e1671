//! Ranges and edits written (LSP 3.17, Range and WorkspaceEdit).
ghost use Rattle.std.specs.Prelude.{◌≡◌, List, ℕ, map, codes, IfOk};
ghost use Rattle.serde_json.specs.Data.{Data, array};
ghost use Rattle.serde_json.specs.View.{view, items_of};
ghost use Rattle.gq_rpc.specs.Encoding.{range_value, text_edit_value, version_or_null, document_edit_value, workspace_edit_value};

use gq_edit::{TextDocumentEdit, TextEdit, WorkspaceEdit};
use gq_text::Range;
use serde_json::{Value, json};
use std::alloc::{AllocError, Global};

pub fn write_range(alloc: Global, range: Range) -> Result<Value, AllocError>
    ensures { IfOk result (λ v. view v ≡ range_value range) }
{
    json!(in alloc; {
        "end": {"character": range.end.character, "line": range.end.line},
        "start": {"character": range.start.character, "line": range.start.line}
    })
}

fn write_text_edit(alloc: Global, edit: &TextEdit) -> Result<Value, AllocError>
    ensures { IfOk result (λ v. view v ≡ text_edit_value edit.now) }
{
    let range = write_range(alloc, edit.range)?;
    json!(in alloc; {"newText": edit.new_text.as_str(), "range": range})
}

fn write_text_edits(alloc: Global, edits: &[TextEdit]) -> Result<Value, AllocError>
    ensures { IfOk result (λ v. view v ≡ array (items_of (map text_edit_value edits.now))) }
{
    let mut values = Vec::new(alloc);
    for edit in edits {
        values.push(write_text_edit(alloc, edit)?)?;
    }
    Ok(Value::Array(values))
}

fn write_version(version: Option<i64>) -> Value
    ensures { view result ≡ version_or_null version }
{
    match version {
        Some(version) => Value::from(version),
        None => Value::Null,
    }
}

fn write_document_edit(alloc: Global, edit: &TextDocumentEdit) -> Result<Value, AllocError>
    ensures { IfOk result (λ v. view v ≡ document_edit_value edit.now) }
{
    let edits = write_text_edits(alloc, edit.edits.as_slice())?;
    let version = write_version(edit.version);
    json!(in alloc; {
        "edits": edits,
        "textDocument": {"uri": edit.uri.as_str(), "version": version}
    })
}

fn write_document_edits(alloc: Global, edits: &[TextDocumentEdit]) -> Result<Value, AllocError>
    ensures { IfOk result (λ v. view v ≡ array (items_of (map document_edit_value edits.now))) }
{
    let mut values = Vec::new(alloc);
    for edit in edits {
        values.push(write_document_edit(alloc, edit)?)?;
    }
    Ok(Value::Array(values))
}

pub fn write_workspace_edit(alloc: Global, edit: &WorkspaceEdit) -> Result<Value, AllocError>
    ensures { IfOk result (λ v. view v ≡ workspace_edit_value edit.now) }
{
    let changes = write_document_edits(alloc, edit.document_changes.as_slice())?;
    json!(in alloc; {"documentChanges": changes})
}
