//! Edits with positions in place of offsets.
ghost use Rattle.std.specs.Prelude.{◌≡◌, ◌≤◌, ◌^◌, ◌*◌, IfOk, length};
ghost use Rattle.gq_edit.specs.Replacements.{FitText};
ghost use Rattle.gq_edit.specs.Edits.{FitDocuments};
ghost use Rattle.gq_edit.specs.Helping.Ends.{ends_of, placed};
ghost use Rattle.gq_edit.specs.Workspace.{AreTexts, workspace_edit_of, document_edit_of};

use crate::applying::document;
use crate::edit::{DocumentEdit, Edit};
use crate::workspace::{TextDocumentEdit, TextEdit, WorkspaceEdit};
use gq_project::{Doc, Project};
use gq_text::{Items, NoMemory, Position, PositionEncoding, Range, Replacement, positions_in};
use std::alloc::Global;

/// The edits of the documents that are there at their versions, with the positions of both ends of each span
/// (LSP 3.17, WorkspaceEdit). Each text is gone over once.
pub fn to_positions(
    alloc: Global,
    encoding: PositionEncoding,
    project: &Project,
    edit: &Edit,
) -> Result<WorkspaceEdit, NoMemory>
    requires fit { FitDocuments project.now edit.now }
    requires texts { AreTexts project.now }
    ensures { IfOk result (λ edits. edits ≡ workspace_edit_of encoding project.now edit.now) }
{
    let mut document_changes = Items::new(alloc);
    for document_edit in edit.documents() {
        if let Some(doc) = document(project, document_edit) {
            document_changes.push(document_positions(alloc, encoding, doc, document_edit)?)?;
        }
    }
    Ok(WorkspaceEdit { document_changes })
}

/// The edits of a document, with positions in its text.
fn document_positions(
    alloc: Global,
    encoding: PositionEncoding,
    doc: &Doc,
    edit: &DocumentEdit,
) -> Result<TextDocumentEdit, NoMemory>
    requires fit { FitText doc.now.text edit.now.replacements }
    requires text { length doc.now.text ≤ 2 ^ 22 }
    ensures { IfOk result (λ edits. edits ≡ document_edit_of encoding edit.now doc.now) }
{
    let replacements = edit.replacements.as_slice();
    let ends = ends_in_order(alloc, replacements)?;
    let positions = positions_in(alloc, encoding, doc.text.as_str(), &ends)?;
    Ok(TextDocumentEdit {
        uri: doc.uri.copied(alloc)?,
        version: doc.version,
        edits: text_edits(alloc, replacements, &positions)?,
    })
}

/// Both ends of each span, in order.
fn ends_in_order(alloc: Global, replacements: &[Replacement]) -> Result<Vec<usize>, NoMemory>
    ensures { IfOk result (λ ends. ends.items ≡ ends_of replacements.now) }
{
    let mut ends = Vec::new(alloc);
    for replacement in replacements {
        let span = replacement.span;
        ends.extend_from_slice(&[span.start, span.end])?;
    }
    Ok(ends)
}

/// Each replacement with the next two of the positions.
fn text_edits(
    alloc: Global,
    replacements: &[Replacement],
    positions: &[Position],
) -> Result<Items<TextEdit>, NoMemory>
    requires { length positions.now ≡ 2 * length replacements.now }
    ensures { IfOk result (λ edits. edits ≡ placed replacements.now positions.now) }
{
    let mut edits = Items::new(alloc);
    for (index, replacement) in replacements.iter().enumerate() {
        let range = Range {
            start: positions[2 * index],
            end: positions[2 * index + 1],
        };
        let new_text = replacement.text.copied(alloc)?;
        edits.push(TextEdit { range, new_text })?;
    }
    Ok(edits)
}
