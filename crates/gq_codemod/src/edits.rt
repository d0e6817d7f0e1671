//! The edit of a rename: its lines, and the texts that it leaves.
ghost use Rattle.std.specs.Prelude.{◌≡◌, ◌++◌, IfOk, OnOk, string_bytes};
ghost use Rattle.gq_edit.specs.Edits.{FitDocuments};
ghost use Rattle.gq_edit.specs.Replacements.{FitText};
ghost use Rattle.gq_codemod.specs.Edits.{place_of, edit_line, document_lines, edit_lines, edited_file, edited_files};

use gq_edit::{
    DocumentEdit, Edit, TextDocumentEdit, TextEdit, WorkspaceEdit, document, replaced_text,
};
use gq_project::{Doc, Project};
use gq_text::{NoMemory, OwnedText, Position};
use std::alloc::Global;

/// A file that is edited, and its new text.
#[derive(Debug, Drop)]
pub struct EditedFile {
    /// Its name, as it was given.
    pub name: OwnedText,
    pub text: OwnedText,
}

/// The files that the edit changes, in order.
pub(crate) fn edited_files(
    alloc: Global,
    project: &Project,
    edit: &Edit,
) -> Result<Vec<EditedFile>, NoMemory>
    requires { FitDocuments project.now edit.now }
    ensures { IfOk result (λ files. files.items ≡ edited_files project.now edit.now) }
{
    let mut files = Vec::new(alloc);
    for document_edit in edit.documents() {
        if let Some(doc) = document(project, document_edit) {
            files.push(edited_file(alloc, document_edit, doc)?)?;
        }
    }
    Ok(files)
}

/// A file after its edit.
fn edited_file(alloc: Global, edit: &DocumentEdit, doc: &Doc) -> Result<EditedFile, NoMemory>
    requires { FitText doc.now.text edit.now.replacements }
    ensures { IfOk result (λ file. file ≡ edited_file edit.now doc.now) }
{
    Ok(EditedFile {
        name: doc.key.copied(alloc)?,
        text: replaced_text(alloc, doc.text.as_str(), edit.replacements.as_slice())?,
    })
}

/// The lines of an edit, in order.
pub(crate) fn edit_lines(alloc: Global, edit: &WorkspaceEdit) -> Result<Vec<u8>, NoMemory>
    ensures { IfOk result (λ lines. lines.items ≡ edit_lines edit.now) }
{
    let mut lines = String::new(alloc);
    for changes in edit.document_changes.as_slice() {
        put_document(alloc, changes, &mut lines)?;
    }
    Ok(lines.into_bytes())
}

/// The lines of a document's edits.
fn put_document(
    alloc: Global,
    changes: &TextDocumentEdit,
    lines: &mut String,
) -> Result<(), NoMemory>
    ensures { OnOk result (string_bytes lines.new ≡ string_bytes lines.old ++ document_lines changes.now) }
{
    let name = changes.uri.as_str();
    for edit in changes.edits.as_slice() {
        put_edit(alloc, name, edit, lines)?;
    }
    Ok(())
}

/// The line of an edit of the document of that name.
fn put_edit(alloc: Global, name: &str, edit: &TextEdit, lines: &mut String) -> Result<(), NoMemory>
    ensures { OnOk result (string_bytes lines.new ≡ string_bytes lines.old ++ edit_line name.now edit.now) }
{
    let start = place_text(alloc, edit.range.start)?;
    let end = place_text(alloc, edit.range.end)?;
    let (start, end) = (start.as_str(), end.as_str());
    let text = edit.new_text.as_str();
    write!(lines, "{name}:{start}-{end}: {text}\n")?;
    Ok(())
}

/// A line and a column, counted from 1.
fn place_text(alloc: Global, position: Position) -> Result<String, NoMemory>
    ensures { IfOk result (λ text. string_bytes text ≡ place_of position) }
{
    let line = u64::from(position.line) + 1;
    let column = u64::from(position.character) + 1;
    let text = format!(in alloc; "{line}:{column}")?;
    Ok(text)
}
