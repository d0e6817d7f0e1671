//! Edits made in a project.
ghost use Rattle.std.specs.Prelude.{◌≡◌, ◌≢◌, IfOk, IfErr, OnOk, find};
ghost use Rattle.std.specs.Option.{option_copied, ForSome};
ghost use Rattle.gq_edit.specs.Replacements.{FitText};
ghost use Rattle.gq_edit.specs.Edits.{FitDocuments, after_edit, fault_of, document_of, is_moved, is_too_large, edited, is_of};

use crate::edit::{DocumentEdit, Edit, EditFault};
use crate::replacements::{replaced_fits, replaced_text};
use gq_project::{Doc, Project};
use gq_text::{Items, NoMemory};
use std::alloc::Global;

/// The project after the edit, or why the edit cannot be made: `Moved` for its first document that is not there at its
/// version, and where each is, `TooLarge` for the first whose text would pass 4 MiB.
pub fn apply(alloc: Global, project: &Project, edit: &Edit) -> Result<Project, EditFault>
    requires { FitDocuments project.now edit.now }
    ensures ok { IfOk result (λ after. after ≡ after_edit edit.now project.now) }
    ensures sound { OnOk result (fault_of project.now edit.now ≡ None) }
    ensures fault { IfErr result (λ fault. fault ≢ EditFault.NoMemory → fault_of project.now edit.now ≡ Some fault) }
{
    if let Some(moved) = first_moved(project, edit) {
        return Err(EditFault::Moved {
            key: moved.key.copied(alloc)?,
            version: moved.version,
        });
    }
    if let Some(large) = first_too_large(project, edit) {
        return Err(EditFault::TooLarge {
            key: large.key.copied(alloc)?,
        });
    }
    Ok(after(alloc, project, edit)?)
}

/// The first document edit whose document is not there at its version.
fn first_moved<'a>(project: &Project, edit: &'a Edit) -> Option<&'a DocumentEdit>
    ensures { option_copied result ≡ find (is_moved project.now) edit.now }
{
    edit.documents()
        .iter()
        .find(|document_edit| document(project, document_edit).is_none())
}

/// The first document edit that would leave a text of more than 4 MiB, if there is one. It only adds up lengths.
pub fn first_too_large<'a>(project: &Project, edit: &'a Edit) -> Option<&'a DocumentEdit>
    requires { FitDocuments project.now edit.now }
    ensures { option_copied result ≡ find (is_too_large project.now) edit.now }
{
    for document_edit in edit.documents() {
        if is_large(project, document_edit) {
            return Some(document_edit);
        }
    }
    None
}

/// Whether the document edit would make a text too large.
fn is_large(project: &Project, edit: &DocumentEdit) -> bool
    requires { ForSome (document_of project.now edit.now) (λ doc. FitText doc.text edit.now.replacements) }
    ensures { result ≡ is_too_large project.now edit.now }
{
    match document(project, edit) {
        Some(doc) => !replaced_fits(doc.text.as_str(), edit.replacements.as_slice()),
        None => false,
    }
}

/// The document that is edited, if it is there at that version.
pub fn document<'a>(project: &'a Project, edit: &DocumentEdit) -> Option<&'a Doc>
    ensures { option_copied result ≡ document_of project.now edit.now }
{
    let doc = project.get(edit.key.as_str())?;
    if edit.has_version_of(doc) {
        Some(doc)
    } else {
        None
    }
}

/// The project after the edit.
fn after(alloc: Global, project: &Project, edit: &Edit) -> Result<Project, NoMemory>
    requires { FitDocuments project.now edit.now }
    ensures { IfOk result (λ after. after ≡ after_edit edit.now project.now) }
{
    let mut documents = Items::new(alloc);
    for doc in project.documents() {
        documents.push(document_after(alloc, edit, doc)?)?;
    }
    Ok(Project::from_ordered(documents.into_vec()))
}

/// A document after the edit.
fn document_after(alloc: Global, edit: &Edit, doc: &Doc) -> Result<Doc, NoMemory>
    requires { ForSome (find (is_of doc.now) edit.now) (λ edit. FitText doc.now.text edit.replacements) }
    ensures { IfOk result (λ after. after ≡ edited edit.now doc.now) }
{
    let text = match edit.of(doc) {
        Some(edit) => replaced_text(alloc, doc.text.as_str(), edit.replacements.as_slice())?,
        None => doc.text.copied(alloc)?,
    };
    Ok(Doc {
        key: doc.key.copied(alloc)?,
        uri: doc.uri.copied(alloc)?,
        version: doc.version,
        text,
    })
}
