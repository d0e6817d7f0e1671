//! The edit that makes replacements in documents.
ghost use Rattle.std.specs.Prelude.{◌≡◌, ◌++◌, None, find, IfOk, OnOk};
ghost use Rattle.gq_edit.specs.Edits.{FitDocuments, is_moved};
ghost use Rattle.gq_edit.specs.Replacements.{AreDisjoint};
ghost use Rattle.gq_renamed.specs.Projects.{edit_if_any};
ghost use Rattle.gq_reshape.specs.Placed.{edits_from, replacements_in};
ghost use Rattle.gq_reshape.specs.Helping.Fitting.{AllFit};

use gq_edit::{DocumentEdit, Edit, Replacements};
use gq_project::{Doc, Project};
use gq_text::{NoMemory, Replacement};
use std::alloc::Global;

/// A replacement in the document of that number, from 0.
#[derive(Debug, Drop)]
pub struct PlacedReplacement {
    pub file: usize,
    pub replacement: Replacement,
}

/// The replacements in the document of that number.
fn replacements_in(
    alloc: Global,
    placed: &[PlacedReplacement],
    file: usize,
) -> Result<Vec<Replacement>, NoMemory>
    ensures { IfOk result (λ all. all.items ≡ replacements_in placed.now file) }
{
    let mut all = Vec::new(alloc);
    for one in placed {
        if one.file == file {
            all.push(Replacement {
                span: one.replacement.span,
                text: one.replacement.text.copied(alloc)?,
            })?;
        }
    }
    Ok(all)
}

/// Puts the edit of a document behind the others, if there is something to replace in it.
fn put_edit(
    alloc: Global,
    document: &Doc,
    replacements: Vec<Replacement>,
    edits: &mut Vec<DocumentEdit>,
) -> Result<(), NoMemory>
    requires { AreDisjoint replacements.items }
    ensures { OnOk result (edits.new.items ≡ edits.old.items ++ edit_if_any document.now replacements.items) }
{
    if replacements.is_empty() {
        return Ok(());
    }
    edits.push(DocumentEdit {
        key: document.key.copied(alloc)?,
        version: document.version,
        replacements: Replacements::from_vec(replacements),
    })?;
    Ok(())
}

/// The edits of the documents in which something is replaced.
fn edits(
    alloc: Global,
    documents: &[Doc],
    placed: &[PlacedReplacement],
) -> Result<Vec<DocumentEdit>, NoMemory>
    requires { AllFit placed.now 0 documents.now }
    ensures { IfOk result (λ edits. edits.items ≡ edits_from placed.now 0 documents.now) }
{
    let mut edits = Vec::new(alloc);
    for (file, document) in documents.iter().enumerate() {
        let replacements = replacements_in(alloc, placed, file)?;
        put_edit(alloc, document, replacements, &mut edits)?;
    }
    Ok(edits)
}

/// The edit that makes these replacements.
pub(crate) fn edit_of(
    alloc: Global,
    project: &Project,
    placed: &[PlacedReplacement],
) -> Result<Edit, NoMemory>
    requires { AllFit placed.now 0 project.now }
    ensures edit { IfOk result (λ edit. edit ≡ edits_from placed.now 0 project.now) }
    ensures fits { IfOk result (FitDocuments project.now) }
    ensures there { IfOk result (λ edit. find (is_moved project.now) edit ≡ None) }
{
    let made = edits(alloc, project.documents(), placed)?;
    Ok(Edit::from_vec(made))
}
