//! Edits of documents from the places of names, in the order of documents.
ghost use Rattle.std.specs.Prelude.{◌≡◌, ◌++◌, ◌≤◌, IfOk, OnOk, length};
ghost use Rattle.std.specs.List.{prefix_len};
ghost use Rattle.gq_edit.specs.Replacements.{AreDisjoint};
ghost use Rattle.gq_renamed.specs.Projects.{edit_if_any};
ghost use Rattle.gq_cut.specs.Helping.Runs.{stands_in, replacements_at, edits_at, AreApart};

use gq_edit::{DocumentEdit, Replacements};
use gq_index::Occurrence;
use gq_project::Doc;
use gq_text::{NoMemory, OwnedText, Replacement};
use std::alloc::Global;

/// How many of the first places stand in the document of that number.
fn run_length(places: &[Occurrence], file: usize) -> usize
    ensures count { result ≡ prefix_len (stands_in file) places.now }
    ensures within { result ≤ length places.now }
{
    for (count, place) in places.iter().enumerate() {
        if place.file != file {
            return count;
        }
    }
    places.len()
}

/// What is put at these places.
fn replacements(
    alloc: Global,
    places: &[Occurrence],
    new_name: &str,
) -> Result<Vec<Replacement>, NoMemory>
    ensures { IfOk result (λ all. all.items ≡ replacements_at new_name.now places.now) }
{
    let mut all = Vec::new(alloc);
    for place in places {
        let text = OwnedText::from_str(alloc, new_name)?;
        let span = place.span;
        all.push(Replacement { span, text })?;
    }
    Ok(all)
}

/// Puts the edit of a document behind the others, if there is something to replace in it.
fn put_edit(
    alloc: Global,
    document: &Doc,
    places: &[Occurrence],
    new_name: &str,
    edits: &mut Vec<DocumentEdit>,
) -> Result<(), NoMemory>
    requires { AreDisjoint (replacements_at new_name.now places.now) }
    ensures { OnOk result (edits.new.items ≡ edits.old.items ++ edit_if_any document.now (replacements_at new_name.now places.now)) }
{
    if places.is_empty() {
        return Ok(());
    }
    let made = replacements(alloc, places, new_name)?;
    let key = document.key.copied(alloc)?;
    edits.push(DocumentEdit {
        key,
        version: document.version,
        replacements: Replacements::from_vec(made),
    })?;
    Ok(())
}

/// The edits of the documents in which a place stands.
pub(crate) fn edits_at(
    alloc: Global,
    documents: &[Doc],
    places: &[Occurrence],
    new_name: &str,
) -> Result<Vec<DocumentEdit>, NoMemory>
    requires { AreApart new_name.now 0 documents.now places.now }
    ensures { IfOk result (λ edits. edits.items ≡ edits_at new_name.now 0 documents.now places.now) }
{
    let mut edits = Vec::new(alloc);
    let mut rest = places;
    for (file, document) in documents.iter().enumerate() {
        let (run, behind) = rest.split_at(run_length(rest, file));
        put_edit(alloc, document, run, new_name, &mut edits)?;
        rest = behind;
    }
    Ok(edits)
}
