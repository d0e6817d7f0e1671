//! What is found, parted by the documents that it is found in.
ghost use Rattle.std.specs.Prelude.{◌≡◌, ◌++◌, ◌∷◌, ◌<◌, [], IfOk, OnOk, length, get_or, set, map};
ghost use Rattle.gq_diagnostics.specs.Diagnostics.{found_in};
ghost use Rattle.gq_diagnostics.specs.Helping.Parted.{IsWhere};

use gq_fault::Found;
use gq_project::{Doc, Project};
use gq_text::{Items, NoMemory};
use std::alloc::Global;

/// Where the document of that key is, by one look where it is the document at the place `near`.
fn place_near(project: &Project, near: usize, key: &str) -> Option<usize>
    ensures { IsWhere project.now key.now result }
{
    let documents = project.documents();
    if near < documents.len() && documents[near].key.as_str() == key {
        return Some(near);
    }
    project.place(key)
}

/// An empty list for each document.
fn empty_lists(alloc: Global, documents: &[Doc]) -> Result<Vec<Items<Found>>, NoMemory>
    ensures { IfOk result (λ all. all.items ≡ map (found_in []) documents.now) }
{
    let mut all = Vec::new(alloc);
    for _document in documents {
        all.push(Items::new(alloc))?;
    }
    Ok(all)
}

/// Puts it at the end of the list at that place.
fn put(all: &mut [Items<Found>], place: usize, one: Found) -> Result<(), NoMemory>
    requires { place < length all.old }
    ensures { OnOk result (all.new ≡ set all.old place (get_or all.old place [] ++ one ∷ [])) }
{
    all[place].push(one)?;
    Ok(())
}

/// What is found in each document, in its order. A report is in the order of the documents, so each of them is searched for
/// once, and the work is that for the report and these searches.
pub(crate) fn parted(
    alloc: Global,
    project: &Project,
    found: Vec<Found>,
) -> Result<Vec<Items<Found>>, NoMemory>
    ensures { IfOk result (λ all. all.items ≡ map (found_in found.items) project.now) }
{
    let mut all = empty_lists(alloc, project.documents())?;
    let mut near = 0;
    for one in found {
        if let Some(at) = place_near(project, near, one.key.as_str()) {
            put(&mut all, at, one)?;
            near = at;
        }
    }
    Ok(all)
}
