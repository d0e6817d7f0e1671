//! Documents put into a project, changed and taken.
use crate::no_answer::NoAnswer;
use crate::row::Row;
use crate::telling::Telling;
use gq_project::{Doc, DocChange, Project};
use gq_text::OwnedText;
use std::alloc::Global;

/// The version that a word says: a number, or `null` for none.
fn version_in(word: &str) -> Result<Option<i64>, NoAnswer> {
    if word == "null" {
        return Ok(None);
    }
    Ok(Some(word.parse()?))
}

/// The document that words say: its key, its version and its text.
fn document(alloc: Global, words: &str) -> Result<Doc, NoAnswer> {
    let (key, rest) = words.split_once(' ').ok_or(NoAnswer)?;
    let (version, text) = rest.split_once(' ').ok_or(NoAnswer)?;
    Ok(Doc {
        key: OwnedText::from_str(alloc, key)?,
        uri: OwnedText::from_str(alloc, key)?,
        version: version_in(version)?,
        text: OwnedText::from_str(alloc, text)?,
    })
}

/// The words of a document in brackets, or `none`.
fn put_document(telling: &mut Telling, document: Option<&Doc>) {
    let Some(document) = document else {
        telling.put("none");
        return;
    };
    telling.put("(");
    telling.put(document.key.as_str());
    telling.put(" ");
    match document.version {
        Some(version) => telling.put_debug(&version),
        None => telling.put("null"),
    }
    telling.put(" ");
    telling.put(document.text.as_str());
    telling.put(")");
}

fn put_documents(telling: &mut Telling, project: &Project) {
    for document in project.documents() {
        put_document(telling, Some(document));
    }
}

/// A project, and a copy that was made of it.
#[derive(Drop)]
struct Copied {
    project: Project,
    copy: Project,
}

/// Does one step, and tells the document that it finds, or all documents after it, with `copies` those of the copy.
fn tell_step(
    alloc: Global,
    both: &mut Copied,
    words: &str,
    telling: &mut Telling,
) -> Result<(), NoAnswer> {
    let (name, rest) = words.split_once(' ').unwrap_or((words, ""));
    match name {
        "put" => both.project.put(document(alloc, rest)?)?,
        "change" => both.project.change(DocChange::Put(document(alloc, rest)?))?,
        "close" => {
            let key = OwnedText::from_str(alloc, rest)?;
            both.project.change(DocChange::Close(key))?
        }
        "copy" => both.copy = both.project.copied(alloc)?,
        "copies" => {
            put_documents(telling, &both.copy);
            return Ok(());
        }
        "get" => {
            put_document(telling, both.project.get(rest));
            return Ok(());
        }
        "take" => {
            let taken = both.project.take(rest);
            put_document(telling, taken.as_ref());
            return Ok(());
        }
        "list" => {}
        _ => return Err(NoAnswer),
    }
    put_documents(telling, &both.project);
    Ok(())
}

/// Tells what steps on one project find, a line each.
pub fn tell_steps(alloc: Global, row: &Row<'_>, telling: &mut Telling) -> Result<(), NoAnswer> {
    let mut both = Copied {
        project: Project::new(alloc),
        copy: Project::new(alloc),
    };
    for (number, entry) in row.entries.iter().enumerate() {
        telling.put(if number == 0 { "" } else { "\n" });
        tell_step(alloc, &mut both, entry.text(alloc)?.as_str(), telling)?;
    }
    Ok(())
}
