//! The documents of a project as they are read, what they define, and their selections.
use crate::faults::documents_of;
use crate::no_answer::NoAnswer;
use crate::row::{Row, project_of};
use crate::telling::Telling;
use gq_document::{
    Definitions, FragmentEntry, OperationEntry, Selected, fragment_selections,
    operation_selections, type_system_entries,
};
use gq_parse::{read, read_by_threads};
use gq_project::{Doc, Project};
use gq_tree::{Parsed, Selection};
use gq_types::{Entry, Types};
use std::alloc::Global;
use std::thread::Threads;

/// Tells readings, each behind the name of its document: how many definitions it has, or where it is at fault.
fn tell_each(documents: &[Doc], readings: &[Parsed], telling: &mut Telling) {
    for (document, reading) in documents.iter().zip(readings) {
        telling.put(if telling.is_empty() { "" } else { "\n" });
        telling.put(document.key.as_str());
        telling.put(": ");
        let (word, number) = match reading {
            Parsed::Tree(tree) => ("definitions ", tree.definitions.len()),
            Parsed::Syntax { place } => ("syntax ", *place),
            Parsed::Limit { place } => ("limit ", *place),
        };
        telling.put(word);
        telling.put_number(number);
    }
}

/// Tells how the documents of the project are read.
pub fn tell_readings(alloc: Global, row: &Row<'_>, telling: &mut Telling) -> Result<(), NoAnswer> {
    let project = project_of(alloc, &row.entries)?;
    let readings = read(alloc, project.documents())?;
    tell_each(project.documents(), &readings, telling);
    Ok(())
}

/// Tells how threads read them.
pub fn tell_readings_by_threads<R: Threads + Sync>(
    threads: &R,
    alloc: Global,
    row: &Row<'_>,
    telling: &mut Telling,
) -> Result<(), NoAnswer> {
    let project = project_of(alloc, &row.entries)?;
    let readings = read_by_threads(threads, alloc, project.documents())?;
    tell_each(project.documents(), &readings, telling);
    Ok(())
}

/// Tells the number of the document of each definition, one kind behind the other.
pub fn tell_definitions(
    alloc: Global,
    row: &Row<'_>,
    telling: &mut Telling,
) -> Result<(), NoAnswer> {
    let project = project_of(alloc, &row.entries)?;
    let readings = read(alloc, project.documents())?;
    let entries = type_system_entries(alloc, &readings)?;
    let definitions = Definitions::of(alloc, &readings)?;
    tell_files(alloc, &entries, &definitions, telling)
}

/// Tells the numbers of the documents of definitions.
fn tell_files(
    alloc: Global,
    entries: &[Entry],
    definitions: &Definitions<'_>,
    telling: &mut Telling,
) -> Result<(), NoAnswer> {
    let entries: Vec<usize> = entries.iter().map(|one| one.file).collect(alloc)?;
    let operations: Vec<usize> = definitions
        .operations
        .iter()
        .map(|one| one.file)
        .collect(alloc)?;
    let fragments: Vec<usize> = definitions
        .fragments
        .iter()
        .map(|one| one.file)
        .collect(alloc)?;
    telling.put("type system ");
    telling.put_debug(&entries);
    telling.put(", operations ");
    telling.put_debug(&operations);
    telling.put(", fragments ");
    telling.put_debug(&fragments);
    Ok(())
}

/// Tells selections, each as its name, or `...`, and the type of its parent, or `?`.
fn tell_selected(selections: &[Selected<'_>], telling: &mut Telling) {
    for one in selections {
        telling.put(if telling.is_empty() { "" } else { " " });
        telling.put(match one.selection {
            Selection::Field(field) => field.name.text.as_str(),
            Selection::Spread(spread) => spread.name.text.as_str(),
            Selection::Inline(_) => "...",
        });
        telling.put(":");
        telling.put(one.parent.unwrap_or("?"));
    }
}

/// Tells the selections of operations.
fn tell_operations(
    alloc: Global,
    types: &Types,
    operations: &[OperationEntry<'_>],
    telling: &mut Telling,
) -> Result<(), NoAnswer> {
    for operation in operations {
        tell_selected(&operation_selections(alloc, types, operation)?, telling);
    }
    Ok(())
}

/// Tells the selections of fragments.
fn tell_fragments(
    alloc: Global,
    types: &Types,
    fragments: &[FragmentEntry<'_>],
    telling: &mut Telling,
) -> Result<(), NoAnswer> {
    for fragment in fragments {
        tell_selected(&fragment_selections(alloc, types, fragment)?, telling);
    }
    Ok(())
}

/// Tells the selections of all operations and then of all fragments.
pub fn tell_selections(
    alloc: Global,
    row: &Row<'_>,
    telling: &mut Telling,
) -> Result<(), NoAnswer> {
    let documents = documents_of(alloc, &row.entries)?;
    let definitions = documents.definitions(alloc)?;
    let types = &documents.types;
    tell_operations(alloc, types, &definitions.operations, telling)?;
    tell_fragments(alloc, types, &definitions.fragments, telling)
}
