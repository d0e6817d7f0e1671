//! Executable Definitions (section 5.1.1): no document has both executable definitions and such of the type system.
ghost use Rattle.std.specs.Prelude.{◌≡◌, ◌<◌, ◌++◌, ℕ, true, false, Contains, IfOk, OnOk, length, map, slice_index_or};
ghost use Rattle.std.specs.Option.{option_map};
ghost use Rattle.std.specs.List.{list_any};
ghost use Rattle.gq_tree.specs.Readings.{parsed_view, readings_view};
ghost use Rattle.gq_document.specs.ReadBy.{read_by};
ghost use Rattle.gq_tree.specs.Views.{def_view, type_system_view};
ghost use Rattle.gq_type_system.specs.DefinedTwice.{definition_place};
ghost use Rattle.gq_known.specs.ExecutableDefinitions.{is_executable, first_of_type_system};
ghost use Rattle.gq_types.specs.Entries.{EntryOf, entries_view};
ghost use Rattle.gq_types.specs.BuiltIn.{built_in};
ghost use Rattle.gq_document.specs.Definitions.{entries_of};
ghost use Rattle.gq_known.specs.MixedFaults.{mixed_in, mixed_at, each_from};
ghost use Rattle.gq_known.specs.Helping.Marked.{marked_mixed_at};

use gq_document::AsParsed;
use gq_fault::{Code, Fault};
use gq_text::{NoMemory, Span};
use gq_tree::{Definition, Parsed, TypeSystemDefinition};
use gq_type_system::definition_place;
use gq_types::Entry;
use std::alloc::Global;
use std::sync::Arc;

fn is_executable(definition: &Definition) -> bool
    ensures { result ≡ is_executable (def_view definition.now) }
{
    match definition {
        Definition::Operation(_) => true,
        Definition::Fragment(_) => true,
        Definition::TypeSystem(_) => false,
    }
}

fn has_executable(definitions: &[Definition]) -> bool
    ensures { result ≡ list_any is_executable (map def_view definitions.now) }
{
    for definition in definitions {
        if is_executable(definition) {
            return true;
        }
    }
    false
}

fn first_of_type_system(definitions: &[Definition]) -> Option<&TypeSystemDefinition>
    ensures { option_map (λ d. type_system_view d.now) result ≡ first_of_type_system (map def_view definitions.now) }
{
    for definition in definitions {
        if let Definition::TypeSystem(one) = definition {
            return Some(one);
        }
    }
    None
}

fn add_mixed_in(
    file: usize,
    definitions: &[Definition],
    faults: &mut Vec<Fault>,
) -> Result<(), NoMemory>
    ensures { OnOk result (faults.new.items ≡ faults.old.items ++ mixed_in file (map def_view definitions.now)) }
{
    if !has_executable(definitions) {
        return Ok(());
    }
    if let Some(definition) = first_of_type_system(definitions) {
        let place = definition_place(definition);
        faults.push(Fault {
            file,
            start: place.start,
            code: Code::MixedFile,
            end: place.end,
        })?;
    }
    Ok(())
}

fn add_mixed_at(file: usize, reading: &Parsed, faults: &mut Vec<Fault>) -> Result<(), NoMemory>
    ensures { OnOk result (faults.new.items ≡ faults.old.items ++ mixed_at file (parsed_view reading.now)) }
{
    match reading {
        Parsed::Tree(document) => add_mixed_in(file, &document.definitions, faults),
        Parsed::Syntax { .. } => Ok(()),
        Parsed::Limit { .. } => Ok(()),
    }
}

/// The faults of the documents with definitions of both sorts (section 5.1.1).
pub fn add_mixed<R: AsParsed>(readings: &[R], faults: &mut Vec<Fault>) -> Result<(), NoMemory>
    ensures { OnOk result (faults.new.items ≡ faults.old.items ++ each_from mixed_at 0 (read_by R.as_parsed readings.now)) }
{
    for file in 0..readings.len() {
        add_mixed_at(file, readings[file].as_parsed(), faults)?;
    }
    Ok(())
}

/// Marks at the documents in which these definitions and extensions of the type system stand, of so many documents.
fn defining(alloc: Global, entries: &[Entry], count: usize) -> Result<Vec<bool>, NoMemory>
    ensures marked { IfOk result (λ marks. (e : EntryOf) → Contains (entries_view entries.now) e → e.file < count → slice_index_or marks.items e.file false ≡ true) }
    ensures count { IfOk result (λ marks. length marks.items ≡ count) }
{
    let mut marks = vec![in alloc; false; count]?;
    for entry in entries {
        mark(&mut marks, entry.file);
    }
    Ok(marks)
}

/// Marks at that place, if there is one.
fn mark(marks: &mut Vec<bool>, place: usize)
    ensures count { length marks.new.items ≡ length marks.old.items }
    ensures marked { place < length marks.old.items → slice_index_or marks.new.items place false ≡ true }
    ensures stays { (n : ℕ) → slice_index_or marks.old.items n false ≡ true → slice_index_or marks.new.items n false ≡ true }
{
    if place < marks.len() {
        marks[place] = true;
    }
}

/// Puts the fault of a document that is marked, where it has definitions of both sorts.
fn add_marked_at(
    marks: &[bool],
    file: usize,
    reading: &Parsed,
    faults: &mut Vec<Fault>,
) -> Result<(), NoMemory>
    requires { file < length marks.now }
    ensures { OnOk result (faults.new.items ≡ faults.old.items ++ marked_mixed_at marks.now file (parsed_view reading.now)) }
{
    if !marks[file] {
        return Ok(());
    }
    add_mixed_at(file, reading, faults)
}

/// The same of each document.
fn add_marked<R: AsParsed>(
    readings: &[R],
    marks: &[bool],
    faults: &mut Vec<Fault>,
) -> Result<(), NoMemory>
    requires { length marks.now ≡ length readings.now }
    ensures { OnOk result (faults.new.items ≡ faults.old.items ++ each_from (marked_mixed_at marks.now) 0 (read_by R.as_parsed readings.now)) }
{
    for file in 0..readings.len() {
        add_marked_at(marks, file, readings[file].as_parsed(), faults)?;
    }
    Ok(())
}

/// The same as `add_mixed`, of documents of whose type system these are the definitions and extensions: no other document is looked at.
pub fn add_mixed_of(
    alloc: Global,
    entries: &[Entry],
    readings: &[Arc<Parsed>],
    faults: &mut Vec<Fault>,
) -> Result<(), NoMemory>
    ensures { OnOk result (entries_view entries.now ≡ built_in ++ entries_of (readings_view readings.now)
        → faults.new.items ≡ faults.old.items ++ each_from mixed_at 0 (readings_view readings.now)) }
{
    let marks = defining(alloc, entries, readings.len())?;
    add_marked(readings, &marks, faults)
}
