//! The executable definitions of documents (GraphQL, October 2021, section 2.2).
ghost use Rattle.std.specs.Prelude.{◌≡◌, ◌++◌, IfOk, OnOk, flat_map, length, map};
ghost use Rattle.gq_tree.specs.Names.{names_at, spread_names};
ghost use Rattle.gq_tree.specs.Views.{def_view, name_of, type_system_view};
ghost use Rattle.gq_tree.specs.Readings.{definitions_read, in_document, parsed_view, readings_view};
ghost use Rattle.gq_index.specs.Occurrences.{executable_in, executables, is_operation, fragment_name, spreads_in, place_of, type_system_place};
ghost use Rattle.gq_index.specs.Views.{definitions_view, own_names};

use gq_text::{NoMemory, Span};
use gq_tree::{Definition, Name, Parsed, TypeSystemDefinition, spread_names};
use std::alloc::Global;
use std::sync::Arc;

/// An operation or a fragment, and the document that it stands in.
#[derive(Clone, Copy)]
pub struct Executable<'a> {
    /// The number of the document in the project, from 0.
    pub file: usize,
    pub definition: &'a Definition,
}

/// The operations and fragments of the documents, in their order.
pub fn executables<'a>(
    alloc: Global,
    readings: &'a [Arc<Parsed>],
) -> Result<Vec<Executable<'a>>, NoMemory>
    ensures { IfOk result (λ all. definitions_view all.items ≡ executables (readings_view readings.now)) }
{
    let mut all = Vec::with_capacity(alloc, definition_count(readings))?;
    for (file, reading) in readings.iter().enumerate() {
        put_reading(file, reading, &mut all)?;
    }
    Ok(all)
}

/// How many definitions the documents have together, those of the type system included, as far as a number goes.
fn definition_count(readings: &[Arc<Parsed>]) -> usize {
    let mut count = 0usize;
    for reading in readings {
        count = count.saturating_add(count_in(reading));
    }
    count
}

/// How many definitions a document has.
fn count_in(reading: &Parsed) -> usize
    ensures { result ≡ length (definitions_read (parsed_view reading.now)) }
{
    match reading {
        Parsed::Tree(document) => document.definitions.len(),
        Parsed::Syntax { .. } => 0,
        Parsed::Limit { .. } => 0,
    }
}

fn put_reading<'a>(
    file: usize,
    reading: &'a Parsed,
    all: &mut Vec<Executable<'a>>,
) -> Result<(), NoMemory>
    ensures { OnOk result (definitions_view all.new.items ≡ definitions_view all.old.items ++ in_document executable_in file (parsed_view reading.now)) }
{
    match reading {
        Parsed::Tree(document) => put_all(file, &document.definitions, all),
        Parsed::Syntax { .. } => Ok(()),
        Parsed::Limit { .. } => Ok(()),
    }
}

fn put_all<'a>(
    file: usize,
    definitions: &'a [Definition],
    all: &mut Vec<Executable<'a>>,
) -> Result<(), NoMemory>
    ensures { OnOk result (definitions_view all.new.items ≡ definitions_view all.old.items ++ flat_map (executable_in file) (map def_view definitions.now)) }
{
    for definition in definitions {
        put_one(file, definition, all)?;
    }
    Ok(())
}

fn put_one<'a>(
    file: usize,
    definition: &'a Definition,
    all: &mut Vec<Executable<'a>>,
) -> Result<(), NoMemory>
    ensures { OnOk result (definitions_view all.new.items ≡ definitions_view all.old.items ++ executable_in file (def_view definition.now)) }
{
    match definition {
        Definition::Operation(_) => all.push(Executable { file, definition })?,
        Definition::Fragment(_) => all.push(Executable { file, definition })?,
        Definition::TypeSystem(_) => {}
    }
    Ok(())
}

pub(crate) fn is_operation(definition: &Definition) -> bool
    ensures { result ≡ is_operation (def_view definition.now) }
{
    matches!(definition, Definition::Operation(_))
}

/// A copy of the name that a fragment is defined under.
pub(crate) fn fragment_name(
    alloc: Global,
    definition: &Definition,
) -> Result<Option<Name>, NoMemory>
    ensures { IfOk result (λ name. own_names name ≡ fragment_name (def_view definition.now)) }
{
    match definition {
        Definition::Operation(_) => Ok(None),
        Definition::Fragment(fragment) => Ok(Some(copy_of(alloc, &fragment.name)?)),
        Definition::TypeSystem(_) => Ok(None),
    }
}

/// A copy of a name.
pub(crate) fn copy_of(alloc: Global, name: &Name) -> Result<Name, NoMemory>
    ensures { IfOk result (λ copy. name_of copy ≡ name_of name.now) }
{
    Ok(Name {
        text: name.text.copied(alloc)?,
        span: name.span,
    })
}

/// The names in the spreads of a definition, in the order of the text.
pub(crate) fn spreads_in<'a>(
    alloc: Global,
    definition: &'a Definition,
) -> Result<Vec<&'a Name>, NoMemory>
    ensures { IfOk result (λ names. names_at names.items ≡ spreads_in (def_view definition.now)) }
{
    match definition {
        Definition::Operation(operation) => spread_names(alloc, &operation.set.items),
        Definition::Fragment(fragment) => spread_names(alloc, &fragment.set.items),
        Definition::TypeSystem(_) => Ok(Vec::new(alloc)),
    }
}

/// The place of all tokens of a definition.
pub(crate) fn place_of(definition: &Definition) -> Span
    ensures { result ≡ place_of (def_view definition.now) }
{
    match definition {
        Definition::Operation(operation) => operation.span,
        Definition::Fragment(fragment) => fragment.span,
        Definition::TypeSystem(definition) => type_system_place(definition),
    }
}

fn type_system_place(definition: &TypeSystemDefinition) -> Span
    ensures { result ≡ type_system_place (type_system_view definition.now) }
{
    match definition {
        TypeSystemDefinition::Schema(one) => one.span,
        TypeSystemDefinition::Type(one) => one.span,
        TypeSystemDefinition::Directive(one) => one.span,
    }
}
