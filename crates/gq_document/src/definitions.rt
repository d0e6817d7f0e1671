//! The definitions of a project's documents (GraphQL, October 2021, section 2.2), by what they define.
ghost use Rattle.std.specs.Prelude.{◌≡◌, ◌++◌, [], false, ℕ, IfOk, OnOk, flat_map, map};
ghost use Rattle.gq_tree.specs.Views.{def_view};
ghost use Rattle.gq_types.specs.Entries.{entries_view};
ghost use Rattle.gq_tree.specs.Readings.{in_document, parsed_view};
ghost use Rattle.gq_document.specs.ReadBy.{read_by};
ghost use Rattle.gq_document.specs.Definitions.{operation_in, fragment_in, entry_in, operations_of, fragments_of, entries_of, operations_view, fragments_view};

use crate::as_parsed::AsParsed;
use gq_text::NoMemory;
use gq_tree::{Definition, Fragment, Operation, Parsed};
use gq_types::Entry;
use std::alloc::Global;
use std::sync::Arc;

/// An operation, and the document that it stands in.
#[derive(Clone, Copy)]
pub struct OperationEntry<'a> {
    /// The number of the document in the project, from 0.
    pub file: usize,
    pub definition: &'a Operation,
}

/// A fragment, and the document that it stands in.
#[derive(Clone, Copy)]
pub struct FragmentEntry<'a> {
    /// The number of the document in the project, from 0.
    pub file: usize,
    pub definition: &'a Fragment,
}

/// The definitions of documents that are executed, each kind in the order of documents and places. The trees stay where
/// they are.
#[derive(Drop)]
pub struct Definitions<'a> {
    pub operations: Vec<OperationEntry<'a>>,
    pub fragments: Vec<FragmentEntry<'a>>,
}

impl<'a> Definitions<'a> {
    /// The operations and fragments of documents as they are read; a document without a tree has none.
    pub fn of<R: AsParsed>(alloc: Global, readings: &'a [R]) -> Result<Definitions<'a>, NoMemory>
        ensures operations { IfOk result (λ all. operations_view all.operations.items ≡ operations_of (read_by R.as_parsed readings.now)) }
        ensures fragments { IfOk result (λ all. fragments_view all.fragments.items ≡ fragments_of (read_by R.as_parsed readings.now)) }
    {
        let mut all = Definitions {
            operations: Vec::new(alloc),
            fragments: Vec::new(alloc),
        };
        for (file, reading) in readings.iter().enumerate() {
            all.put_reading(file, reading.as_parsed())?;
        }
        Ok(all)
    }

    fn put_reading(&mut self, file: usize, reading: &'a Parsed) -> Result<(), NoMemory>
        ensures operations { OnOk result (operations_view self.new.operations.items ≡ operations_view self.old.operations.items ++ in_document operation_in file (parsed_view reading.now)) }
        ensures fragments { OnOk result (fragments_view self.new.fragments.items ≡ fragments_view self.old.fragments.items ++ in_document fragment_in file (parsed_view reading.now)) }
    {
        match reading {
            Parsed::Tree(document) => self.put_all(file, &document.definitions),
            Parsed::Syntax { .. } => Ok(()),
            Parsed::Limit { .. } => Ok(()),
        }
    }

    fn put_all(&mut self, file: usize, definitions: &'a [Definition]) -> Result<(), NoMemory>
        ensures operations { OnOk result (operations_view self.new.operations.items ≡ operations_view self.old.operations.items ++ flat_map (operation_in file) (map def_view definitions.now)) }
        ensures fragments { OnOk result (fragments_view self.new.fragments.items ≡ fragments_view self.old.fragments.items ++ flat_map (fragment_in file) (map def_view definitions.now)) }
    {
        for definition in definitions {
            self.put(file, definition)?;
        }
        Ok(())
    }

    fn put(&mut self, file: usize, definition: &'a Definition) -> Result<(), NoMemory>
        ensures operations { OnOk result (operations_view self.new.operations.items ≡ operations_view self.old.operations.items ++ operation_in file (def_view definition.now)) }
        ensures fragments { OnOk result (fragments_view self.new.fragments.items ≡ fragments_view self.old.fragments.items ++ fragment_in file (def_view definition.now)) }
    {
        match definition {
            Definition::Operation(definition) => {
                self.operations.push(OperationEntry { file, definition })?
            }
            Definition::Fragment(definition) => {
                self.fragments.push(FragmentEntry { file, definition })?
            }
            Definition::TypeSystem(_) => {}
        }
        Ok(())
    }
}

/// Whether it is a definition or an extension of the type system.
fn is_of_types(definition: &Definition) -> bool
    ensures { result ≡ false → (file : ℕ) → entry_in file (def_view definition.now) ≡ [] }
{
    match definition {
        Definition::Operation(_) => false,
        Definition::Fragment(_) => false,
        Definition::TypeSystem(_) => true,
    }
}

/// Whether one of these is a definition or an extension of the type system.
pub fn one_defines_types(definitions: &[Definition]) -> bool
    ensures { result ≡ false → (file : ℕ) → flat_map (entry_in file) (map def_view definitions.now) ≡ [] }
{
    for definition in definitions {
        if is_of_types(definition) {
            return true;
        }
    }
    false
}

/// Puts the definitions and extensions of the type system among those of a document behind others.
fn put_among(
    file: usize,
    definitions: &[Definition],
    entries: &mut Vec<Entry>,
) -> Result<(), NoMemory>
    ensures { OnOk result (entries_view entries.new.items ≡ entries_view entries.old.items ++ flat_map (entry_in file) (map def_view definitions.now)) }
{
    for definition in definitions {
        if let Definition::TypeSystem(shared) = definition {
            let definition = Arc::try_clone(shared)?;
            entries.push(Entry { file, definition })?;
        }
    }
    Ok(())
}

/// The same of a document as it is read.
fn put_entries_of(file: usize, reading: &Parsed, entries: &mut Vec<Entry>) -> Result<(), NoMemory>
    ensures { OnOk result (entries_view entries.new.items ≡ entries_view entries.old.items ++ in_document entry_in file (parsed_view reading.now)) }
{
    match reading {
        Parsed::Tree(document) => put_among(file, &document.definitions, entries),
        Parsed::Syntax { .. } => Ok(()),
        Parsed::Limit { .. } => Ok(()),
    }
}

/// The definitions and extensions of the type system of documents as they are read, in the order of documents and places. The trees
/// have them too: nothing is copied.
pub fn type_system_entries<R: AsParsed>(
    alloc: Global,
    readings: &[R],
) -> Result<Vec<Entry>, NoMemory>
    ensures { IfOk result (λ entries. entries_view entries.items ≡ entries_of (read_by R.as_parsed readings.now)) }
{
    let mut entries = Vec::new(alloc);
    for (file, reading) in readings.iter().enumerate() {
        put_entries_of(file, reading.as_parsed(), &mut entries)?;
    }
    Ok(entries)
}
