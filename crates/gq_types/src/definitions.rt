//! The definitions of a type system, found by their names.
ghost use Rattle.std.specs.Prelude.{◌≡◌, ◌++◌, ◌<◌, ◌≤◌, IfOk, IfSome, None, OnOk, length, map, slice_index_or};
ghost use Rattle.std.specs.Arc.{arc_value};
ghost use Rattle.std.specs.Option.{option_map};
ghost use Rattle.gq_tree.specs.Views.{body_view, type_system_view};
ghost use Rattle.gq_types.specs.Entries.{entry_view, entries_view};
ghost use Rattle.gq_types.specs.Outlines.{outline};
ghost use Rattle.gq_types.specs.Kinds.{kind_of};
ghost use Rattle.gq_types.specs.Joined.{type_number, kind_in, kind_named, directive_number, is_schema, schema_number, owner_of_extension};
ghost use Rattle.gq_types.specs.Look.{text_of, owner_at, directive_of};
ghost use Rattle.gq_types.specs.Names.{directive_named};
ghost use Rattle.gq_types.specs.Helping.Tables.{at_most_one, type_key, directive_key, directive_in, AreNames};

use crate::entry::{Entry, TypeKind};
use crate::table::Table;
use gq_text::NoMemory;
use gq_tree::{DirectiveDefinition, TypeDefinition, TypeSystemDefinition};
use std::alloc::Global;
use std::marker::Model;
use std::mem;

/// The definitions and extensions of a type system, and where those stand that have a name. Of equal names the first is
/// found. A look-up takes no memory.
#[derive(Drop)]
pub(crate) struct Definitions {
    entries: Vec<Entry>,
    types: Table<usize>,
    directives: Table<usize>,
    kinds: Vec<Option<TypeKind>>,
    schema: usize,
}

impl Model for Definitions {
    ghost use Rattle.std.specs.Prelude.{List};
    ghost use Rattle.std.specs.Coded.{codes};
    ghost use Rattle.gq_types.specs.contracts.entry.Entry as entry;
    ghost use Rattle.gq_types.specs.declared.entry.Entry.{Entry};
    ghost use Rattle.gq_types.specs.Entries.{entries_view};
    ghost use Rattle.gq_types.specs.Helping.Tables.{AreDefinitions};

    ghost Value = { List Entry };

    ghost coded = { Prim.hlevel (codes, entry.the_row.coded) };

    ghost view = { λ d. d.entries.items };

    ghost invariant = { λ d. AreDefinitions (entries_view d.entries.items) d.types d.directives d.kinds.items d.schema };
}

impl Definitions {
    /// The definitions and extensions, in order.
    pub(crate) fn of(alloc: Global, entries: Vec<Entry>) -> Result<Definitions, NoMemory>
        ensures { IfOk result (λ d. d ≡ entries.items) }
    {
        let types = type_names(alloc, &entries)?;
        let directives = directive_names(alloc, &entries)?;
        let kinds = kinds_of(alloc, &entries)?;
        let schema = schema_place(&entries);
        Ok(Definitions {
            entries,
            types,
            directives,
            kinds,
            schema,
        })
    }

    /// The definitions and extensions.
    pub(crate) fn entries(&self) -> &[Entry]
        ensures { result.now ≡ self.now }
    {
        self.entries.as_slice()
    }

    /// Puts other definitions and extensions in the place of these, and answers these. They are the same but for their places and the fields of types, so
    /// what is kept of their names stays.
    pub(crate) fn replace(&mut self, entries: Vec<Entry>) -> Vec<Entry>
        requires { ∥ map outline (entries_view self.old) ≡ map outline (entries_view entries.items) ∥₁ }
        ensures now { self.new ≡ entries.items }
        ensures was { result.items ≡ self.old }
    {
        mem::replace(&mut self.entries, entries)
    }

    /// The number of the first definition of a type of that name.
    pub(crate) fn type_number(&self, name: &str) -> Option<usize>
        ensures is { result ≡ type_number (entries_view self.now) name.now }
        ensures within { IfSome result (λ number. number < length (entries_view self.now)) }
    {
        self.types.get(name)
    }

    /// The kind of the type of that name. No definition is looked at.
    pub(crate) fn kind(&self, name: &str) -> Option<TypeKind>
        ensures { result ≡ kind_named (entries_view self.now) name.now }
    {
        let number = self.type_number(name)?;
        kind_at(&self.kinds, number)
    }

    /// The directive of that name.
    pub(crate) fn directive(&self, name: &str) -> Option<&DirectiveDefinition>
        ensures { directive_of result ≡ directive_named (entries_view self.now) name.now }
    {
        let number = self.directive_number(name)?;
        directive_in(&self.entries[number])
    }

    /// The number of the first definition of a directive of that name.
    pub(crate) fn directive_number(&self, name: &str) -> Option<usize>
        ensures is { result ≡ directive_number (entries_view self.now) name.now }
        ensures within { IfSome result (λ number. number < length (entries_view self.now)) }
    {
        self.directives.get(name)
    }

    /// The number of the schema definition or, without one, the number of entries.
    pub(crate) fn schema_number(&self) -> usize
        ensures is { result ≡ schema_number (entries_view self.now) }
        ensures within { result ≤ length (entries_view self.now) }
    {
        self.schema
    }

    /// The number of what the entry with that number belongs to.
    pub(crate) fn owner(&self, number: usize) -> usize
        requires { number < length (entries_view self.now) }
        ensures is { result ≡ owner_at (entries_view self.now) number }
        ensures within { result ≤ length (entries_view self.now) }
    {
        match &*self.entries[number].definition {
            TypeSystemDefinition::Schema(schema) if schema.extends => self.schema_number(),
            TypeSystemDefinition::Type(one) if one.extends => self.extended(number, one),
            _ => number,
        }
    }

    /// The number of what a type extension with that number belongs to.
    fn extended(&self, number: usize, one: &TypeDefinition) -> usize
        requires { number < length (entries_view self.now) }
        ensures is { result ≡ owner_of_extension (entries_view self.now) number one.now.name.text (kind_of (body_view one.now.body)) }
        ensures within { result ≤ length (entries_view self.now) }
    {
        let name = one.name.text.as_str();
        match self.kind(name) {
            Some(kind) if TypeKind::of(&one.body).is(kind) => {
                self.type_number(name).unwrap_or(number)
            }
            _ => number,
        }
    }
}

/// The name of the type that the entry defines.
fn type_name(entry: &Entry) -> Option<&str>
    ensures { text_of result ≡ type_key (type_system_view (arc_value entry.now.definition)) }
{
    match &*entry.definition {
        TypeSystemDefinition::Type(one) if !one.extends => Some(one.name.text.as_str()),
        _ => None,
    }
}

/// The name of the directive that the entry defines.
fn directive_name(entry: &Entry) -> Option<&str>
    ensures { text_of result ≡ directive_key (type_system_view (arc_value entry.now.definition)) }
{
    match &*entry.definition {
        TypeSystemDefinition::Directive(one) => Some(one.name.text.as_str()),
        _ => None,
    }
}

/// Whether the entry is a schema definition.
fn is_schema(entry: &Entry) -> bool
    ensures { result ≡ is_schema (type_system_view (arc_value entry.now.definition)) }
{
    match &*entry.definition {
        TypeSystemDefinition::Schema(one) => !one.extends,
        _ => false,
    }
}

/// The kind of the type that the entry defines or extends.
fn kind_in(entry: &Entry) -> Option<TypeKind>
    ensures { result ≡ kind_in (type_system_view (arc_value entry.now.definition)) }
{
    match &*entry.definition {
        TypeSystemDefinition::Type(one) => Some(TypeKind::of(&one.body)),
        _ => None,
    }
}

/// For each entry the kind of the type that it defines or extends.
#[tactic(auto, using(gq_tree::proofs::Trees::gathers))]
fn kinds_of(alloc: Global, entries: &[Entry]) -> Result<Vec<Option<TypeKind>>, NoMemory>
    ensures { IfOk result (λ kinds. kinds.items ≡ map (λ e. kind_in e.definition) (entries_view entries.now)) }
{
    let mut kinds = Vec::with_capacity(alloc, entries.len())?;
    for entry in entries {
        kinds.push(kind_in(entry))?;
    }
    Ok(kinds)
}

/// What stands at that place, and past the last one nothing.
fn kind_at(kinds: &[Option<TypeKind>], number: usize) -> Option<TypeKind>
    ensures { result ≡ slice_index_or kinds.now number None }
{
    match kinds.get(number) {
        Some(kind) => *kind,
        None => None,
    }
}

/// The directive that the entry defines.
fn directive_in(entry: &Entry) -> Option<&DirectiveDefinition>
    ensures { directive_of result ≡ directive_in (type_system_view (arc_value entry.now.definition)) }
{
    match &*entry.definition {
        TypeSystemDefinition::Directive(one) => Some(one),
        _ => None,
    }
}

/// Puts the number of an entry under its name, where it has one.
fn note(names: &mut Table<usize>, name: Option<&str>, number: usize) -> Result<(), NoMemory>
    ensures names { OnOk result (names.new.names ≡ names.old.names ++ at_most_one (text_of name.entry)) }
    ensures numbers { OnOk result (names.new.values.items ≡ names.old.values.items ++ at_most_one (option_map (λ text. number) (text_of name.entry))) }
{
    match name {
        Some(text) => names.push(text, number),
        None => Ok(()),
    }
}

/// The names of types, with the numbers of their definitions.
fn type_names(alloc: Global, entries: &[Entry]) -> Result<Table<usize>, NoMemory>
    ensures { IfOk result (AreNames type_key (entries_view entries.now)) }
{
    let mut names = Table::new(alloc);
    for (number, entry) in entries.iter().enumerate() {
        note(&mut names, type_name(entry), number)?;
    }
    Ok(names)
}

/// The names of directives, with the numbers of their definitions.
fn directive_names(alloc: Global, entries: &[Entry]) -> Result<Table<usize>, NoMemory>
    ensures { IfOk result (AreNames directive_key (entries_view entries.now)) }
{
    let mut names = Table::new(alloc);
    for (number, entry) in entries.iter().enumerate() {
        note(&mut names, directive_name(entry), number)?;
    }
    Ok(names)
}

/// The number of the first schema definition or, without one, the number of entries.
fn schema_place(entries: &[Entry]) -> usize
    ensures { result ≡ schema_number (entries_view entries.now) }
{
    for (number, entry) in entries.iter().enumerate() {
        if is_schema(entry) {
            return number;
        }
    }
    entries.len()
}
