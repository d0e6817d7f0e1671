//! The names of the fields that can be selected (GraphQL, October 2021, section 5.3.1).
ghost use Rattle.std.specs.Prelude.{◌≡◌, ◌↔◌, ◌++◌, ℕ, List, [], Some, IfOk, OnOk, Contains, flat_map, map};
ghost use Rattle.gq_tree.specs.Readings.{parsed_view};
ghost use Rattle.gq_tree.specs.Views.{field_definition_view, document_view};
ghost use Rattle.gq_parse.specs.Parsed.{IsParsed};
ghost use Rattle.gq_types.specs.Look.{types_view, text_of};
ghost use Rattle.gq_document.specs.Selections.{FieldOf, selected_field};
ghost use Rattle.gq_known.specs.Known.{IsKnown};
ghost use Rattle.gq_completion.specs.Completions.{IsFieldIn, IsFieldBy, IsFieldName};
ghost use Rattle.gq_completion.specs.Helping.FieldNames.{own_name, own_names_at, own_names, typename_on, names_on};

use crate::sets::{innermost, is_within_one};
use gq_document::is_composite_named;
use gq_known::Known;
use gq_parse::laws::one_tree;
use gq_schema::laws::documents_have_one_type_system;
use gq_text::{NoMemory, OwnedText};
use gq_tree::{Document, FieldDefinition, Parsed};
use gq_types::Types;
use std::alloc::Global;

fn put_own_name(
    alloc: Global,
    field: &FieldDefinition,
    names: &mut Vec<OwnedText>,
) -> Result<(), NoMemory>
    ensures { OnOk result (names.new.items ≡ names.old.items ++ own_name (field_definition_view field.now).name.text) }
{
    let name = field.name.text.as_str();
    if name == "__typename" {
        return Ok(());
    }
    names.push(OwnedText::from_str(alloc, name)?)?;
    Ok(())
}

fn put_own_names_at(
    alloc: Global,
    fields: &[FieldDefinition],
    names: &mut Vec<OwnedText>,
) -> Result<(), NoMemory>
    ensures { OnOk result (names.new.items ≡ names.old.items ++ flat_map (λ f. own_name f.name.text) (map field_definition_view fields.now)) }
{
    for field in fields {
        put_own_name(alloc, field, names)?;
    }
    Ok(())
}

/// Puts the names of the fields of the object type or interface with that number, whose extensions are joined.
fn put_own_names(
    alloc: Global,
    types: &Types,
    number: usize,
    names: &mut Vec<OwnedText>,
) -> Result<(), NoMemory>
    ensures { OnOk result (names.new.items ≡ names.old.items ++ own_names (types_view types.now) number) }
{
    for part in types.joined(number) {
        put_own_names_at(alloc, types.fields_at(*part), names)?;
    }
    Ok(())
}

/// Puts `__typename` where the type is composite.
fn put_typename(
    alloc: Global,
    types: &Types,
    type_name: &str,
    names: &mut Vec<OwnedText>,
) -> Result<(), NoMemory>
    ensures { OnOk result (names.new.items ≡ names.old.items ++ typename_on (types_view types.now) type_name.now) }
{
    if is_composite_named(types, type_name) {
        names.push(OwnedText::from_str(alloc, "__typename")?)?;
    }
    Ok(())
}

/// The names of the fields of the type of that name.
fn names_on(alloc: Global, types: &Types, type_name: &str) -> Result<Vec<OwnedText>, NoMemory>
    ensures { IfOk result (λ names. names.items ≡ names_on (types_view types.now) type_name.now) }
{
    let mut names = Vec::new(alloc);
    put_typename(alloc, types, type_name, &mut names)?;
    if let Some(number) = types.type_number(type_name) {
        put_own_names(alloc, types, number, &mut names)?;
    }
    Ok(names)
}

/// The names of the fields that can be selected where the parent has that type.
fn field_names(
    alloc: Global,
    types: &Types,
    parent: Option<&str>,
) -> Result<Vec<OwnedText>, NoMemory>
    ensures { IfOk result (λ names. (label : List ℕ) → Contains names.items label ↔ ((field : FieldOf) × (selected_field (types_view types.now) (text_of parent.entry) label ≡ Some field))) }
{
    match parent {
        Some(type_name) => names_on(alloc, types, type_name),
        None => Ok(Vec::new(alloc)),
    }
}

/// The names of the fields that can be selected at the offset, where what is typed begins at the place.
fn fields_in(
    alloc: Global,
    types: &Types,
    document: &Document,
    place: usize,
    offset: usize,
) -> Result<Vec<OwnedText>, NoMemory>
    ensures { IfOk result (λ names. (label : List ℕ) → Contains names.items label ↔ IsFieldIn (types_view types.now) (document_view document.now) place offset label) }
{
    let Some(set) = innermost(alloc, types, document, offset)? else {
        return Ok(Vec::new(alloc));
    };
    if is_within_one(place, set.selections) {
        return Ok(Vec::new(alloc));
    }
    field_names(alloc, types, set.parent)
}

/// The same by what is known of a project; where something is wrong with its type system there are none.
fn fields_by(
    alloc: Global,
    known: Known<'_>,
    document: &Document,
    place: usize,
    offset: usize,
) -> Result<Vec<OwnedText>, NoMemory>
    ensures { IfOk result (λ names. IsKnown known.entry → (label : List ℕ) → Contains names.items label ↔ IsFieldBy known.entry.project.now (document_view document.now) place offset label) }
{
    documents_have_one_type_system();
    if known.has_schema {
        return fields_in(alloc, known.types, document, place, offset);
    }
    Ok(Vec::new(alloc))
}

/// The same in a text that reads so; one without a tree has none.
pub(crate) fn fields_at(
    alloc: Global,
    known: Known<'_>,
    reading: &Parsed,
    place: usize,
    offset: usize,
) -> Result<Vec<OwnedText>, NoMemory>
    ensures { IfOk result (λ names. IsKnown known.entry → (text : List ℕ) → IsParsed text (parsed_view reading.now)
        → (label : List ℕ) → Contains names.items label ↔ IsFieldName known.entry.project.now text place offset label) }
{
    one_tree();
    match reading {
        Parsed::Tree(document) => fields_by(alloc, known, document, place, offset),
        Parsed::Syntax { .. } => Ok(Vec::new(alloc)),
        Parsed::Limit { .. } => Ok(Vec::new(alloc)),
    }
}
