//! The names of the parts of types.
ghost use Rattle.std.specs.Prelude.{◌≡◌, ◌++◌, OnOk, IfOk, map};
ghost use Rattle.gq_tree.specs.Views.{name_of, input_view, field_definition_view, enum_value_view, body_view};
ghost use Rattle.gq_types.specs.Entries.{entry_view, entries_view};
ghost use Rattle.gq_type_system.specs.Helping.Groups.{at_number, part_names_in, names_in};
ghost use Rattle.gq_types.specs.Joined.{fields_in_body, interfaces_in_body, members_in_body, values_in_body, inputs_in_body, put_in};
ghost use Rattle.gq_types.specs.Look.{types_view};
ghost use Rattle.gq_type_system.specs.Parts.{part_names, names_of_part, required_part};

use gq_text::NoMemory;
use gq_tree::{
    EnumValueDefinition, FieldDefinition, InputValueDefinition, Name, TypeBody,
    TypeSystemDefinition,
};
use gq_types::{Entry, Types};
use std::alloc::Global;

/// The parts of types that have names (sections 3.6 to 3.10).
#[derive(Clone, Copy, Debug, PartialEq, Eq)]
pub enum Part {
    Fields,
    Interfaces,
    Members,
    Values,
    InputFields,
}

impl Part {
    /// Of which parts a type must have at least one.
    pub fn required(body: &TypeBody) -> Option<Part>
        ensures { result ≡ required_part (body_view body.now) }
    {
        match body {
            TypeBody::Scalar => None,
            TypeBody::Object(_) | TypeBody::Interface(_) => Some(Part::Fields),
            TypeBody::Union(_) => Some(Part::Members),
            TypeBody::Enum(_) => Some(Part::Values),
            TypeBody::InputObject(_) => Some(Part::InputFields),
        }
    }
}

/// A name, and the number of the document that it stands in.
#[derive(Clone, Copy)]
pub struct NameIn<'a> {
    pub file: usize,
    pub name: &'a Name,
}

/// The fields of an object type or an interface.
pub fn fields_in(body: &TypeBody) -> &[FieldDefinition]
    ensures { map field_definition_view result.now ≡ fields_in_body (body_view body.now) }
{
    match body {
        TypeBody::Object(parts) => &parts.fields,
        TypeBody::Interface(parts) => &parts.fields,
        _ => &[],
    }
}

/// What an object type or an interface implements.
fn interfaces_in(body: &TypeBody) -> &[Name]
    ensures { map name_of result.now ≡ interfaces_in_body (body_view body.now) }
{
    match body {
        TypeBody::Object(parts) => &parts.interfaces,
        TypeBody::Interface(parts) => &parts.interfaces,
        _ => &[],
    }
}

/// The members of a union.
fn members_in(body: &TypeBody) -> &[Name]
    ensures { map name_of result.now ≡ members_in_body (body_view body.now) }
{
    match body {
        TypeBody::Union(members) => members,
        _ => &[],
    }
}

/// The values of an enum.
fn values_in(body: &TypeBody) -> &[EnumValueDefinition]
    ensures { map enum_value_view result.now ≡ values_in_body (body_view body.now) }
{
    match body {
        TypeBody::Enum(values) => values,
        _ => &[],
    }
}

/// The fields of an input object.
fn inputs_in(body: &TypeBody) -> &[InputValueDefinition]
    ensures { map input_view result.now ≡ inputs_in_body (body_view body.now) }
{
    match body {
        TypeBody::InputObject(fields) => fields,
        _ => &[],
    }
}

fn put_field_names<'a>(
    file: usize,
    fields: &'a [FieldDefinition],
    names: &mut Vec<NameIn<'a>>,
) -> Result<(), NoMemory>
    ensures { OnOk result (names_in names.new.items ≡ names_in names.old.items ++ put_in file (map (λ f. f.name) (map field_definition_view fields.now))) }
{
    for field in fields {
        names.push(NameIn {
            file,
            name: &field.name,
        })?;
    }
    Ok(())
}

fn put_names<'a>(file: usize, more: &'a [Name], names: &mut Vec<NameIn<'a>>) -> Result<(), NoMemory>
    ensures { OnOk result (names_in names.new.items ≡ names_in names.old.items ++ put_in file (map name_of more.now)) }
{
    for name in more {
        names.push(NameIn { file, name })?;
    }
    Ok(())
}

fn put_value_names<'a>(
    file: usize,
    values: &'a [EnumValueDefinition],
    names: &mut Vec<NameIn<'a>>,
) -> Result<(), NoMemory>
    ensures { OnOk result (names_in names.new.items ≡ names_in names.old.items ++ put_in file (map (λ v. v.name) (map enum_value_view values.now))) }
{
    for value in values {
        names.push(NameIn {
            file,
            name: &value.name,
        })?;
    }
    Ok(())
}

fn put_input_names<'a>(
    file: usize,
    inputs: &'a [InputValueDefinition],
    names: &mut Vec<NameIn<'a>>,
) -> Result<(), NoMemory>
    ensures { OnOk result (names_in names.new.items ≡ names_in names.old.items ++ put_in file (map (λ i. i.name) (map input_view inputs.now))) }
{
    for input in inputs {
        names.push(NameIn {
            file,
            name: &input.name,
        })?;
    }
    Ok(())
}

fn put_names_in<'a>(
    part: Part,
    entry: &'a Entry,
    names: &mut Vec<NameIn<'a>>,
) -> Result<(), NoMemory>
    ensures { OnOk result (names_in names.new.items ≡ names_in names.old.items ++ part_names_in part (entry_view entry.now)) }
{
    let TypeSystemDefinition::Type(one) = &*entry.definition else {
        return Ok(());
    };
    match part {
        Part::Fields => put_field_names(entry.file, fields_in(&one.body), names),
        Part::Interfaces => put_names(entry.file, interfaces_in(&one.body), names),
        Part::Members => put_names(entry.file, members_in(&one.body), names),
        Part::Values => put_value_names(entry.file, values_in(&one.body), names),
        Part::InputFields => put_input_names(entry.file, inputs_in(&one.body), names),
    }
}

#[tactic(auto, using(crate::proofs::GroupLemmas::groups))]
fn put_names_at<'a>(
    part: Part,
    entries: &'a [Entry],
    number: usize,
    names: &mut Vec<NameIn<'a>>,
) -> Result<(), NoMemory>
    ensures { OnOk result (names_in names.new.items ≡ names_in names.old.items ++ at_number (part_names_in part) (entries_view entries.now) number) }
{
    match entries.get(number) {
        Some(entry) => put_names_in(part, entry, names),
        None => Ok(()),
    }
}

/// The names of those parts of the entries that belong to that number, in order.
#[tactic(auto, using(crate::proofs::GroupLemmas::groups))]
pub fn part_names<'a>(
    alloc: Global,
    types: &'a Types,
    part: Part,
    number: usize,
) -> Result<Vec<NameIn<'a>>, NoMemory>
    ensures { IfOk result (λ names. names_in names.items ≡ part_names part (types_view types.now) number) }
{
    let entries = types.entries();
    let mut names = Vec::new(alloc);
    let numbers = types.joined(number);
    for one in numbers {
        put_names_at(part, entries, *one, &mut names)?;
    }
    Ok(names)
}
