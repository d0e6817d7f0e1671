//! Types without parts, and parts that stand twice.
ghost use Rattle.std.specs.Prelude.{◌≡◌, ◌++◌, ◌<◌, [], true, OnOk, flat_map, map};
ghost use Rattle.std.specs.Arc.{arc_value};
ghost use Rattle.std.specs.List.{list_any};
ghost use Rattle.std.specs.Str.{bytes_eq};
ghost use Rattle.gq_tree.specs.Views.{type_system_view, input_view, field_definition_view};
ghost use Rattle.gq_type_system.specs.Helping.EmptyOrRepeatedPlaces.{empty_type, repeated_faults, texts_of, repeated_part};
ghost use Rattle.gq_type_system.specs.Helping.EmptyOrRepeatedPlaces.{repeated_parts_of, repeated_arguments_in, repeated_arguments_of};
ghost use Rattle.gq_type_system.specs.Helping.Groups.{names_in};
ghost use Rattle.gq_types.specs.Look.{types_view};

use crate::parts::{NameIn, Part, fields_in, part_names};
use gq_fault::{Code, Fault};
use gq_names::NameList;
use gq_text::NoMemory;
use gq_tree::{FieldDefinition, InputValueDefinition, TypeSystemDefinition};
use gq_types::{Entry, Types};
use std::alloc::Global;

/// The fault of the entry with that number, if it defines a type that has no part of the kind that it must have (sections 3.6 to 3.10).
pub(crate) fn add_empty_type(
    alloc: Global,
    types: &Types,
    number: usize,
    entry: &Entry,
    faults: &mut Vec<Fault>,
) -> Result<(), NoMemory>
    ensures { OnOk result (faults.new.items ≡ faults.old.items ++ empty_type (types_view types.now) number entry.now.file (type_system_view (arc_value entry.now.definition))) }
{
    let TypeSystemDefinition::Type(one) = &*entry.definition else {
        return Ok(());
    };
    if one.extends {
        return Ok(());
    }
    let Some(part) = Part::required(&one.body) else {
        return Ok(());
    };
    if part_names(alloc, types, part, number)?.is_empty() {
        faults.push(Fault {
            file: entry.file,
            start: one.name.span.start,
            code: Code::EmptyOrRepeated,
            end: one.name.span.end,
        })?;
    }
    Ok(())
}

/// The most names that are compared each with each. For so few that takes less time than to make a list of them.
const FEW: usize = 16;

/// Whether one of these names has that text.
fn is_among(names: &[NameIn<'_>], text: &str) -> bool
    ensures { result ≡ list_any (bytes_eq text.now) (texts_of (names_in names.now)) }
{
    for one in names {
        if text == one.name.text.as_str() {
            return true;
        }
    }
    false
}

/// Whether these are few names, of which none stands twice.
fn are_few_and_distinct(names: &[NameIn<'_>]) -> bool
    ensures { result ≡ true → repeated_faults (names_in names.now) ≡ [] }
{
    if names.len() > FEW {
        return false;
    }
    for at in 0..names.len() {
        let name = names[at].name;
        if is_among(&names[..at], name.text.as_str()) {
            return false;
        }
    }
    true
}

/// The faults of the names that stand earlier among these names.
#[tactic(auto, using(gq_tree::proofs::Trees::gathers))]
fn add_repeated_names(
    alloc: Global,
    names: &[NameIn<'_>],
    faults: &mut Vec<Fault>,
) -> Result<(), NoMemory>
    ensures { OnOk result (faults.new.items ≡ faults.old.items ++ repeated_faults (names_in names.now)) }
{
    if are_few_and_distinct(names) {
        return Ok(());
    }
    let mut seen = NameList::new(alloc);
    for one in names {
        if !seen.push(one.name.text.as_str())? {
            faults.push(Fault {
                file: one.file,
                start: one.name.span.start,
                code: Code::EmptyOrRepeated,
                end: one.name.span.end,
            })?;
        }
    }
    Ok(())
}

/// The faults of those parts of a type with its extensions whose names stand earlier.
fn add_repeated_part(
    alloc: Global,
    types: &Types,
    number: usize,
    part: Part,
    faults: &mut Vec<Fault>,
) -> Result<(), NoMemory>
    ensures { OnOk result (faults.new.items ≡ faults.old.items ++ repeated_part (types_view types.now) number part) }
{
    let names = part_names(alloc, types, part, number)?;
    add_repeated_names(alloc, &names, faults)
}

/// The faults of all parts of a type with its extensions whose names stand earlier among those of their kind (sections 3.6 to 3.10).
#[tactic(auto, using(gq_tree::proofs::Trees::gathers))]
pub(crate) fn add_repeated_parts_of(
    alloc: Global,
    types: &Types,
    number: usize,
    faults: &mut Vec<Fault>,
) -> Result<(), NoMemory>
    ensures { OnOk result (faults.new.items ≡ faults.old.items ++ repeated_parts_of (types_view types.now) number) }
{
    add_repeated_part(alloc, types, number, Part::Fields, faults)?;
    add_repeated_part(alloc, types, number, Part::Interfaces, faults)?;
    add_repeated_part(alloc, types, number, Part::Members, faults)?;
    add_repeated_part(alloc, types, number, Part::Values, faults)?;
    add_repeated_part(alloc, types, number, Part::InputFields, faults)
}

/// The faults of the arguments whose names stand earlier among these arguments.
#[tactic(auto, using(gq_tree::proofs::Trees::gathers))]
fn add_repeated_arguments_in(
    alloc: Global,
    file: usize,
    arguments: &[InputValueDefinition],
    faults: &mut Vec<Fault>,
) -> Result<(), NoMemory>
    ensures { OnOk result (faults.new.items ≡ faults.old.items ++ repeated_arguments_in file (map input_view arguments.now)) }
{
    let mut seen = NameList::new(alloc);
    for one in arguments {
        if !seen.push(one.name.text.as_str())? {
            faults.push(Fault {
                file,
                start: one.name.span.start,
                code: Code::EmptyOrRepeated,
                end: one.name.span.end,
            })?;
        }
    }
    Ok(())
}

fn add_repeated_arguments_of_fields(
    alloc: Global,
    file: usize,
    fields: &[FieldDefinition],
    faults: &mut Vec<Fault>,
) -> Result<(), NoMemory>
    ensures { OnOk result (faults.new.items ≡ faults.old.items ++ flat_map (repeated_arguments_in file) (map (λ f. f.arguments) (map field_definition_view fields.now))) }
{
    for field in fields {
        add_repeated_arguments_in(alloc, file, &field.arguments, faults)?;
    }
    Ok(())
}

/// The faults of the arguments of a field or of a directive whose names stand earlier among these (sections 3.6.1 and 3.13).
#[tactic(auto, using(gq_tree::proofs::Trees::gathers))]
pub(crate) fn add_repeated_arguments_of(
    alloc: Global,
    entry: &Entry,
    faults: &mut Vec<Fault>,
) -> Result<(), NoMemory>
    ensures { OnOk result (faults.new.items ≡ faults.old.items ++ repeated_arguments_of entry.now.file (type_system_view (arc_value entry.now.definition))) }
{
    match &*entry.definition {
        TypeSystemDefinition::Schema(_) => Ok(()),
        TypeSystemDefinition::Type(one) => {
            add_repeated_arguments_of_fields(alloc, entry.file, fields_in(&one.body), faults)
        }
        TypeSystemDefinition::Directive(one) => {
            add_repeated_arguments_in(alloc, entry.file, &one.arguments, faults)
        }
    }
}
