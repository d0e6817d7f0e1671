//! Values and directives at their types, as the rules of the type system and of operations share them.
use crate::faults::tell_in_order;
use crate::no_answer::NoAnswer;
use crate::row::Row;
use crate::telling::Telling;
use gq_fault::Fault;
use gq_names::NameList;
use gq_parse::{Definition, parse};
use gq_text::NoMemory;
use gq_tree::{Directive, DirectiveLocation, TypeSystemDefinition};
use gq_types::{Entry, Types, is_built_in_scalar};
use gq_values::fitting::is_int_32;
use gq_values::{ExpectedType, add_argument_faults, add_directive_faults, add_literal_faults};
use std::alloc::Global;

/// The types that a text defines.
pub fn types_of(alloc: Global, text: &str) -> Result<Types, NoAnswer> {
    let mut entries = Vec::new(alloc);
    for definition in parse(alloc, text)?.definitions {
        if let Definition::TypeSystem(definition) = definition {
            entries.push(Entry {
                file: 0,
                definition,
            })?;
        }
    }
    Ok(Types::of(alloc, entries)?)
}

/// Puts what is wrong with the default value of the input field `v` of `P`.
fn put_value(alloc: Global, types: &Types, faults: &mut Vec<Fault>) -> Result<(), NoMemory> {
    match types.input_field("P", "v") {
        Some(input) => match &input.default {
            Some(value) => {
                add_literal_faults(
                    alloc,
                    types,
                    0,
                    ExpectedType::AtType(&input.type_ref),
                    value,
                    faults,
                )
            }
            None => Ok(()),
        },
        None => Ok(()),
    }
}

/// The directives on the type `T`.
fn directives(types: &Types) -> &[Directive] {
    let Some(number) = types.type_number("T") else {
        return &[];
    };
    let Some(entry) = types.entries().get(number) else {
        return &[];
    };
    match &*entry.definition {
        TypeSystemDefinition::Type(one) => one.directives.as_slice(),
        _ => &[],
    }
}

/// Puts what is wrong with the directives on the type `T`, which stand at that location, and answers how many names of
/// directives there are then.
fn put_directives(
    alloc: Global,
    types: &Types,
    location: DirectiveLocation,
    faults: &mut Vec<Fault>,
) -> Result<usize, NoMemory> {
    let mut names = NameList::new(alloc);
    let all = directives(types);
    add_directive_faults(alloc, types, 0, location, &mut names, all, faults)?;
    Ok(names.len())
}

/// Puts what is wrong with the arguments of the directives on the type `T`, if these are not known.
fn put_arguments(alloc: Global, types: &Types, faults: &mut Vec<Fault>) -> Result<(), NoMemory> {
    for one in directives(types) {
        add_argument_faults(alloc, types, 0, None, &one.name, &one.arguments, faults)?;
    }
    Ok(())
}

/// Puts what is wrong with what the word says.
fn add_faults(
    alloc: Global,
    types: &Types,
    word: &str,
    faults: &mut Vec<Fault>,
) -> Result<(), NoMemory> {
    match word {
        "value" => put_value(alloc, types, faults)?,
        "OBJECT" => {
            let _ = put_directives(alloc, types, DirectiveLocation::Object, faults)?;
        }
        "SCALAR" => {
            let _ = put_directives(alloc, types, DirectiveLocation::Scalar, faults)?;
        }
        _ => put_arguments(alloc, types, faults)?,
    }
    Ok(())
}

/// Tells of a text what the word before it asks: `is_int_32`, `is_built_in_scalar`, how many `names` the
/// directives on the type `T` have, or what is wrong with the default `value` of `P.v`, with the directives on `T` at a
/// location or with their `arguments`.
pub fn tell_literals(alloc: Global, row: &Row<'_>, telling: &mut Telling) -> Result<(), NoAnswer> {
    let asked = row.asked(alloc)?;
    let (word, text) = asked.as_str().split_once(": ").ok_or(NoAnswer)?;
    match word {
        "is_int_32" => telling.put_yes_or_no(is_int_32(text)),
        "is_built_in_scalar" => telling.put_yes_or_no(is_built_in_scalar(text)),
        "names" => {
            let types = types_of(alloc, text)?;
            let mut faults = Vec::new(alloc);
            let object = DirectiveLocation::Object;
            telling.put_number(put_directives(alloc, &types, object, &mut faults)?);
        }
        _ => {
            let types = types_of(alloc, text)?;
            let mut faults = Vec::new(alloc);
            add_faults(alloc, &types, word, &mut faults)?;
            tell_in_order(row, &mut faults, telling);
        }
    }
    Ok(())
}
