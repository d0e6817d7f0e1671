//! The types that lead back to themselves by input fields without null (section 3.10, Circular References).
ghost use Rattle.std.specs.Prelude.{◌≡◌, ◌++◌, map, IfOk, OnOk};
ghost use Rattle.gq_tree.specs.Views.{type_view, input_view};
ghost use Rattle.gq_type_system.specs.Helping.EndlessInputsPlaces.{name_at, name_in, required_name, required_number, required_named};
ghost use Rattle.gq_type_system.specs.Helping.EndlessInputsPlaces.{required_numbers, required_of, required_rows, row_items, MarksNonNull};
ghost use Rattle.gq_types.specs.Look.{types_view};

use crate::input_fields::{inputs_at, type_name};
use gq_graph::on_cycles;
use gq_text::NoMemory;
use gq_tree::{InputValueDefinition, Name, TypeRef};
use gq_types::Types;
use std::alloc::Global;

/// The name in a type that is one, without brackets and without `!`.
#[tactic(auto, using(gq_tree::proofs::Trees::types))]
fn name_in(type_ref: &TypeRef) -> Option<&Name>
    ensures { name_at result ≡ name_in (type_view type_ref.now) }
{
    match type_ref {
        TypeRef::Named(name) => Some(name),
        TypeRef::List(_) => None,
        TypeRef::NonNull(_) => None,
    }
}

/// The name in a type without null that is no list.
#[tactic(auto, using(gq_tree::proofs::Trees::types))]
fn required_name(type_ref: &TypeRef) -> Option<&Name>
    ensures { name_at result ≡ required_name (type_view type_ref.now) }
{
    match type_ref {
        TypeRef::Named(_) => None,
        TypeRef::List(_) => None,
        TypeRef::NonNull(inner) => name_in(inner),
    }
}

/// Puts the number of the type that the field leads to, if its type is without null and no list.
fn put_required(
    types: &Types,
    field: &InputValueDefinition,
    row: &mut Vec<usize>,
) -> Result<(), NoMemory>
    ensures { OnOk result (row.new.items ≡ row.old.items ++ required_number (types_view types.now) (input_view field.now)) }
{
    if let Some(name) = required_name(&field.type_ref) {
        if let Some(number) = types.type_number(name.text.as_str()) {
            row.push(number)?;
        }
    }
    Ok(())
}

/// The same for the field that the type has of that name.
fn put_required_named(
    types: &Types,
    type_name: &str,
    name: &str,
    row: &mut Vec<usize>,
) -> Result<(), NoMemory>
    ensures { OnOk result (row.new.items ≡ row.old.items ++ required_named (types_view types.now) type_name.now name.now) }
{
    match types.input_field(type_name, name) {
        Some(field) => put_required(types, field, row),
        None => Ok(()),
    }
}

#[tactic(auto, using(gq_tree::proofs::Trees::gathers))]
fn put_all_required(
    types: &Types,
    type_name: &str,
    fields: &[InputValueDefinition],
    row: &mut Vec<usize>,
) -> Result<(), NoMemory>
    ensures { OnOk result (row.new.items ≡ row.old.items ++ required_numbers (types_view types.now) type_name.now (map input_view fields.now)) }
{
    for field in fields {
        put_required_named(types, type_name, field.name.text.as_str(), row)?;
    }
    Ok(())
}

/// The numbers of the types that the type of that number leads to. Of fields of one name the first is meant.
#[tactic(auto, using(gq_tree::proofs::Trees::gathers))]
fn required_of(alloc: Global, types: &Types, number: usize) -> Result<Vec<usize>, NoMemory>
    ensures { IfOk result (λ row. row.items ≡ required_of (types_view types.now) number) }
{
    let mut row = Vec::new(alloc);
    let type_name = type_name(types, number);
    for joined in types.joined(number) {
        put_all_required(types, type_name, inputs_at(types, *joined), &mut row)?;
    }
    Ok(row)
}

/// For each entry the numbers of the types that it leads to.
#[tactic(auto, using(gq_tree::proofs::Trees::gathers))]
fn required_rows(alloc: Global, types: &Types) -> Result<Vec<Vec<usize>>, NoMemory>
    ensures { IfOk result (λ rows. row_items rows.items ≡ required_rows (types_view types.now)) }
{
    let mut rows = Vec::new(alloc);
    for number in 0..types.entries().len() {
        rows.push(required_of(alloc, types, number)?)?;
    }
    Ok(rows)
}

/// Marks each type that leads back to itself by input fields without null. There is a mark for each entry.
pub fn marked_non_null(alloc: Global, types: &Types) -> Result<Vec<bool>, NoMemory>
    ensures { IfOk result (λ marks. MarksNonNull (types_view types.now) marks.items) }
{
    let rows = required_rows(alloc, types)?;
    on_cycles(alloc, &rows)
}
