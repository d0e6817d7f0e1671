//! The types one of whose input fields leads back to itself by default values (section 3.10).
ghost use Rattle.std.specs.Prelude.{◌≡◌, ◌++◌, map, flat_map, IfOk, OnOk};
ghost use Rattle.gq_tree.specs.Views.{type_view, value_view, values_view, entries_view};
ghost use Rattle.gq_type_system.specs.Helping.DefaultValuesPlaces.{field_view, fields_view, type_at, field_type, keys_in, has_default, numbers_of, absent_number, type_node};
ghost use Rattle.gq_type_system.specs.Helping.DefaultValuesPlaces.{led_to, led_in, below_of, gathered, gathered_of, field_leads, all_with_defaults, lead_table, any_marked};
ghost use Rattle.gq_type_system.specs.Helping.EndlessInputsPlaces.{MarksByDefault, row_items};
ghost use Rattle.gq_types.specs.Look.{types_view, text_of};

use crate::input_fields::{Field, InputFields, input_fields};
use crate::marks::is_marked;
use gq_graph::on_cycles;
use gq_names::NameList;
use gq_text::NoMemory;
use gq_tree::{ObjectField, TypeRef, Value};
use gq_types::Types;
use gq_values::expected_type::input_object_at;
use std::alloc::Global;

/// The type of the field of that name of an input object.
fn field_type<'a>(types: &'a Types, type_name: Option<&str>, name: &str) -> Option<&'a TypeRef>
    ensures { type_at result ≡ field_type (types_view types.now) (text_of type_name.entry) name.now }
{
    match type_name {
        Some(type_name) => match types.input_field(type_name, name) {
            Some(input) => Some(&input.type_ref),
            None => None,
        },
        None => None,
    }
}

fn has_default(types: &Types, field: &Field<'_>) -> bool
    ensures { result ≡ has_default (types_view types.now) (field_view field.now) }
{
    match types.input_field(field.type_name, field.name) {
        Some(input) => input.default.is_some(),
        None => false,
    }
}

/// The names in the braces of an object literal.
fn names_in(alloc: Global, given: &[ObjectField]) -> Result<NameList, NoMemory>
    ensures { IfOk result (λ names. names ≡ keys_in (entries_view given.now)) }
{
    let mut names = NameList::new(alloc);
    for field in given {
        names.push(field.name.text.as_str())?;
    }
    Ok(names)
}

/// The numbers of the input fields of the type of that name.
fn numbers_of<'a>(types: &Types, all: &'a InputFields<'_>, type_name: &str) -> &'a [usize]
    ensures { result.now ≡ numbers_of (types_view types.now) (row_items all.now.numbers.items) type_name.now }
{
    match types.type_number(type_name) {
        Some(number) => match all.numbers.get(number) {
            Some(numbers) => numbers.as_slice(),
            None => &[],
        },
        None => &[],
    }
}

/// Puts the number of a field, if its name is not among the names, and it has a default value.
fn put_if_absent(
    types: &Types,
    fields: &[Field<'_>],
    names: &NameList,
    number: usize,
    row: &mut Vec<usize>,
) -> Result<(), NoMemory>
    ensures { OnOk result (row.new.items ≡ row.old.items ++ absent_number (types_view types.now) (fields_view fields.now) names.now number) }
{
    let Some(field) = fields.get(number) else {
        return Ok(());
    };
    if !names.contains(field.name) {
        if has_default(types, field) {
            row.push(number)?;
        }
    }
    Ok(())
}

/// Puts those of the numbers whose fields are not among the names, and have default values.
#[tactic(auto, using(gq_tree::proofs::Trees::gathers))]
fn put_all_absent(
    types: &Types,
    fields: &[Field<'_>],
    names: &NameList,
    numbers: &[usize],
    row: &mut Vec<usize>,
) -> Result<(), NoMemory>
    ensures { OnOk result (row.new.items ≡ row.old.items ++ flat_map (absent_number (types_view types.now) (fields_view fields.now) names.now) numbers.now) }
{
    for number in numbers {
        put_if_absent(types, fields, names, *number, row)?;
    }
    Ok(())
}

/// Puts the number that stands for all fields with default values of the type of that name.
#[tactic(auto, using(crate::proofs::Numbering::counts))]
fn put_type_node(
    types: &Types,
    all: &InputFields<'_>,
    type_name: &str,
    row: &mut Vec<usize>,
) -> Result<(), NoMemory>
    ensures { OnOk result (row.new.items ≡ row.old.items ++ type_node (types_view types.now) (fields_view all.now.fields.items)
        (row_items all.now.numbers.items) type_name.now) }
{
    if let Some(number) = types.type_number(type_name) {
        if number < all.numbers.len() {
            row.push(all.fields.len() + number)?;
        }
    }
    Ok(())
}

/// Puts what an object literal leads to: the numbers of the fields of its type that are absent in it and have default
/// values. Where all are absent it puts the one number for all of them, so that many such literals cost no more than
/// their text.
fn put_led(
    alloc: Global,
    types: &Types,
    all: &InputFields<'_>,
    type_name: &str,
    given: &[ObjectField],
    row: &mut Vec<usize>,
) -> Result<(), NoMemory>
    ensures { OnOk result (row.new.items ≡ row.old.items ++ led_to (types_view types.now) (fields_view all.now.fields.items)
        (row_items all.now.numbers.items) type_name.now (keys_in (entries_view given.now))) }
{
    let names = names_in(alloc, given)?;
    if names.len() == 0 {
        return put_type_node(types, all, type_name, row);
    }
    let numbers = numbers_of(types, all, type_name);
    put_all_absent(types, &all.fields, &names, numbers, row)
}

/// Puts what the object literals of a value lead to that is read at that type, if it is read at one.
#[cycle(defaults)]
#[tactic(auto, using(gq_tree::proofs::Trees::gathers))]
fn put_value(
    alloc: Global,
    types: &Types,
    all: &InputFields<'_>,
    value: &Value,
    expected: Option<&TypeRef>,
    row: &mut Vec<usize>,
) -> Result<(), NoMemory>
    ensures { OnOk result (row.new.items ≡ row.old.items ++ gathered_of (types_view types.now) (led_in (types_view types.now) all.now) (type_at expected.entry) (value_view value.now)) }
{
    let Some(expected) = expected else {
        return Ok(());
    };
    match value {
        Value::List { items, .. } => put_items(alloc, types, all, items, expected, row),
        Value::Object { fields, .. } => {
            if let Some(type_name) = input_object_at(types, expected) {
                put_led(alloc, types, all, type_name, fields, row)?;
            }
            put_fields(alloc, types, all, fields, expected, row)
        }
        Value::Variable(_) => Ok(()),
        Value::Int(_) | Value::Float(_) | Value::String(_) => Ok(()),
        Value::Boolean { .. } | Value::Null { .. } | Value::Enum(_) => Ok(()),
    }
}

/// Puts what the items of a list literal lead to that is read at that type.
#[cycle(defaults)]
#[tactic(auto, using(gq_tree::proofs::Trees::gathers))]
fn put_items(
    alloc: Global,
    types: &Types,
    all: &InputFields<'_>,
    items: &[Value],
    expected: &TypeRef,
    row: &mut Vec<usize>,
) -> Result<(), NoMemory>
    ensures { OnOk result (row.new.items ≡ row.old.items ++ gathered (types_view types.now) (led_in (types_view types.now) all.now)
        (below_of (types_view types.now) (type_view expected.now)) (values_view items.now)) }
{
    let item = expected.item_type();
    for value in items {
        put_value(alloc, types, all, value, item, row)?;
    }
    Ok(())
}

/// Puts what the fields of an object literal lead to that is read at that type.
#[cycle(defaults)]
#[tactic(auto, using(gq_tree::proofs::Trees::gathers))]
fn put_fields(
    alloc: Global,
    types: &Types,
    all: &InputFields<'_>,
    given: &[ObjectField],
    expected: &TypeRef,
    row: &mut Vec<usize>,
) -> Result<(), NoMemory>
    ensures { OnOk result (row.new.items ≡ row.old.items ++ gathered (types_view types.now) (led_in (types_view types.now) all.now)
        (below_of (types_view types.now) (type_view expected.now)) (entries_view given.now)) }
{
    let type_name = input_object_at(types, expected);
    for field in given {
        let expected = field_type(types, type_name, field.name.text.as_str());
        put_value(alloc, types, all, &field.value, expected, row)?;
    }
    Ok(())
}

/// The numbers that a field leads to.
fn field_leads(
    alloc: Global,
    types: &Types,
    all: &InputFields<'_>,
    field: &Field<'_>,
) -> Result<Vec<usize>, NoMemory>
    ensures { IfOk result (λ row. row.items ≡ field_leads (types_view types.now) (fields_view all.now.fields.items) (row_items all.now.numbers.items) (field_view field.now)) }
{
    let mut row = Vec::new(alloc);
    if let Some(input) = types.input_field(field.type_name, field.name) {
        if let Some(default) = &input.default {
            put_value(alloc, types, all, default, Some(&input.type_ref), &mut row)?;
        }
    }
    Ok(row)
}

/// For each input field the numbers that it leads to.
#[tactic(auto, using(gq_tree::proofs::Trees::gathers))]
fn field_rows(
    alloc: Global,
    types: &Types,
    all: &InputFields<'_>,
) -> Result<Vec<Vec<usize>>, NoMemory>
    ensures { IfOk result
        (λ rows. row_items rows.items ≡ map (field_leads (types_view types.now) (fields_view all.now.fields.items) (row_items all.now.numbers.items))
        (fields_view all.now.fields.items)) }
{
    let mut rows = Vec::new(alloc);
    for field in &all.fields {
        rows.push(field_leads(alloc, types, all, field)?)?;
    }
    Ok(rows)
}

/// Those of the numbers whose fields have default values.
fn with_defaults(
    alloc: Global,
    types: &Types,
    fields: &[Field<'_>],
    numbers: &[usize],
) -> Result<Vec<usize>, NoMemory>
    ensures { IfOk result (λ row. row.items ≡ all_with_defaults (types_view types.now) (fields_view fields.now) numbers.now) }
{
    let mut row = Vec::new(alloc);
    let names = NameList::new(alloc);
    put_all_absent(types, fields, &names, numbers, &mut row)?;
    Ok(row)
}

/// Puts for each entry the numbers of the fields with default values of its type.
fn put_type_rows(
    alloc: Global,
    types: &Types,
    all: &InputFields<'_>,
    rows: &mut Vec<Vec<usize>>,
) -> Result<(), NoMemory>
    ensures { OnOk result (row_items rows.new.items ≡ row_items rows.old.items ++ map (all_with_defaults (types_view types.now) (fields_view all.now.fields.items))
        (row_items all.now.numbers.items)) }
{
    for numbers in &all.numbers {
        rows.push(with_defaults(alloc, types, &all.fields, numbers)?)?;
    }
    Ok(())
}

/// The rows of the fields, and behind them those of the entries.
fn lead_rows(
    alloc: Global,
    types: &Types,
    all: &InputFields<'_>,
) -> Result<Vec<Vec<usize>>, NoMemory>
    ensures { IfOk result (λ rows. row_items rows.items ≡ lead_table (types_view types.now) (fields_view all.now.fields.items) (row_items all.now.numbers.items)) }
{
    let mut rows = field_rows(alloc, types, all)?;
    put_type_rows(alloc, types, all, &mut rows)?;
    Ok(rows)
}

fn any_marked(marks: &[bool], numbers: &[usize]) -> bool
    ensures { result ≡ any_marked marks.now numbers.now }
{
    for number in numbers {
        if is_marked(marks, *number) {
            return true;
        }
    }
    false
}

/// Marks each row that has a marked number.
#[tactic(auto, using(gq_tree::proofs::Trees::gathers))]
fn marked_rows(alloc: Global, marks: &[bool], rows: &[Vec<usize>]) -> Result<Vec<bool>, NoMemory>
    ensures { IfOk result (λ marked. marked.items ≡ map (any_marked marks.now) (row_items rows.now)) }
{
    let mut marked = Vec::new(alloc);
    for row in rows {
        marked.push(any_marked(marks, row))?;
    }
    Ok(marked)
}

/// Marks each type one of whose input fields leads back to itself by default values. There is a mark for each entry.
pub fn marked_by_default(alloc: Global, types: &Types) -> Result<Vec<bool>, NoMemory>
    ensures { IfOk result (λ marks. MarksByDefault (types_view types.now) marks.items) }
{
    let all = input_fields(alloc, types)?;
    let rows = lead_rows(alloc, types, &all)?;
    let marks = on_cycles(alloc, &rows)?;
    marked_rows(alloc, &marks, &all.numbers)
}
