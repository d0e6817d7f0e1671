//! Faults of literals (GraphQL, October 2021, section 5.6).
ghost use Rattle.std.specs.Prelude.{◌≡◌, ◌++◌, OnOk};
ghost use Rattle.gq_tree.specs.Views.{value_view, entries_view};
ghost use Rattle.gq_types.specs.Look.{types_view, text_of};
ghost use Rattle.gq_values.specs.LiteralFaults.{entry_names, literal_place, first_byte};
ghost use Rattle.gq_values.specs.LiteralPlaces.{texts, repeated_fields, unknown_fields, missing_fields, field_faults, names_in, entry_faults, type_faults, own_faults, literal_faults, item_faults, faults_of_field, value_faults};
ghost use Rattle.gq_values.specs.ExpectedTypes.{expected_view};

use crate::expected_type::{ExpectedType, field_at, input_object_at, items_at};
use crate::fitting::fits;
use gq_fault::{Code, Fault, add_fault, fault_at, fault_over};
use gq_names::NameList;
use gq_text::{NoMemory, Span};
use gq_tree::{ObjectField, Value};
use gq_types::Types;
use std::alloc::Global;

#[tactic(auto, using(gq_tree::proofs::Trees::values))]
fn literal_place(value: &Value) -> Span
    ensures { result ≡ literal_place (value_view value.now).label.says }
{
    match value {
        Value::Variable(variable) => variable.span,
        Value::Int(literal) => literal.span,
        Value::Float(literal) => literal.span,
        Value::String(literal) => literal.span,
        Value::Boolean { span, .. } => *span,
        Value::Null { span } => *span,
        Value::Enum(name) => name.span,
        Value::List { span, .. } => *span,
        Value::Object { span, .. } => *span,
    }
}

fn first_byte(place: Span) -> Span
    ensures { result ≡ first_byte place }
{
    let end = if place.start < place.end {
        place.start + 1
    } else {
        place.end
    };
    Span {
        start: place.start,
        end,
    }
}

#[tactic(auto, using(gq_tree::proofs::Trees::gathers))]
fn add_repeated_fields(
    file: usize,
    fields: &[ObjectField],
    names: &mut NameList,
    faults: &mut Vec<Fault>,
) -> Result<(), NoMemory>
    ensures found { OnOk result (faults.new.items ≡ faults.old.items ++ repeated_fields file names.old (entry_names (entries_view fields.now))) }
    ensures names { OnOk result (names.new ≡ names.old ++ texts (entry_names (entries_view fields.now))) }
{
    for field in fields {
        if !names.push(field.name.text.as_str())? {
            add_fault(
                fault_at(file, Code::InputFieldNotUnique, &field.name),
                faults,
            )?;
        }
    }
    Ok(())
}

#[tactic(auto, using(gq_tree::proofs::Trees::gathers))]
fn add_unknown_fields(
    types: &Types,
    file: usize,
    type_name: &str,
    fields: &[ObjectField],
    faults: &mut Vec<Fault>,
) -> Result<(), NoMemory>
    ensures { OnOk result (faults.new.items ≡ faults.old.items ++ unknown_fields (types_view types.now) file type_name.now (entry_names (entries_view fields.now))) }
{
    for field in fields {
        if types
            .input_field(type_name, field.name.text.as_str())
            .is_none()
        {
            add_fault(fault_at(file, Code::UnknownInputField, &field.name), faults)?;
        }
    }
    Ok(())
}

fn add_missing_fields(
    types: &Types,
    file: usize,
    type_name: &str,
    given: &NameList,
    place: Span,
    faults: &mut Vec<Fault>,
) -> Result<(), NoMemory>
    ensures { OnOk result (faults.new.items ≡ faults.old.items ++ missing_fields (types_view types.now) file type_name.now given.now place) }
{
    if types.is_field_missing(type_name, given) {
        add_fault(
            fault_over(file, Code::InputFieldMissing, first_byte(place)),
            faults,
        )?;
    }
    Ok(())
}

/// The entries of an object literal; other literals have none.
#[tactic(auto, using(gq_tree::proofs::Trees::gathers))]
fn entries_of(value: &Value) -> &[ObjectField]
    ensures { entry_names (entries_view result.now) ≡ names_in (value_view value.now).label.says (value_view value.now).below }
{
    match value {
        Value::Object { fields, .. } => fields.as_slice(),
        Value::Variable(_) => &[],
        Value::Int(_) => &[],
        Value::Float(_) => &[],
        Value::String(_) => &[],
        Value::Boolean { .. } => &[],
        Value::Null { .. } => &[],
        Value::Enum(_) => &[],
        Value::List { .. } => &[],
    }
}

/// Puts what is wrong with the entries of an object literal as fields of an input object, if it is read at one. `names`
/// are theirs.
#[tactic(auto, using(gq_tree::proofs::Trees::gathers))]
fn add_field_faults(
    types: &Types,
    file: usize,
    type_name: Option<&str>,
    fields: &[ObjectField],
    names: &NameList,
    place: Span,
    faults: &mut Vec<Fault>,
) -> Result<(), NoMemory>
    requires { names.now ≡ texts (entry_names (entries_view fields.now)) }
    ensures { OnOk result (faults.new.items ≡ faults.old.items ++ field_faults (types_view types.now) file (text_of type_name.entry) place (entry_names (entries_view fields.now))) }
{
    match type_name {
        Some(type_name) => {
            add_unknown_fields(types, file, type_name, fields, faults)?;
            add_missing_fields(types, file, type_name, names, place, faults)
        }
        None => Ok(()),
    }
}

#[tactic(auto, using(gq_tree::proofs::Trees::gathers))]
fn add_entry_faults(
    types: &Types,
    file: usize,
    type_name: Option<&str>,
    value: &Value,
    names: &NameList,
    faults: &mut Vec<Fault>,
) -> Result<(), NoMemory>
    requires { names.now ≡ texts (names_in (value_view value.now).label.says (value_view value.now).below) }
    ensures { OnOk result (faults.new.items ≡ faults.old.items ++ entry_faults (types_view types.now) file (text_of type_name.entry) (value_view value.now).label.says (value_view value.now).below) }
{
    match value {
        Value::Object { fields, span } => {
            add_field_faults(types, file, type_name, fields, names, *span, faults)
        }
        Value::Variable(_) => Ok(()),
        Value::Int(_) => Ok(()),
        Value::Float(_) => Ok(()),
        Value::String(_) => Ok(()),
        Value::Boolean { .. } => Ok(()),
        Value::Null { .. } => Ok(()),
        Value::Enum(_) => Ok(()),
        Value::List { .. } => Ok(()),
    }
}

/// Puts what is wrong with a literal at its type. `names` are those of its entries.
fn add_type_faults(
    types: &Types,
    file: usize,
    reading: ExpectedType<'_>,
    value: &Value,
    names: &NameList,
    faults: &mut Vec<Fault>,
) -> Result<(), NoMemory>
    requires { names.now ≡ texts (names_in (value_view value.now).label.says (value_view value.now).below) }
    ensures { OnOk result (faults.new.items ≡ faults.old.items ++ type_faults (types_view types.now) file (expected_view reading.entry)
        (value_view value.now).label.says (value_view value.now).below) }
{
    match reading {
        ExpectedType::AtType(type_ref) => {
            if !fits(types, type_ref, value) {
                let fault = fault_over(file, Code::WrongValue, literal_place(value));
                return add_fault(fault, faults);
            }
            let type_name = input_object_at(types, type_ref);
            add_entry_faults(types, file, type_name, value, names, faults)
        }
        ExpectedType::AtAny => Ok(()),
    }
}

/// Puts what is wrong with a literal itself. That its entries repeat a name is asked whatever it is read at.
fn add_own_faults(
    alloc: Global,
    types: &Types,
    file: usize,
    reading: ExpectedType<'_>,
    value: &Value,
    faults: &mut Vec<Fault>,
) -> Result<(), NoMemory>
    ensures { OnOk result (faults.new.items ≡ faults.old.items ++
        own_faults (types_view types.now) file (expected_view reading.entry) (value_view value.now).label.says (value_view value.now).below) }
{
    let mut names = NameList::new(alloc);
    add_repeated_fields(file, entries_of(value), &mut names, faults)?;
    add_type_faults(types, file, reading, value, &names, faults)
}

/// Adds each fault of the literal and of the literals in it, where it is read so: a literal that does not fit
/// its type, an input field that is unknown or missing; and a name that an object literal gives twice, whatever that is
/// read at. `file` is the number of the document that it stands in.
#[cycle(literals)]
#[tactic(auto, using(gq_tree::proofs::Trees::gathers))]
pub fn add_literal_faults(
    alloc: Global,
    types: &Types,
    file: usize,
    reading: ExpectedType<'_>,
    value: &Value,
    faults: &mut Vec<Fault>,
) -> Result<(), NoMemory>
    ensures { OnOk result (faults.new.items ≡ faults.old.items ++ literal_faults (types_view types.now) file (expected_view reading.entry) (value_view value.now)) }
{
    add_own_faults(alloc, types, file, reading, value, faults)?;
    match value {
        Value::List { items: values, .. } => {
            put_item_faults(alloc, types, file, items_at(reading), values, faults)
        }
        Value::Object { fields, .. } => {
            add_value_faults(alloc, types, file, reading, fields, faults)
        }
        Value::Variable(_) => Ok(()),
        Value::Int(_) => Ok(()),
        Value::Float(_) => Ok(()),
        Value::String(_) => Ok(()),
        Value::Boolean { .. } => Ok(()),
        Value::Null { .. } => Ok(()),
        Value::Enum(_) => Ok(()),
    }
}

#[cycle(literals)]
#[tactic(auto, using(gq_tree::proofs::Trees::gathers))]
fn put_item_faults(
    alloc: Global,
    types: &Types,
    file: usize,
    reading: ExpectedType<'_>,
    values: &[Value],
    faults: &mut Vec<Fault>,
) -> Result<(), NoMemory>
    ensures { OnOk result (faults.new.items ≡ faults.old.items ++ item_faults (types_view types.now) file (expected_view reading.entry) values.now) }
{
    for value in values {
        add_literal_faults(alloc, types, file, reading, value, faults)?;
    }
    Ok(())
}

#[cycle(literals)]
#[tactic(auto, using(gq_tree::proofs::Trees::gathers))]
fn add_value_faults(
    alloc: Global,
    types: &Types,
    file: usize,
    reading: ExpectedType<'_>,
    fields: &[ObjectField],
    faults: &mut Vec<Fault>,
) -> Result<(), NoMemory>
    ensures { OnOk result (faults.new.items ≡ faults.old.items ++ value_faults (types_view types.now) file (expected_view reading.entry) fields.now) }
{
    for field in fields {
        add_faults_of_field(alloc, types, file, reading, field, faults)?;
    }
    Ok(())
}

#[cycle(literals)]
fn add_faults_of_field(
    alloc: Global,
    types: &Types,
    file: usize,
    reading: ExpectedType<'_>,
    field: &ObjectField,
    faults: &mut Vec<Fault>,
) -> Result<(), NoMemory>
    ensures { OnOk result (faults.new.items ≡ faults.old.items ++ faults_of_field (types_view types.now) file (expected_view reading.entry) field.now) }
{
    let within = field_at(types, reading, field.name.text.as_str());
    add_literal_faults(alloc, types, file, within, &field.value, faults)
}
