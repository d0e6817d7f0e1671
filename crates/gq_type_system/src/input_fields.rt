//! The input fields of a type system, numbered.
ghost use Rattle.std.specs.Prelude.{◌≡◌, ◌++◌, ◌∷◌, [], map, length, IfOk, OnOk};
ghost use Rattle.gq_tree.specs.Views.{input_view};
ghost use Rattle.gq_type_system.specs.Helping.DefaultValuesPlaces.{fields_view, named_field, named_fields, fields_at, count_from, all_fields, field_numbers};
ghost use Rattle.gq_type_system.specs.Helping.EndlessInputsPlaces.{inputs_at, type_name_at, row_items};
ghost use Rattle.gq_types.specs.Look.{types_view};

use gq_text::NoMemory;
use gq_tree::{InputValueDefinition, TypeBody, TypeSystemDefinition};
use gq_types::Types;
use std::alloc::Global;

/// An input field, by the name of its type and its own name.
#[derive(Clone, Copy)]
pub struct Field<'a> {
    pub type_name: &'a str,
    pub name: &'a str,
}

/// The input fields of all types, in the order of the entries, and of each entry the numbers of those of its type, from 0.
#[derive(Drop)]
pub struct InputFields<'a> {
    pub fields: Vec<Field<'a>>,
    pub numbers: Vec<Vec<usize>>,
}

/// The input fields that the entry of that number says itself.
pub fn inputs_at(types: &Types, number: usize) -> &[InputValueDefinition]
    ensures { map input_view result.now ≡ inputs_at (types_view types.now) number }
{
    let Some(entry) = types.entries().get(number) else {
        return &[];
    };
    match &*entry.definition {
        TypeSystemDefinition::Type(one) => match &one.body {
            TypeBody::InputObject(inputs) => inputs.as_slice(),
            _ => &[],
        },
        _ => &[],
    }
}

/// The name of the type that the entry of that number defines or extends.
pub fn type_name(types: &Types, number: usize) -> &str
    ensures { result.now ≡ type_name_at (types_view types.now) number }
{
    let Some(entry) = types.entries().get(number) else {
        return "";
    };
    match &*entry.definition {
        TypeSystemDefinition::Type(one) => one.name.text.as_str(),
        _ => "",
    }
}

/// Puts the field behind the others, and its number.
fn put_field<'a>(
    type_name: &'a str,
    input: &'a InputValueDefinition,
    fields: &mut Vec<Field<'a>>,
    numbers: &mut Vec<usize>,
) -> Result<(), NoMemory>
    ensures fields { OnOk result (fields_view fields.new.items ≡ fields_view fields.old.items ++ named_field type_name.now (input_view input.now) ∷ []) }
    ensures numbers { OnOk result (numbers.new.items ≡ numbers.old.items ++ length (fields_view fields.old.items) ∷ []) }
{
    numbers.push(fields.len())?;
    let name = input.name.text.as_str();
    fields.push(Field { type_name, name })?;
    Ok(())
}

#[tactic(auto, using(crate::proofs::Numbering::counts))]
fn put_fields<'a>(
    type_name: &'a str,
    inputs: &'a [InputValueDefinition],
    fields: &mut Vec<Field<'a>>,
    numbers: &mut Vec<usize>,
) -> Result<(), NoMemory>
    ensures fields { OnOk result (fields_view fields.new.items ≡ fields_view fields.old.items ++ named_fields type_name.now (map input_view inputs.now)) }
    ensures numbers { OnOk result (numbers.new.items ≡ numbers.old.items ++ count_from (length (fields_view fields.old.items)) (named_fields type_name.now (map input_view inputs.now))) }
{
    for input in inputs {
        put_field(type_name, input, fields, numbers)?;
    }
    Ok(())
}

/// Puts the fields of the type of that number, and gives their numbers.
#[tactic(auto, using(crate::proofs::Numbering::counts))]
fn put_fields_of<'a>(
    alloc: Global,
    types: &'a Types,
    number: usize,
    fields: &mut Vec<Field<'a>>,
) -> Result<Vec<usize>, NoMemory>
    ensures fields { OnOk result (fields_view fields.new.items ≡ fields_view fields.old.items ++ fields_at (types_view types.now) number) }
    ensures numbers { IfOk result (λ numbers. numbers.items ≡ count_from (length (fields_view fields.old.items)) (fields_at (types_view types.now) number)) }
{
    let mut numbers = Vec::new(alloc);
    let type_name = type_name(types, number);
    for joined in types.joined(number) {
        put_fields(type_name, inputs_at(types, *joined), fields, &mut numbers)?;
    }
    Ok(numbers)
}

/// The input fields of all types, numbered.
pub fn input_fields(alloc: Global, types: &Types) -> Result<InputFields<'_>, NoMemory>
    ensures fields { IfOk result (λ all. fields_view all.fields.items ≡ all_fields (types_view types.now)) }
    ensures numbers { IfOk result (λ all. row_items all.numbers.items ≡ field_numbers (types_view types.now)) }
{
    let mut fields = Vec::new(alloc);
    let mut numbers = Vec::new(alloc);
    for number in 0..types.entries().len() {
        numbers.push(put_fields_of(alloc, types, number, &mut fields)?)?;
    }
    Ok(InputFields { fields, numbers })
}
