//! The input fields of a type system (GraphQL, October 2021, section 3.10).
ghost use Rattle.std.specs.Prelude.{◌≡◌, ◌++◌, ◌+◌, ◌*◌, ◌^◌, ◌≤◌, suc, length, take, map, flat_map, IfOk, OnOk};
ghost use Rattle.gq_tree.specs.Views.{body_view, input_view, type_system_view};
ghost use Rattle.gq_types.specs.Entries.{entries_view};
ghost use Rattle.gq_types.specs.Joined.{inputs_in_body, body_in};
ghost use Rattle.gq_types.specs.Look.{types_view};
ghost use Rattle.gq_coerce.specs.Literals.{input_fields, input_count};
ghost use Rattle.gq_coerce.specs.Helping.Inputs.{inputs_at};
ghost use Rattle.gq_coerce.specs.Helping.Views.{inputs_view};

use gq_text::NoMemory;
use gq_tree::{InputValueDefinition, TypeBody, TypeSystemDefinition};
use gq_types::{Entry, Types};
use std::alloc::Global;

/// The input fields that a definition or extension of a type has.
fn inputs_in(definition: &TypeSystemDefinition) -> &[InputValueDefinition]
    ensures { map input_view result.now ≡ inputs_in_body (body_in (type_system_view definition.now)) }
{
    match definition {
        TypeSystemDefinition::Type(one) => inputs_in_body(&one.body),
        TypeSystemDefinition::Schema(_) => &[],
        TypeSystemDefinition::Directive(_) => &[],
    }
}

fn inputs_in_body(body: &TypeBody) -> &[InputValueDefinition]
    ensures { map input_view result.now ≡ inputs_in_body (body_view body.now) }
{
    match body {
        TypeBody::Scalar => &[],
        TypeBody::Object(_) => &[],
        TypeBody::Interface(_) => &[],
        TypeBody::Union(_) => &[],
        TypeBody::Enum(_) => &[],
        TypeBody::InputObject(inputs) => inputs,
    }
}

/// The input fields of the entry with that number.
fn inputs_at(entries: &[Entry], number: usize) -> &[InputValueDefinition]
    ensures { map input_view result.now ≡ inputs_at (entries_view entries.now) number }
{
    match entries.get(number) {
        Some(entry) => inputs_in(&entry.definition),
        None => &[],
    }
}

/// Puts references to the inputs behind others.
#[tactic(auto, using(gq_tree::proofs::Trees::gathers))]
fn put_inputs<'a>(
    inputs: &'a [InputValueDefinition],
    all: &mut Vec<&'a InputValueDefinition>,
) -> Result<(), NoMemory>
    ensures { OnOk result (inputs_view all.new.items ≡ inputs_view all.old.items ++ map input_view inputs.now) }
{
    for input in inputs {
        all.push(input)?;
    }
    Ok(())
}

/// Inputs by reference.
pub(crate) fn references(
    alloc: Global,
    inputs: &[InputValueDefinition],
) -> Result<Vec<&InputValueDefinition>, NoMemory>
    ensures { IfOk result (λ all. inputs_view all.items ≡ map input_view inputs.now) }
{
    let mut all = Vec::new(alloc);
    put_inputs(inputs, &mut all)?;
    Ok(all)
}

/// Those of the entries with these numbers.
#[tactic(auto, using(gq_tree::proofs::Trees::gathers))]
fn inputs_of<'a>(
    alloc: Global,
    entries: &'a [Entry],
    numbers: &[usize],
) -> Result<Vec<&'a InputValueDefinition>, NoMemory>
    ensures { IfOk result (λ all. inputs_view all.items ≡ flat_map (inputs_at (entries_view entries.now)) numbers.now) }
{
    let mut all = Vec::new(alloc);
    for number in numbers {
        put_inputs(inputs_at(entries, *number), &mut all)?;
    }
    Ok(all)
}

/// The input fields of the input object of that name with those of its extensions; other types have none.
pub(crate) fn input_fields<'a>(
    alloc: Global,
    types: &'a Types,
    name: &str,
) -> Result<Vec<&'a InputValueDefinition>, NoMemory>
    ensures { IfOk result (λ all. inputs_view all.items ≡ input_fields (types_view types.now) name.now) }
{
    match types.type_number(name) {
        Some(number) => inputs_of(alloc, types.entries(), types.joined(number)),
        None => Ok(Vec::new(alloc)),
    }
}

/// One more than the number of input fields of a type system.
pub(crate) fn default_limit(types: &Types) -> u128
    ensures { result ≡ suc (input_count (types_view types.now)) }
{
    let mut limit: u128 = 1;
    for entry in types.entries() {
        limit += inputs_in(&entry.definition).len() as u128;
    }
    limit
}
