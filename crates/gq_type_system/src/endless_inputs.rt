//! Input objects that lead back to themselves (section 3.10, Circular References): by fields without null, or by default
//! values.
ghost use Rattle.std.specs.Prelude.{◌≡◌, ◌++◌, OnOk};
ghost use Rattle.std.specs.Arc.{arc_value};
ghost use Rattle.gq_tree.specs.Views.{type_system_view};
ghost use Rattle.gq_type_system.specs.EndlessInputs.{input_object_in, IsEndlessInput};
ghost use Rattle.gq_fault.specs.Adds.{AddsExactly};
ghost use Rattle.gq_type_system.specs.Helping.EndlessInputsPlaces.{name_at, endless_named, endless_input, endless_inputs};
ghost use Rattle.gq_types.specs.Entries.{entry_view};
ghost use Rattle.gq_types.specs.Look.{types_view};

use crate::default_values::marked_by_default;
use crate::marks::is_marked;
use crate::required_inputs::marked_non_null;
use gq_fault::{Code, Fault};
use gq_text::NoMemory;
use gq_tree::{Name, TypeBody, TypeSystemDefinition};
use gq_types::{Entry, Types};
use std::alloc::Global;

/// The name in the definition of an input object.
fn input_object_in(definition: &TypeSystemDefinition) -> Option<&Name>
    ensures { name_at result ≡ input_object_in (type_system_view definition.now) }
{
    let TypeSystemDefinition::Type(one) = definition else {
        return None;
    };
    match one.body {
        TypeBody::InputObject(_) => { if one.extends { None } else { Some(&one.name) } }
        _ => None,
    }
}

/// Adds the fault of the entry of that number, if it defines an input object, and is what its name means.
fn add_endless_input(
    types: &Types,
    entry: &Entry,
    number: usize,
    faults: &mut Vec<Fault>,
) -> Result<(), NoMemory>
    ensures { OnOk result (faults.new.items ≡ faults.old.items ++ endless_named (types_view types.now) entry.now.file number (input_object_in (type_system_view (arc_value entry.now.definition)))) }
{
    if let Some(name) = input_object_in(&entry.definition) {
        if types.type_number(name.text.as_str()) == Some(number) {
            faults.push(Fault {
                file: entry.file,
                start: name.span.start,
                code: Code::EndlessInput,
                end: name.span.end,
            })?;
        }
    }
    Ok(())
}

/// Adds the fault of the entry of that number, if it is marked.
fn add_if_marked(
    types: &Types,
    by_non_null: &[bool],
    by_default: &[bool],
    entry: &Entry,
    number: usize,
    faults: &mut Vec<Fault>,
) -> Result<(), NoMemory>
    ensures { OnOk result (faults.new.items ≡ faults.old.items ++ endless_input (types_view types.now) by_non_null.now by_default.now (record { number = number; entry = entry_view entry.now })) }
{
    if is_marked(by_non_null, number) || is_marked(by_default, number) {
        add_endless_input(types, entry, number, faults)?;
    }
    Ok(())
}

/// Adds a fault for each input object that is marked.
fn add_marked(
    types: &Types,
    by_non_null: &[bool],
    by_default: &[bool],
    faults: &mut Vec<Fault>,
) -> Result<(), NoMemory>
    ensures { OnOk result (faults.new.items ≡ faults.old.items ++ endless_inputs (types_view types.now) by_non_null.now by_default.now) }
{
    let entries = types.entries();
    for number in 0..entries.len() {
        add_if_marked(
            types,
            by_non_null,
            by_default,
            &entries[number],
            number,
            faults,
        )?;
    }
    Ok(())
}

/// Adds a fault at the name of each input object that leads back to itself (section 3.10, Circular References).
pub fn add_endless_inputs(
    alloc: Global,
    types: &Types,
    faults: &mut Vec<Fault>,
) -> Result<(), NoMemory>
    ensures { OnOk result (AddsExactly (IsEndlessInput (types_view types.now)) faults.old.items faults.new.items) }
{
    let by_non_null = marked_non_null(alloc, types)?;
    let by_default = marked_by_default(alloc, types)?;
    add_marked(types, &by_non_null, &by_default, faults)
}
