//! Arguments of fields (GraphQL, October 2021, section 5.4), and their values (section 5.6).
ghost use Rattle.std.specs.Prelude.{◌≡◌, ◌++◌, OnOk, Some, map};
ghost use Rattle.std.specs.Option.{option_map};
ghost use Rattle.gq_tree.specs.Views.{name_of, argument_view, input_view};
ghost use Rattle.gq_types.specs.Look.{types_view};
ghost use Rattle.gq_values.specs.ArgumentPlaces.{argument_faults};
ghost use Rattle.gq_document.specs.Views.{selected_field_view};

use gq_document::SelectedField;
use gq_fault::Fault;
use gq_text::NoMemory;
use gq_tree::{Argument, Name};
use gq_types::{Arguments, Types};
use gq_values::add_argument_faults;
use std::alloc::Global;

/// Adds each fault of the arguments of a field that has these definitions. Most fields have none.
fn add_faults_at(
    alloc: Global,
    types: &Types,
    file: usize,
    definitions: Arguments<'_>,
    name: &Name,
    arguments: &[Argument],
    faults: &mut Vec<Fault>,
) -> Result<(), NoMemory>
    ensures { OnOk result (faults.new.items ≡ faults.old.items ++ argument_faults (types_view types.now) file
        (Some (map input_view definitions.entry.all.now)) (name_of name.now) (map argument_view arguments.now)) }
{
    if definitions.all().is_empty() && arguments.is_empty() {
        return Ok(());
    }
    add_argument_faults(
        alloc,
        types,
        file,
        Some(definitions),
        name,
        arguments,
        faults,
    )
}

/// Adds each fault of a field's arguments and of their values. `found` is its definition.
pub(crate) fn add_wrong_arguments(
    alloc: Global,
    types: &Types,
    file: usize,
    found: Option<SelectedField<'_>>,
    name: &Name,
    arguments: &[Argument],
    faults: &mut Vec<Fault>,
) -> Result<(), NoMemory>
    ensures { OnOk result (faults.new.items ≡ faults.old.items ++ argument_faults (types_view types.now) file
        (option_map (λ f. f.arguments) (selected_field_view found.entry)) (name_of name.now) (map argument_view arguments.now)) }
{
    match found {
        Some(field) => {
            add_faults_at(
                alloc,
                types,
                file,
                field.arguments(),
                name,
                arguments,
                faults,
            )
        }
        None => add_argument_faults(alloc, types, file, None, name, arguments, faults),
    }
}
