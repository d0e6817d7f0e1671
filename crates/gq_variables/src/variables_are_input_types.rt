//! Variables whose type is no input type (GraphQL, October 2021, section 5.8.2).
ghost use Rattle.std.specs.Prelude.{◌≡◌, ◌++◌, OnOk, map};
ghost use Rattle.gq_tree.specs.Views.{variable_view};
ghost use Rattle.gq_types.specs.Look.{types_view};
ghost use Rattle.gq_variables.specs.Helping.VariablePlaces.{names_input_type, not_of_input_type_at, not_of_input_type};

use gq_fault::{Code, Fault, add_fault_at};
use gq_text::NoMemory;
use gq_tree::{VariableDefinition, base_name};
use gq_types::Types;

fn names_input_type(types: &Types, name: &str) -> bool
    ensures { result ≡ names_input_type (types_view types.now) name.now }
{
    match types.kind(name) {
        Some(kind) => kind.is_input(),
        None => false,
    }
}

fn add_if_no_input_type(
    types: &Types,
    file: usize,
    one: &VariableDefinition,
    faults: &mut Vec<Fault>,
) -> Result<(), NoMemory>
    ensures { OnOk result (faults.new.items ≡ faults.old.items ++ not_of_input_type_at (types_view types.now) file (variable_view one.now)) }
{
    if !names_input_type(types, base_name(&one.type_ref)) {
        add_fault_at(
            file,
            Code::VariableNotOfInputType,
            &one.variable.name,
            faults,
        )?;
    }
    Ok(())
}

/// Adds a fault at the name of each variable whose type is not known, or is no input type.
#[tactic(auto, using(gq_tree::proofs::Trees::gathers))]
pub(crate) fn add_not_of_input_type(
    types: &Types,
    file: usize,
    variables: &[VariableDefinition],
    faults: &mut Vec<Fault>,
) -> Result<(), NoMemory>
    ensures { OnOk result (faults.new.items ≡ faults.old.items ++ not_of_input_type (types_view types.now) file (map variable_view variables.now)) }
{
    for one in variables {
        add_if_no_input_type(types, file, one, faults)?;
    }
    Ok(())
}
