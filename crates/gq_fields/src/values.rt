//! Default values of variables (GraphQL, October 2021, section 5.6).
ghost use Rattle.std.specs.Prelude.{◌≡◌, ◌++◌, OnOk};
ghost use Rattle.gq_tree.specs.Views.{variable_view};
ghost use Rattle.gq_types.specs.Look.{types_view};
ghost use Rattle.gq_fields.specs.Helping.ValuesPlaces.{wrong_default_of};

use gq_fault::Fault;
use gq_text::NoMemory;
use gq_tree::VariableDefinition;
use gq_types::Types;
use gq_values::add_literal_faults;
use gq_values::expected_type::default_at;
use std::alloc::Global;

/// Adds each fault of the default value of a variable.
#[tactic(auto, using(gq_tree::proofs::Trees::gathers))]
pub(crate) fn add_wrong_default(
    alloc: Global,
    types: &Types,
    file: usize,
    variable: &VariableDefinition,
    faults: &mut Vec<Fault>,
) -> Result<(), NoMemory>
    ensures { OnOk result (faults.new.items ≡ faults.old.items ++ wrong_default_of (types_view types.now) file (variable_view variable.now)) }
{
    match &variable.default {
        Some(default) => {
            let reading = default_at(types, &variable.type_ref);
            add_literal_faults(alloc, types, file, reading, default, faults)
        }
        None => Ok(()),
    }
}
