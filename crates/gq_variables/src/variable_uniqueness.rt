//! Variables of one name (GraphQL, October 2021, section 5.8.1).
ghost use Rattle.std.specs.Prelude.{◌≡◌, ◌++◌, OnOk};
ghost use Rattle.gq_variables.specs.Helping.VariablePlaces.{not_unique};
ghost use Rattle.gq_variables.specs.Helping.Views.{variables_view};

use gq_fault::{Code, Fault, add_fault_at};
use gq_text::NoMemory;
use gq_tree::VariableDefinition;

/// Adds a fault at the name of each of the variables, whose names stand earlier too.
#[tactic(auto, using(gq_tree::proofs::Trees::gathers))]
pub(crate) fn add_not_unique(
    file: usize,
    repeated: &[&VariableDefinition],
    faults: &mut Vec<Fault>,
) -> Result<(), NoMemory>
    ensures { OnOk result (faults.new.items ≡ faults.old.items ++ not_unique file (variables_view repeated.now)) }
{
    for one in repeated {
        add_fault_at(file, Code::VariableNotUnique, &one.variable.name, faults)?;
    }
    Ok(())
}
