//! Uses of variables that an operation does not define (GraphQL, October 2021, section 5.8.3).
ghost use Rattle.std.specs.Prelude.{◌≡◌, ◌++◌, OnOk, map};
ghost use Rattle.gq_tree.specs.Views.{variable_view};
ghost use Rattle.gq_variables.specs.Helping.VariablePlaces.{variable_texts, not_defined_at, not_defined};
ghost use Rattle.gq_variables.specs.Helping.Views.{use_view, uses_view};

use crate::uses::Use;
use crate::variables::Variables;
use gq_fault::{Code, Fault, add_fault_at};
use gq_text::NoMemory;

fn add_if_not_defined(
    variables: &Variables<'_>,
    one: &Use<'_>,
    faults: &mut Vec<Fault>,
) -> Result<(), NoMemory>
    ensures { OnOk result (faults.new.items ≡ faults.old.items ++ not_defined_at (variable_texts (map variable_view variables.now.all.now)) (use_view one.now)) }
{
    if !variables.contains(one.name.text.as_str()) {
        add_fault_at(one.file, Code::VariableNotDefined, one.name, faults)?;
    }
    Ok(())
}

/// Adds a fault at each use of a name that none of the variables has.
#[tactic(auto, using(gq_tree::proofs::Trees::gathers))]
pub(crate) fn add_not_defined(
    variables: &Variables<'_>,
    uses: &[Use<'_>],
    faults: &mut Vec<Fault>,
) -> Result<(), NoMemory>
    ensures { OnOk result (faults.new.items ≡ faults.old.items ++ not_defined (variable_texts (map variable_view variables.now.all.now)) (uses_view uses.now)) }
{
    for one in uses {
        add_if_not_defined(variables, one, faults)?;
    }
    Ok(())
}
