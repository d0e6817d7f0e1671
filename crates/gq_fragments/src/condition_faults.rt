//! What is wrong with type conditions (GraphQL, October 2021, sections 5.5.1.2 and 5.5.1.3).
ghost use Rattle.std.specs.Prelude.{OnOk};
ghost use Rattle.gq_document.specs.Executable.{executable_view};
ghost use Rattle.gq_fault.specs.Adds.{AddsExactly};
ghost use Rattle.gq_fragments.specs.ConditionFaults.{IsConditionFault};

use crate::inline_conditions::{add_conditions_in_fragments, add_conditions_in_operations};
use crate::type_conditions::add_conditions_of_fragments;
use gq_document::Executable;
use gq_fault::Fault;
use gq_text::NoMemory;

/// Adds each fault of a type condition, of fragments and of inline fragments: one that names no type (section 5.5.1.2) or no
/// composite type (section 5.5.1.3). A fault stands at the name of the type.
pub fn add_condition_faults(
    executable: &Executable<'_>,
    faults: &mut Vec<Fault>,
) -> Result<(), NoMemory>
    ensures { OnOk result (AddsExactly (IsConditionFault (executable_view executable.now)) faults.old.items faults.new.items) }
{
    let types = executable.types;
    add_conditions_of_fragments(types, executable.fragments, faults)?;
    add_conditions_in_operations(types, executable.operations, faults)?;
    add_conditions_in_fragments(types, executable.fragments, faults)
}
