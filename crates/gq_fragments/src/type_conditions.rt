//! Type conditions that name no type, or no composite type (GraphQL, October 2021, sections 5.5.1.2 and 5.5.1.3).
ghost use Rattle.std.specs.Prelude.{◌≡◌, ◌++◌, OnOk};
ghost use Rattle.gq_tree.specs.Views.{name_of};
ghost use Rattle.gq_types.specs.Look.{types_view};
ghost use Rattle.gq_document.specs.Definitions.{fragments_view};
ghost use Rattle.gq_document.specs.Views.{selected_view, selections_view};
ghost use Rattle.gq_fragments.specs.Helping.FragmentPlaces.{condition_faults, condition_of_selected, conditions_of_selections, conditions_of_fragments};

use gq_document::{FragmentEntry, Selected};
use gq_fault::{Code, Fault, add_fault, fault_at};
use gq_text::NoMemory;
use gq_tree::{Name, Selection};
use gq_types::Types;

/// The fault of a type condition, if it names no type, or no composite type.
pub(crate) fn add_condition(
    types: &Types,
    file: usize,
    name: &Name,
    faults: &mut Vec<Fault>,
) -> Result<(), NoMemory>
    ensures { OnOk result (faults.new.items ≡ faults.old.items ++ condition_faults (types_view types.now) file (name_of name.now)) }
{
    match types.kind(name.text.as_str()) {
        Some(kind) => {
            if kind.is_composite() {
                return Ok(());
            }
            add_fault(fault_at(file, Code::ConditionNotComposite, name), faults)
        }
        None => add_fault(fault_at(file, Code::UnknownTypeCondition, name), faults),
    }
}

/// The fault of the type condition of a selection, if it is an inline fragment with one.
#[tactic(auto, using(gq_tree::proofs::Trees::gathers))]
fn add_condition_of_selected(
    types: &Types,
    selected: &Selected<'_>,
    faults: &mut Vec<Fault>,
) -> Result<(), NoMemory>
    ensures { OnOk result (faults.new.items ≡ faults.old.items ++ condition_of_selected (types_view types.now) (selected_view selected.now)) }
{
    match selected.selection {
        Selection::Field(_) => Ok(()),
        Selection::Spread(_) => Ok(()),
        Selection::Inline(inline) => match &inline.on {
            Some(name) => add_condition(types, selected.file, name, faults),
            None => Ok(()),
        },
    }
}

/// The faults of the type conditions of inline fragments.
#[tactic(auto, using(gq_tree::proofs::Trees::gathers))]
pub(crate) fn add_conditions_of_selections(
    types: &Types,
    selections: &[Selected<'_>],
    faults: &mut Vec<Fault>,
) -> Result<(), NoMemory>
    ensures { OnOk result (faults.new.items ≡ faults.old.items ++ conditions_of_selections (types_view types.now) (selections_view selections.now)) }
{
    for selected in selections {
        add_condition_of_selected(types, selected, faults)?;
    }
    Ok(())
}

/// The faults of the type conditions of fragments.
pub(crate) fn add_conditions_of_fragments(
    types: &Types,
    fragments: &[FragmentEntry<'_>],
    faults: &mut Vec<Fault>,
) -> Result<(), NoMemory>
    ensures { OnOk result (faults.new.items ≡ faults.old.items ++ conditions_of_fragments (types_view types.now) (fragments_view fragments.now)) }
{
    for fragment in fragments {
        add_condition(types, fragment.file, &fragment.definition.on, faults)?;
    }
    Ok(())
}
