//! The type conditions of inline fragments at any depth. They are found without the types of their parents.
ghost use Rattle.std.specs.Prelude.{◌≡◌, ◌++◌, OnOk, flat_map};
ghost use Rattle.gq_tree.specs.Forest.{labels, labels_in};
ghost use Rattle.gq_tree.specs.Views.{sel_view, sels_view};
ghost use Rattle.gq_types.specs.Look.{types_view};
ghost use Rattle.gq_document.specs.Definitions.{operation_view, fragment_view, operations_view, fragments_view};
ghost use Rattle.gq_fragments.specs.Helping.FragmentPlaces.{conditions_in, conditions_in_operation, conditions_in_fragment};

use crate::type_conditions::add_condition;
use gq_document::{FragmentEntry, OperationEntry};
use gq_fault::Fault;
use gq_text::NoMemory;
use gq_tree::Selection;
use gq_types::Types;

#[cycle(conditions)]
#[tactic(auto, using(gq_tree::proofs::Trees::gathers))]
fn add_conditions_in(
    types: &Types,
    file: usize,
    selection: &Selection,
    faults: &mut Vec<Fault>,
) -> Result<(), NoMemory>
    ensures { OnOk result (faults.new.items ≡ faults.old.items ++ flat_map (conditions_in (types_view types.now) file) (labels_in (sel_view selection.now))) }
{
    match selection {
        Selection::Field(field) => match &field.set {
            Some(set) => add_conditions_among(types, file, &set.items, faults),
            None => Ok(()),
        },
        Selection::Spread(_) => Ok(()),
        Selection::Inline(inline) => match &inline.on {
            Some(name) => {
                add_condition(types, file, name, faults)?;
                add_conditions_among(types, file, &inline.set.items, faults)
            }
            None => add_conditions_among(types, file, &inline.set.items, faults),
        },
    }
}

#[cycle(conditions)]
#[tactic(auto, using(gq_tree::proofs::Trees::gathers))]
fn add_conditions_among(
    types: &Types,
    file: usize,
    all: &[Selection],
    faults: &mut Vec<Fault>,
) -> Result<(), NoMemory>
    ensures { OnOk result (faults.new.items ≡ faults.old.items ++ flat_map (conditions_in (types_view types.now) file) (labels (sels_view all.now))) }
{
    for selection in all {
        add_conditions_in(types, file, selection, faults)?;
    }
    Ok(())
}

fn add_conditions_in_operation(
    types: &Types,
    operation: &OperationEntry<'_>,
    faults: &mut Vec<Fault>,
) -> Result<(), NoMemory>
    ensures { OnOk result (faults.new.items ≡ faults.old.items ++ conditions_in_operation (types_view types.now) (operation_view operation.now)) }
{
    let all = &operation.definition.set.items;
    add_conditions_among(types, operation.file, all, faults)
}

fn add_conditions_in_fragment(
    types: &Types,
    fragment: &FragmentEntry<'_>,
    faults: &mut Vec<Fault>,
) -> Result<(), NoMemory>
    ensures { OnOk result (faults.new.items ≡ faults.old.items ++ conditions_in_fragment (types_view types.now) (fragment_view fragment.now)) }
{
    let all = &fragment.definition.set.items;
    add_conditions_among(types, fragment.file, all, faults)
}

/// The faults of the type conditions of inline fragments in operations.
pub(crate) fn add_conditions_in_operations(
    types: &Types,
    operations: &[OperationEntry<'_>],
    faults: &mut Vec<Fault>,
) -> Result<(), NoMemory>
    ensures { OnOk result (faults.new.items ≡ faults.old.items ++ flat_map (conditions_in_operation (types_view types.now)) (operations_view operations.now)) }
{
    for operation in operations {
        add_conditions_in_operation(types, operation, faults)?;
    }
    Ok(())
}

/// The same in fragments, without those of the fragments themselves.
pub(crate) fn add_conditions_in_fragments(
    types: &Types,
    fragments: &[FragmentEntry<'_>],
    faults: &mut Vec<Fault>,
) -> Result<(), NoMemory>
    ensures { OnOk result (faults.new.items ≡ faults.old.items ++ flat_map (conditions_in_fragment (types_view types.now)) (fragments_view fragments.now)) }
{
    for fragment in fragments {
        add_conditions_in_fragment(types, fragment, faults)?;
    }
    Ok(())
}
