//! Mutations, where the schema has no root type for them (GraphQL, October 2021, section 3.3.1).
ghost use Rattle.std.specs.Prelude.{◌≡◌, ◌++◌, OnOk};
ghost use Rattle.gq_types.specs.Look.{types_view};
ghost use Rattle.gq_document.specs.Definitions.{operation_view, operations_view};
ghost use Rattle.gq_fragments.specs.Helping.OperationPlaces.{mutation_at, mutations, without_root};

use crate::operation_place::operation_place;
use gq_document::OperationEntry;
use gq_fault::{Code, Fault, add_fault, fault_over};
use gq_text::NoMemory;
use gq_tree::OperationKind;
use gq_types::Types;

/// The fault of the operation, if it is a mutation.
fn add_mutation(operation: &OperationEntry<'_>, faults: &mut Vec<Fault>) -> Result<(), NoMemory>
    ensures { OnOk result (faults.new.items ≡ faults.old.items ++ mutation_at (operation_view operation.now)) }
{
    match operation.definition.kind {
        OperationKind::Mutation => {
            let place = operation_place(operation);
            add_fault(fault_over(operation.file, Code::NoRootType, place), faults)
        }
        OperationKind::Query | OperationKind::Subscription => Ok(()),
    }
}

/// The faults of all mutations.
fn add_mutations(operations: &[OperationEntry<'_>], faults: &mut Vec<Fault>) -> Result<(), NoMemory>
    ensures { OnOk result (faults.new.items ≡ faults.old.items ++ mutations (operations_view operations.now)) }
{
    for operation in operations {
        add_mutation(operation, faults)?;
    }
    Ok(())
}

/// Each mutation, if the schema has no root type for mutations.
pub(crate) fn add_without_root(
    types: &Types,
    operations: &[OperationEntry<'_>],
    faults: &mut Vec<Fault>,
) -> Result<(), NoMemory>
    ensures { OnOk result (faults.new.items ≡ faults.old.items ++ without_root (types_view types.now) (operations_view operations.now)) }
{
    match types.root(OperationKind::Mutation) {
        Some(_) => Ok(()),
        None => add_mutations(operations, faults),
    }
}
