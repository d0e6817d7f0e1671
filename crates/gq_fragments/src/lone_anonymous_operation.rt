//! Anonymous operations beside other operations (GraphQL, October 2021, section 5.2.2.1).
ghost use Rattle.std.specs.Prelude.{◌≡◌, ◌++◌, OnOk};
ghost use Rattle.gq_document.specs.Definitions.{operation_view, operations_view};
ghost use Rattle.gq_fragments.specs.Helping.OperationPlaces.{anonymous_at, anonymous, not_alone};

use crate::operation_place::first_token;
use gq_document::OperationEntry;
use gq_fault::{Code, Fault, add_fault, fault_over};
use gq_text::NoMemory;

/// The fault of the operation, if it has no name.
fn add_anonymous(operation: &OperationEntry<'_>, faults: &mut Vec<Fault>) -> Result<(), NoMemory>
    ensures { OnOk result (faults.new.items ≡ faults.old.items ++ anonymous_at (operation_view operation.now)) }
{
    match operation.definition.name {
        Some(_) => Ok(()),
        None => {
            let place = first_token(operation);
            add_fault(
                fault_over(operation.file, Code::AnonymousOperationNotAlone, place),
                faults,
            )
        }
    }
}

/// The faults of all operations that have no name.
fn add_all_anonymous(
    operations: &[OperationEntry<'_>],
    faults: &mut Vec<Fault>,
) -> Result<(), NoMemory>
    ensures { OnOk result (faults.new.items ≡ faults.old.items ++ anonymous (operations_view operations.now)) }
{
    for operation in operations {
        add_anonymous(operation, faults)?;
    }
    Ok(())
}

/// Each anonymous operation, if there are two operations or more.
pub(crate) fn add_not_alone(
    operations: &[OperationEntry<'_>],
    faults: &mut Vec<Fault>,
) -> Result<(), NoMemory>
    ensures { OnOk result (faults.new.items ≡ faults.old.items ++ not_alone (operations_view operations.now)) }
{
    if operations.len() < 2 {
        return Ok(());
    }
    add_all_anonymous(operations, faults)
}
