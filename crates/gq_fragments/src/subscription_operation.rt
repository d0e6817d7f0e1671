//! Subscription operations, which are not executed.
ghost use Rattle.std.specs.Prelude.{◌≡◌, ◌++◌, OnOk};
ghost use Rattle.gq_document.specs.Definitions.{operation_view, operations_view};
ghost use Rattle.gq_fragments.specs.Helping.OperationPlaces.{subscription_at, subscriptions};

use crate::operation_place::operation_place;
use gq_document::OperationEntry;
use gq_fault::{Code, Fault, add_fault, fault_over};
use gq_text::NoMemory;
use gq_tree::OperationKind;

/// The fault of the operation, if it is a subscription.
fn add_subscription(operation: &OperationEntry<'_>, faults: &mut Vec<Fault>) -> Result<(), NoMemory>
    ensures { OnOk result (faults.new.items ≡ faults.old.items ++ subscription_at (operation_view operation.now)) }
{
    match operation.definition.kind {
        OperationKind::Subscription => {
            let place = operation_place(operation);
            add_fault(
                fault_over(operation.file, Code::SubscriptionOperation, place),
                faults,
            )
        }
        OperationKind::Query | OperationKind::Mutation => Ok(()),
    }
}

/// Each subscription.
pub(crate) fn add_subscriptions(
    operations: &[OperationEntry<'_>],
    faults: &mut Vec<Fault>,
) -> Result<(), NoMemory>
    ensures { OnOk result (faults.new.items ≡ faults.old.items ++ subscriptions (operations_view operations.now)) }
{
    for operation in operations {
        add_subscription(operation, faults)?;
    }
    Ok(())
}
