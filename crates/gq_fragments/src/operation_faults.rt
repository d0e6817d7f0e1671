//! All that is wrong with operations by themselves.
ghost use Rattle.std.specs.Prelude.{◌≡◌, ◌++◌, OnOk};
ghost use Rattle.gq_document.specs.Executable.{executable_view};
ghost use Rattle.gq_fault.specs.Adds.{AddsExactly};
ghost use Rattle.gq_fragments.specs.OperationFaults.{IsOperationFault};
ghost use Rattle.gq_fragments.specs.Helping.OperationPlaces.{operation_faults};

use crate::lone_anonymous_operation::add_not_alone;
use crate::operation_name_uniqueness::add_repeated_names;
use crate::root_operation_types::add_without_root;
use crate::subscription_operation::add_subscriptions;
use gq_document::Executable;
use gq_fault::Fault;
use gq_text::NoMemory;
use std::alloc::Global;

/// Adds each fault of an operation by itself: a subscription, a mutation without a root type (section 3.3.1),
/// a name that an earlier operation has (section 5.2.1.1), an anonymous operation beside another operation (section
/// 5.2.2.1). The faults stand at the operation's name or, where it has none, at its first token.
pub fn add_operation_faults(
    alloc: Global,
    executable: &Executable<'_>,
    faults: &mut Vec<Fault>,
) -> Result<(), NoMemory>
    ensures { OnOk result (AddsExactly (IsOperationFault (executable_view executable.now)) faults.old.items faults.new.items) }
{
    add_each_rule(alloc, executable, faults)
}

/// The same, rule by rule.
fn add_each_rule(
    alloc: Global,
    executable: &Executable<'_>,
    faults: &mut Vec<Fault>,
) -> Result<(), NoMemory>
    ensures { OnOk result (faults.new.items ≡ faults.old.items ++ operation_faults (executable_view executable.now)) }
{
    add_subscriptions(executable.operations, faults)?;
    add_without_root(executable.types, executable.operations, faults)?;
    add_repeated_names(alloc, executable.operations, faults)?;
    add_not_alone(executable.operations, faults)
}
