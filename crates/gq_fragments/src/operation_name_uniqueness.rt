//! Names of operations that an earlier operation has (GraphQL, October 2021, section 5.2.1.1).
ghost use Rattle.std.specs.Prelude.{◌≡◌, ◌++◌, [], OnOk};
ghost use Rattle.gq_document.specs.Definitions.{operation_view, operations_view};
ghost use Rattle.gq_fragments.specs.OperationNameUniqueness.{names_in};
ghost use Rattle.gq_fragments.specs.Helping.OperationPlaces.{name_texts, repeated_names_among, repeated_names};

use gq_document::OperationEntry;
use gq_fault::{Code, Fault, add_fault, fault_at};
use gq_names::NameList;
use gq_text::NoMemory;
use std::alloc::Global;

/// The fault of the operation's name, if it is one of those before, behind which it is put.
fn add_if_repeated(
    operation: &OperationEntry<'_>,
    before: &mut NameList,
    faults: &mut Vec<Fault>,
) -> Result<(), NoMemory>
    ensures faults { OnOk result (faults.new.items ≡ faults.old.items ++ repeated_names_among before.old (names_in operation.now.file (operation_view operation.now).name)) }
    ensures names { OnOk result (before.new ≡ before.old ++ name_texts (names_in operation.now.file (operation_view operation.now).name)) }
{
    if let Some(name) = &operation.definition.name {
        if !before.push(name.text.as_str())? {
            add_fault(
                fault_at(operation.file, Code::OperationNameNotUnique, name),
                faults,
            )?;
        }
    }
    Ok(())
}

/// Each name of an operation that an earlier operation has.
#[tactic(auto, using(crate::proofs::RepeatedNames::namewise))]
pub(crate) fn add_repeated_names(
    alloc: Global,
    operations: &[OperationEntry<'_>],
    faults: &mut Vec<Fault>,
) -> Result<(), NoMemory>
    ensures { OnOk result (faults.new.items ≡ faults.old.items ++ repeated_names [] (operations_view operations.now)) }
{
    let mut before = NameList::new(alloc);
    for operation in operations {
        add_if_repeated(operation, &mut before, faults)?;
    }
    Ok(())
}
