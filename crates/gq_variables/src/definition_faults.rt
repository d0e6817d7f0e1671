//! What is wrong with the definitions of variables (GraphQL, October 2021, sections 5.8.1 and 5.8.2).
ghost use Rattle.std.specs.Prelude.{◌≡◌, ◌++◌, OnOk, flat_map};
ghost use Rattle.gq_fault.specs.Adds.{AddsExactly};
ghost use Rattle.gq_types.specs.Look.{types_view};
ghost use Rattle.gq_document.specs.Definitions.{operation_view, operations_view};
ghost use Rattle.gq_document.specs.Executable.{executable_view};
ghost use Rattle.gq_variables.specs.VariableDefinitionFaults.{IsVariableDefinitionFault};
ghost use Rattle.gq_variables.specs.Helping.VariablePlaces.{definition_faults_of};

use crate::faults::add_definition_faults;
use crate::variables::Variables;
use gq_document::{Executable, OperationEntry};
use gq_fault::Fault;
use gq_text::NoMemory;
use gq_types::Types;
use std::alloc::Global;

/// Puts what is wrong with the variables of an operation, whatever uses them.
fn add_definition_faults_of(
    alloc: Global,
    types: &Types,
    operation: &OperationEntry<'_>,
    faults: &mut Vec<Fault>,
) -> Result<(), NoMemory>
    ensures { OnOk result (faults.new.items ≡ faults.old.items ++ definition_faults_of (types_view types.now) (operation_view operation.now)) }
{
    let (file, all) = (operation.file, &operation.definition.variables);
    let mut repeated = Vec::new(alloc);
    let _variables = Variables::of(alloc, all, &mut repeated)?;
    add_definition_faults(types, file, all, &repeated, faults)
}

/// The same of each of these operations.
fn add_definition_faults_of_all(
    alloc: Global,
    types: &Types,
    operations: &[OperationEntry<'_>],
    faults: &mut Vec<Fault>,
) -> Result<(), NoMemory>
    ensures { OnOk result (faults.new.items ≡ faults.old.items ++ flat_map (definition_faults_of (types_view types.now)) (operations_view operations.now)) }
{
    for operation in operations {
        add_definition_faults_of(alloc, types, operation, faults)?;
    }
    Ok(())
}

/// Adds each fault of a variable's definition, whatever uses it: a name that an earlier variable of the operation has (section
/// 5.8.1), a type that is no input type (section 5.8.2). Each fault stands at the variable's name, without the `$`, in bytes.
pub fn add_variable_definition_faults(
    alloc: Global,
    executable: &Executable<'_>,
    faults: &mut Vec<Fault>,
) -> Result<(), NoMemory>
    ensures { OnOk result (AddsExactly (IsVariableDefinitionFault (executable_view executable.now)) faults.old.items faults.new.items) }
{
    add_definition_faults_of_all(alloc, executable.types, executable.operations, faults)
}
