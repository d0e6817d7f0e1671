//! What is wrong with variables (GraphQL, October 2021, section 5.8).
ghost use Rattle.std.specs.Prelude.{◌≡◌, ◌↔◌, ◌++◌, ◌<◌, ◌+◌, Contains, IfOk, OnOk, map, length, true};
ghost use Rattle.gq_fault.specs.Adds.{AddsExactly};
ghost use Rattle.gq_tree.specs.Views.{variable_view};
ghost use Rattle.gq_types.specs.Look.{types_view};
ghost use Rattle.gq_document.specs.Definitions.{operation_view, operations_view, fragments_view};
ghost use Rattle.gq_document.specs.Executable.{executable_view};
ghost use Rattle.gq_spreads.specs.Spreads.{AreSpreads};
ghost use Rattle.gq_variables.specs.Helping.Behind.{AreBehind, FollowsItsLike};
ghost use Rattle.gq_variables.specs.Helping.Leading.{AreLeadingInParts};
ghost use Rattle.gq_variables.specs.Helping.UsesPlaces.{operation_uses, fragment_uses, unless};
ghost use Rattle.gq_variables.specs.VariableFaults.{IsVariableFault};
ghost use Rattle.gq_variables.specs.Helping.VariablePlaces.{definition_faults, use_faults, operation_faults, AreFaultsBefore};
ghost use Rattle.gq_variables.specs.Helping.Views.{uses_view, rows_view, variables_view};

use crate::alike::are_as_before;
use crate::all_variable_usages_are_allowed::add_not_allowed;
use crate::all_variable_uses_defined::add_not_defined;
use crate::all_variables_used::add_not_used;
use crate::behind::{Behind, spread_the_same, uses_behind};
use crate::leading::leading_spreads;
use crate::parts::{Parts, take_own};
use crate::reached::{put_all, put_unless_known, uses_of_fragments};
use crate::selections::put_uses_of_operation;
use crate::uses::Use;
use crate::variable_uniqueness::add_not_unique;
use crate::variables::Variables;
use crate::variables_are_input_types::add_not_of_input_type;
use gq_document::{Executable, OperationEntry};
use gq_fault::{Fault, put_in_order};
use gq_names::NameList;
use gq_spreads::Spreads;
use gq_text::NoMemory;
use gq_tree::VariableDefinition;
use gq_types::Types;
use std::alloc::Global;

/// Puts what is wrong with the variables themselves.
pub(crate) fn add_definition_faults(
    types: &Types,
    file: usize,
    all: &[VariableDefinition],
    repeated: &[&VariableDefinition],
    faults: &mut Vec<Fault>,
) -> Result<(), NoMemory>
    ensures { OnOk result (faults.new.items ≡ faults.old.items ++ definition_faults (types_view types.now) file (map variable_view all.now) (variables_view repeated.now)) }
{
    add_not_unique(file, repeated, faults)?;
    add_not_of_input_type(types, file, all, faults)
}

/// Puts what is wrong with the variables at these uses.
fn add_use_faults(
    alloc: Global,
    types: &Types,
    variables: &Variables<'_>,
    repeated: &[&VariableDefinition],
    uses: &[Use<'_>],
    faults: &mut Vec<Fault>,
) -> Result<(), NoMemory>
    ensures { OnOk result (faults.new.items ≡ faults.old.items ++ use_faults (types_view types.now) (map variable_view variables.now.all.now) (variables_view repeated.now) (uses_view uses.now)) }
{
    add_not_defined(variables, uses, faults)?;
    add_not_allowed(alloc, types, variables, repeated, uses, faults)
}

/// Puts what is wrong with the variables of an operation, where these are the uses behind its own spreads and behind those that
/// others share; what is wrong at the latter only if it is not known.
fn add_faults_of_operation<'a>(
    alloc: Global,
    types: &'a Types,
    operation: &'a OperationEntry<'a>,
    own: &[Use<'a>],
    behind: &Behind<'a>,
    are_known: bool,
    faults: &mut Vec<Fault>,
) -> Result<(), NoMemory>
    ensures { OnOk result (faults.new.items ≡ faults.old.items ++ operation_faults (types_view types.now) (operation_view operation.now)
        ((operation_uses (types_view types.now) (operation_view operation.now) ++ uses_view own.now) ++ uses_view behind.now.uses.items)
        ((operation_uses (types_view types.now) (operation_view operation.now) ++ uses_view own.now) ++ unless are_known (uses_view behind.now.uses.items))) }
{
    let (file, all) = (operation.file, &operation.definition.variables);
    let mut repeated = Vec::new(alloc);
    let variables = Variables::of(alloc, all, &mut repeated)?;
    let mut uses = Vec::new(alloc);
    put_uses_of_operation(types, operation, &mut uses)?;
    put_all(own, &mut uses)?;
    add_definition_faults(types, file, all, &repeated, faults)?;
    add_not_used(alloc, file, all, &uses, &behind.names, faults)?;
    put_unless_known(are_known, &behind.uses, &mut uses)?;
    add_use_faults(alloc, types, &variables, &repeated, &uses, faults)
}

/// So many operations before one are compared with it.
const BACK: usize = 8;

/// Whether the operation of the first number spreads the same as that of the other, and its variables are wrong at each use of
/// these names at which those of the other are.
fn is_like(
    alloc: Global,
    operations: &[OperationEntry<'_>],
    spreads: &Spreads,
    names: &NameList,
    before: usize,
    number: usize,
) -> Result<bool, NoMemory>
    requires before { before < number }
    requires number { number < length (operations_view operations.now) }
    requires spreads { length spreads.now.of_operations.items ≡ length (operations_view operations.now) }
    ensures { IfOk result (λ like. like ≡ true → FollowsItsLike (operations_view operations.now) spreads.now names.now number) }
{
    if !spread_the_same(spreads, before, number) {
        return Ok(false);
    }
    let earlier = operations[before].definition;
    let now = operations[number].definition;
    are_as_before(alloc, names, &earlier.variables, &now.variables)
}

/// Whether the faults of the operation of that number at uses of these names, which stand behind its spreads, are seen to be
/// those of one of the operations before.
fn are_known(
    alloc: Global,
    operations: &[OperationEntry<'_>],
    spreads: &Spreads,
    names: &NameList,
    number: usize,
) -> Result<bool, NoMemory>
    requires number { number < length (operations_view operations.now) }
    requires spreads { length spreads.now.of_operations.items ≡ length (operations_view operations.now) }
    ensures { IfOk result (λ known. known ≡ true → FollowsItsLike (operations_view operations.now) spreads.now names.now number) }
{
    for before in number.saturating_sub(BACK)..number {
        if is_like(alloc, operations, spreads, names, before, number)? {
            return Ok(true);
        }
    }
    Ok(false)
}

/// Puts what is wrong with the variables of the operation of that number behind what is wrong in those before. The spreads are
/// those of fragments that lead to a use. For each fragment there is a row of its uses.
fn add_faults_at<'a>(
    alloc: Global,
    executable: &Executable<'a>,
    parts: &Parts,
    rows: &[Vec<Use<'a>>],
    behind: &Behind<'a>,
    number: usize,
    faults: &mut Vec<Fault>,
) -> Result<(), NoMemory>
    requires spreads { AreLeadingInParts (executable_view executable.now) parts.now.shared parts.now.own.items }
    requires operation { number < length (operations_view executable.now.operations.now) }
    requires rows { rows_view rows.now ≡ map (fragment_uses (types_view executable.now.types.now)) (fragments_view executable.now.fragments.now) }
    requires behind { AreBehind (rows_view rows.now) parts.now.shared number (uses_view behind.now.uses.items) }
    requires faults { AreFaultsBefore (executable_view executable.now) number faults.now.items }
    ensures { OnOk result (AreFaultsBefore (executable_view executable.now) (number + 1) faults.new.items) }
{
    let operations = executable.operations;
    let known = are_known(alloc, operations, &parts.shared, &behind.names, number)?;
    let starts = &parts.own[number];
    let own = uses_behind(alloc, &parts.shared.of_fragments, starts, rows)?;
    let operation = &operations[number];
    add_faults_of_operation(
        alloc,
        executable.types,
        operation,
        &own,
        behind,
        known,
        faults,
    )
}

/// So many faults are put in order at the least.
const MANY: usize = 1024;

/// Puts the faults in order, each once, where there are so many as `most`. Returns how many there have to be the next time,
/// twice as many as are left, so that each is gone over a few times at the most.
fn put_once(most: usize, faults: &mut Vec<Fault>) -> usize
    ensures { (fault : Fault) → Contains faults.new.items fault ↔ Contains faults.old.items fault }
{
    if faults.len() < most {
        return most;
    }
    put_in_order(faults);
    faults.len().saturating_mul(2).saturating_add(MANY)
}

/// What is wrong with the variables of all operations. The spreads are those of fragments that lead to a use, and for each
/// fragment there is a row of its uses.
fn faults_found<'a>(
    alloc: Global,
    executable: &Executable<'a>,
    parts: &Parts,
    rows: &[Vec<Use<'a>>],
) -> Result<Vec<Fault>, NoMemory>
    requires spreads { AreLeadingInParts (executable_view executable.now) parts.now.shared parts.now.own.items }
    requires rows { rows_view rows.now ≡ map (fragment_uses (types_view executable.now.types.now)) (fragments_view executable.now.fragments.now) }
    ensures { IfOk result (λ found. AreFaultsBefore (executable_view executable.now) (length (operations_view executable.now.operations.now)) found.items) }
{
    let mut found = Vec::new(alloc);
    let mut most = MANY;
    let mut behind = Behind::none(alloc);
    for number in 0..executable.operations.len() {
        behind.go_on(alloc, &parts.shared, rows, number)?;
        add_faults_at(alloc, executable, parts, rows, &behind, number, &mut found)?;
        most = put_once(most, &mut found);
    }
    Ok(found)
}

/// Adds each fault of the variables of operations: a variable that is there twice, or of no input type, or not
/// used; a use of a variable that an operation does not define, or at a type that does not allow it. The uses in a fragment
/// belong to each operation that reaches it. Each fault stands at a variable's name, without the `$`, in bytes.
pub fn add_variable_faults(
    alloc: Global,
    executable: &Executable<'_>,
    spreads: &Spreads,
    faults: &mut Vec<Fault>,
) -> Result<(), NoMemory>
    requires spreads { AreSpreads (executable_view executable.now) spreads.now }
    ensures { OnOk result (AddsExactly (IsVariableFault (executable_view executable.now)) faults.old.items faults.new.items) }
{
    let rows = uses_of_fragments(alloc, executable.types, executable.fragments)?;
    let mut shared = leading_spreads(alloc, executable, spreads, &rows)?;
    let own = take_own(alloc, &mut shared)?;
    let parts = Parts { shared, own };
    let found = faults_found(alloc, executable, &parts, &rows)?;
    faults.extend_from_slice(&found)?;
    Ok(())
}
