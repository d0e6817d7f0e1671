//! Uses of variables at types that do not allow them (GraphQL, October 2021, section 5.8.5).
ghost use Rattle.std.specs.Prelude.{◌≡◌, ◌++◌, OnOk, map};
ghost use Rattle.std.specs.List.{list_any};
ghost use Rattle.gq_tree.specs.Views.{type_view, variable_view};
ghost use Rattle.gq_types.specs.Look.{types_view};
ghost use Rattle.gq_variables.specs.AllVariableUsagesAreAllowed.{is_known};
ghost use Rattle.gq_variables.specs.Helping.Again.{not_allowed_by_at, not_allowed_by};
ghost use Rattle.gq_variables.specs.Helping.VariablePlaces.{is_wrong_at, first_is_wrong, not_allowed};
ghost use Rattle.gq_variables.specs.Helping.Views.{place_view, use_view, uses_view, variables_view};

use crate::again::by_name;
use crate::compatible::is_allowed;
use crate::uses::{Place, Use};
use crate::variables::Variables;
use gq_fault::{Code, Fault, add_fault_at};
use gq_names::ByName;
use gq_text::NoMemory;
use gq_tree::{TypeRef, VariableDefinition, base_name};
use gq_types::Types;
use gq_values::ExpectedType;
use std::alloc::Global;

/// Whether the type inside lists and types without null is known.
pub(crate) fn is_known(types: &Types, type_ref: &TypeRef) -> bool
    ensures { result ≡ is_known (types_view types.now) (type_view type_ref.now) }
{
    types.kind(base_name(type_ref)).is_some()
}

/// Whether the variable may not stand at the place. Where a type is not known it may.
fn is_wrong_at(types: &Types, place: Place<'_>, variable: &VariableDefinition) -> bool
    ensures { result ≡ is_wrong_at (types_view types.now) (place_view place.entry) (variable_view variable.now) }
{
    match place.reading {
        ExpectedType::AtType(location) => {
            is_known(types, &variable.type_ref)
                && is_known(types, location)
                && !is_allowed(variable, place.has_default, location)
        }
        ExpectedType::AtAny => false,
    }
}

fn first_is_wrong(types: &Types, variables: &Variables<'_>, one: &Use<'_>) -> bool
    ensures { result ≡ first_is_wrong (types_view types.now) (map variable_view variables.now.all.now) (use_view one.now) }
{
    match variables.first(one.name.text.as_str()) {
        Some(variable) => is_wrong_at(types, one.place, variable),
        None => false,
    }
}

/// Whether one of the variables may not stand at the place.
#[tactic(auto, using(gq_tree::proofs::Trees::gathers))]
fn any_is_wrong(types: &Types, place: Place<'_>, variables: &[&VariableDefinition]) -> bool
    ensures { result ≡ list_any (is_wrong_at (types_view types.now) (place_view place.entry)) (variables_view variables.now) }
{
    for variable in variables {
        if is_wrong_at(types, place, variable) {
            return true;
        }
    }
    false
}

fn add_if_not_allowed(
    types: &Types,
    variables: &Variables<'_>,
    again: &ByName<&VariableDefinition>,
    one: &Use<'_>,
    faults: &mut Vec<Fault>,
) -> Result<(), NoMemory>
    ensures { OnOk result (faults.new.items ≡ faults.old.items ++ not_allowed_by_at (types_view types.now) (map variable_view variables.now.all.now) again.now (use_view one.now)) }
{
    let repeated = again.get(one.name.text.as_str());
    if first_is_wrong(types, variables, one) || any_is_wrong(types, one.place, repeated) {
        add_fault_at(one.file, Code::VariableNotAllowedHere, one.name, faults)?;
    }
    Ok(())
}

#[tactic(auto, using(gq_tree::proofs::Trees::gathers))]
fn add_each_not_allowed(
    types: &Types,
    variables: &Variables<'_>,
    again: &ByName<&VariableDefinition>,
    uses: &[Use<'_>],
    faults: &mut Vec<Fault>,
) -> Result<(), NoMemory>
    ensures { OnOk result (faults.new.items ≡ faults.old.items ++ not_allowed_by (types_view types.now) (map variable_view variables.now.all.now) again.now (uses_view uses.now)) }
{
    for one in uses {
        add_if_not_allowed(types, variables, again, one, faults)?;
    }
    Ok(())
}

/// Adds a fault at each use at a type that does not allow a variable of its name.
pub(crate) fn add_not_allowed(
    alloc: Global,
    types: &Types,
    variables: &Variables<'_>,
    repeated: &[&VariableDefinition],
    uses: &[Use<'_>],
    faults: &mut Vec<Fault>,
) -> Result<(), NoMemory>
    ensures { OnOk result (faults.new.items ≡ faults.old.items ++ not_allowed (types_view types.now) (map variable_view variables.now.all.now) (variables_view repeated.now) (uses_view uses.now)) }
{
    let again = by_name(alloc, types, repeated)?;
    add_each_not_allowed(types, variables, &again, uses, faults)
}
