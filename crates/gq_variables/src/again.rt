//! Variables whose names stand earlier too, found by their names.
ghost use Rattle.std.specs.Prelude.{◌≡◌, ◌||◌, IfOk, OnOk, true};
ghost use Rattle.std.specs.List.{list_any};
ghost use Rattle.gq_text.specs.declared.place.Span.{Span};
ghost use Rattle.gq_tree.specs.Plain.{VariableOf};
ghost use Rattle.gq_tree.specs.Views.{variable_view};
ghost use Rattle.gq_types.specs.Look.{types_view};
ghost use Rattle.gq_variables.specs.Uses.{UseOf};
ghost use Rattle.gq_variables.specs.Helping.Again.{covers, any_under, name_two_types, AddsNothing};
ghost use Rattle.gq_variables.specs.Helping.VariablePlaces.{is_wrong_for};
ghost use Rattle.gq_variables.specs.Helping.Views.{variables_view};

use crate::all_variable_usages_are_allowed::is_known;
use crate::compatible::{are_compatible, is_value};
use gq_names::ByName;
use gq_text::NoMemory;
use gq_tree::{VariableDefinition, base_name};
use gq_types::Types;
use std::alloc::Global;

/// Whether the first variable is wrong wherever the other one is: that may stand where the type of the first is wanted, and
/// has a default value where the first has one.
pub(crate) fn covers(one: &VariableDefinition, other: &VariableDefinition) -> bool
    ensures { result ≡ covers (variable_view one.now) (variable_view other.now) }
{
    are_compatible(&other.type_ref, &one.type_ref)
        && (is_value(&other.default) || !is_value(&one.default))
}

#[tactic(auto, using(gq_tree::proofs::Trees::gathers))]
fn is_covered(known: &[&VariableDefinition], other: &VariableDefinition) -> bool
    ensures { result ≡ list_any (λ one. covers one (variable_view other.now)) (variables_view known.now) }
{
    for one in known {
        if covers(one, other) {
            return true;
        }
    }
    false
}

/// Whether the two variables name two types that are known.
fn name_two_types(types: &Types, one: &VariableDefinition, other: &VariableDefinition) -> bool
    ensures { result ≡ name_two_types (types_view types.now) (variable_view one.now) (variable_view other.now) }
{
    is_known(types, &one.type_ref)
        && is_known(types, &other.type_ref)
        && base_name(&one.type_ref) != base_name(&other.type_ref)
}

/// Whether the first and the last of the variables name two types. Then one of them is wrong wherever any variable is.
fn are_of_two_types(types: &Types, known: &[&VariableDefinition]) -> bool
    ensures { result ≡ true → (v : VariableOf Span) → AddsNothing (types_view types.now) (variables_view known.now) v }
{
    if known.is_empty() {
        return false;
    }
    let last = known.len() - 1;
    name_two_types(types, known[0], known[last])
}

/// Whether one of the variables is wrong wherever the other one is.
fn adds_nothing(types: &Types, known: &[&VariableDefinition], other: &VariableDefinition) -> bool
    ensures { result ≡ true → AddsNothing (types_view types.now) (variables_view known.now) (variable_view other.now) }
{
    if !is_known(types, &other.type_ref) {
        return true;
    }
    if are_of_two_types(types, known) {
        return true;
    }
    is_covered(known, other)
}

/// Puts the variable under its name, unless one there is wrong wherever it is.
fn put<'a>(
    types: &Types,
    variable: &'a VariableDefinition,
    again: &mut ByName<&'a VariableDefinition>,
) -> Result<(), NoMemory>
    ensures { OnOk result ((u : UseOf) → any_under (types_view types.now) again.new u
        ≡ (any_under (types_view types.now) again.old u || is_wrong_for (types_view types.now) u (variable_view variable.now))) }
{
    let name = variable.variable.name.text.as_str();
    if !adds_nothing(types, again.get(name), variable) {
        again.put(name, variable)?;
    }
    Ok(())
}

/// The variables by their names, without those that are wrong only where another one is.
pub(crate) fn by_name<'a>(
    alloc: Global,
    types: &Types,
    variables: &[&'a VariableDefinition],
) -> Result<ByName<&'a VariableDefinition>, NoMemory>
    ensures { IfOk result (λ again. (u : UseOf) → any_under (types_view types.now) again u ≡ list_any (is_wrong_for (types_view types.now) u) (variables_view variables.now)) }
{
    let mut again = ByName::new(alloc);
    for variable in variables {
        put(types, variable, &mut again)?;
    }
    Ok(again)
}
