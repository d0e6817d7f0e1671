//! Variables of two operations that are wrong at the same uses.
ghost use Rattle.std.specs.Prelude.{◌≡◌, IfOk, filter, map, true};
ghost use Rattle.gq_tree.specs.Views.{variable_view};
ghost use Rattle.gq_variables.specs.Helping.Alike.{is_named, is_alike, are_alike, AreAsBefore};
ghost use Rattle.gq_variables.specs.Helping.Views.{variables_view};

use crate::again::covers;
use gq_names::NameList;
use gq_text::NoMemory;
use gq_tree::VariableDefinition;
use std::alloc::Global;

/// The variables that have one of these names.
#[tactic(auto, using(gq_tree::proofs::Trees::gathers))]
fn named<'a>(
    alloc: Global,
    names: &NameList,
    variables: &'a [VariableDefinition],
) -> Result<Vec<&'a VariableDefinition>, NoMemory>
    ensures { IfOk result (λ named. variables_view named.items ≡ filter (is_named names.now) (map variable_view variables.now)) }
{
    let mut named = Vec::new(alloc);
    for variable in variables {
        if names.contains(variable.variable.name.text.as_str()) {
            named.push(variable)?;
        }
    }
    Ok(named)
}

/// Whether the first has the name of the other one, and is wrong wherever that is.
fn is_alike(before: &VariableDefinition, now: &VariableDefinition) -> bool
    ensures { result ≡ is_alike (variable_view before.now) (variable_view now.now) }
{
    before.variable.name.text.as_str() == now.variable.name.text.as_str() && covers(before, now)
}

/// Whether there are as many of the first, and each is alike the one at its place.
fn are_alike(before: &[&VariableDefinition], now: &[&VariableDefinition]) -> bool
    ensures { result ≡ true → are_alike (variables_view before.now) (variables_view now.now) ≡ true }
{
    if before.len() != now.len() {
        return false;
    }
    for place in 0..now.len() {
        if !is_alike(before[place], now[place]) {
            return false;
        }
    }
    true
}

/// Whether the first variables are wrong at each use of these names at which the second ones are, or at which those lack the name.
pub(crate) fn are_as_before(
    alloc: Global,
    names: &NameList,
    before: &[VariableDefinition],
    now: &[VariableDefinition],
) -> Result<bool, NoMemory>
    ensures { IfOk result (λ alike. alike ≡ true → AreAsBefore names.now (map variable_view before.now) (map variable_view now.now)) }
{
    let before = named(alloc, names, before)?;
    let now = named(alloc, names, now)?;
    Ok(are_alike(&before, &now))
}
