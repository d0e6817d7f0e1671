//! What is told of a variable (GraphQL, October 2021, section 2.10).
ghost use Rattle.std.specs.Prelude.{◌≡◌, ◌<◌, ◌≤◌, ◌↔◌, ℕ, [], List, Contains, IfOk, length, find, map, bytes_eq, option_and_then};
ghost use Rattle.std.specs.Option.{option_map};
ghost use Rattle.std.specs.List.Sorted.{IsStrictlyIncreasing};
ghost use Rattle.gq_tree.specs.Views.{variable_view, def_view};
ghost use Rattle.gq_index.specs.Indexed.{IsIndexOf};
ghost use Rattle.gq_index.specs.Occurrences.{DefinitionOf};
ghost use Rattle.gq_index.specs.VariableGroups.{VariableGroup};
ghost use Rattle.gq_mentions.specs.Views.{mention_view};
ghost use Rattle.gq_query.specs.Helping.Gathered.{first_of};
ghost use Rattle.gq_query.specs.Groups.{variable_in, variable_at};
ghost use Rattle.gq_query.specs.Hovers.{IsVariableTold};
ghost use Rattle.gq_query.specs.Helping.Own.{all_definitions};
ghost use Rattle.gq_query.specs.Helping.Views.{found_variable};
ghost use Rattle.gq_query.specs.Words.{variable_words};

use crate::own::definition_at;
use crate::words::variable_words;
use gq_index::Index;
use gq_mentions::Mention;
use gq_text::{NoMemory, OwnedText};
use gq_tree::{Definition, Parsed, VariableDefinition};
use std::alloc::Global;
use std::sync::Arc;

/// The words of the first definition of the variable in its group.
pub(crate) fn variable_told(
    alloc: Global,
    readings: &[Arc<Parsed>],
    index: &Index,
    mention: &Mention<'_>,
) -> Result<Option<OwnedText>, NoMemory>
    ensures { IfOk result (λ told. IsIndexOf (all_definitions readings.now) index.now
        → IsVariableTold (all_definitions readings.now) (mention_view mention.now).name.text mention.now.definition told) }
{
    let name = mention.name.text.as_str();
    let group = index.variable_group(alloc, mention.definition, name)?;
    let told = told_among(alloc, readings, index, &group, name)?;
    Ok(told)
}

/// The words of the first definition of the variable in the definitions of these numbers.
fn told_among(
    alloc: Global,
    readings: &[Arc<Parsed>],
    index: &Index,
    numbers: &[usize],
    name: &str,
) -> Result<Option<OwnedText>, NoMemory>
    ensures { IfOk result (λ told. IsIndexOf (all_definitions readings.now) index.now
        → told ≡ option_map (λ v. variable_words name.now v.type_ref) (first_of (variable_at (all_definitions readings.now) name.now) numbers.now)) }
{
    match defining_number(index, numbers, name) {
        Some(number) => told_at(alloc, readings, index, number, name),
        None => Ok(None),
    }
}

/// The first of these numbers whose definition defines the variable, by the index.
fn defining_number(index: &Index, numbers: &[usize], name: &str) -> Option<usize>
    ensures { (ds : List DefinitionOf) → IsIndexOf ds index.now → option_and_then (variable_at ds name.now) result ≡ first_of (variable_at ds name.now) numbers.now }
{
    for number in numbers {
        if !index.variable_definitions(*number, name).is_empty() {
            return Some(*number);
        }
    }
    None
}

/// The words of the first variable of that name that the definition of that number defines.
fn told_at(
    alloc: Global,
    readings: &[Arc<Parsed>],
    index: &Index,
    number: usize,
    name: &str,
) -> Result<Option<OwnedText>, NoMemory>
    ensures { IfOk result (λ told. IsIndexOf (all_definitions readings.now) index.now
        → told ≡ option_map (λ v. variable_words name.now v.type_ref) (variable_at (all_definitions readings.now) name.now number)) }
{
    match definition_at(alloc, readings, index, number)? {
        Some(one) => told_in(alloc, one.definition, name),
        None => Ok(None),
    }
}

/// The words of the first that a definition defines.
fn told_in(
    alloc: Global,
    definition: &Definition,
    name: &str,
) -> Result<Option<OwnedText>, NoMemory>
    ensures { IfOk result (λ told. told ≡ option_map (λ v. variable_words name.now v.type_ref) (variable_in name.now (def_view definition.now))) }
{
    match variable_in(definition, name) {
        Some(variable) => Ok(Some(variable_words(alloc, name, &variable.type_ref)?)),
        None => Ok(None),
    }
}

/// The first that a definition defines.
fn variable_in<'a>(definition: &'a Definition, name: &str) -> Option<&'a VariableDefinition>
    ensures { found_variable result ≡ variable_in name.now (def_view definition.now) }
{
    match definition {
        Definition::Operation(operation) => variable_named(&operation.variables, name),
        Definition::Fragment(_) => None,
        Definition::TypeSystem(_) => None,
    }
}

/// The first of these of that name.
fn variable_named<'a>(
    variables: &'a [VariableDefinition],
    name: &str,
) -> Option<&'a VariableDefinition>
    ensures { found_variable result ≡ find (λ v. bytes_eq name.now v.name.text) (map variable_view variables.now) }
{
    for variable in variables {
        if name == variable.variable.name.text.as_str() {
            return Some(variable);
        }
    }
    None
}
