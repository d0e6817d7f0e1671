//! Values that are given for variables, at scalars and enums (GraphQL, October 2021, sections 3.5 and 3.9).
ghost use Rattle.std.specs.Prelude.{◌≡◌, IfOk};
ghost use Rattle.gq_types.specs.Look.{types_view};
ghost use Rattle.gq_table.specs.Views.{leaf_view, value_view, entries_view};
ghost use Rattle.gq_meaning.specs.Values.{leaf as says_leaf};
ghost use Rattle.gq_coerce.specs.Variables.{number_input, leaf_input, spelled, spelled_in, scalar_input, enum_input};
ghost use Rattle.gq_coerce.specs.Helping.Views.{coerced_view};

use crate::coerced::Coerced;
use crate::scalars::{
    boolean_leaf, decimal_leaf, enum_named, is_text_type, number_leaf, text_leaf,
};
use gq_table::numbers::{is_int, is_number};
use gq_table::{Entry, Leaf, Value};
use gq_text::{NoMemory, SmallText};
use gq_types::Types;
use gq_values::fitting::is_int_32;
use std::alloc::Global;

fn number_input(alloc: Global, name: &str, spelling: &SmallText) -> Result<Coerced, NoMemory>
    ensures { IfOk result (λ c. coerced_view c ≡ number_input name.now spelling.now) }
{
    if name == "Int" {
        if is_int(spelling.as_str()) && is_int_32(spelling.as_str()) {
            return decimal_leaf(alloc, spelling);
        }
        return Ok(Coerced::Fault);
    }
    if name == "Float" {
        return number_leaf(alloc, spelling);
    }
    if name == "ID" && is_int(spelling.as_str()) {
        return text_leaf(alloc, spelling);
    }
    Ok(Coerced::Fault)
}

fn leaf_input(alloc: Global, name: &str, leaf: &Leaf) -> Result<Coerced, NoMemory>
    ensures { IfOk result (λ c. coerced_view c ≡ leaf_input name.now (leaf_view leaf.now)) }
{
    match leaf {
        Leaf::Boolean(value) => {
            if name == "Boolean" {
                Ok(boolean_leaf(*value))
            } else {
                Ok(Coerced::Fault)
            }
        }
        Leaf::Number(spelling) => number_input(alloc, name, spelling),
        Leaf::Text(text) => {
            if is_text_type(name) {
                text_leaf(alloc, text)
            } else {
                Ok(Coerced::Fault)
            }
        }
    }
}

fn spelled_leaf(alloc: Global, leaf: &Leaf) -> Result<Coerced, NoMemory>
    ensures { IfOk result (λ c. coerced_view c ≡ spelled (says_leaf (leaf_view leaf.now))) }
{
    match leaf {
        Leaf::Boolean(_) => Ok(Coerced::Fault),
        Leaf::Number(_) => Ok(Coerced::Fault),
        Leaf::Text(text) => {
            if is_number(text.as_str()) {
                number_leaf(alloc, text)
            } else {
                Ok(Coerced::Fault)
            }
        }
    }
}

/// A text that spells a number.
#[tactic(auto, using(gq_table::proofs::Trees::values))]
fn spelled(alloc: Global, value: &Value) -> Result<Coerced, NoMemory>
    ensures { IfOk result (λ c. coerced_view c ≡ spelled (value_view value.now).label.says) }
{
    match value {
        Value::Null => Ok(Coerced::Fault),
        Value::Leaf(leaf) => spelled_leaf(alloc, leaf),
        Value::Enum(_) => Ok(Coerced::Fault),
        Value::List(_) => Ok(Coerced::Fault),
        Value::Object(_) => Ok(Coerced::Fault),
    }
}

/// The number that an object with the only entry `num` spells.
fn spelled_in(alloc: Global, entries: &[Entry]) -> Result<Coerced, NoMemory>
    ensures { IfOk result (λ c. coerced_view c ≡ spelled_in (entries_view entries.now)) }
{
    match entries {
        [] => Ok(Coerced::Fault),
        [entry] => {
            if "num" == entry.name.as_str() {
                spelled(alloc, &entry.value)
            } else {
                Ok(Coerced::Fault)
            }
        }
        [_, _, ..] => Ok(Coerced::Fault),
    }
}

/// A value at the built-in scalar of that name (section 3.5).
#[tactic(auto, using(gq_table::proofs::Trees::values))]
pub(crate) fn scalar_input(alloc: Global, name: &str, value: &Value) -> Result<Coerced, NoMemory>
    ensures { IfOk result (λ c. coerced_view c ≡ scalar_input name.now (value_view value.now).label.says (value_view value.now).below) }
{
    match value {
        Value::Null => Ok(Coerced::Fault),
        Value::Leaf(leaf) => leaf_input(alloc, name, leaf),
        Value::Enum(_) => Ok(Coerced::Fault),
        Value::List(_) => Ok(Coerced::Fault),
        Value::Object(entries) => {
            if name == "Float" {
                spelled_in(alloc, entries)
            } else {
                Ok(Coerced::Fault)
            }
        }
    }
}

fn enum_leaf_input(
    alloc: Global,
    types: &Types,
    name: &str,
    leaf: &Leaf,
) -> Result<Coerced, NoMemory>
    ensures { IfOk result (λ c. coerced_view c ≡ enum_input (types_view types.now) name.now (says_leaf (leaf_view leaf.now))) }
{
    match leaf {
        Leaf::Boolean(_) => Ok(Coerced::Fault),
        Leaf::Number(_) => Ok(Coerced::Fault),
        Leaf::Text(text) => enum_named(alloc, types, name, text),
    }
}

/// A value at the enum of that name (section 3.9).
#[tactic(auto, using(gq_table::proofs::Trees::values))]
pub(crate) fn enum_input(
    alloc: Global,
    types: &Types,
    name: &str,
    value: &Value,
) -> Result<Coerced, NoMemory>
    ensures { IfOk result (λ c. coerced_view c ≡ enum_input (types_view types.now) name.now (value_view value.now).label.says) }
{
    match value {
        Value::Null => Ok(Coerced::Fault),
        Value::Leaf(leaf) => enum_leaf_input(alloc, types, name, leaf),
        Value::Enum(_) => Ok(Coerced::Fault),
        Value::List(_) => Ok(Coerced::Fault),
        Value::Object(_) => Ok(Coerced::Fault),
    }
}
