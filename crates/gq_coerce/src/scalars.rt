//! Literals at scalars and enums (GraphQL, October 2021, sections 3.5 and 3.9), and the values of variables.
ghost use Rattle.std.specs.Prelude.{◌≡◌, [], unwrap_or, if◌then◌else◌, IfOk};
ghost use Rattle.gq_meaning.specs.Values as value_of;
ghost use Rattle.gq_lex.specs.Decoding.{raw_at};
ghost use Rattle.gq_lex.specs.Values.{block_value};
ghost use Rattle.gq_tree.specs.Plain.{float, string, boolean};
ghost use Rattle.gq_types.specs.Names.{has_value};
ghost use Rattle.gq_types.specs.Look.{types_view};
ghost use Rattle.gq_table.specs.Views.{entries_view};
ghost use Rattle.gq_coerce.specs.Coerced.{fault, leaf_value, enum_value};
ghost use Rattle.gq_table.specs.Numbers.{decimal};
ghost use Rattle.gq_coerce.specs.Literals.{string_text, variable_value, is_text_type, int_value, scalar_value, value_of_enum};
ghost use Rattle.gq_coerce.specs.Helping.Views.{bare, coerced_view, variables_in};

use crate::coerced::Coerced;
use crate::values::Variables;
use gq_lex::{block_string_value, string_value};
use gq_table::numbers::decimal;
use gq_table::{Leaf, Value};
use gq_text::{NoMemory, SmallText};
use gq_tree::Value as Literal;
use gq_types::Types;
use gq_values::fitting::is_int_32;
use std::alloc::Global;

/// The value of a string or block string by its spelling (section 2.9.4).
fn string_text(alloc: Global, spelling: &str) -> Result<SmallText, NoMemory>
    ensures { IfOk result (λ text. text ≡ string_text spelling.now) }
{
    match string_value(alloc, spelling)? {
        Some(text) => SmallText::from_str(alloc, text.as_str()),
        None => block_text(alloc, spelling),
    }
}

fn block_text(alloc: Global, spelling: &str) -> Result<SmallText, NoMemory>
    ensures { IfOk result (λ text. text ≡ block_value (unwrap_or (raw_at spelling.now) [])) }
{
    match block_string_value(alloc, spelling)? {
        Some(text) => SmallText::from_str(alloc, text.as_str()),
        None => SmallText::from_str(alloc, ""),
    }
}

#[tactic(auto, using(crate::proofs::Trees::made))]
pub(crate) fn number_leaf(alloc: Global, spelling: &SmallText) -> Result<Coerced, NoMemory>
    ensures { IfOk result (λ c. coerced_view c ≡ leaf_value (value_of.number spelling.now)) }
{
    let text = spelling.copied(alloc)?;
    Ok(Coerced::Given(Value::Leaf(Leaf::Number(text))))
}

#[tactic(auto, using(crate::proofs::Trees::made))]
pub(crate) fn text_leaf(alloc: Global, text: &SmallText) -> Result<Coerced, NoMemory>
    ensures { IfOk result (λ c. coerced_view c ≡ leaf_value (value_of.text text.now)) }
{
    let text = text.copied(alloc)?;
    Ok(Coerced::Given(Value::Leaf(Leaf::Text(text))))
}

#[tactic(auto, using(crate::proofs::Trees::made))]
pub(crate) fn string_leaf(alloc: Global, spelling: &SmallText) -> Result<Coerced, NoMemory>
    ensures { IfOk result (λ c. coerced_view c ≡ leaf_value (value_of.text (string_text spelling.now))) }
{
    let text = string_text(alloc, spelling.as_str())?;
    Ok(Coerced::Given(Value::Leaf(Leaf::Text(text))))
}

#[tactic(auto, using(crate::proofs::Trees::made))]
pub(crate) fn boolean_leaf(value: bool) -> Coerced
    ensures { coerced_view result ≡ leaf_value (value_of.boolean value) }
{
    Coerced::Given(Value::Leaf(Leaf::Boolean(value)))
}

#[tactic(auto, using(crate::proofs::Trees::made))]
pub(crate) fn enum_leaf(alloc: Global, name: &SmallText) -> Result<Coerced, NoMemory>
    ensures { IfOk result (λ c. coerced_view c ≡ enum_value name.now) }
{
    let name = name.copied(alloc)?;
    Ok(Coerced::Given(Value::Enum(name)))
}

/// The decimal form of an Int.
#[tactic(auto, using(crate::proofs::Trees::made))]
pub(crate) fn decimal_leaf(alloc: Global, spelling: &SmallText) -> Result<Coerced, NoMemory>
    ensures { IfOk result (λ c. coerced_view c ≡ leaf_value (value_of.number (decimal spelling.now))) }
{
    let text = decimal(alloc, spelling.as_str())?;
    Ok(Coerced::Given(Value::Leaf(Leaf::Number(text))))
}

/// Whether the built-in scalar of that name has texts as values.
pub(crate) fn is_text_type(name: &str) -> bool
    ensures { result ≡ is_text_type name.now }
{
    name == "String" || name == "ID"
}

fn int_value(alloc: Global, name: &str, spelling: &SmallText) -> Result<Coerced, NoMemory>
    ensures { IfOk result (λ c. coerced_view c ≡ int_value name.now spelling.now) }
{
    if name == "Int" {
        if is_int_32(spelling.as_str()) {
            return decimal_leaf(alloc, spelling);
        }
        return Ok(Coerced::Fault);
    }
    if name == "Float" {
        return number_leaf(alloc, spelling);
    }
    if name == "ID" {
        return text_leaf(alloc, spelling);
    }
    Ok(Coerced::Fault)
}

fn float_value(alloc: Global, name: &str, spelling: &SmallText) -> Result<Coerced, NoMemory>
    ensures { IfOk result (λ c. coerced_view c ≡ scalar_value name.now (float spelling.now tt)) }
{
    if name == "Float" {
        number_leaf(alloc, spelling)
    } else {
        Ok(Coerced::Fault)
    }
}

fn string_value_at(alloc: Global, name: &str, spelling: &SmallText) -> Result<Coerced, NoMemory>
    ensures { IfOk result (λ c. coerced_view c ≡ scalar_value name.now (string spelling.now tt)) }
{
    if is_text_type(name) {
        string_leaf(alloc, spelling)
    } else {
        Ok(Coerced::Fault)
    }
}

fn boolean_value(name: &str, value: bool) -> Coerced
    ensures { coerced_view result ≡ scalar_value name.now (boolean value tt) }
{
    if name == "Boolean" {
        boolean_leaf(value)
    } else {
        Coerced::Fault
    }
}

/// A literal at the built-in scalar of that name (section 3.5).
#[tactic(auto, using(gq_tree::proofs::Trees::values))]
pub(crate) fn scalar_value(
    alloc: Global,
    name: &str,
    literal: &Literal,
) -> Result<Coerced, NoMemory>
    ensures { IfOk result (λ c. coerced_view c ≡ scalar_value name.now (bare literal.now).label.says) }
{
    match literal {
        Literal::Variable(_) => Ok(Coerced::Fault),
        Literal::Int(spelling) => int_value(alloc, name, &spelling.text),
        Literal::Float(spelling) => float_value(alloc, name, &spelling.text),
        Literal::String(spelling) => string_value_at(alloc, name, &spelling.text),
        Literal::Boolean { value, .. } => Ok(boolean_value(name, *value)),
        Literal::Null { .. } => Ok(Coerced::Fault),
        Literal::Enum(_) => Ok(Coerced::Fault),
        Literal::List { .. } => Ok(Coerced::Fault),
        Literal::Object { .. } => Ok(Coerced::Fault),
    }
}

/// A literal at the enum of that name (section 3.9).
#[tactic(auto, using(gq_tree::proofs::Trees::values))]
pub(crate) fn value_of_enum(
    alloc: Global,
    types: &Types,
    name: &str,
    literal: &Literal,
) -> Result<Coerced, NoMemory>
    ensures { IfOk result (λ c. coerced_view c ≡ value_of_enum (types_view types.now) name.now (bare literal.now).label.says) }
{
    match literal {
        Literal::Variable(_) => Ok(Coerced::Fault),
        Literal::Int(_) => Ok(Coerced::Fault),
        Literal::Float(_) => Ok(Coerced::Fault),
        Literal::String(_) => Ok(Coerced::Fault),
        Literal::Boolean { .. } => Ok(Coerced::Fault),
        Literal::Null { .. } => Ok(Coerced::Fault),
        Literal::Enum(value) => enum_named(alloc, types, name, &value.text),
        Literal::List { .. } => Ok(Coerced::Fault),
        Literal::Object { .. } => Ok(Coerced::Fault),
    }
}

/// The value of that name of the enum.
pub(crate) fn enum_named(
    alloc: Global,
    types: &Types,
    name: &str,
    value: &SmallText,
) -> Result<Coerced, NoMemory>
    ensures { IfOk result (λ c. coerced_view c ≡ (if has_value (types_view types.now) name.now value.now then enum_value value.now else fault)) }
{
    if types.has_value(name, value.as_str()) {
        enum_leaf(alloc, value)
    } else {
        Ok(Coerced::Fault)
    }
}

/// The value of the variable of that name; one that has none is absent.
pub(crate) fn variable_value(
    alloc: Global,
    variables: Option<&Variables>,
    name: &str,
) -> Result<Coerced, NoMemory>
    ensures { IfOk result (λ c. coerced_view c ≡ variable_value (variables_in variables.entry) name.now) }
{
    match variables {
        Some(variables) => value_in(alloc, variables, name),
        None => Ok(Coerced::Absent),
    }
}

fn value_in(alloc: Global, variables: &Variables, name: &str) -> Result<Coerced, NoMemory>
    ensures { IfOk result (λ c. coerced_view c ≡ variable_value (entries_view variables.now) name.now) }
{
    match variables.get(name) {
        Some(value) => Ok(Coerced::Given(value.copied(alloc)?)),
        None => Ok(Coerced::Absent),
    }
}
