//! Whether variables stand in literals and in arguments.
ghost use Rattle.std.specs.Prelude.{◌≡◌, false, map};
ghost use Rattle.gq_tree.specs.Views.{value_view, values_view, entries_view, argument_view};
ghost use Rattle.gq_variables.specs.Helping.UsesNothing.{has_variable, any_variable, ArgumentsUseNothing};

use gq_tree::{Argument, ObjectField, Value};

/// Whether the value is a variable, or one stands in it, at any depth.
#[cycle(literals)]
#[tactic(auto, using(gq_tree::proofs::Trees::values))]
fn has_variable(value: &Value) -> bool
    ensures { result ≡ has_variable (value_view value.now) }
{
    match value {
        Value::Variable(_) => true,
        Value::List { items, .. } => any_has_variable(items),
        Value::Object { fields, .. } => any_field_has_variable(fields),
        Value::Int(_) => false,
        Value::Float(_) => false,
        Value::String(_) => false,
        Value::Boolean { .. } => false,
        Value::Null { .. } => false,
        Value::Enum(_) => false,
    }
}

#[cycle(literals)]
#[tactic(auto, using(gq_tree::proofs::Trees::values))]
fn any_has_variable(values: &[Value]) -> bool
    ensures { result ≡ any_variable (values_view values.now) }
{
    for value in values {
        if has_variable(value) {
            return true;
        }
    }
    false
}

#[cycle(literals)]
#[tactic(auto, using(gq_tree::proofs::Trees::values))]
fn any_field_has_variable(fields: &[ObjectField]) -> bool
    ensures { result ≡ any_variable (entries_view fields.now) }
{
    for field in fields {
        if has_variable(&field.value) {
            return true;
        }
    }
    false
}

/// Whether a variable stands in one of the arguments, at any depth. Where none does they use nothing.
pub(crate) fn has_variable_among(arguments: &[Argument]) -> bool
    ensures { result ≡ false → ArgumentsUseNothing (map argument_view arguments.now) }
{
    for argument in arguments {
        if has_variable(&argument.value) {
            return true;
        }
    }
    false
}
