//! `@skip` and `@include` (sections 3.13.1 and 3.13.2).
ghost use Rattle.std.specs.Prelude.{◌≡◌, map, codes};
ghost use Rattle.std.specs.List.{list_any};
ghost use Rattle.gq_tree.specs.Views.{value_view, argument_view, directive_view};
ghost use Rattle.gq_table.specs.Views.{value_view as given_view, leaf_view, entries_view};
ghost use Rattle.gq_meaning.specs.Values.{leaf as says_leaf};
ghost use Rattle.gq_meaning.specs.Directives.{is_true, is_variable_true, holds_true, if_is_true, leaves_out, takes_with};
ghost use Rattle.gq_meaning.specs.Selected.{bare};

use gq_coerce::Variables;
use gq_table::{Leaf, Value as Given};
use gq_tree::{Directive, Value};

/// Whether the directives leave in where they stand.
pub fn takes(variables: &Variables, directives: &[Directive]) -> bool
    ensures { result ≡ takes_with (entries_view variables.now) (bare (map directive_view directives.now)) }
{
    !is_left_out(variables, directives)
}

fn is_left_out(variables: &Variables, directives: &[Directive]) -> bool
    ensures { result ≡ list_any (λ d. leaves_out (entries_view variables.now) (directive_view d)) directives.now }
{
    directives.iter().any(|d| leaves_out(variables, d))
}

fn leaves_out(variables: &Variables, directive: &Directive) -> bool
    ensures { result ≡ leaves_out (entries_view variables.now) (directive_view directive.now) }
{
    let name = directive.name.text.as_str();
    if name == "skip" {
        return is_if_true(variables, directive);
    }
    if name == "include" {
        return !is_if_true(variables, directive);
    }
    false
}

fn is_if_true(variables: &Variables, directive: &Directive) -> bool
    ensures { result ≡ if_is_true (entries_view variables.now) (directive_view directive.now) }
{
    for argument in &directive.arguments {
        if "if" == argument.name.text.as_str() {
            return is_true(variables, &argument.value);
        }
    }
    false
}

// Whether a literal is true, where variables have these values.
#[tactic(auto, using(gq_tree::proofs::Trees::values))]
fn is_true(variables: &Variables, value: &Value) -> bool
    ensures { result ≡ holds_true (entries_view variables.now) (value_view value.now).label.says }
{
    match value {
        Value::Variable(variable) => is_variable_true(variables, variable.name.text.as_str()),
        Value::Int(_) => false,
        Value::Float(_) => false,
        Value::String(_) => false,
        Value::Boolean { value, .. } => *value,
        Value::Null { .. } => false,
        Value::Enum(_) => false,
        Value::List { .. } => false,
        Value::Object { .. } => false,
    }
}

fn is_variable_true(variables: &Variables, name: &str) -> bool
    ensures { result ≡ is_variable_true (entries_view variables.now) name.now }
{
    match variables.get(name) {
        Some(value) => is_given_true(value),
        None => false,
    }
}

// Whether a value is true.
#[tactic(auto, using(gq_table::proofs::Trees::values))]
fn is_given_true(value: &Given) -> bool
    ensures { result ≡ is_true (given_view value.now).label.says }
{
    match value {
        Given::Null => false,
        Given::Leaf(leaf) => is_leaf_true(leaf),
        Given::Enum(_) => false,
        Given::List(_) => false,
        Given::Object(_) => false,
    }
}

fn is_leaf_true(leaf: &Leaf) -> bool
    ensures { result ≡ is_true (says_leaf (leaf_view leaf.now)) }
{
    match leaf {
        Leaf::Boolean(b) => *b,
        Leaf::Number(_) => false,
        Leaf::Text(_) => false,
    }
}
