//! Sameness of arguments, places aside.
ghost use Rattle.std.specs.Prelude.{◌≡◌, ◌↔◌, IsTrue, map};
ghost use Rattle.std.specs.Str.{bytes_eq};
ghost use Rattle.gq_tree.specs.Forest.{agree};
ghost use Rattle.gq_tree.specs.Plain.{erase_values};
ghost use Rattle.gq_tree.specs.Same.{same_names, all_same, same_parts, same_values};
ghost use Rattle.gq_tree.specs.Views.{name_of, value_view, values_view, entry_view, entries_view, argument_view};

use crate::tree::Name;
use crate::value::{Argument, Literal, ObjectField, Value};

/// Whether the two lists have the same arguments in one order, places aside.
pub fn are_same_arguments(a: &[Argument], b: &[Argument]) -> bool
    ensures { IsTrue result ↔ (erase_values (map argument_view a.now) ≡ erase_values (map argument_view b.now)) }
{
    have_same_arguments(a, b)
}

/// Whether the two names are spelled the same.
pub fn have_same_text(a: &Name, b: &Name) -> bool
    ensures { result ≡ same_names (name_of a.now) (name_of b.now) }
{
    a.text.as_str() == b.text.as_str()
}

fn have_same_spelling(a: &Literal, b: &Literal) -> bool
    ensures { result ≡ bytes_eq a.now.text b.now.text }
{
    a.text.as_str() == b.text.as_str()
}

/// Whether the two values are the same, places aside.
#[cycle(same)]
#[tactic(auto, using(crate::proofs::Trees::values))]
pub fn same_value(a: &Value, b: &Value) -> bool
    ensures { result ≡ same_values (value_view a.now) (value_view b.now) }
{
    match (a, b) {
        (Value::Variable(a), Value::Variable(b)) => have_same_text(&a.name, &b.name),
        (Value::Int(a), Value::Int(b)) => have_same_spelling(a, b),
        (Value::Float(a), Value::Float(b)) => have_same_spelling(a, b),
        (Value::String(a), Value::String(b)) => have_same_spelling(a, b),
        (Value::Boolean { value: a, .. }, Value::Boolean { value: b, .. }) => a == b,
        (Value::Null { .. }, Value::Null { .. }) => true,
        (Value::Enum(a), Value::Enum(b)) => have_same_text(a, b),
        (Value::List { items: a, .. }, Value::List { items: b, .. }) => same_items(a, b),
        (Value::Object { fields: a, .. }, Value::Object { fields: b, .. }) => same_fields(a, b),
        _ => false,
    }
}

#[cycle(same)]
#[tactic(auto, using(crate::proofs::Trees::values))]
fn same_items(a: &[Value], b: &[Value]) -> bool
    ensures { result ≡ agree same_parts (values_view a.now) (values_view b.now) }
{
    if a.len() != b.len() {
        return false;
    }
    for i in 0..a.len() {
        if !same_value(&a[i], &b[i]) {
            return false;
        }
    }
    true
}

#[cycle(same)]
#[tactic(auto, using(crate::proofs::Trees::values))]
fn same_fields(a: &[ObjectField], b: &[ObjectField]) -> bool
    ensures { result ≡ agree same_parts (entries_view a.now) (entries_view b.now) }
{
    if a.len() != b.len() {
        return false;
    }
    for i in 0..a.len() {
        if !same_field(&a[i], &b[i]) {
            return false;
        }
    }
    true
}

#[cycle(same)]
#[tactic(auto, using(crate::proofs::Trees::values))]
fn same_field(a: &ObjectField, b: &ObjectField) -> bool
    ensures { result ≡ same_values (entry_view a.now) (entry_view b.now) }
{
    if !have_same_text(&a.name, &b.name) {
        return false;
    }
    same_value(&a.value, &b.value)
}

fn same_argument(a: &Argument, b: &Argument) -> bool
    ensures { result ≡ same_values (argument_view a.now) (argument_view b.now) }
{
    if !have_same_text(&a.name, &b.name) {
        return false;
    }
    same_value(&a.value, &b.value)
}

/// What `are_same_arguments` decides, by the test of each argument with the one at its place in the other list.
pub fn have_same_arguments(a: &[Argument], b: &[Argument]) -> bool
    ensures { result ≡ all_same same_values (map argument_view a.now) (map argument_view b.now) }
{
    if a.len() != b.len() {
        return false;
    }
    for i in 0..a.len() {
        if !same_argument(&a[i], &b[i]) {
            return false;
        }
    }
    true
}
