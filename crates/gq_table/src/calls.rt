//! Calls of resolvers (GraphQL, October 2021, section 6.4.2): texts by which they are found, and whether two are one.
ghost use Rattle.std.specs.Prelude.{◌≡◌, ◌++◌, List, ℕ, map, string_bytes, IfOk, OnOk};
ghost use Rattle.std.specs.Str.{bytes_eq};
ghost use Rattle.gq_tree.specs.Forest.{none, agree, agree_trees};
ghost use Rattle.gq_meaning.specs.Values.{enum, leaf as says_leaf};
ghost use Rattle.gq_table.specs.Rows.{same_leaf, same_part, same_call};
ghost use Rattle.gq_table.specs.Views.{alone, leaf_view, value_view, values_view, entry_view, entries_view, call_of};
ghost use Rattle.gq_table.specs.Helping.CallTexts.{leaf_text, content_text, tree_text, values_text, call_text};

use crate::values::{Entry, Leaf, Value};
use gq_text::NoMemory;
use std::alloc::Global;

/// The call of the resolver of a field of an object, with arguments in the order of their names.
#[derive(Clone, Copy)]
pub struct Call<'a> {
    pub type_name: &'a str,
    pub number: u64,
    pub field: &'a str,
    pub arguments: &'a [Entry],
}

/// A text that is the same for calls that are one.
pub(crate) fn call_text(alloc: Global, call: Call) -> Result<String, NoMemory>
    ensures { IfOk result (λ text. string_bytes text ≡ call_text (call_of call.entry)) }
{
    let mut text = call.number.to_string(alloc)?;
    text.push_str(call.type_name)?;
    text.push_str(".")?;
    text.push_str(call.field)?;
    text.push_str("(")?;
    put_entries(call.arguments, &mut text)?;
    Ok(text)
}

fn put_leaf(leaf: &Leaf, text: &mut String) -> Result<(), NoMemory>
    ensures { OnOk result (string_bytes text.new ≡ string_bytes text.old ++ leaf_text (leaf_view leaf.now)) }
{
    match leaf {
        Leaf::Boolean(true) => text.push_str("true")?,
        Leaf::Boolean(false) => text.push_str("false")?,
        Leaf::Number(spelling) => text.push_str(spelling.as_str())?,
        Leaf::Text(content) => {
            text.push_str("\"")?;
            text.push_str(content.as_str())?;
        }
    }
    Ok(())
}

#[cycle(text)]
#[tactic(auto, using(crate::proofs::Trees::gathers))]
fn put_value(value: &Value, text: &mut String) -> Result<(), NoMemory>
    ensures { OnOk result (string_bytes text.new ≡ string_bytes text.old ++ tree_text (value_view value.now)) }
{
    put_content(value, text)?;
    text.push_str(",")?;
    Ok(())
}

#[cycle(text)]
#[tactic(auto, using(crate::proofs::Trees::gathers))]
fn put_content(value: &Value, text: &mut String) -> Result<(), NoMemory>
    ensures { OnOk result (string_bytes text.new ≡ string_bytes text.old ++ content_text (value_view value.now)) }
{
    match value {
        Value::Null => {
            text.push_str("null")?;
            Ok(())
        }
        Value::Leaf(leaf) => {
            put_leaf(leaf, text)?;
            Ok(())
        }
        Value::Enum(name) => {
            text.push_str(name.as_str())?;
            Ok(())
        }
        Value::List(items) => {
            text.push_str("[")?;
            put_values(items, text)?;
            Ok(())
        }
        Value::Object(entries) => {
            text.push_str("{")?;
            put_entries(entries, text)?;
            Ok(())
        }
    }
}

#[cycle(text)]
#[tactic(auto, using(crate::proofs::Trees::gathers))]
fn put_values(values: &[Value], text: &mut String) -> Result<(), NoMemory>
    ensures { OnOk result (string_bytes text.new ≡ string_bytes text.old ++ values_text (values_view values.now)) }
{
    for value in values {
        put_value(value, text)?;
    }
    Ok(())
}

#[cycle(text)]
#[tactic(auto, using(crate::proofs::Trees::gathers))]
fn put_entries(entries: &[Entry], text: &mut String) -> Result<(), NoMemory>
    ensures { OnOk result (string_bytes text.new ≡ string_bytes text.old ++ values_text (entries_view entries.now)) }
{
    for entry in entries {
        put_entry(entry, text)?;
    }
    Ok(())
}

#[cycle(text)]
fn put_entry(entry: &Entry, text: &mut String) -> Result<(), NoMemory>
    ensures { OnOk result (string_bytes text.new ≡ string_bytes text.old ++ tree_text (entry_view entry.now)) }
{
    text.push_str(entry.name.as_str())?;
    text.push_str(":")?;
    put_value(&entry.value, text)?;
    Ok(())
}

/// Whether two calls are one.
pub(crate) fn same_call(a: Call, b: Call) -> bool
    ensures { result ≡ same_call (call_of a.entry) (call_of b.entry) }
{
    a.type_name == b.type_name
        && a.number == b.number
        && a.field == b.field
        && same_entries(a.arguments, b.arguments)
}

#[tactic(auto, using(crate::proofs::Trees::values))]
fn is_leaf(value: &Value, leaf: &Leaf) -> bool
    ensures { result ≡ agree_trees same_part (alone (says_leaf (leaf_view leaf.now)) none) (value_view value.now) }
{
    match value {
        Value::Null => false,
        Value::Leaf(other) => same_leaf(leaf, other),
        Value::Enum(_) => false,
        Value::List(_) => false,
        Value::Object(_) => false,
    }
}

#[tactic(auto, using(crate::proofs::Trees::values))]
fn is_enum(value: &Value, name: &str) -> bool
    ensures { result ≡ agree_trees same_part (alone (enum name.now) none) (value_view value.now) }
{
    match value {
        Value::Null => false,
        Value::Leaf(_) => false,
        Value::Enum(other) => name == other.as_str(),
        Value::List(_) => false,
        Value::Object(_) => false,
    }
}

fn same_leaf(a: &Leaf, b: &Leaf) -> bool
    ensures { result ≡ same_leaf (leaf_view a.now) (leaf_view b.now) }
{
    match a {
        Leaf::Boolean(a) => match b {
            Leaf::Boolean(b) => *a == *b,
            Leaf::Number(_) => false,
            Leaf::Text(_) => false,
        },
        Leaf::Number(a) => match b {
            Leaf::Boolean(_) => false,
            Leaf::Number(b) => a.as_str() == b.as_str(),
            Leaf::Text(_) => false,
        },
        Leaf::Text(a) => match b {
            Leaf::Boolean(_) => false,
            Leaf::Number(_) => false,
            Leaf::Text(b) => a.as_str() == b.as_str(),
        },
    }
}

#[cycle(same)]
#[tactic(auto, using(crate::proofs::Trees::values))]
fn same_value(a: &Value, b: &Value) -> bool
    ensures { result ≡ agree_trees same_part (value_view a.now) (value_view b.now) }
{
    match a {
        Value::Null => b.is_null(),
        Value::Leaf(leaf) => is_leaf(b, leaf),
        Value::Enum(name) => is_enum(b, name.as_str()),
        Value::List(items) => match b {
            Value::Null => false,
            Value::Leaf(_) => false,
            Value::Enum(_) => false,
            Value::List(others) => same_values(items, others),
            Value::Object(_) => false,
        },
        Value::Object(entries) => match b {
            Value::Null => false,
            Value::Leaf(_) => false,
            Value::Enum(_) => false,
            Value::List(_) => false,
            Value::Object(others) => same_entries(entries, others),
        },
    }
}

#[cycle(same)]
#[tactic(auto, using(crate::proofs::Trees::values))]
fn same_values(a: &[Value], b: &[Value]) -> bool
    ensures { result ≡ agree same_part (values_view a.now) (values_view b.now) }
{
    if a.len() != b.len() {
        return false;
    }
    for i in 0..a.len() {
        if !same_value(&a[i], &b[i]) {
            return false;
        }
    }
    true
}

#[cycle(same)]
#[tactic(auto, using(crate::proofs::Trees::values))]
fn same_entries(a: &[Entry], b: &[Entry]) -> bool
    ensures { result ≡ agree same_part (entries_view a.now) (entries_view b.now) }
{
    if a.len() != b.len() {
        return false;
    }
    for i in 0..a.len() {
        if !same_entry(&a[i], &b[i]) {
            return false;
        }
    }
    true
}

fn same_name(a: &Entry, b: &Entry) -> bool
    ensures { result ≡ bytes_eq a.now.name b.now.name }
{
    a.name.as_str() == b.name.as_str()
}

#[cycle(same)]
fn same_entry(a: &Entry, b: &Entry) -> bool
    ensures { result ≡ agree_trees same_part (entry_view a.now) (entry_view b.now) }
{
    if !same_name(a, b) {
        return false;
    }
    same_value(&a.value, &b.value)
}
