//! Values read from JSON: of a table's arguments, and of variables.
ghost use Rattle.std.specs.Prelude.{◌≡◌, codes, map, IfOk, option_and_then};
ghost use Rattle.std.specs.Option.{option_map};
ghost use Rattle.serde_json.specs.View.{view, items_of, number_view, items_view, members_view};
ghost use Rattle.serde_json.specs.Find.{as_str};
ghost use Rattle.gq_meaning.specs.Values.{text as text_leaf};
ghost use Rattle.gq_table.specs.Views.{leaf_view, value_view, entry_view, under};
ghost use Rattle.gq_table.specs.Json.{integer_text, number_leaf, if_number, spelling_leaf, leaf_value, enum_value, list_value, object_value, argument_value, argument_items, argument_tagged, argument_under, argument_object, argument_entries, plain_value, plain_items, plain_entries};

use crate::numbers::is_number;
use crate::values::{Entry, Leaf, Value};
use gq_text::{NoMemory, SmallText};
use serde_json::{Map, Number, Value as Json};
use std::alloc::Global;

/// The spelling of an integer of 64 bits.
fn read_integer(alloc: Global, number: &Number) -> Result<Option<SmallText>, NoMemory>
    ensures { IfOk result (λ text. text ≡ integer_text (number_view number.now)) }
{
    match number.as_i64() {
        Some(integer) => {
            let text = integer.to_string(alloc)?;
            Ok(Some(SmallText::from_str(alloc, text.as_str())?))
        }
        None => Ok(None),
    }
}

/// A JSON number as a leaf.
pub(crate) fn read_number(alloc: Global, number: &Number) -> Result<Option<Leaf>, NoMemory>
    ensures { IfOk result (λ leaf. option_map leaf_view leaf ≡ number_leaf (number_view number.now)) }
{
    match read_integer(alloc, number)? {
        Some(text) => Ok(Some(Leaf::Number(text))),
        None => Ok(None),
    }
}

/// A number that JSON spells as a string.
pub(crate) fn read_spelling(alloc: Global, value: &Json) -> Result<Option<Leaf>, NoMemory>
    ensures { IfOk result (λ leaf. option_map leaf_view leaf ≡ spelling_leaf (view value.now)) }
{
    match value.as_str() {
        Some(text) => if_number(alloc, text),
        None => Ok(None),
    }
}

fn if_number(alloc: Global, text: &str) -> Result<Option<Leaf>, NoMemory>
    ensures { IfOk result (λ leaf. option_map leaf_view leaf ≡ if_number text.now) }
{
    if !is_number(text) {
        return Ok(None);
    }
    Ok(Some(Leaf::Number(SmallText::from_str(alloc, text)?)))
}

/// A leaf as a value.
#[tactic(auto, using(crate::proofs::Trees::values))]
fn leaf_value(leaf: Option<Leaf>) -> Option<Value>
    ensures { option_map value_view result ≡ option_map leaf_value (option_map leaf_view leaf) }
{
    match leaf {
        Some(leaf) => Some(Value::Leaf(leaf)),
        None => None,
    }
}

#[tactic(auto, using(crate::proofs::Trees::values))]
fn read_enum(alloc: Global, value: &Json) -> Result<Option<Value>, NoMemory>
    ensures { IfOk result (λ v. option_map value_view v ≡ option_map enum_value (as_str (view value.now))) }
{
    match value.as_str() {
        Some(name) => Ok(Some(Value::Enum(SmallText::from_str(alloc, name)?))),
        None => Ok(None),
    }
}

pub(crate) fn read_text(alloc: Global, text: &str) -> Result<Leaf, NoMemory>
    ensures { IfOk result (λ leaf. leaf_view leaf ≡ text_leaf text.now) }
{
    Ok(Leaf::Text(SmallText::from_str(alloc, text)?))
}

/// An argument of a row of a table.
#[cycle(argument)]
#[tactic(auto, using(crate::proofs::Trees::values, crate::proofs::JsonLemmas::views))]
pub(crate) fn read_argument(alloc: Global, value: &Json) -> Result<Option<Value>, NoMemory>
    ensures { IfOk result (λ v. option_map value_view v ≡ argument_value (view value.now)) }
{
    match value {
        Json::Null => Ok(Some(Value::Null)),
        Json::Bool(b) => Ok(Some(Value::Leaf(Leaf::Boolean(*b)))),
        Json::Number(number) => Ok(leaf_value(read_number(alloc, number)?)),
        Json::String(text) => Ok(Some(Value::Leaf(read_text(alloc, text.as_str())?))),
        Json::Array(items) => Ok(list_value(read_argument_items(alloc, items)?)),
        Json::Object(members) => read_argument_tagged(alloc, members),
    }
}

#[tactic(auto, using(crate::proofs::Trees::values))]
fn list_value(items: Option<Vec<Value>>) -> Option<Value>
    ensures { option_map value_view result ≡ option_map list_value (option_map (λ vs. map value_view vs.items) items) }
{
    match items {
        Some(items) => Some(Value::List(items)),
        None => None,
    }
}

#[tactic(auto, using(crate::proofs::Trees::values))]
fn object_value(entries: Option<Vec<Entry>>) -> Option<Value>
    ensures { option_map value_view result ≡ option_map object_value (option_map (λ es. map entry_view es.items) entries) }
{
    match entries {
        Some(entries) => Some(Value::Object(entries)),
        None => None,
    }
}

fn named_entry(alloc: Global, name: &str, value: Option<Value>) -> Result<Option<Entry>, NoMemory>
    ensures { IfOk result (λ e. option_map entry_view e ≡ option_map (under name.now) (option_map value_view value)) }
{
    match value {
        Some(value) => {
            let name = SmallText::from_str(alloc, name)?;
            Ok(Some(Entry { name, value }))
        }
        None => Ok(None),
    }
}

#[cycle(argument)]
fn read_argument_items(alloc: Global, items: &[Json]) -> Result<Option<Vec<Value>>, NoMemory>
    ensures { IfOk result (λ vs. option_map (λ v. map value_view v.items) vs ≡ argument_items (items_view items.now)) }
{
    let mut values = Vec::with_capacity(alloc, items.len())?;
    for item in items {
        match read_argument(alloc, item)? {
            Some(value) => values.push(value)?,
            None => return Ok(None),
        }
    }
    Ok(Some(values))
}

/// An argument that is a JSON object: it has one member, which says what it is.
#[cycle(argument)]
fn read_argument_tagged(
    alloc: Global,
    members: &Map<String, Json>,
) -> Result<Option<Value>, NoMemory>
    ensures { IfOk result (λ v. option_map value_view v ≡ argument_tagged (members_view members.now.entries)) }
{
    if members.len() != 1 {
        return Ok(None);
    }
    match members.iter().next() {
        Some((name, member)) => read_argument_under(alloc, name.as_str(), member),
        None => Ok(None),
    }
}

#[cycle(argument)]
fn read_argument_under(alloc: Global, name: &str, member: &Json) -> Result<Option<Value>, NoMemory>
    ensures { IfOk result (λ v. option_map value_view v ≡ argument_under name.now (view member.now)) }
{
    if name == "num" {
        return Ok(leaf_value(read_spelling(alloc, member)?));
    }
    if name == "enum" {
        return read_enum(alloc, member);
    }
    if name == "object" {
        return read_argument_object(alloc, member);
    }
    Ok(None)
}

#[cycle(argument)]
#[tactic(auto, using(crate::proofs::JsonLemmas::views))]
fn read_argument_object(alloc: Global, value: &Json) -> Result<Option<Value>, NoMemory>
    ensures { IfOk result (λ v. option_map value_view v ≡ argument_object (view value.now)) }
{
    match value {
        Json::Null => Ok(None),
        Json::Bool(_) => Ok(None),
        Json::Number(_) => Ok(None),
        Json::String(_) => Ok(None),
        Json::Array(_) => Ok(None),
        Json::Object(members) => Ok(object_value(read_argument_entries(alloc, members)?)),
    }
}

/// The arguments of a row, or the entries of an object among them, in the order of their names.
#[cycle(argument)]
pub(crate) fn read_argument_entries(
    alloc: Global,
    members: &Map<String, Json>,
) -> Result<Option<Vec<Entry>>, NoMemory>
    ensures { IfOk result (λ es. option_map (λ v. map entry_view v.items) es ≡ argument_entries (members_view members.now.entries)) }
{
    let mut entries = Vec::with_capacity(alloc, members.len())?;
    for (name, member) in members.iter() {
        let value = read_argument(alloc, member)?;
        match named_entry(alloc, name.as_str(), value)? {
            Some(entry) => entries.push(entry)?,
            None => return Ok(None),
        }
    }
    Ok(Some(entries))
}

/// A plain value of a variable.
#[cycle(plain)]
#[tactic(auto, using(crate::proofs::Trees::values, crate::proofs::JsonLemmas::views))]
fn read_plain(alloc: Global, value: &Json) -> Result<Option<Value>, NoMemory>
    ensures { IfOk result (λ v. option_map value_view v ≡ plain_value (view value.now)) }
{
    match value {
        Json::Null => Ok(Some(Value::Null)),
        Json::Bool(b) => Ok(Some(Value::Leaf(Leaf::Boolean(*b)))),
        Json::Number(number) => Ok(leaf_value(read_number(alloc, number)?)),
        Json::String(text) => Ok(Some(Value::Leaf(read_text(alloc, text.as_str())?))),
        Json::Array(items) => Ok(list_value(read_plain_items(alloc, items)?)),
        Json::Object(members) => Ok(object_value(read_plain_entries(alloc, members)?)),
    }
}

#[cycle(plain)]
fn read_plain_items(alloc: Global, items: &[Json]) -> Result<Option<Vec<Value>>, NoMemory>
    ensures { IfOk result (λ vs. option_map (λ v. map value_view v.items) vs ≡ plain_items (items_view items.now)) }
{
    let mut values = Vec::with_capacity(alloc, items.len())?;
    for item in items {
        match read_plain(alloc, item)? {
            Some(value) => values.push(value)?,
            None => return Ok(None),
        }
    }
    Ok(Some(values))
}

/// Variables, or the entries of an object among them, in the order of their names.
#[cycle(plain)]
pub(crate) fn read_plain_entries(
    alloc: Global,
    members: &Map<String, Json>,
) -> Result<Option<Vec<Entry>>, NoMemory>
    ensures { IfOk result (λ es. option_map (λ v. map entry_view v.items) es ≡ plain_entries (members_view members.now.entries)) }
{
    let mut entries = Vec::with_capacity(alloc, members.len())?;
    for (name, member) in members.iter() {
        let value = read_plain(alloc, member)?;
        match named_entry(alloc, name.as_str(), value)? {
            Some(entry) => entries.push(entry)?,
            None => return Ok(None),
        }
    }
    Ok(Some(entries))
}
