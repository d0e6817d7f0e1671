//! Rows of a table read from JSON.
ghost use Rattle.std.specs.Prelude.{◌≡◌, Some, codes, map, IfOk, option_and_then};
ghost use Rattle.std.specs.Option.{option_map};
ghost use Rattle.serde_json.specs.Find.{get, as_str};
ghost use Rattle.serde_json.specs.View.{view, number_view, items_view, members_view};
ghost use Rattle.gq_table.specs.Views.{leaf_view, entry_view, answer_view, row_view, rows_view};
ghost use Rattle.gq_table.specs.Json.{natural_of, natural_in, member_count, arguments_of, leaf_tagged, leaf_of, leaf_answer, object_answer, object_items, object_of, failed_of, list_answer, result_of, result_tagged, result_under, list_result, result_items, row_members, row_in, rows_in, rows_value};

use crate::json_values::{read_argument_entries, read_number, read_spelling, read_text};
use crate::results::Outcome;
use crate::table::Row;
use crate::values::{Entry, Leaf};
use gq_text::{NoMemory, SmallText};
use serde_json::{Map, Number, Value as Json};
use std::alloc::Global;

/// How many members an object has.
#[tactic(auto, using(crate::proofs::JsonLemmas::counts))]
fn member_count(value: &Json) -> usize
    ensures { result ≡ member_count (view value.now) }
{
    match value.as_object() {
        Some(members) => members.len(),
        None => 0,
    }
}

fn natural_of(number: &Number) -> Option<u64>
    ensures { result ≡ natural_of (number_view number.now) }
{
    match number.as_u64() {
        Some(natural) => {
            if natural < 1 << 63 {
                Some(natural)
            } else {
                None
            }
        }
        None => None,
    }
}

/// The number of an object.
fn read_natural(value: &Json) -> Option<u64>
    ensures { result ≡ natural_in (Some (view value.now)) }
{
    match value.as_number() {
        Some(number) => natural_of(number),
        None => None,
    }
}

/// A leaf that is an object.
fn read_leaf_tagged(alloc: Global, value: &Json) -> Result<Option<Leaf>, NoMemory>
    ensures { IfOk result (λ leaf. option_map leaf_view leaf ≡ leaf_tagged (view value.now)) }
{
    if member_count(value) != 1 {
        return Ok(None);
    }
    match value.get("num") {
        Some(spelling) => read_spelling(alloc, spelling),
        None => Ok(None),
    }
}

#[tactic(auto, using(crate::proofs::JsonLemmas::views))]
fn read_leaf(alloc: Global, value: &Json) -> Result<Option<Leaf>, NoMemory>
    ensures { IfOk result (λ leaf. option_map leaf_view leaf ≡ leaf_of (view value.now)) }
{
    match value {
        Json::Null => Ok(None),
        Json::Bool(b) => Ok(Some(Leaf::Boolean(*b))),
        Json::Number(number) => read_number(alloc, number),
        Json::String(text) => Ok(Some(read_text(alloc, text.as_str())?)),
        Json::Array(_) => Ok(None),
        Json::Object(_) => read_leaf_tagged(alloc, value),
    }
}

#[tactic(auto, using(crate::proofs::Trees::results))]
fn leaf_outcome(leaf: Option<Leaf>) -> Option<Outcome>
    ensures { option_map answer_view result ≡ option_map leaf_answer (option_map leaf_view leaf) }
{
    match leaf {
        Some(leaf) => Some(Outcome::Leaf(leaf)),
        None => None,
    }
}

#[tactic(auto, using(crate::proofs::Trees::results))]
fn read_failed(value: &Json) -> Option<Outcome>
    ensures { option_map answer_view result ≡ failed_of (view value.now) }
{
    match value.as_bool() {
        Some(true) => Some(Outcome::Failed),
        Some(false) => None,
        None => None,
    }
}

/// An object of that type and number.
#[tactic(auto, using(crate::proofs::Trees::results))]
fn object_outcome(
    alloc: Global,
    type_name: &Json,
    number: &Json,
) -> Result<Option<Outcome>, NoMemory>
    ensures { IfOk result (λ o. option_map answer_view o ≡ object_answer (as_str (view type_name.now)) (natural_in (Some (view number.now)))) }
{
    let Some(type_name) = type_name.as_str() else {
        return Ok(None);
    };
    let Some(number) = read_natural(number) else {
        return Ok(None);
    };
    let type_name = SmallText::from_str(alloc, type_name)?;
    Ok(Some(Outcome::Object { type_name, number }))
}

fn read_object_items(alloc: Global, items: &[Json]) -> Result<Option<Outcome>, NoMemory>
    ensures { IfOk result (λ o. option_map answer_view o ≡ object_items (items_view items.now)) }
{
    if items.len() != 2 {
        return Ok(None);
    }
    object_outcome(alloc, &items[0], &items[1])
}

fn read_object(alloc: Global, value: &Json) -> Result<Option<Outcome>, NoMemory>
    ensures { IfOk result (λ o. option_map answer_view o ≡ object_of (view value.now)) }
{
    match value.as_array() {
        Some(items) => read_object_items(alloc, items.as_slice()),
        None => Ok(None),
    }
}

#[tactic(auto, using(crate::proofs::Trees::results))]
fn list_outcome(items: Option<Vec<Outcome>>) -> Option<Outcome>
    ensures { option_map answer_view result ≡ option_map list_answer (option_map (λ os. map answer_view os.items) items) }
{
    match items {
        Some(items) => Some(Outcome::List(items)),
        None => None,
    }
}

/// The result of a row.
#[cycle(outcome)]
#[tactic(auto, using(crate::proofs::Trees::results, crate::proofs::JsonLemmas::views))]
fn read_outcome(alloc: Global, value: &Json) -> Result<Option<Outcome>, NoMemory>
    ensures { IfOk result (λ o. option_map answer_view o ≡ result_of (view value.now)) }
{
    match value {
        Json::Null => Ok(Some(Outcome::Nothing)),
        Json::Bool(_) => Ok(None),
        Json::Number(_) => Ok(None),
        Json::String(_) => Ok(None),
        Json::Array(_) => Ok(None),
        Json::Object(members) => read_outcome_tagged(alloc, members),
    }
}

/// A result that is a JSON object: it has one member, which says what it is.
#[cycle(outcome)]
fn read_outcome_tagged(
    alloc: Global,
    members: &Map<String, Json>,
) -> Result<Option<Outcome>, NoMemory>
    ensures { IfOk result (λ o. option_map answer_view o ≡ result_tagged (members_view members.now.entries)) }
{
    if members.len() != 1 {
        return Ok(None);
    }
    match members.iter().next() {
        Some((name, member)) => read_outcome_under(alloc, name.as_str(), member),
        None => Ok(None),
    }
}

#[cycle(outcome)]
fn read_outcome_under(alloc: Global, name: &str, member: &Json) -> Result<Option<Outcome>, NoMemory>
    ensures { IfOk result (λ o. option_map answer_view o ≡ result_under name.now (view member.now)) }
{
    if name == "error" {
        return Ok(read_failed(member));
    }
    if name == "leaf" {
        return Ok(leaf_outcome(read_leaf(alloc, member)?));
    }
    if name == "object" {
        return read_object(alloc, member);
    }
    if name == "list" {
        return read_outcome_list(alloc, member);
    }
    Ok(None)
}

#[cycle(outcome)]
#[tactic(auto, using(crate::proofs::JsonLemmas::views))]
fn read_outcome_list(alloc: Global, value: &Json) -> Result<Option<Outcome>, NoMemory>
    ensures { IfOk result (λ o. option_map answer_view o ≡ list_result (view value.now)) }
{
    match value {
        Json::Null => Ok(None),
        Json::Bool(_) => Ok(None),
        Json::Number(_) => Ok(None),
        Json::String(_) => Ok(None),
        Json::Array(items) => Ok(list_outcome(read_outcomes(alloc, items)?)),
        Json::Object(_) => Ok(None),
    }
}

#[cycle(outcome)]
fn read_outcomes(alloc: Global, items: &[Json]) -> Result<Option<Vec<Outcome>>, NoMemory>
    ensures { IfOk result (λ os. option_map (λ o. map answer_view o.items) os ≡ result_items (items_view items.now)) }
{
    let mut outcomes = Vec::with_capacity(alloc, items.len())?;
    for item in items {
        match read_outcome(alloc, item)? {
            Some(outcome) => outcomes.push(outcome)?,
            None => return Ok(None),
        }
    }
    Ok(Some(outcomes))
}

fn read_arguments_in(alloc: Global, value: &Json) -> Result<Option<Vec<Entry>>, NoMemory>
    ensures { IfOk result (λ es. option_map (λ v. map entry_view v.items) es ≡ arguments_of (view value.now)) }
{
    match value.as_object() {
        Some(members) => read_argument_entries(alloc, members),
        None => Ok(None),
    }
}

/// The arguments of a row.
fn read_arguments(alloc: Global, row: &Json) -> Result<Option<Vec<Entry>>, NoMemory>
    ensures { IfOk result (λ es. option_map (λ v. map entry_view v.items) es ≡ option_and_then arguments_of (get (codes "args") (view row.now))) }
{
    match row.get("args") {
        Some(arguments) => read_arguments_in(alloc, arguments),
        None => Ok(None),
    }
}

/// The result of a row.
fn read_result(alloc: Global, row: &Json) -> Result<Option<Outcome>, NoMemory>
    ensures { IfOk result (λ o. option_map answer_view o ≡ option_and_then result_of (get (codes "result") (view row.now))) }
{
    match row.get("result") {
        Some(outcome) => read_outcome(alloc, outcome),
        None => Ok(None),
    }
}

/// The number of a row's object.
fn read_number_of_object(row: &Json) -> Option<u64>
    ensures { result ≡ natural_in (get (codes "object") (view row.now)) }
{
    match row.get("object") {
        Some(number) => read_natural(number),
        None => None,
    }
}

fn read_row_members(alloc: Global, value: &Json) -> Result<Option<Row>, NoMemory>
    ensures { IfOk result (λ r. option_map row_view r ≡ row_members (view value.now)) }
{
    let Some(type_name) = value.get("type").and_then(Json::as_str) else {
        return Ok(None);
    };
    let Some(number) = read_number_of_object(value) else {
        return Ok(None);
    };
    let Some(field) = value.get("field").and_then(Json::as_str) else {
        return Ok(None);
    };
    let Some(arguments) = read_arguments(alloc, value)? else {
        return Ok(None);
    };
    let Some(result) = read_result(alloc, value)? else {
        return Ok(None);
    };
    Ok(Some(Row {
        type_name: SmallText::from_str(alloc, type_name)?,
        number,
        field: SmallText::from_str(alloc, field)?,
        arguments,
        result,
    }))
}

fn read_row(alloc: Global, value: &Json) -> Result<Option<Row>, NoMemory>
    ensures { IfOk result (λ r. option_map row_view r ≡ row_in (view value.now)) }
{
    if member_count(value) != 5 {
        return Ok(None);
    }
    read_row_members(alloc, value)
}

fn read_row_items(alloc: Global, items: &[Json]) -> Result<Option<Vec<Row>>, NoMemory>
    ensures { IfOk result (λ rs. option_map (λ r. rows_view r.items) rs ≡ rows_in (items_view items.now)) }
{
    let mut rows = Vec::with_capacity(alloc, items.len())?;
    for item in items {
        match read_row(alloc, item)? {
            Some(row) => rows.push(row)?,
            None => return Ok(None),
        }
    }
    Ok(Some(rows))
}

/// The rows of a table, of which several may be of one call.
pub(crate) fn read_rows(alloc: Global, value: &Json) -> Result<Option<Vec<Row>>, NoMemory>
    ensures { IfOk result (λ rs. option_map (λ r. rows_view r.items) rs ≡ rows_value (view value.now)) }
{
    if member_count(value) != 1 {
        return Ok(None);
    }
    match value.get("rows").and_then(Json::as_array) {
        Some(items) => read_row_items(alloc, items.as_slice()),
        None => Ok(None),
    }
}
