//! What `--verbose` says of a table and of variables: why they are none.
ghost use Rattle.std.specs.Prelude.{◌≡◌, Some, codes, IfOk, is_none, option_and_then, string_bytes};
ghost use Rattle.std.specs.Option.{option_map};
ghost use Rattle.serde_json.specs.Data.{array, item, no_items};
ghost use Rattle.serde_json.specs.View.{view, items_view};
ghost use Rattle.serde_json.specs.Find.{get, as_str, as_number, as_u64, as_object};
ghost use Rattle.gq_rpc.specs.Decoding.{body_value};
ghost use Rattle.gq_table.specs.Json.{member_count, row_in};
ghost use Rattle.gq_check.specs.Files.{content_of};
ghost use Rattle.gq_check.specs.Flaws.{row_flaw, numbered_flaw, rows_flaw, whole_flaw, table_flaw, IsTableWhy, variables_flaw, IsVariablesWhy, IsTableReason, IsVariablesReason};

use crate::files::File;
use crate::reasons::reason_line;
use gq_exec::{Table, TableFault};
use gq_text::NoMemory;
use serde_json::{Map, Value as Json};
use std::alloc::Global;

/// How many members an object has.
#[tactic(auto, using(crate::proofs::FlawLemmas::counts))]
fn member_count(json: &Json) -> usize
    ensures { result ≡ member_count (view json.now) }
{
    match json.as_object() {
        Some(members) => members.len(),
        None => 0,
    }
}

/// Whether there is nothing under that name.
fn lacks(row: &Json, name: &str) -> bool
    ensures { result ≡ is_none (get name.now (view row.now)) }
{
    match row.get(name) {
        Some(_) => false,
        None => true,
    }
}

/// Whether there is no text under that name.
fn lacks_text(row: &Json, name: &str) -> bool
    ensures { result ≡ is_none (option_and_then as_str (get name.now (view row.now))) }
{
    match row.get(name) {
        Some(value) => !value.is_string(),
        None => true,
    }
}

/// Whether there is no number from 0 on under that name.
fn lacks_natural(row: &Json, name: &str) -> bool
    ensures { result ≡ is_none (option_and_then as_u64 (option_and_then as_number (get name.now (view row.now)))) }
{
    match row.get(name) {
        Some(value) => !value.is_u64(),
        None => true,
    }
}

/// Whether there is no object under that name.
fn lacks_object(row: &Json, name: &str) -> bool
    ensures { result ≡ is_none (option_and_then as_object (get name.now (view row.now))) }
{
    match row.get(name) {
        Some(value) => !value.is_object(),
        None => true,
    }
}

/// What is wrong with a row that alone makes no table.
fn row_flaw(row: &Json) -> &'static str
    ensures { result.now ≡ row_flaw (view row.now) }
{
    if !row.is_object() {
        "no object"
    } else if lacks_text(row, "type") {
        "`type` is no string"
    } else if lacks_natural(row, "object") {
        "`object` is no number from 0 on"
    } else if lacks_text(row, "field") {
        "`field` is no string"
    } else if lacks_object(row, "args") {
        "`args` is no object"
    } else if lacks(row, "result") {
        "no `result`"
    } else if member_count(row) > 5 {
        "other members than `type`, `object`, `field`, `args` and `result`"
    } else {
        "`args` or `result` is of no form that there is"
    }
}

/// A table of that row alone, as JSON.
fn alone(alloc: Global, row: &Json) -> Result<Json, NoMemory>
    ensures count { IfOk result (λ json. member_count (view json) ≡ 1) }
    ensures rows { IfOk result (λ json. get (codes "rows") (view json) ≡ Some (array (item (view row.now) no_items))) }
{
    let mut rows = Vec::new(alloc);
    rows.push(row.clone()?)?;
    let mut members = Map::new(alloc);
    members.insert(String::from_str(alloc, "rows")?, Json::Array(rows))?;
    Ok(Json::Object(members))
}

/// Whether a row alone makes no table.
fn is_bad_row(alloc: Global, row: &Json) -> Result<bool, NoMemory>
    ensures { IfOk result (λ is_bad. is_bad ≡ is_none (row_in (view row.now))) }
{
    let json = alone(alloc, row)?;
    match Table::read(alloc, &json) {
        Ok(_) => Ok(false),
        Err(TableFault::Bad) => Ok(true),
        Err(TableFault::NoMemory) => Err(NoMemory),
    }
}

/// What is said of a row of that number.
fn numbered_flaw(alloc: Global, number: u64, row: &Json) -> Result<String, NoMemory>
    ensures { IfOk result (λ flaw. string_bytes flaw ≡ numbered_flaw number (view row.now)) }
{
    let flaw = row_flaw(row);
    let text = format!(in alloc; "row {number}: {flaw}")?;
    Ok(text)
}

/// What is wrong with the first of these rows that alone makes no table, if one makes none.
fn rows_flaw(alloc: Global, rows: &[Json]) -> Result<Option<String>, NoMemory>
    ensures { IfOk result (λ flaw. option_map (λ f. string_bytes f) flaw ≡ rows_flaw 1 (items_view rows.now)) }
{
    for index in 0..rows.len() {
        let row = &rows[index];
        if is_bad_row(alloc, row)? {
            return Ok(Some(numbered_flaw(alloc, index as u64 + 1, row)?));
        }
    }
    Ok(None)
}

/// What else is wrong, with rows of which each makes a table.
fn whole_flaw(json: &Json) -> &'static str
    ensures { result.now ≡ whole_flaw (view json.now) }
{
    if member_count(json) > 1 {
        "other members beside `rows`"
    } else {
        "two rows are for one call"
    }
}

/// What is wrong with JSON that is no table.
fn table_flaw(alloc: Global, json: &Json) -> Result<String, NoMemory>
    ensures { IfOk result (λ flaw. string_bytes flaw ≡ table_flaw (view json.now)) }
{
    let Some(rows) = json.get("rows").and_then(Json::as_array) else {
        return Ok(String::from_str(alloc, "no object with a list `rows`")?);
    };
    match rows_flaw(alloc, rows)? {
        Some(flaw) => Ok(flaw),
        None => Ok(String::from_str(alloc, whole_flaw(json))?),
    }
}

/// Why bytes are no table.
fn table_why(alloc: Global, bytes: &[u8]) -> Result<String, NoMemory>
    ensures { IfOk result (λ why. IsTableWhy (body_value bytes.now) (string_bytes why)) }
{
    match Json::from_slice(alloc, bytes) {
        Ok(json) => {
            let flaw = table_flaw(alloc, &json)?;
            Ok(flaw)
        }
        Err(error) if error.is_memory() => Err(NoMemory),
        Err(error) => Ok(format!(in alloc; "{error}")?),
    }
}

/// What is wrong with JSON that is no variables.
fn variables_flaw(json: &Json) -> &'static str
    ensures { result.now ≡ variables_flaw (view json.now) }
{
    if json.is_object() {
        "a number that is no integer of 64 bits stands as text there"
    } else {
        "no object"
    }
}

/// Why bytes are no variables.
fn variables_why(alloc: Global, bytes: &[u8]) -> Result<String, NoMemory>
    ensures { IfOk result (λ why. IsVariablesWhy (body_value bytes.now) (string_bytes why)) }
{
    match Json::from_slice(alloc, bytes) {
        Ok(json) => {
            let flaw = String::from_str(alloc, variables_flaw(&json))?;
            Ok(flaw)
        }
        Err(error) if error.is_memory() => Err(NoMemory),
        Err(error) => Ok(format!(in alloc; "{error}")?),
    }
}

/// The line of a bad table.
pub(crate) fn table_reason(alloc: Global, table: &File) -> Result<Vec<u8>, NoMemory>
    ensures { IfOk result (λ line. IsTableReason table.now.name (content_of table.now) line.items) }
{
    match table.content() {
        Some(bytes) => {
            let why = table_why(alloc, bytes)?;
            reason_line(alloc, table.name.as_str(), why.as_str())
        }
        None => Ok(Vec::new(alloc)),
    }
}

/// The line of bad variables.
pub(crate) fn variables_reason(alloc: Global, variables: &File) -> Result<Vec<u8>, NoMemory>
    ensures { IfOk result (λ line. IsVariablesReason variables.now.name (content_of variables.now) line.items) }
{
    match variables.content() {
        Some(bytes) => {
            let why = variables_why(alloc, bytes)?;
            reason_line(alloc, variables.name.as_str(), why.as_str())
        }
        None => Ok(Vec::new(alloc)),
    }
}
