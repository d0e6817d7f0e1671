//! The text of a response as JSON (GraphQL, October 2021, section 7.2.1).
ghost use Rattle.std.specs.Prelude.{◌≡◌, ◌++◌, List, ℕ, length, map, string_bytes, IfOk, OnOk};
ghost use Rattle.std.specs.Bool.{OnTrue};
ghost use Rattle.json.specs.Print.{quoted};
ghost use Rattle.json.specs.Written.{PlainBetween};
ghost use Rattle.gq_table.specs.Views.{leaf_view};
ghost use Rattle.gq_response.specs.Responses.{answered};
ghost use Rattle.gq_response.specs.Texts.{leaf_text, step_text, with_commas, data_text, error_text, errors_text, response_text};
ghost use Rattle.gq_response.specs.Helping.Commas.{comma_before, member_text};
ghost use Rattle.gq_response.specs.Views.{step_view, path_view, errors_view, data_view, member_view, members_view, response_view};

use crate::data::{Data, Member, Response, Step};
use gq_table::Leaf;
use gq_text::NoMemory;
use serde_json::Value as Json;
use std::alloc::Global;

impl Response {
    /// The response as JSON without spaces: `{"data":D}`, or `{"errors":[..],"data":D}` where it has field errors, and
    /// `{"errors":[{"message":"request error"}]}` for a request error.
    #[tactic(auto, using(crate::proofs::Trees::texts))]
    pub fn text(&self, alloc: Global) -> Result<String, NoMemory>
        ensures { IfOk result (λ text. string_bytes text ≡ response_text (response_view self.now)) }
    {
        match self {
            Response::RequestError => Ok(String::from_str(
                alloc,
                "{\"errors\":[{\"message\":\"request error\"}]}",
            )?),
            Response::Answered { data, errors } => answer_text(alloc, data, errors),
        }
    }
}

#[tactic(auto, using(crate::proofs::Trees::texts))]
fn answer_text(alloc: Global, answer: &Data, errors: &[Vec<Step>]) -> Result<String, NoMemory>
    ensures { IfOk result (λ text. string_bytes text ≡ response_text (answered (data_view answer.now) (errors_view errors.now))) }
{
    let mut text = String::new(alloc);
    text.push_str("{")?;
    put_errors(alloc, errors, &mut text)?;
    text.push_str("\"data\":")?;
    put_data(alloc, answer, &mut text)?;
    text.push_str("}")?;
    Ok(text)
}

/// A string of JSON.
fn quoted_text(alloc: Global, content: &str) -> Result<String, NoMemory>
    ensures { IfOk result (λ text. string_bytes text ≡ quoted content.now) }
{
    let string = Json::try_from_str(alloc, content)?;
    Ok(string.to_string(alloc)?)
}

/// Puts a string of JSON whose text may need escapes.
fn put_escaped(alloc: Global, content: &str, text: &mut String) -> Result<(), NoMemory>
    ensures { OnOk result (string_bytes text.new ≡ string_bytes text.old ++ quoted content.now) }
{
    let string = quoted_text(alloc, content)?;
    text.push_str(string.as_str())?;
    Ok(())
}

/// Whether a text stands between quotes as it is.
fn is_plain(content: &[u8]) -> bool
    ensures { OnTrue result (PlainBetween content.now 0 (length content.now)) }
{
    for &byte in content {
        if byte == b'"' || byte == b'\\' || byte < 0x20 {
            return false;
        }
    }
    true
}

fn put_quoted(alloc: Global, content: &str, text: &mut String) -> Result<(), NoMemory>
    ensures { OnOk result (string_bytes text.new ≡ string_bytes text.old ++ quoted content.now) }
{
    if !is_plain(content.as_bytes()) {
        return put_escaped(alloc, content, text);
    }
    text.push_str("\"")?;
    text.push_str(content)?;
    text.push_str("\"")?;
    Ok(())
}

fn put_leaf(alloc: Global, leaf: &Leaf, text: &mut String) -> Result<(), NoMemory>
    ensures { OnOk result (string_bytes text.new ≡ string_bytes text.old ++ leaf_text (leaf_view leaf.now)) }
{
    match leaf {
        Leaf::Boolean(true) => {
            text.push_str("true")?;
            Ok(())
        }
        Leaf::Boolean(false) => {
            text.push_str("false")?;
            Ok(())
        }
        Leaf::Number(spelling) => {
            text.push_str(spelling.as_str())?;
            Ok(())
        }
        Leaf::Text(content) => put_quoted(alloc, content.as_str(), text),
    }
}

fn put_step(alloc: Global, step: &Step, text: &mut String) -> Result<(), NoMemory>
    ensures { OnOk result (string_bytes text.new ≡ string_bytes text.old ++ step_text (step_view step.now)) }
{
    match step {
        Step::Key(key) => put_quoted(alloc, key.as_str(), text),
        Step::Index(index) => {
            let digits = index.to_string(alloc)?;
            text.push_str(digits.as_str())?;
            Ok(())
        }
    }
}

/// The comma before the text with that number.
#[tactic(auto, using(crate::proofs::Trees::texts))]
fn put_comma(number: usize, text: &mut String) -> Result<(), NoMemory>
    ensures { OnOk result (string_bytes text.new ≡ string_bytes text.old ++ comma_before number) }
{
    match number {
        0 => Ok(()),
        _ => {
            text.push_str(",")?;
            Ok(())
        }
    }
}

fn put_steps(alloc: Global, steps: &[Step], text: &mut String) -> Result<(), NoMemory>
    ensures { OnOk result (string_bytes text.new ≡ string_bytes text.old ++ with_commas (map step_text (path_view steps.now))) }
{
    for i in 0..steps.len() {
        put_comma(i, text)?;
        put_step(alloc, &steps[i], text)?;
    }
    Ok(())
}

#[tactic(auto, using(crate::proofs::Trees::texts))]
fn put_error(alloc: Global, path: &[Step], text: &mut String) -> Result<(), NoMemory>
    ensures { OnOk result (string_bytes text.new ≡ string_bytes text.old ++ error_text (path_view path.now)) }
{
    text.push_str("{\"message\":\"field error\",\"path\":[")?;
    put_steps(alloc, path, text)?;
    text.push_str("]}")?;
    Ok(())
}

fn put_error_list(alloc: Global, errors: &[Vec<Step>], text: &mut String) -> Result<(), NoMemory>
    ensures { OnOk result (string_bytes text.new ≡ string_bytes text.old ++ with_commas (map error_text (errors_view errors.now))) }
{
    for i in 0..errors.len() {
        put_comma(i, text)?;
        put_error(alloc, &errors[i], text)?;
    }
    Ok(())
}

#[tactic(auto, using(crate::proofs::Trees::texts))]
fn put_errors(alloc: Global, errors: &[Vec<Step>], text: &mut String) -> Result<(), NoMemory>
    ensures { OnOk result (string_bytes text.new ≡ string_bytes text.old ++ errors_text (errors_view errors.now)) }
{
    match errors {
        [] => Ok(()),
        [_, ..] => {
            text.push_str("\"errors\":[")?;
            put_error_list(alloc, errors, text)?;
            text.push_str("],")?;
            Ok(())
        }
    }
}

#[cycle(text)]
#[tactic(auto, using(crate::proofs::Trees::texts))]
fn put_data(alloc: Global, answer: &Data, text: &mut String) -> Result<(), NoMemory>
    ensures { OnOk result (string_bytes text.new ≡ string_bytes text.old ++ data_text (data_view answer.now)) }
{
    match answer {
        Data::Null => {
            text.push_str("null")?;
            Ok(())
        }
        Data::Leaf(leaf) => put_leaf(alloc, leaf, text),
        Data::List(items) => {
            text.push_str("[")?;
            put_items(alloc, items, text)?;
            text.push_str("]")?;
            Ok(())
        }
        Data::Object(members) => {
            text.push_str("{")?;
            put_members(alloc, members, text)?;
            text.push_str("}")?;
            Ok(())
        }
    }
}

#[cycle(text)]
fn put_items(alloc: Global, items: &[Data], text: &mut String) -> Result<(), NoMemory>
    ensures { OnOk result (string_bytes text.new ≡ string_bytes text.old ++ with_commas (map data_text (map data_view items.now))) }
{
    for i in 0..items.len() {
        put_comma(i, text)?;
        put_data(alloc, &items[i], text)?;
    }
    Ok(())
}

#[cycle(text)]
fn put_members(alloc: Global, members: &[Member], text: &mut String) -> Result<(), NoMemory>
    ensures { OnOk result (string_bytes text.new ≡ string_bytes text.old ++ with_commas (map member_text (members_view members.now))) }
{
    for i in 0..members.len() {
        put_comma(i, text)?;
        put_member(alloc, &members[i], text)?;
    }
    Ok(())
}

#[cycle(text)]
#[tactic(auto, using(crate::proofs::Trees::texts))]
fn put_member(alloc: Global, member: &Member, text: &mut String) -> Result<(), NoMemory>
    ensures { OnOk result (string_bytes text.new ≡ string_bytes text.old ++ member_text (member_view member.now)) }
{
    put_quoted(alloc, member.key.as_str(), text)?;
    text.push_str(":")?;
    put_data(alloc, &member.value, text)?;
    Ok(())
}
