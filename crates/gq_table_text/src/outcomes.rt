//! Results of rows.
ghost use Rattle.std.specs.Prelude.{◌≡◌, ◌∷◌, ℕ, suc, codes, map, IfOk, IfSome, MatchOption};
ghost use Rattle.json.specs.Token.{begin_object, key, null};
ghost use Rattle.gq_table.specs.Json.{result_items, result_of, result_under};
ghost use Rattle.gq_table.specs.Views.{answer_view};
ghost use Rattle.gq_table_text.specs.Helping.ReadAs.{BeginsWith, BeginWithItems};

use crate::leaves::leaf;
use crate::steps::{leave_object, next_natural, next_text};
use gq_table::Outcome;
use gq_text::{NoMemory, SmallText};
use json::{Reader, Token};
use std::alloc::Global;

/// An object: the name of its type and its number.
fn object(alloc: Global, reader: &mut Reader<'_>) -> Result<Option<Outcome>, NoMemory>
    ensures { IfOk result (λ o. IfSome o (λ outcome. (depth : ℕ) → BeginsWith (result_under (codes "object")) (suc depth) reader.old reader.new (answer_view outcome))) }
{
    if !matches!(reader.next(), Some(Token::BeginArray)) {
        return Ok(None);
    }
    let Some(type_name) = next_text(reader) else {
        return Ok(None);
    };
    let Some(number) = next_natural(reader) else {
        return Ok(None);
    };
    if !reader.take_end_array() {
        return Ok(None);
    }
    let type_name = SmallText::from_str(alloc, type_name)?;
    Ok(Some(Outcome::Object { type_name, number }))
}

/// A leaf.
fn leaf_outcome(alloc: Global, reader: &mut Reader<'_>) -> Result<Option<Outcome>, NoMemory>
    ensures { IfOk result (λ o. IfSome o (λ outcome. (depth : ℕ) → BeginsWith (result_under (codes "leaf")) (suc depth) reader.old reader.new (answer_view outcome))) }
{
    let Some(token) = reader.next() else {
        return Ok(None);
    };
    match leaf(alloc, token)? {
        Some(leaf) => Ok(Some(Outcome::Leaf(leaf))),
        None => Ok(None),
    }
}

/// A result under the word that says what it is.
fn outcome_under(
    alloc: Global,
    word: &str,
    reader: &mut Reader<'_>,
) -> Result<Option<Outcome>, NoMemory>
    ensures { IfOk result (λ o. IfSome o (λ outcome. (depth : ℕ) → BeginsWith (result_under word.now) (suc depth) reader.old reader.new (answer_view outcome))) }
{
    if word == "leaf" {
        return leaf_outcome(alloc, reader);
    }
    if word == "object" {
        return object(alloc, reader);
    }
    Ok(None)
}

/// Goes past null, or to what stands under the first word of an object, and gives that word.
fn enter_result<'a>(reader: &mut Reader<'a>) -> Option<Option<&'a str>>
    ensures { IfSome result (λ o. MatchOption o (reader.old ≡ null ∷ reader.new) (λ word. reader.old ≡ begin_object ∷ key word.now ∷ reader.new)) }
{
    match reader.next() {
        Some(Token::Null) => Some(None),
        Some(Token::BeginObject) => match reader.next() {
            Some(Token::Key(word)) => Some(Some(word)),
            _ => None,
        },
        _ => None,
    }
}

/// A result that is no list.
fn one_outcome(alloc: Global, reader: &mut Reader<'_>) -> Result<Option<Outcome>, NoMemory>
    ensures { IfOk result (λ o. IfSome o (λ outcome. (depth : ℕ) → BeginsWith result_of (suc (suc depth)) reader.old reader.new (answer_view outcome))) }
{
    let Some(first) = enter_result(reader) else {
        return Ok(None);
    };
    let Some(word) = first else {
        return Ok(Some(Outcome::Nothing));
    };
    match outcome_under(alloc, word, reader)? {
        Some(outcome) if leave_object(reader) => Ok(Some(outcome)),
        _ => Ok(None),
    }
}

/// The results in a list.
fn outcomes(alloc: Global, reader: &mut Reader<'_>) -> Result<Option<Vec<Outcome>>, NoMemory>
    ensures { IfOk result (λ o. IfSome o (λ outcomes. (depth : ℕ) → BeginWithItems result_items (suc (suc depth)) reader.old reader.new (map answer_view outcomes.items))) }
{
    let mut outcomes = Vec::new(alloc);
    while !reader.take_end_array() {
        match one_outcome(alloc, reader)? {
            Some(outcome) => outcomes.push(outcome)?,
            None => return Ok(None),
        }
    }
    Ok(Some(outcomes))
}

/// A result that is a list.
fn list(alloc: Global, reader: &mut Reader<'_>) -> Result<Option<Outcome>, NoMemory>
    ensures { IfOk result (λ o. IfSome o (λ outcome. (depth : ℕ) → BeginsWith (result_under (codes "list")) (suc (suc (suc depth))) reader.old reader.new (answer_view outcome))) }
{
    if !matches!(reader.next(), Some(Token::BeginArray)) {
        return Ok(None);
    }
    match outcomes(alloc, reader)? {
        Some(outcomes) => Ok(Some(Outcome::List(outcomes))),
        None => Ok(None),
    }
}

/// A result under the word that says what it is, in which no list stands in another.
fn any_outcome_under(
    alloc: Global,
    word: &str,
    reader: &mut Reader<'_>,
) -> Result<Option<Outcome>, NoMemory>
    ensures { IfOk result (λ o. IfSome o (λ outcome. (depth : ℕ) → BeginsWith (result_under word.now) (suc (suc (suc depth))) reader.old reader.new (answer_view outcome))) }
{
    if word == "list" {
        return list(alloc, reader);
    }
    outcome_under(alloc, word, reader)
}

/// A result, in which no list stands in another.
pub(crate) fn outcome(alloc: Global, reader: &mut Reader<'_>) -> Result<Option<Outcome>, NoMemory>
    ensures { IfOk result (λ o. IfSome o (λ outcome. (depth : ℕ) → BeginsWith result_of (suc (suc (suc (suc depth)))) reader.old reader.new (answer_view outcome))) }
{
    let Some(first) = enter_result(reader) else {
        return Ok(None);
    };
    let Some(word) = first else {
        return Ok(Some(Outcome::Nothing));
    };
    match any_outcome_under(alloc, word, reader)? {
        Some(outcome) if leave_object(reader) => Ok(Some(outcome)),
        _ => Ok(None),
    }
}
