//! Arguments of a row.
ghost use Rattle.std.specs.Prelude.{◌≡◌, ◌∷◌, suc, Some, codes, map, IfOk, IfSome};
ghost use Rattle.json.specs.Reads.{token_of};
ghost use Rattle.json.specs.Token.{begin_array, begin_object};
ghost use Rattle.serde_json.specs.Data.{string};
ghost use Rattle.gq_table.specs.Json.{argument_value, argument_under, arguments_of};
ghost use Rattle.gq_table.specs.Views.{entry_view, value_view as argument_view};
ghost use Rattle.gq_table_text.specs.Helping.ReadAs.{argument_named, BeginsWith, BeginWithArguments, IsPlainArgument};

use crate::leaves::leaf;
use crate::places::put;
use crate::steps::{leave_object, next_text};
use gq_table::numbers::is_number;
use gq_table::{Entry, Leaf, Value as Argument};
use gq_text::{NoMemory, SmallText};
use json::{Reader, Token};
use std::alloc::Global;

/// How many arguments may stand beside one another, as each is looked for among those before it.
const MOST_ARGUMENTS: usize = 64;

/// The number that a text spells.
#[tactic(auto, using(gq_table::proofs::Trees::values))]
fn spelled_number(alloc: Global, spelling: &str) -> Result<Option<Argument>, NoMemory>
    ensures { IfOk result (λ o. IfSome o (λ argument. argument_under (codes "num") (string spelling.now) ≡ Some (argument_view argument))) }
{
    if !is_number(spelling) {
        return Ok(None);
    }
    let spelling = SmallText::from_str(alloc, spelling)?;
    Ok(Some(Argument::Leaf(Leaf::Number(spelling))))
}

/// What a text stands for under a word: the spelling of a number, or the name of an enum value.
#[tactic(auto, using(gq_table::proofs::Trees::values))]
fn text_under(alloc: Global, word: &str, text: &str) -> Result<Option<Argument>, NoMemory>
    ensures { IfOk result (λ o. IfSome o (λ argument. argument_under word.now (string text.now) ≡ Some (argument_view argument))) }
{
    if word == "num" {
        return spelled_number(alloc, text);
    }
    if word == "enum" {
        return Ok(Some(Argument::Enum(SmallText::from_str(alloc, text)?)));
    }
    Ok(None)
}

/// A boolean, a text or an integer.
fn plain_argument(alloc: Global, token: Token<'_>) -> Result<Option<Argument>, NoMemory>
    ensures { IfOk result (λ o. IfSome o (λ argument. IsPlainArgument (token_of token.entry) (argument_view argument))) }
{
    match leaf(alloc, token)? {
        Some(leaf) => Ok(Some(Argument::Leaf(leaf))),
        None => Ok(None),
    }
}

/// An argument: null, a leaf, the name of an enum value, or a list or an object of arguments.
#[cycle(argument)]
fn argument(
    alloc: Global,
    reader: &mut Reader<'_>,
    depth: usize,
) -> Result<Option<Argument>, NoMemory>
    ensures { IfOk result (λ o. IfSome o (λ argument. BeginsWith argument_value depth reader.old reader.new (argument_view argument))) }
{
    let Some(token) = reader.next() else {
        return Ok(None);
    };
    match token {
        Token::Null => Ok(Some(Argument::Null)),
        Token::BeginArray if depth > 0 => list(alloc, reader, depth - 1),
        Token::BeginObject if depth > 0 => tagged_argument(alloc, reader, depth - 1),
        _ => plain_argument(alloc, token),
    }
}

/// A list of arguments, behind its bracket.
#[cycle(argument)]
fn list(alloc: Global, reader: &mut Reader<'_>, depth: usize) -> Result<Option<Argument>, NoMemory>
    ensures { IfOk result (λ o. IfSome o (λ argument. BeginsWith argument_value (suc depth) (begin_array ∷ reader.old) reader.new (argument_view argument))) }
{
    let mut items = Vec::new(alloc);
    while !reader.take_end_array() {
        match argument(alloc, reader, depth)? {
            Some(item) => items.push(item)?,
            None => return Ok(None),
        }
    }
    items.shrink_to_fit();
    Ok(Some(Argument::List(items)))
}

/// An argument under the word that says what it is, behind the brace in front of that word.
#[cycle(argument)]
fn tagged_argument(
    alloc: Global,
    reader: &mut Reader<'_>,
    depth: usize,
) -> Result<Option<Argument>, NoMemory>
    ensures { IfOk result (λ o. IfSome o (λ argument. BeginsWith argument_value (suc depth) (begin_object ∷ reader.old) reader.new (argument_view argument))) }
{
    let Some(Token::Key(word)) = reader.next() else {
        return Ok(None);
    };
    match argument_under(alloc, word, reader, depth)? {
        Some(argument) if leave_object(reader) => Ok(Some(argument)),
        _ => Ok(None),
    }
}

/// What stands under a word that says what it is.
#[cycle(argument)]
fn argument_under(
    alloc: Global,
    word: &str,
    reader: &mut Reader<'_>,
    depth: usize,
) -> Result<Option<Argument>, NoMemory>
    ensures { IfOk result (λ o. IfSome o (λ argument. BeginsWith (argument_under word.now) depth reader.old reader.new (argument_view argument))) }
{
    if word == "object" {
        return object(alloc, reader, depth);
    }
    match next_text(reader) {
        Some(text) => text_under(alloc, word, text),
        None => Ok(None),
    }
}

/// An object of arguments.
#[cycle(argument)]
fn object(
    alloc: Global,
    reader: &mut Reader<'_>,
    depth: usize,
) -> Result<Option<Argument>, NoMemory>
    ensures { IfOk result (λ o. IfSome o (λ argument. BeginsWith (argument_under (codes "object")) depth reader.old reader.new (argument_view argument))) }
{
    match arguments(alloc, reader, depth, 0)? {
        Some(entries) => Ok(Some(Argument::Object(entries))),
        None => Ok(None),
    }
}

/// An argument under its name.
#[cycle(argument)]
fn named_argument(
    alloc: Global,
    name: &str,
    reader: &mut Reader<'_>,
    depth: usize,
) -> Result<Option<Entry>, NoMemory>
    ensures { IfOk result (λ o. IfSome o (λ entry. BeginsWith (argument_named name.now) depth reader.old reader.new (entry_view entry))) }
{
    let Some(value) = argument(alloc, reader, depth)? else {
        return Ok(None);
    };
    Ok(Some(Entry {
        name: SmallText::from_str(alloc, name)?,
        value,
    }))
}

/// The arguments up to the brace that closes their object, where each name is there once. Room for so many is taken at once, and
/// what is not used of it is given back.
#[cycle(argument)]
fn entries_to_end(
    alloc: Global,
    reader: &mut Reader<'_>,
    depth: usize,
    room: usize,
) -> Result<Option<Vec<Entry>>, NoMemory>
    ensures { IfOk result (λ o. IfSome o (λ entries. BeginWithArguments depth reader.old reader.new (map entry_view entries.items))) }
{
    let mut entries = Vec::with_capacity(alloc, room)?;
    while let Ok(key) = reader.next_key() {
        let Some(name) = key else {
            entries.shrink_to_fit();
            return Ok(Some(entries));
        };
        if entries.len() == MOST_ARGUMENTS {
            return Ok(None);
        }
        let Some(entry) = named_argument(alloc, name, reader, depth)? else {
            return Ok(None);
        };
        let is_new = put(&mut entries, entry)?;
        if !is_new {
            return Ok(None);
        }
    }
    Ok(None)
}

/// The arguments of a row, or those in an object among them, in the order of their names, where they are few and have
/// different names. Room for so many is taken at once, and what is not used of it is given back.
#[cycle(argument)]
pub(crate) fn arguments(
    alloc: Global,
    reader: &mut Reader<'_>,
    depth: usize,
    room: usize,
) -> Result<Option<Vec<Entry>>, NoMemory>
    ensures { IfOk result (λ o. IfSome o (λ entries. BeginsWith arguments_of depth reader.old reader.new (map entry_view entries.items))) }
{
    match reader.next() {
        Some(Token::BeginObject) if depth > 0 => entries_to_end(alloc, reader, depth - 1, room),
        _ => Ok(None),
    }
}
