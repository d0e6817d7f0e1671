//! The rows of a table, one after another.
ghost use Rattle.std.specs.Prelude.{◌≡◌, ◌∷◌, [], Some, true, codes, IsTrue, IfOk, IfSome, option_and_then};
ghost use Rattle.std.specs.Str.{is_utf8};
ghost use Rattle.serde_json.specs.Read.{read};
ghost use Rattle.json.specs.Token.{begin_object, end_object, begin_array, key};
ghost use Rattle.gq_table.specs.Json.{rows_of_json};
ghost use Rattle.gq_table.specs.Views.{rows_view};
ghost use Rattle.gq_table_text.specs.Helping.ReadAs.{BeginWithRows, AreRowsOf};

use crate::row::next_row;
use gq_table::{Row, Table};
use gq_text::NoMemory;
use json::{Reader, Scratch, Token};
use std::alloc::Global;
use std::str::from_utf8;

/// The rows up to the bracket that closes their array, where each is written as rows mostly are. In each, room is taken at once
/// for as many arguments as the row in front of it has.
fn rows_to_end(alloc: Global, reader: &mut Reader<'_>) -> Result<Option<Vec<Row>>, NoMemory>
    ensures { IfOk result (λ o. IfSome o (λ rows. BeginWithRows reader.old reader.new (rows_view rows.items))) }
{
    let mut rows = Vec::new(alloc);
    let mut room = 0;
    while !reader.take_end_array() {
        let Some(row) = next_row(alloc, reader, room)? else {
            return Ok(None);
        };
        room = row.arguments.len();
        rows.push(row)?;
    }
    Ok(Some(rows))
}

/// Goes to the first row of a table.
fn enter(reader: &mut Reader<'_>) -> bool
    ensures { IsTrue result → reader.old ≡ begin_object ∷ key (codes "rows") ∷ begin_array ∷ reader.new }
{
    matches!(reader.next(), Some(Token::BeginObject))
        && matches!(reader.next(), Some(Token::Key(word)) if word == "rows")
        && matches!(reader.next(), Some(Token::BeginArray))
}

/// Whether the table ends behind its last row, and nothing follows.
fn leave(reader: &mut Reader<'_>) -> bool
    ensures { IsTrue result → reader.old ≡ end_object ∷ [] }
{
    matches!(reader.next(), Some(Token::EndObject)) && reader.next().is_none()
}

/// The rows of a table, where each is written as rows mostly are.
fn rows_of(alloc: Global, reader: &mut Reader<'_>) -> Result<Option<Vec<Row>>, NoMemory>
    ensures { IfOk result (λ o. IfSome o (λ rows. AreRowsOf reader.old (rows_view rows.items))) }
{
    if !enter(reader) {
        return Ok(None);
    }
    match rows_to_end(alloc, reader)? {
        Some(rows) if leave(reader) => Ok(Some(rows)),
        _ => Ok(None),
    }
}

/// The table that a text of JSON holds, where its rows are written as they mostly are: the members of each in the order of
/// `{"type":"Query","object":0,"field":"a","args":{},"result":R}`, with at most 64 arguments, or entries of an object, beside one
/// another and each name once among them, and with results that are null, leaves but spelled numbers, objects or lists of these. Else
/// nothing, which says nothing of the text; so it does where two rows are of one call. No tree of JSON is made.
pub fn read_in_rows(alloc: Global, bytes: &[u8]) -> Result<Option<Table>, NoMemory>
    ensures { IfOk result (λ o. IfSome o (λ table. (is_utf8 bytes.now ≡ true) × (option_and_then rows_of_json (read bytes.now) ≡ Some (rows_view table)))) }
{
    let Ok(text) = from_utf8(bytes) else {
        return Ok(None);
    };
    let mut scratch = Scratch::new(alloc);
    let mut reader = Reader::new(text, &mut scratch)?;
    match rows_of(alloc, &mut reader)? {
        Some(rows) => Table::of(alloc, rows),
        None => Ok(None),
    }
}
