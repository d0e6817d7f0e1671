//! The forms in which faults are printed.
ghost use Rattle.std.specs.Prelude.{◌≡◌, ◌++◌, IfOk, OnOk, string_bytes};
ghost use Rattle.std.specs.List.{flat_map};
ghost use Rattle.json.specs.Print.{quoted};
ghost use Rattle.gq_check.specs.Formats.{escaped_byte, command_tail, command_at, position_object, range_object, object_front, object_ranges, object_at, printed_at, valid_text};
ghost use Rattle.gq_check.specs.Lines.{line_at};

use crate::sections::section;
use gq_diagnostics::words;
use gq_fault::Found;
use gq_text::{NoMemory, Position, Range};
use serde_json::Value as Json;
use std::alloc::Global;

/// In which form faults are printed.
#[derive(Clone, Copy, Debug, PartialEq, Eq)]
pub enum Format {
    /// A line each, `FILE:LINE:COLUMN: CODE WORDS`; of a valid project `ok`.
    Text,
    /// An object each, on a line: `file`, `code`, `words`, `section` (where the GraphQL specification has the rule), and
    /// `range` with both ends, by `utf-16` and by `utf-8` columns.
    Json,
    /// A workflow command of GitHub each, which marks the line: `::error file=..,line=..,col=..::CODE WORDS`.
    Github,
}

impl Format {
    /// What is printed of a valid project.
    pub(crate) fn valid_text(self, alloc: Global) -> Result<Vec<u8>, NoMemory>
        ensures { IfOk result (λ text. text.items ≡ valid_text self) }
    {
        match self {
            Format::Text => Ok(Vec::from_slice(alloc, b"ok\n")?),
            Format::Json | Format::Github => Ok(Vec::new(alloc)),
        }
    }
}

/// A fault between these positions, in that form: the first range counts UTF-16 code units, the second bytes.
pub(crate) fn print_found(
    alloc: Global,
    format: Format,
    found: &Found,
    in_units: Range,
    in_bytes: Range,
    lines: &mut Vec<u8>,
) -> Result<(), NoMemory>
    ensures { OnOk result (lines.new.items ≡ lines.old.items ++ printed_at format found.now in_units in_bytes) }
{
    match format {
        Format::Text => put_text(&line_text(alloc, found, in_units.start)?, lines),
        Format::Json => put_object(alloc, found, in_units, in_bytes, lines),
        Format::Github => put_command(alloc, found, in_units.start, lines),
    }
}

/// Puts a text behind what is there.
fn put_text(text: &String, lines: &mut Vec<u8>) -> Result<(), NoMemory>
    ensures { OnOk result (lines.new.items ≡ lines.old.items ++ string_bytes text.now) }
{
    lines.extend_from_slice(text.as_bytes())?;
    Ok(())
}

/// The line of a fault that starts at that position.
fn line_text(alloc: Global, found: &Found, position: Position) -> Result<String, NoMemory>
    ensures { IfOk result (λ text. string_bytes text ≡ line_at found.now position) }
{
    let line = u64::from(position.line) + 1;
    let column = u64::from(position.character) + 1;
    let key = found.key.as_str();
    let code = found.code.as_str();
    let words = words(found.code);
    let text = format!(in alloc; "{key}:{line}:{column}: {code} {words}\n")?;
    Ok(text)
}

/// The name of a file as a property of a workflow command.
fn put_escaped(name: &str, lines: &mut Vec<u8>) -> Result<(), NoMemory>
    ensures { OnOk result (lines.new.items ≡ lines.old.items ++ flat_map escaped_byte name.now) }
{
    for byte in name.as_bytes() {
        put_byte(*byte, lines)?;
    }
    Ok(())
}

/// A byte of that name.
fn put_byte(byte: u8, lines: &mut Vec<u8>) -> Result<(), NoMemory>
    ensures { OnOk result (lines.new.items ≡ lines.old.items ++ escaped_byte byte) }
{
    if byte == b'%' {
        lines.extend_from_slice(b"%25")?;
    } else if byte == b'\r' {
        lines.extend_from_slice(b"%0D")?;
    } else if byte == b'\n' {
        lines.extend_from_slice(b"%0A")?;
    } else if byte == b':' {
        lines.extend_from_slice(b"%3A")?;
    } else if byte == b',' {
        lines.extend_from_slice(b"%2C")?;
    } else {
        lines.push(byte)?;
    }
    Ok(())
}

/// What stands behind the name of the file in the command that marks a fault that starts at that position.
fn tail_text(alloc: Global, found: &Found, position: Position) -> Result<String, NoMemory>
    ensures { IfOk result (λ text. string_bytes text ≡ command_tail found.now position) }
{
    let line = u64::from(position.line) + 1;
    let column = u64::from(position.character) + 1;
    let code = found.code.as_str();
    let words = words(found.code);
    let text = format!(in alloc; ",line={line},col={column}::{code} {words}\n")?;
    Ok(text)
}

/// The workflow command that marks a fault that starts at that position.
fn put_command(
    alloc: Global,
    found: &Found,
    position: Position,
    lines: &mut Vec<u8>,
) -> Result<(), NoMemory>
    ensures { OnOk result (lines.new.items ≡ lines.old.items ++ command_at found.now position) }
{
    let tail = tail_text(alloc, found, position)?;
    lines.extend_from_slice(b"::error file=")?;
    put_escaped(found.key.as_str(), lines)?;
    put_text(&tail, lines)
}

/// A string of JSON.
fn quoted_text(alloc: Global, content: &str) -> Result<String, NoMemory>
    ensures { IfOk result (λ text. string_bytes text ≡ quoted content.now) }
{
    let string = Json::try_from_str(alloc, content)?;
    Ok(string.to_string(alloc)?)
}

/// The object of a position.
fn position_text(alloc: Global, position: Position) -> Result<String, NoMemory>
    ensures { IfOk result (λ text. string_bytes text ≡ position_object position) }
{
    let line = u64::from(position.line) + 1;
    let column = u64::from(position.character) + 1;
    let text = format!(in alloc; "{{\"line\":{line},\"column\":{column}}}")?;
    Ok(text)
}

/// The object of a range.
fn range_text(alloc: Global, range: Range) -> Result<String, NoMemory>
    ensures { IfOk result (λ text. string_bytes text ≡ range_object range) }
{
    let start = position_text(alloc, range.start)?;
    let end = position_text(alloc, range.end)?;
    let (start, end) = (start.as_str(), end.as_str());
    let text = format!(in alloc; "{{\"start\":{start},\"end\":{end}}}")?;
    Ok(text)
}

/// The front of the object of a fault.
fn front_text(alloc: Global, found: &Found) -> Result<String, NoMemory>
    ensures { IfOk result (λ text. string_bytes text ≡ object_front found.now) }
{
    let file = quoted_text(alloc, found.key.as_str())?;
    let file = file.as_str();
    let code = found.code.as_str();
    let words = words(found.code);
    let section = section(found.code);
    let text = format!(in alloc;
        "{{\"file\":{file},\"code\":\"{code}\",\"words\":\"{words}\",\"section\":\"https://spec.graphql.org/October2021/#sec-{section}"
    )?;
    Ok(text)
}

/// The ranges behind it.
fn ranges_text(alloc: Global, in_units: Range, in_bytes: Range) -> Result<String, NoMemory>
    ensures { IfOk result (λ text. string_bytes text ≡ object_ranges in_units in_bytes) }
{
    let units = range_text(alloc, in_units)?;
    let bytes = range_text(alloc, in_bytes)?;
    let (units, bytes) = (units.as_str(), bytes.as_str());
    let text = format!(in alloc; "\",\"range\":{{\"utf-16\":{units},\"utf-8\":{bytes}}}}}\n")?;
    Ok(text)
}

/// Puts the object of a fault between these positions.
fn put_object(
    alloc: Global,
    found: &Found,
    in_units: Range,
    in_bytes: Range,
    lines: &mut Vec<u8>,
) -> Result<(), NoMemory>
    ensures { OnOk result (lines.new.items ≡ lines.old.items ++ object_at found.now in_units in_bytes) }
{
    let front = front_text(alloc, found)?;
    let ranges = ranges_text(alloc, in_units, in_bytes)?;
    put_text(&front, lines)?;
    put_text(&ranges, lines)
}
