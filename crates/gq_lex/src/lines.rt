//! The value of a block string: its lines, without the indent that they share and without the blank ones at both ends.

ghost use Rattle.std.specs.Prelude.{◌≡◌, ◌<◌, ◌≤◌, ◌++◌, ◌∷◌, [], IfOk, OnOk, length, drop, flat_map, map};
ghost use Rattle.std.specs.List.{prefix_len, join_with_byte};
ghost use Rattle.gq_lex.specs.Bytes.{is_white_space};
ghost use Rattle.gq_lex.specs.Decoding.{behind_line_feed, is_line_byte, least_indent, terminator_len, texts_of, to_filled};
ghost use Rattle.gq_lex.specs.Values.{block_value, common_indent, dedented, from_filled, is_blank_line, lines};

use crate::bytes::{behind, byte_at, line_len, white_space_len};
use crate::decoding::push;
use gq_text::NoMemory;
use std::alloc::Global;

// BlockStringValue.
pub(crate) fn block_value(alloc: Global, raw: &[u8]) -> Result<Vec<u8>, NoMemory>
    ensures { IfOk result (λ value. value.items ≡ block_value raw.now) }
{
    let whole = lines(alloc, raw)?;
    let lines = dedented(alloc, &whole)?;
    joined(alloc, to_filled(from_filled(&lines)))
}

// The lines of a text.
fn lines<'a>(alloc: Global, raw: &'a [u8]) -> Result<Vec<&'a [u8]>, NoMemory>
    ensures { IfOk result (λ found. texts_of found.items ≡ lines raw.now) }
{
    let mut found = Vec::new(alloc);
    let mut at = line_len(raw);
    put(&raw[..at], &mut found)?;
    while at < raw.len() {
        let start = at + terminator_len(behind(raw, at));
        let rest = behind(raw, start);
        let len = line_len(rest);
        put(&rest[..len], &mut found)?;
        at = start + len;
    }
    Ok(found)
}

// The length of the LineTerminator at the front.
fn terminator_len(bytes: &[u8]) -> usize
    requires { 0 < length bytes.now }
    ensures len { result ≡ terminator_len bytes.now }
    ensures some { 0 < result }
    ensures within { result ≤ length bytes.now }
{
    if byte_at(bytes, 0) == b'\r' && byte_at(bytes, 1) == b'\n' {
        2
    } else {
        1
    }
}

// Adds a line.
fn put<'a>(line: &'a [u8], found: &mut Vec<&'a [u8]>) -> Result<(), NoMemory>
    ensures { OnOk result (texts_of found.new.items ≡ texts_of found.old.items ++ line.now ∷ []) }
{
    found.push(line)?;
    Ok(())
}

// The lines but the first without the indent that these share.
fn dedented<'a>(alloc: Global, lines: &[&'a [u8]]) -> Result<Vec<&'a [u8]>, NoMemory>
    ensures { IfOk result (λ found. texts_of found.items ≡ dedented (texts_of lines.now)) }
{
    let mut found = Vec::new(alloc);
    let Some((first, others)) = lines.split_first() else {
        return Ok(found);
    };
    put(first, &mut found)?;
    put_behind(others, common_indent(others).unwrap_or(0), &mut found)?;
    Ok(found)
}

// Adds lines without an indent.
fn put_behind<'a>(
    lines: &[&'a [u8]],
    indent: usize,
    found: &mut Vec<&'a [u8]>,
) -> Result<(), NoMemory>
    ensures { OnOk result (texts_of found.new.items ≡ texts_of found.old.items ++ map (drop indent) (texts_of lines.now)) }
{
    for line in lines {
        put(behind(line, indent), found)?;
    }
    Ok(())
}

// The least indent of the lines that are not blank.
fn common_indent(lines: &[&[u8]]) -> Option<usize>
    ensures { result ≡ common_indent (texts_of lines.now) }
{
    let mut least = None;
    let mut at = lines.len();
    while at > 0 {
        at -= 1;
        least = least_indent(lines[at], least);
    }
    least
}

// The lesser of a line's indent, if it is not blank, and that of other lines.
fn least_indent(line: &[u8], others: Option<usize>) -> Option<usize>
    ensures { result ≡ least_indent line.now others }
{
    let indent = white_space_len(line);
    if indent == line.len() {
        return others;
    }
    match others {
        Some(other) => Some(indent.min(other)),
        None => Some(indent),
    }
}

fn is_blank_line(line: &[u8]) -> bool
    ensures { result ≡ is_blank_line line.now }
{
    white_space_len(line) == line.len()
}

// The lines from the first on that is not blank.
fn from_filled<'a, 'b>(lines: &'a [&'b [u8]]) -> &'a [&'b [u8]]
    ensures { texts_of result.now ≡ from_filled (texts_of lines.now) }
{
    let mut at = 0;
    while at < lines.len() {
        if !is_blank_line(lines[at]) {
            return &lines[at..];
        }
        at += 1;
    }
    &[]
}

// The lines up to the last that is not blank.
fn to_filled<'a, 'b>(lines: &'a [&'b [u8]]) -> &'a [&'b [u8]]
    ensures { texts_of result.now ≡ to_filled (texts_of lines.now) }
{
    let mut end = lines.len();
    while end > 0 {
        if !is_blank_line(lines[end - 1]) {
            return &lines[..end];
        }
        end -= 1;
    }
    &[]
}

// The lines in a row, with a New Line between each two.
fn joined(alloc: Global, lines: &[&[u8]]) -> Result<Vec<u8>, NoMemory>
    ensures { IfOk result (λ value. value.items ≡ join_with_byte 10 (texts_of lines.now)) }
{
    let mut value = Vec::new(alloc);
    let Some((first, others)) = lines.split_first() else {
        return Ok(value);
    };
    push(first, &mut value)?;
    push_lines(others, &mut value)?;
    Ok(value)
}

// Adds lines, with a New Line before each.
fn push_lines(lines: &[&[u8]], value: &mut Vec<u8>) -> Result<(), NoMemory>
    ensures { OnOk result (value.new.items ≡ value.old.items ++ flat_map behind_line_feed (texts_of lines.now)) }
{
    for line in lines {
        push_line(line, value)?;
    }
    Ok(())
}

fn push_line(line: &[u8], value: &mut Vec<u8>) -> Result<(), NoMemory>
    ensures { OnOk result (value.new.items ≡ value.old.items ++ behind_line_feed line.now) }
{
    push(b"\n", value)?;
    push(line, value)
}
