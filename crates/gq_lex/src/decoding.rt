//! What the characters of a string or block string stand for.

ghost use Rattle.std.specs.Prelude.{◌≡◌, ◌++◌, true, option_map, IfOk, OnOk, if◌then◌else◌};
ghost use Rattle.gq_lex.specs.Bytes.{look_up};
ghost use Rattle.gq_lex.specs.Decoding.{block_character_value, character_value, decoded, escape_value, escaped_value, scalar_value, second_value, unit_value, value_at};
ghost use Rattle.gq_lex.specs.Scanning.{unit_at};
ghost use Rattle.gq_lex.specs.Strings.{escapes, is_high_surrogate, is_low_surrogate, paired};

use crate::blocks::begins_escape;
use crate::bytes::{behind, byte_at};
use crate::quoted::{Form, Step, step_at};
use crate::strings::{escaped, is_high_surrogate, is_low_surrogate, unit_at};
use gq_text::NoMemory;
use std::alloc::Global;

// What stands up to the end, which must be the end of the bytes.
pub(crate) fn decoded(alloc: Global, form: Form, bytes: &[u8]) -> Result<Option<Vec<u8>>, NoMemory>
    ensures { IfOk result (λ found. option_map (λ value. value.items) found ≡ decoded form bytes.now 0) }
{
    let mut out = Vec::new(alloc);
    let mut at = 0;
    while at < bytes.len() {
        let rest = behind(bytes, at);
        match step_at(form, rest) {
            Step::Ends(len) => return Ok(whole(out, rest.len() == len)),
            Step::Goes(len) => {
                push_value(form, rest, &mut out)?;
                at += len;
            }
            Step::Fails => return Ok(None),
        }
    }
    Ok(None)
}

// All that was read, where nothing is left.
fn whole(out: Vec<u8>, is_whole: bool) -> Option<Vec<u8>>
    ensures { option_map (λ value. value.items) result ≡ (if is_whole then Some out.items else None) }
{
    if is_whole { Some(out) } else { None }
}

// Adds what the character at the front stands for.
fn push_value(form: Form, bytes: &[u8], out: &mut Vec<u8>) -> Result<(), NoMemory>
    ensures { OnOk result (out.new.items ≡ out.old.items ++ value_at form bytes.now) }
{
    match form {
        Form::Plain => push_character(bytes, out),
        Form::Block => push_block_character(bytes, out),
    }
}

#[tactic(auto, unfolding(crate::specs::Decoding::character_value))]
fn push_character(bytes: &[u8], out: &mut Vec<u8>) -> Result<(), NoMemory>
    ensures { OnOk result (out.new.items ≡ out.old.items ++ character_value bytes.now) }
{
    match byte_at(bytes, 0) {
        b'\\' => push_escape(byte_at(bytes, 1), bytes, out),
        b => push(&[b], out),
    }
}

// An escape, by the byte behind the backslash.
fn push_escape(b: u8, bytes: &[u8], out: &mut Vec<u8>) -> Result<(), NoMemory>
    ensures { OnOk result (out.new.items ≡ out.old.items ++ escape_value b bytes.now) }
{
    if b == b'u' {
        push_unit(bytes, out)
    } else {
        push_escaped(b, out)
    }
}

fn push_escaped(b: u8, out: &mut Vec<u8>) -> Result<(), NoMemory>
    ensures { OnOk result (out.new.items ≡ out.old.items ++ escaped_value (look_up b escapes)) }
{
    match escaped(b) {
        Some(c) => push(&[c], out),
        None => push(&[], out),
    }
}

// A code unit, or two that make a pair.
fn push_unit(bytes: &[u8], out: &mut Vec<u8>) -> Result<(), NoMemory>
    ensures { OnOk result (out.new.items ≡ out.old.items ++ unit_value bytes.now (unit_at bytes.now)) }
{
    match unit_at(bytes) {
        Some(unit) if is_high_surrogate(unit) => push_pair(unit, unit_at(behind(bytes, 6)), out),
        Some(unit) => push_scalar(unit, out),
        None => push(&[], out),
    }
}

fn push_pair(high: u32, second: Option<u32>, out: &mut Vec<u8>) -> Result<(), NoMemory>
    requires { is_high_surrogate high ≡ true }
    ensures { OnOk result (out.new.items ≡ out.old.items ++ second_value high second) }
{
    match second {
        Some(low) if is_low_surrogate(low) => push_scalar(paired(high, low), out),
        _ => push(&[], out),
    }
}

// The character that two surrogates stand for.
fn paired(high: u32, low: u32) -> u32
    requires high { is_high_surrogate high ≡ true }
    requires low { is_low_surrogate low ≡ true }
    ensures { result ≡ paired high low }
{
    0x10000 + 1024 * (high - 0xd800) + (low - 0xdc00)
}

// A character, in UTF-8.
fn push_scalar(c: u32, out: &mut Vec<u8>) -> Result<(), NoMemory>
    ensures { OnOk result (out.new.items ≡ out.old.items ++ scalar_value c) }
{
    match char::from_u32(c) {
        Some(c) => push(c.encode_utf8(&mut [0; 4]).as_bytes(), out),
        None => push(&[], out),
    }
}

fn push_block_character(bytes: &[u8], out: &mut Vec<u8>) -> Result<(), NoMemory>
    ensures { OnOk result (out.new.items ≡ out.old.items ++ block_character_value bytes.now) }
{
    if begins_escape(bytes) {
        push(b"\"\"\"", out)
    } else {
        push(&[byte_at(bytes, 0)], out)
    }
}

// Adds bytes.
pub(crate) fn push(bytes: &[u8], out: &mut Vec<u8>) -> Result<(), NoMemory>
    ensures { OnOk result (out.new.items ≡ out.old.items ++ bytes.now) }
{
    out.extend_from_slice(bytes)?;
    Ok(())
}
