//! What stands at the front of what is left of a string.

ghost use Rattle.std.specs.Prelude.{◌≡◌, ◌≤◌, if◌then◌else◌};
ghost use Rattle.std.specs.Char.{digit_value};
ghost use Rattle.gq_lex.specs.Bytes.{is_comment_byte, look_up};
ghost use Rattle.gq_lex.specs.Scanning.{escape_step, escaped_step, second_step, string_step, unit_at, unit_step};
ghost use Rattle.gq_lex.specs.Strings.{code_unit, escapes, is_high_surrogate, is_low_surrogate};

use crate::bytes::{behind, byte_at, is_comment_byte};
use crate::quoted::Step;

#[tactic(auto, unfolding(crate::specs::Scanning::string_step))]
pub(crate) fn string_step(bytes: &[u8]) -> Step
    ensures { result ≡ string_step bytes.now }
{
    match byte_at(bytes, 0) {
        b'"' => Step::Ends(1),
        b'\\' => escape_step(byte_at(bytes, 1), bytes),
        b => plain_step(b),
    }
}

fn plain_step(b: u8) -> Step
    ensures { result ≡ (if is_comment_byte b then Step.Goes 1 else Step.Fails) }
{
    if is_comment_byte(b) {
        Step::Goes(1)
    } else {
        Step::Fails
    }
}

// An escape, by the byte behind the backslash.
fn escape_step(b: u8, bytes: &[u8]) -> Step
    ensures { result ≡ escape_step b bytes.now }
{
    if b == b'u' {
        unit_step(bytes)
    } else {
        escaped_step(b)
    }
}

fn escaped_step(b: u8) -> Step
    ensures { result ≡ escaped_step (look_up b escapes) }
{
    match escaped(b) {
        Some(_) => Step::Goes(2),
        None => Step::Fails,
    }
}

// What an escaped character stands for.
pub(crate) fn escaped(b: u8) -> Option<u8>
    ensures { result ≡ look_up b escapes }
{
    match b {
        b'"' => Some(b'"'),
        b'\\' => Some(b'\\'),
        b'/' => Some(b'/'),
        b'b' => Some(8),
        b'f' => Some(12),
        b'n' => Some(10),
        b'r' => Some(13),
        b't' => Some(9),
        _ => None,
    }
}

// A code unit, or two that make a pair.
fn unit_step(bytes: &[u8]) -> Step
    ensures { result ≡ unit_step bytes.now (unit_at bytes.now) }
{
    let Some(unit) = unit_at(bytes) else {
        return Step::Fails;
    };
    if is_high_surrogate(unit) {
        second_step(unit_at(behind(bytes, 6)))
    } else if is_low_surrogate(unit) {
        Step::Fails
    } else {
        Step::Goes(6)
    }
}

fn second_step(second: Option<u32>) -> Step
    ensures { result ≡ second_step second }
{
    match second {
        Some(low) if is_low_surrogate(low) => Step::Goes(12),
        _ => Step::Fails,
    }
}

pub(crate) fn is_high_surrogate(unit: u32) -> bool
    ensures { result ≡ is_high_surrogate unit }
{
    (0xd800..=0xdbff).contains(&unit)
}

pub(crate) fn is_low_surrogate(unit: u32) -> bool
    ensures { result ≡ is_low_surrogate unit }
{
    (0xdc00..=0xdfff).contains(&unit)
}

// The code unit of an escape at the front.
pub(crate) fn unit_at(bytes: &[u8]) -> Option<u32>
    ensures { result ≡ unit_at bytes.now }
{
    let (a, b, c, d) = (
        byte_at(bytes, 2),
        byte_at(bytes, 3),
        byte_at(bytes, 4),
        byte_at(bytes, 5),
    );
    if byte_at(bytes, 0) == b'\\'
        && byte_at(bytes, 1) == b'u'
        && a.is_ascii_hexdigit()
        && b.is_ascii_hexdigit()
        && c.is_ascii_hexdigit()
        && d.is_ascii_hexdigit()
    {
        Some(code_unit(a, b, c, d))
    } else {
        None
    }
}

fn code_unit(a: u8, b: u8, c: u8, d: u8) -> u32
    ensures { result ≡ code_unit a b c d }
{
    4096 * digit_value(a) + 256 * digit_value(b) + 16 * digit_value(c) + digit_value(d)
}

// The value of a digit or a letter as one.
fn digit_value(b: u8) -> u32
    ensures value { result ≡ digit_value b }
    ensures small { result ≤ 36 }
{
    match char::from(b).to_digit(36) {
        Some(value) => value,
        None => 36,
    }
}
