//! How long the number at the front of a text is.

ghost use Rattle.std.specs.Prelude.{◌≡◌, ℕ, ◌+◌, ◌≤◌, IfSome, length};
ghost use Rattle.std.specs.List.{prefix_len};
ghost use Rattle.gq_lex.specs.Bytes.{is_digit};
ghost use Rattle.gq_lex.specs.Scanning.{behind_sign, ended_at, exponent_len, fraction_len, integer_len, number_at, some_digits, unsigned_len};
ghost use Rattle.gq_lex.specs.Numbers.{is_exponent_indicator, is_number_continue, is_sign};

use crate::bytes::{byte_at, digits_len, is_digit, is_name_start};
use crate::token::{BadKind, Kind};

// The number at the front: its kind, and its length.
#[tactic(auto, unfolding(crate::specs::Scanning::number_at))]
pub(crate) fn number(bytes: &[u8]) -> Result<(Option<Kind>, usize), BadKind>
    ensures { result ≡ number_at bytes.now }
{
    let integer = integer_len(bytes);
    if integer == 0 {
        return Err(BadKind::Number);
    }
    let Some(fraction) = fraction_len(&bytes[integer..]) else {
        return Err(BadKind::Number);
    };
    let Some(exponent) = exponent_len(&bytes[integer + fraction..]) else {
        return Err(BadKind::Number);
    };
    ended(bytes, integer, fraction + exponent)
}

// A number of so many bytes, by what follows it.
fn ended(bytes: &[u8], integer: usize, others: usize) -> Result<(Option<Kind>, usize), BadKind>
    requires { integer + others ≤ length bytes.now }
    ensures { result ≡ ended_at bytes.now integer others }
{
    let kind = if others == 0 { Kind::Int } else { Kind::Float };
    if is_number_continue(byte_at(bytes, integer + others)) {
        Err(BadKind::Number)
    } else {
        Ok((Some(kind), integer + others))
    }
}

fn is_exponent_indicator(b: u8) -> bool
    ensures { result ≡ is_exponent_indicator b }
{
    b == b'e' || b == b'E'
}

fn is_sign(b: u8) -> bool
    ensures { result ≡ is_sign b }
{
    b == b'+' || b == b'-'
}

fn is_number_continue(b: u8) -> bool
    ensures { result ≡ is_number_continue b }
{
    is_digit(b) || b == b'.' || is_name_start(b)
}

// The length of the number without a sign at the front, 0 where none stands.
fn unsigned_len(bytes: &[u8]) -> usize
    ensures len { result ≡ unsigned_len bytes.now }
    ensures within { result ≤ length bytes.now }
{
    if byte_at(bytes, 0) == b'0' {
        1
    } else {
        digits_len(bytes)
    }
}

// The length of the IntegerPart at the front, 0 where none stands.
fn integer_len(bytes: &[u8]) -> usize
    ensures len { result ≡ integer_len bytes.now }
    ensures within { result ≤ length bytes.now }
{
    if byte_at(bytes, 0) != b'-' {
        return unsigned_len(bytes);
    }
    let unsigned = unsigned_len(&bytes[1..]);
    if unsigned == 0 { 0 } else { 1 + unsigned }
}

// The length of digits, of which there must be some, and what stands before them.
fn some_digits(before: usize, digits: &[u8]) -> Option<usize>
    requires { before ≤ 2 }
    ensures len { result ≡ some_digits before (prefix_len is_digit digits.now) }
    ensures within { IfSome result (λ n. n ≤ before + length digits.now) }
{
    let len = digits_len(digits);
    if len == 0 { None } else { Some(before + len) }
}

// The length of the FractionalPart at the front, 0 where none begins; `None` where it begins and has no digit.
fn fraction_len(bytes: &[u8]) -> Option<usize>
    ensures len { result ≡ fraction_len bytes.now }
    ensures within { IfSome result (λ n. n ≤ length bytes.now) }
{
    if byte_at(bytes, 0) == b'.' {
        some_digits(1, &bytes[1..])
    } else {
        Some(0)
    }
}

// The length of the ExponentPart at the front, 0 where none begins; `None` where it begins and has no digit.
fn exponent_len(bytes: &[u8]) -> Option<usize>
    ensures len { result ≡ exponent_len bytes.now }
    ensures within { IfSome result (λ n. n ≤ length bytes.now) }
{
    if !is_exponent_indicator(byte_at(bytes, 0)) {
        Some(0)
    } else if is_sign(byte_at(bytes, 1)) {
        some_digits(2, &bytes[2..])
    } else {
        some_digits(1, &bytes[1..])
    }
}
