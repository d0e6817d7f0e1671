//! Numbers and leaves of a row.
ghost use Rattle.std.specs.Prelude.{◌≡◌, Some, true, decimal, IfOk, IfSome};
ghost use Rattle.std.specs.Fmt.{signed_decimal};
ghost use Rattle.json.specs.Json.{number as seen_number};
ghost use Rattle.json.specs.Reads.{token_of};
ghost use Rattle.serde_json.specs.Data.{number, negative};
ghost use Rattle.serde_json.specs.Read.{of_json, number_from};
ghost use Rattle.gq_meaning.specs.Values.{number as number_leaf};
ghost use Rattle.gq_table.specs.Json.{argument_value, leaf_of, leaf_value};
ghost use Rattle.gq_table.specs.Views.{leaf_view};
ghost use Rattle.gq_table_text.specs.Helping.ReadAs.{read_as, IsNatural, IsPlain};

use fast_float::Numeral;
use gq_table::Leaf;
use gq_text::{NoMemory, SmallText};
use itoa::Buffer;
use json::Token;
use std::alloc::Global;

/// A natural number below 2^63 as it is written in decimal.
pub(crate) fn natural(text: &str) -> Option<u64>
    ensures is { IfSome result (λ n. IsNatural (seen_number text.now) n) }
    ensures spelling { IfSome result (λ n. text.now ≡ decimal n) }
{
    let bytes = text.as_bytes();
    if bytes.is_empty() || (bytes[0] == b'0' && bytes.len() > 1) {
        return None;
    }
    let mut number = 0;
    for byte in bytes {
        if !byte.is_ascii_digit() || number >= 1 << 60 {
            return None;
        }
        number = number * 10 + u64::from(*byte - b'0');
    }
    if number < 1 << 63 { Some(number) } else { None }
}

/// A number below 0 by its digits.
fn below_zero(digits: &Numeral<'_>) -> Option<i64>
    ensures { IfSome result (λ z. number_from true digits.now ≡ Some (negative z)) }
{
    let number = digits.to_i64(true)?;
    if number < 0 { Some(number) } else { None }
}

/// A negative integer of 64 bits in digits alone.
fn negative(text: &str) -> Option<i64>
    ensures { IfSome result (λ z. of_json (seen_number text.now) ≡ Some (number (negative z))) }
{
    let bytes = text.as_bytes();
    if bytes.is_empty() || bytes[0] != b'-' {
        return None;
    }
    below_zero(&Numeral::scan(&bytes[1..]))
}

/// A negative number as a leaf.
fn negative_leaf(alloc: Global, number: i64) -> Result<Leaf, NoMemory>
    ensures { IfOk result (λ leaf. leaf_view leaf ≡ number_leaf (signed_decimal number)) }
{
    let mut digits = Buffer::new();
    let text = digits.format(number);
    Ok(Leaf::Number(SmallText::from_str(alloc, text)?))
}

/// An integer.
fn integer(alloc: Global, text: &str) -> Result<Option<Leaf>, NoMemory>
    ensures leaf { IfOk result (λ o. IfSome o (λ leaf. read_as leaf_of (seen_number text.now) ≡ Some (leaf_view leaf))) }
    ensures argument { IfOk result (λ o. IfSome o (λ leaf. read_as argument_value (seen_number text.now) ≡ Some (leaf_value (leaf_view leaf)))) }
{
    if let Some(_) = natural(text) {
        return Ok(Some(Leaf::Number(SmallText::from_str(alloc, text)?)));
    }
    match negative(text) {
        Some(number) => Ok(Some(negative_leaf(alloc, number)?)),
        None => Ok(None),
    }
}

/// A boolean, a text or an integer.
pub(crate) fn leaf(alloc: Global, token: Token<'_>) -> Result<Option<Leaf>, NoMemory>
    ensures { IfOk result (λ o. IfSome o (λ leaf. IsPlain (token_of token.entry) (leaf_view leaf))) }
{
    match token {
        Token::Bool(b) => Ok(Some(Leaf::Boolean(b))),
        Token::String(text) => Ok(Some(Leaf::Text(SmallText::from_str(alloc, text)?))),
        Token::Number(text) => integer(alloc, text),
        _ => Ok(None),
    }
}
