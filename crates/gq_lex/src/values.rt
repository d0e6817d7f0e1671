//! What strings and block strings stand for (section 2.9.4 of the October 2021 edition, "String Value").

ghost use Rattle.std.specs.Prelude.{◌≡◌, ℕ, List, [], IfOk, IfSome, IfNone, IsSome, IsUtf8, option_map};
ghost use Rattle.gq_lex.specs.declared.token.Kind.TheVariants.{String, BlockString};
ghost use Rattle.gq_lex.specs.Decoding.{raw_at, string_at};
ghost use Rattle.gq_lex.specs.Tokens.{IsToken};
ghost use Rattle.gq_lex.specs.Values.{IsStringValue, IsBlockStringValue};

use crate::blocks::begins_quotes;
use crate::bytes::{behind, byte_at};
use crate::decoding::decoded;
use crate::lines::block_value;
use crate::quoted::Form;
use gq_text::{NoMemory, OwnedText};
use std::alloc::Global;

/// The value of a string from its text, quotation marks included (section 2.9.4, "String Value"): the bytes that its characters
/// stand for. `None` where the text is not that of a token of the kind `String`; `Err` only where a growth was refused.
pub fn string_value(alloc: Global, text: &str) -> Result<Option<OwnedText>, NoMemory>
    ensures value { IfOk result (λ found. IfSome found (λ value. IsStringValue text.now value)) }
    ensures token { IfOk result (λ found. IfSome found (λ _. IsToken String text.now [])) }
    ensures none { IfOk result (λ found. IfNone found ((after : List ℕ) → IsToken String text.now after → ⊥)) }
{
    match characters(alloc, text.as_bytes())? {
        Some(value) => Ok(owned(value)),
        None => Ok(None),
    }
}

// What the characters of a string stand for.
#[tactic(auto, unfolding(crate::specs::Decoding::string_at))]
fn characters(alloc: Global, bytes: &[u8]) -> Result<Option<Vec<u8>>, NoMemory>
    ensures { IfOk result (λ found. option_map (λ value. value.items) found ≡ string_at bytes.now) }
{
    if byte_at(bytes, 0) == b'"' {
        decoded(alloc, Form::Plain, behind(bytes, 1))
    } else {
        Ok(None)
    }
}

/// The value of a block string from its text, quotation marks included (section 2.9.4, "Block Strings"): its lines without
/// the indent that they share and without blank ones at both ends, joined by New Lines. `None` where the text is not that of a
/// token of the kind `BlockString`; `Err` only where a growth was refused.
pub fn block_string_value(alloc: Global, text: &str) -> Result<Option<OwnedText>, NoMemory>
    ensures value { IfOk result (λ found. IfSome found (λ value. IsBlockStringValue text.now value)) }
    ensures token { IfOk result (λ found. IfSome found (λ _. IsToken BlockString text.now [])) }
    ensures none { IfOk result (λ found. IfNone found ((after : List ℕ) → IsToken BlockString text.now after → ⊥)) }
{
    match raw(alloc, text.as_bytes())? {
        Some(raw) => Ok(owned(block_value(alloc, &raw)?)),
        None => Ok(None),
    }
}

// What the characters of a block string stand for.
#[tactic(auto, unfolding(crate::specs::Decoding::raw_at))]
fn raw(alloc: Global, bytes: &[u8]) -> Result<Option<Vec<u8>>, NoMemory>
    ensures { IfOk result (λ found. option_map (λ value. value.items) found ≡ raw_at bytes.now) }
{
    if begins_quotes(bytes) {
        decoded(alloc, Form::Block, behind(bytes, 3))
    } else {
        Ok(None)
    }
}

// The text of these bytes, if they are one.
fn owned(bytes: Vec<u8>) -> Option<OwnedText>
    ensures some { IsUtf8 bytes.items → IsSome result }
    ensures same { IfSome result (λ text. text ≡ bytes.items) }
{
    match String::from_utf8(bytes) {
        Ok(text) => Some(OwnedText::from_string(text)),
        Err(_) => None,
    }
}
