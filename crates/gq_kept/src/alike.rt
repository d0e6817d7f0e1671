//! Whether a text has the tokens that it had, and so defines types that the rules do not tell from those before.
ghost use Rattle.std.specs.Prelude.{◌≡◌, ◌⊎◌, ◌<◌, ◌≤◌, ◌++◌, true, false, Some, length, map, slice_get};
ghost use Rattle.gq_lex.specs.Bytes.{is_line_terminator};
ghost use Rattle.gq_lex.specs.Tokens.{lexeme_of};
ghost use Rattle.gq_laws.specs.Placing.Tokens.{BeginsLine, CanBeCut, ReadAlike, spelling_of};
ghost use Rattle.gq_kept.specs.Helping.ReadsOn.{HasTokens, ReadsOn, has_tree};
ghost use Rattle.gq_project.specs.declared.document.Doc.{Doc};
ghost use Rattle.gq_tree.specs.Readings.{shared_view};

use crate::sameness::{common_back, common_front};
use gq_laws::places::lines_read_apart;
use gq_lex::{Token, lex};
use gq_project::Doc;
use gq_tree::Parsed;
use std::alloc::Global;
use std::str::from_utf8;
use std::sync::Arc;

/// Whether both are of one kind and have the same text.
fn is_spelled_alike(token: &Token<'_>, other: &Token<'_>) -> bool
    ensures { result ≡ true → spelling_of (lexeme_of token.now) ≡ spelling_of (lexeme_of other.now) }
{
    token.kind == other.kind && token.text == other.text
}

/// Whether the tokens are the same but for their places.
fn are_spelled_alike(tokens: &[Token<'_>], others: &[Token<'_>]) -> bool
    ensures { result ≡ true → map spelling_of (map lexeme_of tokens.now) ≡ map spelling_of (map lexeme_of others.now) }
{
    if tokens.len() != others.len() {
        return false;
    }
    for at in 0..tokens.len() {
        if !is_spelled_alike(&tokens[at], &others[at]) {
            return false;
        }
    }
    true
}

/// Whether the bytes are a text that reads as tokens; not, where memory is refused.
fn has_tokens(alloc: Global, bytes: &[u8]) -> bool
    ensures { result ≡ true → HasTokens bytes.now }
{
    let Ok(text) = from_utf8(bytes) else {
        return false;
    };
    lex(alloc, text).is_ok()
}

/// Whether both texts read as tokens that are the same but for their places; not, where memory is refused.
fn are_read_alike(alloc: Global, bytes: &[u8], others: &[u8]) -> bool
    ensures { result ≡ true → ReadAlike bytes.now others.now }
{
    let Ok(text) = from_utf8(bytes) else {
        return false;
    };
    let Ok(other) = from_utf8(others) else {
        return false;
    };
    let Ok(tokens) = lex(alloc, text) else {
        return false;
    };
    let Ok(others) = lex(alloc, other) else {
        return false;
    };
    are_spelled_alike(&tokens, &others)
}

/// Whether a line ends there.
fn is_line_end(byte: u8) -> bool
    ensures { result ≡ is_line_terminator byte }
{
    byte == b'\n' || byte == b'\r'
}

/// Whether the bytes begin with a line end, or are none.
fn begins_line(bytes: &[u8]) -> bool
    ensures { result ≡ true → BeginsLine bytes.now }
{
    match bytes.first() {
        Some(byte) => is_line_end(*byte),
        None => true,
    }
}

/// Whether a text can be cut there.
fn can_be_cut(front: &[u8], rest: &[u8]) -> bool
    ensures { result ≡ true → CanBeCut front.now rest.now }
{
    front.is_empty() || begins_line(rest)
}

/// The place of the last line end among so many bytes, or 0.
fn last_line_end(text: &[u8], count: usize) -> usize
    requires { count ≤ length text.now }
    ensures { result ≤ count }
{
    for back in 0..count {
        if is_line_end(text[count - 1 - back]) {
            return count - 1 - back;
        }
    }
    0
}

/// How many bytes there are from the first line end among so many bytes at the end, or 0.
fn from_line_end(text: &[u8], count: usize) -> usize
    requires { count ≤ length text.now }
    ensures { result ≤ count }
{
    for gone in 0..count {
        if is_line_end(text[text.len() - count + gone]) {
            return count - gone;
        }
    }
    0
}

/// Whether the rest, but for so many bytes at its end, is exchanged for lines with the same tokens behind that front.
fn are_exchanged(alloc: Global, front: &[u8], rest: &[u8], other: &[u8], back: usize) -> bool
    requires rest { back ≤ length rest.now }
    requires other { back ≤ length other.now }
    ensures { result ≡ true → ReadsOn (front.now ++ rest.now) (front.now ++ other.now) }
{
    lines_read_apart();
    let (old, behind) = rest.split_at(rest.len() - back);
    let (new, last) = other.split_at(other.len() - back);
    behind == last
        && begins_line(behind)
        && can_be_cut(front, rest)
        && can_be_cut(front, other)
        && are_read_alike(alloc, old, new)
        && has_tokens(alloc, front)
}

/// Whether the other text reads as the tokens as which the first reads, but for their places. The lines in which they differ are compared, and
/// what stands before these is read; where memory is refused, they are not.
fn reads_on(alloc: Global, text: &[u8], other: &[u8]) -> bool
    ensures { result ≡ true → ReadsOn text.now other.now }
{
    let start = last_line_end(text, common_front(text, other));
    let (front, rest) = text.split_at(start);
    let (same, others) = other.split_at(start);
    let back = from_line_end(rest, common_back(rest, others));
    front == same && are_exchanged(alloc, front, rest, others, back)
}

/// Whether a text has a tree.
fn has_tree(reading: &Arc<Parsed>) -> bool
    ensures { result ≡ has_tree (shared_view reading.now) }
{
    match &**reading {
        Parsed::Tree(_) => true,
        Parsed::Syntax { .. } => false,
        Parsed::Limit { .. } => false,
    }
}

/// Whether the rules may tell the type system from the one before, where the document at that place, which reads so, gets this text: not, where
/// none was made, nor where the text has the tokens that it had.
pub(crate) fn changes_types(
    alloc: Global,
    documents: &[Doc],
    at: usize,
    reading: &Arc<Parsed>,
    text: &str,
    is_made: bool,
) -> bool
    requires { at < length documents.now }
    ensures { result ≡ false → (is_made ≡ false) ⊎
        ((has_tree (shared_view reading.now) ≡ true) × ((was : Doc) → slice_get documents.now at ≡ Some was → ReadsOn was.text text.now)) }
{
    is_made
        && !(has_tree(reading)
            && reads_on(
                alloc,
                documents[at].text.as_str().as_bytes(),
                text.as_bytes(),
            ))
}
