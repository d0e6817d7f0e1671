//! Reads the tokens of a text: what stands at a place, and from there to the end.

ghost use Rattle.std.specs.Prelude.{◌-◌, ◌≡◌, ℕ, ◌+◌, ◌^◌, ◌<◌, ◌≤◌, ◌++◌, ◌∷◌, [], IfOk, IfErr, OnOk, length, map, take, drop};
ghost use Rattle.std.specs.Str.{IsCharBoundary};
ghost use Rattle.gq_lex.specs.declared.token.BadKind.{BadKind};
ghost use Rattle.gq_lex.specs.Bytes.{punctuator};
ghost use Rattle.gq_lex.specs.Helping.Reading.{class_of, sign_class, piece_at, whole_at, Found, IsFaulty};
ghost use Rattle.gq_lex.specs.Tokens.{Reads, IsBadAt, IsLimitAt, lexeme_of};

use crate::bytes::{comment_len, is_blank, is_name_start, is_number_start, name_len};
use crate::numbers::number;
use crate::quoted::quoted;
use crate::token::{BadKind, Kind, LexFault, TOKENS_MAX, Token};
use gq_text::Span;
use std::alloc::Global;

/// The tokens of a text, in order (sections 2.1.6 to 2.1.9, 2.9.1, 2.9.2, 2.9.4). `Err` tells what stands first in the text: what cannot be
/// read, or the start of one token too many; `LexFault::NoMemory` only where a growth was refused.
pub fn lex<'a>(alloc: Global, text: &'a str) -> Result<Vec<Token<'a>>, LexFault>
    // The tokens are those that the text reads as.
    ensures found { IfOk result (λ tokens. Reads text.now (map lexeme_of tokens.items)) }
    ensures few { IfOk result (λ tokens. length tokens.items ≤ 2 ^ 20) }
    // What a fault says.
    ensures bad { (place : ℕ) (kind : BadKind) → result ≡ Err (LexFault.Bad place kind) → IsBadAt text.now place kind }
    ensures limit { (place : ℕ) → result ≡ Err (LexFault.Limit place) → IsLimitAt text.now place }
{
    let mut tokens = no_tokens(alloc, text.len())?;
    let mut at = 0;
    while at < text.len() {
        let (kind, len) = match front(text, at) {
            Ok(found) => found,
            Err(kind) => return Err(LexFault::Bad { place: at, kind }),
        };
        let end = at + len;
        if let Some(kind) = kind {
            if tokens.len() == TOKENS_MAX {
                return Err(LexFault::Limit { place: at });
            }
            let token = Token {
                kind,
                span: Span { start: at, end },
                text: cut(text, at, end),
            };
            put(&mut tokens, token)?;
        }
        at = end;
    }
    Ok(tokens)
}

/// No tokens, with room for those of a text of so many bytes, one in four of which begins a token.
fn no_tokens<'a>(alloc: Global, bytes: usize) -> Result<Vec<Token<'a>>, LexFault>
    ensures none { IfOk result (λ tokens. tokens.items ≡ []) }
    ensures err { IfErr result (λ fault. fault ≡ LexFault.NoMemory) }
{
    match Vec::with_capacity(alloc, TOKENS_MAX.min(bytes / 4)) {
        Ok(tokens) => Ok(tokens),
        Err(_) => Err(LexFault::NoMemory),
    }
}

// One more token.
fn put<'a>(tokens: &mut Vec<Token<'a>>, token: Token<'a>) -> Result<(), LexFault>
    ensures ok { OnOk result (map lexeme_of tokens.new.items ≡ map lexeme_of tokens.old.items ++ lexeme_of token.entry ∷ []) }
    ensures more { OnOk result (length tokens.new.items ≡ length tokens.old.items + 1) }
    ensures err { IfErr result (λ fault. fault ≡ LexFault.NoMemory) }
{
    tokens.push(token)?;
    Ok(())
}

// The text from start to end.
fn cut<'a>(text: &'a str, start: usize, end: usize) -> &'a str
    requires start { IsCharBoundary text.now start }
    requires end { IsCharBoundary text.now end }
    requires order { start ≤ end }
    ensures { result.now ≡ take (end - start) (drop start text.now) }
{
    &text[start..end]
}

fn punctuator(b: u8) -> Option<Kind>
    ensures { result ≡ punctuator b }
{
    match b {
        b'!' => Some(Kind::Bang),
        b'$' => Some(Kind::Dollar),
        b'&' => Some(Kind::Ampersand),
        b'(' => Some(Kind::ParenOpen),
        b')' => Some(Kind::ParenClose),
        b':' => Some(Kind::Colon),
        b'=' => Some(Kind::Equals),
        b'@' => Some(Kind::At),
        b'[' => Some(Kind::BracketOpen),
        b']' => Some(Kind::BracketClose),
        b'{' => Some(Kind::BraceOpen),
        b'|' => Some(Kind::Pipe),
        b'}' => Some(Kind::BraceClose),
        _ => None,
    }
}

// What a byte at the front begins.
#[derive(Clone, Copy)]
enum Class {
    Blank,
    Mark,
    Hash,
    Dot,
    Letter,
    Figure,
    Quotation,
    Sign(Kind),
    Other,
}

fn class_of(b: u8) -> Class
    ensures { result ≡ class_of b }
{
    if is_blank(b) {
        Class::Blank
    } else if is_name_start(b) {
        Class::Letter
    } else if is_number_start(b) {
        Class::Figure
    } else {
        match b {
            0xef => Class::Mark,
            b'#' => Class::Hash,
            b'.' => Class::Dot,
            b'"' => Class::Quotation,
            _ => sign_class(b),
        }
    }
}

fn sign_class(b: u8) -> Class
    ensures { result ≡ sign_class (punctuator b) }
{
    match punctuator(b) {
        Some(kind) => Class::Sign(kind),
        None => Class::Other,
    }
}

// What stands in a text at a place: its kind, if it is a token, and its length.
fn front(text: &str, at: usize) -> Result<(Option<Kind>, usize), BadKind>
    requires { at < length text.now }
    ensures found { IfOk result (Found (drop at text.now)) }
    ensures faulty { IfErr result (IsFaulty (drop at text.now)) }
{
    let (_, rest) = text.as_bytes().split_at(at);
    piece(rest)
}

// What stands at the front: its kind, if it is a token, and its length.
#[tactic(auto, unfolding(crate::specs::Helping::Reading::piece_at))]
fn piece(bytes: &[u8]) -> Result<(Option<Kind>, usize), BadKind>
    requires { 0 < length bytes.now }
    ensures { result ≡ piece_at bytes.now }
{
    match class_of(bytes[0]) {
        Class::Blank => Ok((None, 1)),
        Class::Mark => whole(bytes, b"\xef\xbb\xbf", None),
        Class::Hash => Ok((None, 1 + comment_len(&bytes[1..]))),
        Class::Dot => whole(bytes, b"...", Some(Kind::Spread)),
        Class::Letter => Ok((Some(Kind::Name), 1 + name_len(&bytes[1..]))),
        Class::Figure => number(bytes),
        Class::Quotation => quoted(bytes),
        Class::Sign(kind) => Ok((Some(kind), 1)),
        Class::Other => Err(BadKind::Char),
    }
}

// These bytes.
fn whole(bytes: &[u8], want: &[u8], kind: Option<Kind>) -> Result<(Option<Kind>, usize), BadKind>
    ensures { result ≡ whole_at bytes.now want.now kind }
{
    if bytes.starts_with(want) {
        Ok((kind, want.len()))
    } else {
        Err(BadKind::Char)
    }
}
