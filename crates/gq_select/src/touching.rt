//! The tokens of a text that a range touches (GraphQL, October 2021, section 2.1.6).
ghost use Rattle.std.specs.Prelude.{◌≡◌, ◌≤◌, ◌^◌, ℕ, List, IfOk, find, length, map};
ghost use Rattle.std.specs.Option.{option_map};
ghost use Rattle.gq_lex.specs.Tokens.{Reads, lexeme_of};
ghost use Rattle.gq_document.specs.Last.{find_last};
ghost use Rattle.gq_select.specs.Touched.{is_touched};
ghost use Rattle.gq_select.specs.TouchedPlace.{IsTouchedPlace};

use gq_lex::laws::{faults_read_as_nothing, limits_are_passed, one_reading};
use gq_lex::{LexFault, Token, lex};
use gq_text::{NoMemory, Span};
use std::alloc::Global;

/// Whether the token shares a character with the range, which an empty range never does.
fn is_touched(range: Span, token: &Token<'_>) -> bool
    ensures { result ≡ is_touched range (lexeme_of token.now) }
{
    range.start < range.end && token.span.start < range.end && range.start < token.span.end
}

/// Where the first token that the range touches starts.
fn first_start(range: Span, tokens: &[Token<'_>]) -> Option<usize>
    ensures { result ≡ option_map (λ t. t.span.start) (find (is_touched range) (map lexeme_of tokens.now)) }
{
    for token in tokens {
        if is_touched(range, token) {
            return Some(token.span.start);
        }
    }
    None
}

/// Where the last token that the range touches ends.
#[tactic(auto, using(crate::proofs::TouchedLemmas::keeps_last_mapped, crate::proofs::TouchedLemmas::keeps_rest_mapped))]
fn last_end(range: Span, tokens: &[Token<'_>]) -> Option<usize>
    ensures { result ≡ option_map (λ t. t.span.end) (find_last (is_touched range) (map lexeme_of tokens.now)) }
{
    let mut last = None;
    for token in tokens {
        if is_touched(range, token) {
            last = Some(token.span.end);
        }
    }
    last
}

/// The place of the touched ones of these tokens.
fn touched_of(range: Span, tokens: &[Token<'_>]) -> Option<Span>
    ensures { (text : List ℕ) → Reads text (map lexeme_of tokens.now) → length tokens.now ≤ 2 ^ 20 → IsTouchedPlace text range result }
{
    one_reading();
    let start = first_start(range, tokens)?;
    let end = last_end(range, tokens)?;
    Some(Span { start, end })
}

/// From the start of the first token of the text that shares a character with the range, in bytes, to the end of the
/// last one; nothing where there is none, as where the range is empty.
pub fn touched(alloc: Global, text: &str, range: Span) -> Result<Option<Span>, NoMemory>
    ensures { IfOk result (IsTouchedPlace text.now range) }
{
    faults_read_as_nothing();
    limits_are_passed();
    one_reading();
    match lex(alloc, text) {
        Ok(tokens) => Ok(touched_of(range, &tokens)),
        Err(LexFault::NoMemory) => Err(NoMemory),
        Err(LexFault::Bad { .. }) => Ok(None),
        Err(LexFault::Limit { .. }) => Ok(None),
    }
}
