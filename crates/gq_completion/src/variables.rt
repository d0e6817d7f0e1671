//! The names of variables in a text (GraphQL, October 2021, section 2.10).
ghost use Rattle.std.specs.Prelude.{◌≡◌, ◌↔◌, ℕ, false, List, IfOk, Contains, map};
ghost use Rattle.std.specs.Option.{option_map};
ghost use Rattle.gq_lex.specs.Tokens.{lexeme_of};
ghost use Rattle.gq_completion.specs.Tokens.{is_name, token_before, IsOtherVariable};
ghost use Rattle.gq_completion.specs.Helping.Variables.{is_other_dollar, names_behind};

use crate::tokens::token_before;
use gq_lex::{Kind, Token};
use gq_text::{NoMemory, OwnedText};
use std::alloc::Global;

/// Whether the token is a `$` that begins at another place.
fn is_other_dollar(place: Option<usize>, token: &Token<'_>) -> bool
    ensures { result ≡ is_other_dollar place (lexeme_of token.now) }
{
    match token.kind {
        Kind::Dollar => match place {
            Some(start) => token.span.start != start,
            None => true,
        },
        _ => false,
    }
}

fn is_name(kind: Kind) -> bool
    ensures { result ≡ is_name kind }
{
    match kind {
        Kind::Name => true,
        _ => false,
    }
}

/// The names right behind each `$`, but for the one at that place.
fn names_behind(
    alloc: Global,
    place: Option<usize>,
    tokens: &[Token<'_>],
) -> Result<Vec<OwnedText>, NoMemory>
    ensures { IfOk result (λ names. names.items ≡ names_behind place false (map lexeme_of tokens.now)) }
{
    let mut names = Vec::new(alloc);
    let mut behind = false;
    for token in tokens {
        if behind && is_name(token.kind) {
            names.push(OwnedText::from_str(alloc, token.text)?)?;
        }
        behind = is_other_dollar(place, token);
    }
    Ok(names)
}

/// Where the token before what is typed at the offset begins.
fn place_before(tokens: &[Token<'_>], offset: usize) -> Option<usize>
    ensures { result ≡ option_map (λ t. t.span.start) (token_before (map lexeme_of tokens.now) offset) }
{
    match token_before(tokens, offset) {
        Some(token) => Some(token.span.start),
        None => None,
    }
}

/// The names behind the `$` of a text, but for the one before what is typed at the offset.
pub(crate) fn other_variables(
    alloc: Global,
    tokens: &[Token<'_>],
    offset: usize,
) -> Result<Vec<OwnedText>, NoMemory>
    ensures { IfOk result (λ names. (label : List ℕ) → Contains names.items label ↔ IsOtherVariable (map lexeme_of tokens.now) offset label) }
{
    let place = place_before(tokens, offset);
    names_behind(alloc, place, tokens)
}
