//! What stands at an offset, by the tokens of a text.
ghost use Rattle.std.specs.Prelude.{◌≡◌, map, nat_le};
ghost use Rattle.std.specs.Option.{option_map};
ghost use Rattle.gq_lex.specs.Tokens.{lexeme_of};
ghost use Rattle.gq_document.specs.Last.{find_last};
ghost use Rattle.gq_completion.specs.Tokens.{is_typed_at, typed_from, token_before, kind_behind, kind_at};

use crate::completion::CompletionKind;
use gq_lex::{Kind, Token};

/// Whether the token is a name that begins before the offset and does not end before it.
fn is_typed_at(offset: usize, token: &Token<'_>) -> bool
    ensures { result ≡ is_typed_at offset (lexeme_of token.now) }
{
    match token.kind {
        Kind::Name => token.span.start < offset && offset <= token.span.end,
        _ => false,
    }
}

/// Where what is typed at the offset begins: at the start of a name that holds the offset behind its start, or ends there;
/// else at the offset.
pub(crate) fn typed_from(tokens: &[Token<'_>], offset: usize) -> usize
    ensures { result ≡ typed_from (map lexeme_of tokens.now) offset }
{
    for token in tokens {
        if is_typed_at(offset, token) {
            return token.span.start;
        }
    }
    offset
}

/// The last token that ends at the place or before it.
#[tactic(auto, using(crate::proofs::TokenLemmas::keeps_last, crate::proofs::TokenLemmas::keeps_rest))]
fn last_ending<'a>(tokens: &[Token<'a>], place: usize) -> Option<Token<'a>>
    ensures { option_map lexeme_of result ≡ find_last (λ t. nat_le t.span.end place) (map lexeme_of tokens.now) }
{
    let mut last = None;
    for token in tokens {
        if token.span.end <= place {
            last = Some(*token);
        }
    }
    last
}

/// The token before what is typed at the offset.
pub(crate) fn token_before<'a>(tokens: &[Token<'a>], offset: usize) -> Option<Token<'a>>
    ensures { option_map lexeme_of result ≡ token_before (map lexeme_of tokens.now) offset }
{
    let place = typed_from(tokens, offset);
    last_ending(tokens, place)
}

/// What is typed behind a token of that kind.
fn kind_behind(kind: Kind) -> CompletionKind
    ensures { result ≡ kind_behind kind }
{
    match kind {
        Kind::Spread => CompletionKind::Fragment,
        Kind::Dollar => CompletionKind::Variable,
        _ => CompletionKind::Field,
    }
}

/// What is typed at the offset.
pub(crate) fn kind_at(tokens: &[Token<'_>], offset: usize) -> CompletionKind
    ensures { result ≡ kind_at (map lexeme_of tokens.now) offset }
{
    match token_before(tokens, offset) {
        Some(token) => kind_behind(token.kind),
        None => CompletionKind::Field,
    }
}
