//! What a token does where one token is expected.

ghost use Rattle.std.specs.Prelude.{◌≡◌};
ghost use Rattle.gq_parse.specs.Helping.Expected.{at_move, bracket_move, colon_move, not_on_move, on_word_move, optional_name_move, value_word_stops};

use crate::expected::{Move, Word};
use gq_lex::Kind;

pub(super) fn not_on_move(word: Word, otherwise: Move) -> Move
    ensures { result ≡ not_on_move word otherwise }
{
    match word {
        Word::On => Move::Stops,
        _ => otherwise,
    }
}

pub(super) fn on_word_move(word: Word) -> Move
    ensures { result ≡ on_word_move word }
{
    match word {
        Word::On => Move::Takes,
        _ => Move::Stops,
    }
}

pub(super) fn value_word_stops(word: Word, otherwise: Move) -> Move
    ensures { result ≡ value_word_stops word otherwise }
{
    match word {
        Word::True | Word::False | Word::Null => Move::Stops,
        _ => otherwise,
    }
}

pub(super) fn colon_move(kind: Kind) -> Move
    ensures { result ≡ colon_move kind }
{
    match kind {
        Kind::Colon => Move::Takes,
        _ => Move::Stops,
    }
}

pub(super) fn at_move(kind: Kind) -> Move
    ensures { result ≡ at_move kind }
{
    match kind {
        Kind::At => Move::Takes,
        _ => Move::Stops,
    }
}

pub(super) fn bracket_move(kind: Kind) -> Move
    ensures { result ≡ bracket_move kind }
{
    match kind {
        Kind::BracketClose => Move::Takes,
        _ => Move::Stops,
    }
}

pub(super) fn optional_name_move(kind: Kind) -> Move
    ensures { result ≡ optional_name_move kind }
{
    match kind {
        Kind::Name => Move::Takes,
        _ => Move::Skips,
    }
}
