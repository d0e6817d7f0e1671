//! What a token does where selections are expected (section 2.4).

ghost use Rattle.std.specs.Prelude.{◌≡◌};
ghost use Rattle.gq_parse.specs.Helping.Expected.{alias_move, dots_move, dots_word_move, selection_move, selections_move, set_move};

use super::behind;
use crate::expected::{Move, Row, Symbol, Word};
use gq_lex::Kind;

// Alias (section 2.7).
pub(super) fn alias_move(kind: Kind) -> Move
    ensures { result ≡ alias_move kind }
{
    match kind {
        Kind::Colon => Move::TakesThen(Symbol::AnyName),
        _ => Move::Skips,
    }
}

// SelectionSet (section 2.4).
pub(super) fn set_move(kind: Kind, otherwise: Move) -> Move
    ensures { result ≡ set_move kind otherwise }
{
    match kind {
        Kind::BraceOpen => Move::TakesThen(Symbol::FirstSelection),
        _ => otherwise,
    }
}

pub(super) fn selection_move(kind: Kind) -> Move
    ensures { result ≡ selection_move kind }
{
    match kind {
        Kind::Name => Move::TakesThenFour(
            Symbol::OptionalAlias,
            Symbol::OptionalRow(Row::Arguments { constant: false }),
            Symbol::Directives { constant: false },
            Symbol::OptionalSet,
        ),
        Kind::Spread => Move::TakesThen(Symbol::AfterDots),
        _ => Move::Stops,
    }
}

pub(super) fn selections_move(kind: Kind) -> Move
    ensures { result ≡ selections_move kind }
{
    match kind {
        Kind::BraceClose => Move::Takes,
        _ => behind(selection_move(kind), Symbol::MoreSelections),
    }
}

// FragmentSpread and InlineFragment (sections 2.8 and 2.8.2), behind the dots.
pub(super) fn dots_move(kind: Kind, word: Word) -> Move
    ensures { result ≡ dots_move kind word }
{
    match kind {
        Kind::Name => dots_word_move(word),
        Kind::At => Move::TakesThenFour(
            Symbol::AnyName,
            Symbol::OptionalRow(Row::Arguments { constant: false }),
            Symbol::Directives { constant: false },
            Symbol::Set,
        ),
        Kind::BraceOpen => Move::TakesThen(Symbol::FirstSelection),
        _ => Move::Stops,
    }
}

fn dots_word_move(word: Word) -> Move
    ensures { result ≡ dots_word_move word }
{
    match word {
        Word::On => Move::TakesThenThree(
            Symbol::AnyName,
            Symbol::Directives { constant: false },
            Symbol::Set,
        ),
        _ => Move::TakesThen(Symbol::Directives { constant: false }),
    }
}
