//! What a token does where a symbol is expected.

ghost use Rattle.std.specs.Prelude.{◌≡◌};
ghost use Rattle.gq_parse.specs.Helping.Expected.{behind, move, name_move};

mod definitions;
mod names;
mod rows;
mod selections;
mod series;
mod values;

use self::definitions::{
    definition_move, described_move, extension_move, members_move, optional_implements_move,
    repeatable_move, type_parts_move,
};
use self::names::{
    at_move, bracket_move, colon_move, not_on_move, on_word_move, optional_name_move,
    value_word_stops,
};
use self::rows::{more_move, part_move, parts_move, row_move};
use self::selections::{alias_move, dots_move, selection_move, selections_move, set_move};
use self::series::{separator_move, series_word_move};
use self::values::{
    bang_move, default_move, directives_move, object_fields_move, some_directives_move, type_move,
    value_move, values_move,
};
use crate::expected::{Move, Symbol, Word};
use gq_lex::Kind;

/// What a token of this kind, whose text is this word, does where the symbol is expected.
pub(crate) fn move_of(symbol: Symbol, kind: Kind, word: Word) -> Move
    ensures { result ≡ move symbol kind word }
{
    match symbol {
        Symbol::AnyName => name_move(kind, Move::Takes),
        Symbol::FragmentName => name_move(kind, not_on_move(word, Move::Takes)),
        Symbol::EnumValueName => name_move(kind, value_word_stops(word, Move::Takes)),
        Symbol::OnWord => name_move(kind, on_word_move(word)),
        Symbol::Colon => colon_move(kind),
        Symbol::AtSign => at_move(kind),
        Symbol::CloseBracket => bracket_move(kind),
        Symbol::Value { constant } => value_move(constant, kind),
        Symbol::MoreValues { constant } => values_move(constant, kind),
        Symbol::MoreObjectFields { constant } => object_fields_move(constant, kind),
        Symbol::Directives { constant } => directives_move(constant, kind),
        Symbol::SomeDirectives => some_directives_move(kind),
        Symbol::OptionalRow(row) => row_move(row, kind, Move::Skips),
        Symbol::WholeRow(row) => row_move(row, kind, Move::Stops),
        Symbol::FirstOf(row) => behind(part_move(row, kind, word), Symbol::MoreOf(row)),
        Symbol::MoreOf(row) => more_move(row, kind, word),
        Symbol::PartsWith(row) => {
            parts_move(
                kind,
                Symbol::OptionalRow(row),
                row_move(row, kind, Move::Stops),
            )
        }
        Symbol::LedSeries(series) => {
            separator_move(
                series,
                kind,
                name_move(kind, series_word_move(series, word)),
            )
        }
        Symbol::SeriesPart(series) => name_move(kind, series_word_move(series, word)),
        Symbol::MoreParts(series) => separator_move(series, kind, Move::Skips),
        Symbol::OptionalDefault => default_move(kind),
        Symbol::AnyType => type_move(kind),
        Symbol::OptionalBang => bang_move(kind),
        Symbol::OptionalName => optional_name_move(kind),
        Symbol::OptionalAlias => alias_move(kind),
        Symbol::Set => set_move(kind, Move::Stops),
        Symbol::OptionalSet => set_move(kind, Move::Skips),
        Symbol::FirstSelection => behind(selection_move(kind), Symbol::MoreSelections),
        Symbol::MoreSelections => selections_move(kind),
        Symbol::AfterDots => dots_move(kind, word),
        Symbol::Definition => definition_move(kind, word),
        Symbol::Described => name_move(kind, described_move(word)),
        Symbol::Extension => name_move(kind, extension_move(word)),
        Symbol::ExtendedScalar => name_move(kind, Move::TakesThen(Symbol::SomeDirectives)),
        Symbol::TypeParts => type_parts_move(kind, word),
        Symbol::UnionParts => {
            parts_move(
                kind,
                Symbol::OptionalMembers,
                members_move(kind, Move::Stops),
            )
        }
        Symbol::OptionalImplements => optional_implements_move(kind, word),
        Symbol::OptionalMembers => members_move(kind, Move::Skips),
        Symbol::OptionalRepeatable => name_move(kind, repeatable_move(word)),
    }
}

// What a token leaves that begins a phrase, with a symbol behind it. A phrase that begins so takes its first token.
pub(crate) fn behind(moved: Move, symbol: Symbol) -> Move
    ensures { result ≡ behind moved symbol }
{
    match moved {
        Move::Takes => Move::TakesThen(symbol),
        Move::TakesThen(a) => Move::TakesThenTwo(a, symbol),
        Move::TakesThenTwo(a, b) => Move::TakesThenThree(a, b, symbol),
        Move::TakesThenThree(a, b, c) => Move::TakesThenFour(a, b, c, symbol),
        Move::TakesThenFour(a, b, c, d) => Move::TakesThenFive(a, b, c, d, symbol),
        Move::TakesThenFive(a, b, c, d, e) => Move::TakesThenSix(a, b, c, d, e, symbol),
        Move::TakesThenSix(..) | Move::Skips | Move::Stops => Move::Stops,
    }
}

pub(crate) fn name_move(kind: Kind, at_name: Move) -> Move
    ensures { result ≡ name_move kind at_name }
{
    match kind {
        Kind::Name => at_name,
        _ => Move::Stops,
    }
}
