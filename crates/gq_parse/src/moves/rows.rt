//! What a token does where a row of parts is expected, or a part of one.

ghost use Rattle.std.specs.Prelude.{◌≡◌};
ghost use Rattle.gq_parse.specs.Helping.Expected.{argument_move, closes, enum_value_move, field_move, in_parens, input_move, more_move, opens, part_move, parts_move, root_word_move, row_move, variable_move};

use super::names::value_word_stops;
use super::{behind, name_move};
use crate::expected::{Move, Row, Symbol, Word};
use gq_lex::Kind;

// Argument (section 2.6).
fn argument_move(constant: bool, kind: Kind) -> Move
    ensures { result ≡ argument_move constant kind }
{
    match kind {
        Kind::Name => Move::TakesThenTwo(Symbol::Colon, Symbol::Value { constant }),
        _ => Move::Stops,
    }
}

// VariableDefinition (section 2.10).
fn variable_move(kind: Kind) -> Move
    ensures { result ≡ variable_move kind }
{
    match kind {
        Kind::Dollar => Move::TakesThenFive(
            Symbol::AnyName,
            Symbol::Colon,
            Symbol::AnyType,
            Symbol::OptionalDefault,
            Symbol::Directives { constant: true },
        ),
        _ => Move::Stops,
    }
}

// InputValueDefinition (sections 3.6.1 and 3.10).
fn input_move(kind: Kind) -> Move
    ensures { result ≡ input_move kind }
{
    match kind {
        Kind::Name => Move::TakesThenFour(
            Symbol::Colon,
            Symbol::AnyType,
            Symbol::OptionalDefault,
            Symbol::Directives { constant: true },
        ),
        Kind::String | Kind::BlockString => Move::TakesThenFive(
            Symbol::AnyName,
            Symbol::Colon,
            Symbol::AnyType,
            Symbol::OptionalDefault,
            Symbol::Directives { constant: true },
        ),
        _ => Move::Stops,
    }
}

// FieldDefinition (section 3.6).
fn field_move(kind: Kind) -> Move
    ensures { result ≡ field_move kind }
{
    match kind {
        Kind::Name => Move::TakesThenFour(
            Symbol::OptionalRow(Row::ArgumentDefinitions),
            Symbol::Colon,
            Symbol::AnyType,
            Symbol::Directives { constant: true },
        ),
        Kind::String | Kind::BlockString => Move::TakesThenFive(
            Symbol::AnyName,
            Symbol::OptionalRow(Row::ArgumentDefinitions),
            Symbol::Colon,
            Symbol::AnyType,
            Symbol::Directives { constant: true },
        ),
        _ => Move::Stops,
    }
}

// EnumValueDefinition (section 3.9).
fn enum_value_move(kind: Kind, word: Word) -> Move
    ensures { result ≡ enum_value_move kind word }
{
    match kind {
        Kind::Name => value_word_stops(
            word,
            Move::TakesThen(Symbol::Directives { constant: true }),
        ),
        Kind::String | Kind::BlockString => Move::TakesThenTwo(
            Symbol::EnumValueName,
            Symbol::Directives { constant: true },
        ),
        _ => Move::Stops,
    }
}

// RootOperationTypeDefinition (section 3.3).
fn root_word_move(word: Word) -> Move
    ensures { result ≡ root_word_move word }
{
    match word {
        Word::Query | Word::Mutation | Word::Subscription => {
            Move::TakesThenTwo(Symbol::Colon, Symbol::AnyName)
        }
        _ => Move::Stops,
    }
}

pub(super) fn part_move(row: Row, kind: Kind, word: Word) -> Move
    ensures { result ≡ part_move row kind word }
{
    match row {
        Row::Arguments { constant } => argument_move(constant, kind),
        Row::Variables => variable_move(kind),
        Row::ArgumentDefinitions | Row::InputFields => input_move(kind),
        Row::Fields => field_move(kind),
        Row::EnumValues => enum_value_move(kind, word),
        Row::Roots => name_move(kind, root_word_move(word)),
    }
}

fn in_parens(row: Row) -> bool
    ensures { result ≡ in_parens row }
{
    match row {
        Row::Arguments { .. } | Row::Variables | Row::ArgumentDefinitions => true,
        Row::InputFields | Row::Fields | Row::EnumValues | Row::Roots => false,
    }
}

fn opens(parens: bool, kind: Kind) -> bool
    ensures { result ≡ opens parens kind }
{
    match kind {
        Kind::ParenOpen => parens,
        Kind::BraceOpen => !parens,
        _ => false,
    }
}

fn closes(parens: bool, kind: Kind) -> bool
    ensures { result ≡ closes parens kind }
{
    match kind {
        Kind::ParenClose => parens,
        Kind::BraceClose => !parens,
        _ => false,
    }
}

pub(super) fn row_move(row: Row, kind: Kind, otherwise: Move) -> Move
    ensures { result ≡ row_move row kind otherwise }
{
    if opens(in_parens(row), kind) {
        Move::TakesThen(Symbol::FirstOf(row))
    } else {
        otherwise
    }
}

pub(super) fn more_move(row: Row, kind: Kind, word: Word) -> Move
    ensures { result ≡ more_move row kind word }
{
    if closes(in_parens(row), kind) {
        Move::Takes
    } else {
        behind(part_move(row, kind, word), Symbol::MoreOf(row))
    }
}

// The directives of an extension, and a part of it behind them; otherwise it has no directives.
pub(super) fn parts_move(kind: Kind, part: Symbol, otherwise: Move) -> Move
    ensures { result ≡ parts_move kind part otherwise }
{
    match kind {
        Kind::At => Move::TakesThenFour(
            Symbol::AnyName,
            Symbol::OptionalRow(Row::Arguments { constant: true }),
            Symbol::Directives { constant: true },
            part,
        ),
        _ => otherwise,
    }
}
