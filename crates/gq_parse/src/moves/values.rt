//! What a token does where values, directives (section 2.12) and types (section 2.11) are expected.

ghost use Rattle.std.specs.Prelude.{◌≡◌};
ghost use Rattle.gq_parse.specs.Helping.Expected.{bang_move, default_move, directives_move, object_fields_move, some_directives_move, type_move, value_move, values_move};

use super::behind;
use crate::expected::{Move, Row, Symbol};
use gq_lex::Kind;

// Value (section 2.9).
pub(super) fn value_move(constant: bool, kind: Kind) -> Move
    ensures { result ≡ value_move constant kind }
{
    match kind {
        Kind::Dollar if constant => Move::Stops,
        Kind::Dollar => Move::TakesThen(Symbol::AnyName),
        Kind::Int | Kind::Float | Kind::String | Kind::BlockString | Kind::Name => Move::Takes,
        Kind::BracketOpen => Move::TakesThen(Symbol::MoreValues { constant }),
        Kind::BraceOpen => Move::TakesThen(Symbol::MoreObjectFields { constant }),
        _ => Move::Stops,
    }
}

pub(super) fn values_move(constant: bool, kind: Kind) -> Move
    ensures { result ≡ values_move constant kind }
{
    match kind {
        Kind::BracketClose => Move::Takes,
        _ => behind(value_move(constant, kind), Symbol::MoreValues { constant }),
    }
}

pub(super) fn object_fields_move(constant: bool, kind: Kind) -> Move
    ensures { result ≡ object_fields_move constant kind }
{
    match kind {
        Kind::BraceClose => Move::Takes,
        Kind::Name => Move::TakesThenThree(
            Symbol::Colon,
            Symbol::Value { constant },
            Symbol::MoreObjectFields { constant },
        ),
        _ => Move::Stops,
    }
}

// DefaultValue (section 2.10).
pub(super) fn default_move(kind: Kind) -> Move
    ensures { result ≡ default_move kind }
{
    match kind {
        Kind::Equals => Move::TakesThen(Symbol::Value { constant: true }),
        _ => Move::Skips,
    }
}

// Directives (section 2.12).
pub(super) fn directives_move(constant: bool, kind: Kind) -> Move
    ensures { result ≡ directives_move constant kind }
{
    match kind {
        Kind::At => Move::TakesThenThree(
            Symbol::AnyName,
            Symbol::OptionalRow(Row::Arguments { constant }),
            Symbol::Directives { constant },
        ),
        _ => Move::Skips,
    }
}

pub(super) fn some_directives_move(kind: Kind) -> Move
    ensures { result ≡ some_directives_move kind }
{
    match kind {
        Kind::At => Move::TakesThenThree(
            Symbol::AnyName,
            Symbol::OptionalRow(Row::Arguments { constant: true }),
            Symbol::Directives { constant: true },
        ),
        _ => Move::Stops,
    }
}

// Type (section 2.11).
pub(super) fn type_move(kind: Kind) -> Move
    ensures { result ≡ type_move kind }
{
    match kind {
        Kind::Name => Move::TakesThen(Symbol::OptionalBang),
        Kind::BracketOpen => {
            Move::TakesThenThree(Symbol::AnyType, Symbol::CloseBracket, Symbol::OptionalBang)
        }
        _ => Move::Stops,
    }
}

pub(super) fn bang_move(kind: Kind) -> Move
    ensures { result ≡ bang_move kind }
{
    match kind {
        Kind::Bang => Move::Takes,
        _ => Move::Skips,
    }
}
