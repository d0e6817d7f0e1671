//! What a token does where a definition is expected (section 2.2).

ghost use Rattle.std.specs.Prelude.{◌≡◌};
ghost use Rattle.gq_parse.specs.Helping.Expected.{definition_move, definition_word_move, described_move, extension_move, implements_move, members_move, optional_implements_move, repeatable_move, type_parts_move};

use super::rows::{parts_move, row_move};
use crate::expected::{Move, Row, Series, Symbol, Word};
use gq_lex::Kind;

pub(super) fn definition_move(kind: Kind, word: Word) -> Move
    ensures { result ≡ definition_move kind word }
{
    match kind {
        Kind::Name => definition_word_move(word),
        Kind::BraceOpen => Move::TakesThen(Symbol::FirstSelection),
        Kind::String | Kind::BlockString => Move::TakesThen(Symbol::Described),
        _ => Move::Stops,
    }
}

// Definition (section 2.2) that begins with a word.
fn definition_word_move(word: Word) -> Move
    ensures { result ≡ definition_word_move word }
{
    match word {
        Word::Query | Word::Mutation | Word::Subscription => Move::TakesThenFour(
            Symbol::OptionalName,
            Symbol::OptionalRow(Row::Variables),
            Symbol::Directives { constant: false },
            Symbol::Set,
        ),
        Word::Fragment => Move::TakesThenFive(
            Symbol::FragmentName,
            Symbol::OnWord,
            Symbol::AnyName,
            Symbol::Directives { constant: false },
            Symbol::Set,
        ),
        Word::Extend => Move::TakesThen(Symbol::Extension),
        _ => described_move(word),
    }
}

// TypeSystemDefinition (section 3), behind its description.
pub(super) fn described_move(word: Word) -> Move
    ensures { result ≡ described_move word }
{
    let directives = Symbol::Directives { constant: true };
    match word {
        Word::Schema => Move::TakesThenTwo(directives, Symbol::WholeRow(Row::Roots)),
        Word::Scalar => Move::TakesThenTwo(Symbol::AnyName, directives),
        Word::Object | Word::Interface => Move::TakesThenFour(
            Symbol::AnyName,
            Symbol::OptionalImplements,
            directives,
            Symbol::OptionalRow(Row::Fields),
        ),
        Word::Union => Move::TakesThenThree(Symbol::AnyName, directives, Symbol::OptionalMembers),
        Word::Enum => Move::TakesThenThree(
            Symbol::AnyName,
            directives,
            Symbol::OptionalRow(Row::EnumValues),
        ),
        Word::Input => Move::TakesThenThree(
            Symbol::AnyName,
            directives,
            Symbol::OptionalRow(Row::InputFields),
        ),
        Word::Directive => Move::TakesThenFive(
            Symbol::AtSign,
            Symbol::AnyName,
            Symbol::OptionalRow(Row::ArgumentDefinitions),
            Symbol::OptionalRepeatable,
            Symbol::LedSeries(Series::Locations),
        ),
        _ => Move::Stops,
    }
}

// TypeSystemExtension (section 3.1), behind `extend`.
pub(super) fn extension_move(word: Word) -> Move
    ensures { result ≡ extension_move word }
{
    match word {
        Word::Schema => Move::TakesThen(Symbol::PartsWith(Row::Roots)),
        Word::Scalar => Move::TakesThen(Symbol::ExtendedScalar),
        Word::Object | Word::Interface => Move::TakesThenTwo(Symbol::AnyName, Symbol::TypeParts),
        Word::Union => Move::TakesThenTwo(Symbol::AnyName, Symbol::UnionParts),
        Word::Enum => Move::TakesThenTwo(Symbol::AnyName, Symbol::PartsWith(Row::EnumValues)),
        Word::Input => Move::TakesThenTwo(Symbol::AnyName, Symbol::PartsWith(Row::InputFields)),
        _ => Move::Stops,
    }
}

// ImplementsInterfaces (section 3.6).
fn implements_move(word: Word, moved: Move, otherwise: Move) -> Move
    ensures { result ≡ implements_move word moved otherwise }
{
    match word {
        Word::Implements => moved,
        _ => otherwise,
    }
}

pub(super) fn optional_implements_move(kind: Kind, word: Word) -> Move
    ensures { result ≡ optional_implements_move kind word }
{
    match kind {
        Kind::Name => implements_move(
            word,
            Move::TakesThen(Symbol::LedSeries(Series::Interfaces)),
            Move::Skips,
        ),
        _ => Move::Skips,
    }
}

// UnionMemberTypes (section 3.8).
pub(super) fn members_move(kind: Kind, otherwise: Move) -> Move
    ensures { result ≡ members_move kind otherwise }
{
    match kind {
        Kind::Equals => Move::TakesThen(Symbol::LedSeries(Series::Members)),
        _ => otherwise,
    }
}

// DirectiveDefinition (section 3.13), from `repeatable` on.
pub(super) fn repeatable_move(word: Word) -> Move
    ensures { result ≡ repeatable_move word }
{
    match word {
        Word::On => Move::Takes,
        Word::Repeatable => Move::TakesThen(Symbol::OnWord),
        _ => Move::Stops,
    }
}

// ObjectTypeExtension and InterfaceTypeExtension (sections 3.6.3 and 3.7.1), behind their names.
pub(super) fn type_parts_move(kind: Kind, word: Word) -> Move
    ensures { result ≡ type_parts_move kind word }
{
    match kind {
        Kind::Name => implements_move(
            word,
            Move::TakesThenThree(
                Symbol::LedSeries(Series::Interfaces),
                Symbol::Directives { constant: true },
                Symbol::OptionalRow(Row::Fields),
            ),
            Move::Stops,
        ),
        _ => parts_move(
            kind,
            Symbol::OptionalRow(Row::Fields),
            row_move(Row::Fields, kind, Move::Stops),
        ),
    }
}
