//! What a token does where a series of parts is expected.

ghost use Rattle.std.specs.Prelude.{◌≡◌};
ghost use Rattle.gq_parse.specs.Helping.Expected.{location_move, separates, separator_move, series_word_move};

use crate::expected::{Move, Series, Symbol, Word};
use gq_lex::Kind;

fn separates(series: Series, kind: Kind) -> bool
    ensures { result ≡ separates series kind }
{
    match series {
        Series::Interfaces => matches!(kind, Kind::Ampersand),
        Series::Members | Series::Locations => matches!(kind, Kind::Pipe),
    }
}

pub(super) fn separator_move(series: Series, kind: Kind, otherwise: Move) -> Move
    ensures { result ≡ separator_move series kind otherwise }
{
    if separates(series, kind) {
        Move::TakesThen(Symbol::SeriesPart(series))
    } else {
        otherwise
    }
}

pub(super) fn series_word_move(series: Series, word: Word) -> Move
    ensures { result ≡ series_word_move series word }
{
    match series {
        Series::Interfaces | Series::Members => Move::TakesThen(Symbol::MoreParts(series)),
        Series::Locations => location_move(word),
    }
}

fn location_move(word: Word) -> Move
    ensures { result ≡ location_move word }
{
    match word {
        Word::Location => Move::TakesThen(Symbol::MoreParts(Series::Locations)),
        _ => Move::Stops,
    }
}
