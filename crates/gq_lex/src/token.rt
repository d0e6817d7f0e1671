//! Tokens, and why a text has none.

use gq_text::Span;
use std::alloc::AllocFailed;
use thiserror::Error;

/// What a token is (section 2.1.6 of the October 2021 edition, "Lexical Tokens").
#[derive(Clone, Copy, Debug, PartialEq, Eq)]
pub enum Kind {
    Bang,
    Dollar,
    Ampersand,
    ParenOpen,
    ParenClose,
    Spread,
    Colon,
    Equals,
    At,
    BracketOpen,
    BracketClose,
    BraceOpen,
    Pipe,
    BraceClose,
    Name,
    Int,
    Float,
    String,
    BlockString,
}

/// A token, with the text of its span.
#[derive(Clone, Copy, Debug)]
pub struct Token<'a> {
    pub kind: Kind,
    pub span: Span,
    pub text: &'a str,
}

/// What cannot be read.
#[derive(Clone, Copy, Debug, PartialEq, Eq)]
pub enum BadKind {
    /// A character that begins no token, or that no text may hold.
    Char,
    /// A digit or a minus sign that begins no number (sections 2.9.1 and 2.9.2).
    Number,
    /// A string or block string that does not end, or holds what it may not (section 2.9.4).
    Quote,
}

/// Why a text has no tokens. Places are offsets in bytes.
#[derive(Clone, Copy, Debug, PartialEq, Eq, Error)]
pub enum LexFault {
    /// The text is read up to this place, and here is what cannot be read.
    #[error("byte {place}: no token can be read here")]
    Bad { place: usize, kind: BadKind },
    /// One token more than a text may have begins at this place.
    #[error("byte {place}: one token too many")]
    Limit { place: usize },
    /// A growth was refused.
    #[error("out of memory")]
    NoMemory,
}

impl<T: Drop> From<AllocFailed<T>> for LexFault {
    ghost use Rattle.std.specs.Prelude.{◌≡◌};
    ghost use Rattle.gq_lex.specs.declared.token.LexFault.TheVariants.{NoMemory};

    ghost from_gives = { λ _ e. e ≡ NoMemory };

    fn from(_refused: AllocFailed<T>) -> Self {
        LexFault::NoMemory
    }
}

/// The most tokens that a text may have.
pub const TOKENS_MAX: usize = 1 << 20;
