//! Replacements in a text.

use crate::owned::OwnedText;
use crate::place::Span;

/// A span of a text, in bytes, and the text that takes its place.
#[derive(Debug, Drop, PartialEq, Eq)]
pub struct Replacement {
    pub span: Span,
    pub text: OwnedText,
}
