//! What is told of a name.

use gq_text::{OwnedText, Span};

/// What is told of a name (LSP 3.17, "Hover").
#[derive(Debug, Drop, PartialEq, Eq)]
pub struct Hover {
    pub value: OwnedText,
    /// The name token, in bytes.
    pub span: Span,
}
