//! What a query can be about.

use gq_text::Span;
use gq_tree::Name;

/// What is named.
#[derive(Clone, Copy, Debug, PartialEq, Eq)]
pub enum MentionKind {
    /// A fragment, at its definition or in a spread.
    Fragment,
    /// A variable, at its definition or where it is used.
    Variable,
    /// A field of a type, in a selection.
    Field,
    /// A type, in the type condition of a fragment or of an inline fragment.
    Condition,
}

/// A name in an operation or a fragment.
#[derive(Clone, Copy)]
pub struct Mention<'a> {
    pub kind: MentionKind,
    /// What it marks in the text, in bytes: the name token, or a variable from its `$` to the end of its name.
    pub span: Span,
    pub name: &'a Name,
    /// The number of the definition that it stands in: its place among the executable definitions of the project, in
    /// the order of documents and places, from 0.
    pub definition: usize,
}
