//! What a rename is of.

use gq_text::Span;
use gq_tree::Name;

/// What has the name that a rename changes.
#[derive(Clone, Copy, Debug, PartialEq, Eq)]
pub enum TargetKind {
    Fragment,
    Variable,
}

/// A name in a document that a rename can change.
#[derive(Drop)]
pub struct Target {
    pub kind: TargetKind,
    /// What it marks in the text: a fragment's name token, or a variable from its `$` to the end of its name.
    pub span: Span,
    /// The name token.
    pub name: Name,
    /// The number of the definition that it stands in: its place among the executable definitions of the project, in
    /// the order of documents and places, from 0.
    pub definition: usize,
}
