//! Edits as the language server protocol writes them, with positions.

use gq_text::{Items, OwnedText, Range};

/// A range of a document, and the text that takes its place (LSP 3.17, TextEdit).
#[derive(Drop)]
pub struct TextEdit {
    pub range: Range,
    pub new_text: OwnedText,
}

/// The edits of a document at a version, or at none (LSP 3.17, TextDocumentEdit and
/// OptionalVersionedTextDocumentIdentifier).
#[derive(Drop)]
pub struct TextDocumentEdit {
    pub uri: OwnedText,
    pub version: Option<i64>,
    pub edits: Items<TextEdit>,
}

/// Edits of several documents (LSP 3.17, WorkspaceEdit).
#[derive(Drop)]
pub struct WorkspaceEdit {
    pub document_changes: Items<TextDocumentEdit>,
}
