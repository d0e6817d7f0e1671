//! What a document's text reads as, for all who have a document with that text.
ghost use Rattle.std.specs.Prelude.{◌≡◌, true, IfOk};
ghost use Rattle.gq_tree.specs.Readings.{shared_view};
ghost use Rattle.gq_parse.specs.Parsed.{IsParsed};

use crate::reader::read_text;
use gq_project::Doc;
use gq_text::{NoMemory, OwnedText};
use gq_tree::{Parsed, share};
use std::alloc::Global;
use std::marker::Model;
use std::sync::Arc;

/// A document's key and text, and what that text reads as. Whoever has a document of that key and text can take the tree in
/// place of reading the text.
///
/// Contracts see it as its key and its text.
pub struct Piece {
    key: OwnedText,
    text: OwnedText,
    tree: Arc<Parsed>,
}

impl Drop for Piece {
    fn drop(self) {
        let Piece {
            key: _key,
            text: _text,
            tree: _tree,
        } = self;
    }
}

impl Model for Piece {
    ghost use Rattle.gq_tree.specs.Readings.{shared_view};
    ghost use Rattle.gq_parse.specs.Parsed.{IsParsed};
    ghost use Rattle.gq_parse.specs.Piece.{PieceOf};

    ghost Value = { PieceOf };

    ghost view = { λ p. record { key = p.key; text = p.text } };

    ghost invariant = { λ p. ∥ IsParsed p.text (shared_view p.tree) ∥₁ };
}

impl Piece {
    /// The piece of a document, whose text is read.
    pub fn of(alloc: Global, doc: &Doc) -> Result<Piece, NoMemory>
        ensures { IfOk result (λ piece. piece ≡ record { key = doc.now.key; text = doc.now.text }) }
    {
        let tree = share(alloc, read_text(alloc, doc.text.as_str())?)?;
        Piece::with_tree(alloc, doc, &tree)
    }

    /// The piece of a document whose text was read already. The tree is not copied.
    pub fn with_tree(alloc: Global, doc: &Doc, tree: &Arc<Parsed>) -> Result<Piece, NoMemory>
        requires { ∥ IsParsed doc.now.text (shared_view tree.now) ∥₁ }
        ensures { IfOk result (λ piece. piece ≡ record { key = doc.now.key; text = doc.now.text }) }
    {
        Ok(Piece {
            key: doc.key.copied(alloc)?,
            text: doc.text.copied(alloc)?,
            tree: Arc::try_clone(tree)?,
        })
    }

    /// The document's key.
    pub fn key(&self) -> &str
        ensures { result.now ≡ self.now.key }
    {
        self.key.as_str()
    }

    /// The document's text.
    pub fn text(&self) -> &str
        ensures { result.now ≡ self.now.text }
    {
        self.text.as_str()
    }

    /// Whether it is a piece of this document: of the same key and text.
    pub fn is_of(&self, doc: &Doc) -> bool
        ensures key { result ≡ true → self.now.key ≡ doc.now.key }
        ensures text { result ≡ true → self.now.text ≡ doc.now.text }
    {
        self.key == doc.key && self.text == doc.text
    }

    /// What the text reads as, its tree or why it has none. The tree is not copied.
    pub fn tree(&self) -> Result<Arc<Parsed>, NoMemory>
        ensures { IfOk result (λ tree. ∥ IsParsed self.now.text (shared_view tree) ∥₁) }
    {
        Ok(Arc::try_clone(&self.tree)?)
    }
}
