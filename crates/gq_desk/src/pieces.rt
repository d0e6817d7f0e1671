//! Pieces of the documents, as workers made them.

use gq_events::Effect;
use gq_events::documents::SessionDocuments;
use gq_parse::Piece;
use std::alloc::Global;
use std::sync::Arc;

/// Pieces of documents as they are: at most one of each, in ascending order of their keys. They decide no answer, so nothing
/// is stated of them.
pub(crate) struct Pieces {
    pieces: Vec<Arc<Piece>>,
}

impl Drop for Pieces {
    fn drop(self) {
        let Pieces { pieces: _pieces } = self;
    }
}

impl Pieces {
    /// No pieces. It takes no memory.
    pub(crate) fn new(alloc: Global) -> Pieces {
        Pieces {
            pieces: Vec::new(alloc),
        }
    }

    /// Where the piece of that key is, or where it would go.
    fn place(&self, key: &str) -> Result<usize, usize> {
        self.pieces.binary_search_by(|piece| piece.key().cmp(&key))
    }

    /// Forgets the piece of that key.
    fn forget(&mut self, key: &str) {
        if let Ok(at) = self.place(key) {
            if at < self.pieces.len() {
                let _ = self.pieces.remove(at);
            }
        }
    }

    /// Takes the piece in, if its document has its text, in the place of the one of its key. Where there is no memory for it,
    /// it is dropped.
    fn take(&mut self, documents: &SessionDocuments, piece: &Arc<Piece>) {
        match documents.get(piece.key()) {
            Some(document) if document.text.is(piece.text()) => {}
            _ => return,
        }
        let Ok(one) = Arc::try_clone(piece) else {
            return;
        };
        self.forget(piece.key());
        if let Err(at) = self.place(piece.key()) {
            if at <= self.pieces.len() {
                let _ = self.pieces.insert(at, one);
            }
        }
    }

    /// Takes in pieces, one after the other.
    fn take_all(&mut self, documents: &SessionDocuments, pieces: &[Arc<Piece>]) {
        for piece in pieces {
            self.take(documents, piece);
        }
    }

    /// Forgets the piece of a document that an event of this effect changes, or takes in those that a worker made.
    pub(crate) fn follow(&mut self, documents: &SessionDocuments, effect: &Effect) {
        match effect {
            Effect::Changes(change) => self.forget(change.key()),
            Effect::Finishes(done) => self.take_all(documents, &done.pieces),
            _ => {}
        }
    }

    /// All pieces, for a worker. Where there is no memory for all of them, it gets the first ones.
    pub(crate) fn shared(&self, alloc: Global) -> Vec<Arc<Piece>> {
        let mut all = Vec::new(alloc);
        for piece in self.pieces.iter() {
            let Ok(one) = Arc::try_clone(piece) else {
                return all;
            };
            if all.push(one).is_err() {
                return all;
            }
        }
        all
    }
}
