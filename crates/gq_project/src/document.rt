//! Documents, and changes of which documents are open.

use gq_text::{NoMemory, OwnedText};
use std::alloc::Global;

/// A document at a version.
#[derive(Debug, Drop, PartialEq, Eq)]
pub struct Doc {
    /// What names it in a project: its URI, escaped in one way.
    pub key: OwnedText,
    /// Its URI, as the client wrote it.
    pub uri: OwnedText,
    /// Its version as the client counts them; none where no client has given one.
    pub version: Option<i64>,
    pub text: OwnedText,
}

impl Doc {
    ghost use Rattle.std.specs.Prelude.{◌≡◌, IfOk};

    /// Another document with the same key, URI, version and text.
    pub fn copied(&self, alloc: Global) -> Result<Doc, NoMemory>
        ensures { IfOk result (λ doc. doc ≡ self.now) }
    {
        Ok(Doc {
            key: self.key.copied(alloc)?,
            uri: self.uri.copied(alloc)?,
            version: self.version,
            text: self.text.copied(alloc)?,
        })
    }
}

/// A change of a project.
#[derive(Debug, Drop, PartialEq, Eq)]
pub enum DocChange {
    /// The document, with its whole text, is open now, in place of the one of its key.
    Put(Doc),
    /// The document of this key is open no longer.
    Close(OwnedText),
}
