//! Edits of documents at stated versions, and why they cannot be applied.
ghost use Rattle.std.specs.Prelude.{◌≡◌, find, IfOk, IfErr};
ghost use Rattle.std.specs.Option.{option_copied, option_eq};
ghost use Rattle.std.specs.Ordering.{int_eq};
ghost use Rattle.std.specs.Str.{bytes_eq};
ghost use Rattle.gq_project.specs.Helping.Places.{IsPlaceOf, IsGapFor};

use crate::replacements::Replacements;
use gq_project::Doc;
use gq_text::{NoMemory, OwnedText};
use std::marker::Model;
use thiserror::Error;

/// Replacements in the text of a document at a version, or at none where the document has none.
#[derive(Debug, Drop)]
pub struct DocumentEdit {
    /// The document's key.
    pub key: OwnedText,
    pub version: Option<i64>,
    pub replacements: Replacements,
}

impl DocumentEdit {
    /// Whether the edit states the version of this document.
    pub fn has_version_of(&self, doc: &Doc) -> bool
        ensures { result ≡ option_eq int_eq doc.now.version self.now.version }
    {
        doc.version == self.version
    }
}

/// Edits of documents, each of another, in ascending byte order of the keys.
#[derive(Debug, Drop)]
pub struct Edit {
    documents: Vec<DocumentEdit>,
}

impl Model for Edit {
    ghost use Rattle.std.specs.Prelude.{List};
    ghost use Rattle.gq_edit.specs.declared.edit.DocumentEdit.{DocumentEdit};

    ghost Value = { List DocumentEdit };

    ghost use Rattle.gq_edit.specs.Edits.{AreInOrder};

    ghost view = { λ e. e.documents.items };

    ghost invariant = { λ e. AreInOrder e.documents.items };
}

impl Edit {
    ghost use Rattle.gq_edit.specs.Edits.{AreInOrder, is_of};

    /// These edits. It takes no memory.
    pub fn from_vec(documents: Vec<DocumentEdit>) -> Edit
        requires { AreInOrder documents.items }
        ensures { result ≡ documents.items }
    {
        Edit { documents }
    }

    /// The edits of the documents, in the order of their keys.
    pub fn documents(&self) -> &[DocumentEdit]
        ensures all { result.now ≡ self.now }
        ensures in_order { AreInOrder self.now }
    {
        self.documents.as_slice()
    }

    /// The edit of this document, at its version.
    pub fn of(&self, doc: &Doc) -> Option<&DocumentEdit>
        ensures { option_copied result ≡ find (is_of doc.now) self.now }
    {
        let edit = self.at(doc.key.as_str())?;
        if edit.has_version_of(doc) {
            Some(edit)
        } else {
            None
        }
    }

    /// The edit of the document of that key.
    fn at(&self, key: &str) -> Option<&DocumentEdit>
        ensures found { option_copied result ≡ find (λ edit. bytes_eq edit.key key.now) self.now }
        ensures in_order { AreInOrder self.now }
    {
        match self.place(key) {
            Ok(at) => Some(&self.documents[at]),
            Err(_) => None,
        }
    }

    /// Where the edit of the document of that key is, or where it would go.
    fn place(&self, key: &str) -> Result<usize, usize>
        ensures found { IfOk result (IsPlaceOf (λ edit. edit.key) key.now self.now) }
        ensures absent { IfErr result (IsGapFor (λ edit. edit.key) key.now self.now) }
    {
        self.documents
            .binary_search_by(|edit| edit.key.as_str().cmp(&key))
    }
}

/// Why an edit was not applied.
#[derive(Debug, Drop, PartialEq, Eq, Error)]
pub enum EditFault {
    /// No document has this key at this version.
    #[error("document not at the stated version: {}", .key.as_str())]
    Moved {
        key: OwnedText,
        version: Option<i64>,
    },
    /// The edited text of the document of this key would pass 4 MiB.
    #[error("document too large: {}", .key.as_str())]
    TooLarge {
        key: OwnedText,
    },
    /// A growth was refused.
    #[error("no memory")]
    NoMemory,
}

impl From<NoMemory> for EditFault {
    ghost use Rattle.gq_edit.specs.declared.edit.EditFault.TheVariants.{NoMemory};

    ghost from_gives = { λ _ e. e ≡ NoMemory };

    fn from(_error: NoMemory) -> Self {
        EditFault::NoMemory
    }
}
