//! Projects: the documents that are open, in the order of their keys.
ghost use Rattle.std.specs.Prelude.{◌≡◌, [], IfOk, IfErr, OnOk, OnErr, find, position};
ghost use Rattle.std.specs.Option.{option_copied, option_map};
ghost use Rattle.gq_project.specs.Documents.{IsInOrder, has_key, with_doc, without, after_change, AddsDocument};
ghost use Rattle.gq_project.specs.Helping.Places.{IsPlaceOf, IsGapFor};

use crate::document::{Doc, DocChange};
use gq_text::{Items, NoMemory};
use std::alloc::Global;
use std::marker::Model;

/// The documents that are open, each with a key of its own, in ascending byte order of the keys.
#[derive(Debug, Drop)]
pub struct Project {
    documents: Vec<Doc>,
}

impl Model for Project {
    ghost use Rattle.std.specs.Prelude.{List};
    ghost use Rattle.gq_project.specs.declared.document.Doc.{Doc};
    ghost use Rattle.gq_project.specs.Documents.{IsInOrder};

    ghost Value = { List Doc };

    ghost view = { λ p. p.documents.items };

    ghost invariant = { λ p. IsInOrder p.documents.items };
}

impl Project {
    /// A project with no documents. It takes no memory.
    pub fn new(alloc: Global) -> Project
        ensures { result ≡ [] }
    {
        Project {
            documents: Vec::new(alloc),
        }
    }

    /// The project of these documents. It takes no memory.
    pub fn from_ordered(documents: Vec<Doc>) -> Project
        requires { IsInOrder documents.items }
        ensures { result ≡ documents.items }
    {
        Project { documents }
    }

    /// The documents, in the order of their keys.
    pub fn documents(&self) -> &[Doc]
        ensures all { result.now ≡ self.now }
        ensures in_order { IsInOrder self.now }
    {
        self.documents.as_slice()
    }

    /// The document of that key.
    pub fn get(&self, key: &str) -> Option<&Doc>
        ensures found { option_copied result ≡ find (has_key key.now) self.now }
        ensures in_order { IsInOrder self.now }
    {
        match self.place_or_gap(key) {
            Ok(at) => Some(&self.documents[at]),
            Err(_) => None,
        }
    }

    /// The number of the document of that key among the documents, from 0.
    pub fn place(&self, key: &str) -> Option<usize>
        ensures { result ≡ position (has_key key.now) self.now }
    {
        match self.place_or_gap(key) {
            Ok(at) => Some(at),
            Err(_) => None,
        }
    }

    /// The text of the document of that key.
    pub fn text(&self, key: &str) -> Option<&str>
        ensures { option_copied result ≡ option_map (λ doc. doc.text) (find (has_key key.now) self.now) }
    {
        match self.get(key) {
            Some(doc) => Some(doc.text.as_str()),
            None => None,
        }
    }

    /// Adds the document, or replaces the one of its key, which takes no memory.
    pub fn put(&mut self, doc: Doc) -> Result<(), NoMemory>
        ensures ok { OnOk result (self.new ≡ with_doc self.old doc) }
        ensures err { OnErr result (self.new ≡ self.old) }
        ensures refused { OnErr result (find (has_key doc.key) self.old ≡ None) }
    {
        match self.place_or_gap(doc.key.as_str()) {
            Ok(at) => {
                self.documents[at] = doc;
                Ok(())
            }
            Err(at) => match self.documents.insert(at, doc) {
                Ok(()) => Ok(()),
                Err(_) => Err(NoMemory),
            },
        }
    }

    /// Takes the document of that key out. It takes no memory.
    pub fn take(&mut self, key: &str) -> Option<Doc>
        ensures taken { result ≡ find (has_key key.now) self.old }
        ensures left { self.new ≡ without self.old key.now }
    {
        match self.place_or_gap(key) {
            Ok(at) => Some(self.documents.remove(at)),
            Err(_) => None,
        }
    }

    /// Makes the change. Only to add a document takes memory.
    pub fn change(&mut self, change: DocChange) -> Result<(), NoMemory>
        ensures ok { OnOk result (self.new ≡ after_change self.old change) }
        ensures err { OnErr result (self.new ≡ self.old) }
        ensures refused { OnErr result (AddsDocument self.old change) }
    {
        match change {
            DocChange::Put(doc) => self.put(doc),
            DocChange::Close(key) => {
                let _ = self.take(key.as_str());
                Ok(())
            }
        }
    }

    /// A project with the same documents.
    pub fn copied(&self, alloc: Global) -> Result<Project, NoMemory>
        ensures { IfOk result (λ project. project ≡ self.now) }
    {
        let mut documents = Items::new(alloc);
        for doc in self.documents() {
            documents.push(doc.copied(alloc)?)?;
        }
        Ok(Project::from_ordered(documents.into_vec()))
    }

    /// Where the document of that key is, or where it would go.
    fn place_or_gap(&self, key: &str) -> Result<usize, usize>
        ensures found { IfOk result (IsPlaceOf (λ doc. doc.key) key.now self.now) }
        ensures absent { IfErr result (IsGapFor (λ doc. doc.key) key.now self.now) }
    {
        self.documents
            .binary_search_by(|doc| doc.key.as_str().cmp(&key))
    }
}
