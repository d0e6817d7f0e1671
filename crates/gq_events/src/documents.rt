//! The documents of a session: those that its client has open, and those that were loaded.
ghost use Rattle.std.specs.Prelude.{◌≡◌, ◌≤◌, ◌^◌, Bool, true, false, [], length, Some, None, IfOk, IfErr, OnOk};
ghost use Rattle.std.specs.Option.{option_copied};
ghost use Rattle.std.specs.Prelude.{option_and_then};
ghost use Rattle.gq_edit.specs.Workspace.{AreTexts};
ghost use Rattle.gq_project.specs.Helping.Places.{IsPlaceOf, IsGapFor};
ghost use Rattle.gq_events.specs.Documents as spec;

use crate::effect::Change;
use crate::event::{Load, LoadedContent};
use crate::texts::OpenText;
use gq_project::{Doc, Project};
use gq_rpc::{DidChangeParams, TextDocumentItem};
use gq_text::{Items, NoMemory, OwnedText, PositionEncoding};
use std::alloc::Global;
use std::marker::Model;
use std::mem;

/// So many documents there may be, open and loaded together.
const DOCUMENTS_MAX: usize = 4096;

/// A document that a client has open, or that was loaded.
pub struct SessionDocument {
    /// What names it: its URI, escaped in one way.
    pub key: OwnedText,
    /// Its URI, as the client wrote it.
    pub uri: OwnedText,
    /// The client's version, where it has it open.
    pub version: Option<i64>,
    /// Its text, empty where that is lost.
    pub text: OpenText,
    /// The text is not known: it is too long to be kept, could not be read, or found no memory.
    pub lost: bool,
}

impl Drop for SessionDocument {
    fn drop(self) {
        let SessionDocument {
            key: _key,
            uri: _uri,
            version: _,
            text: _text,
            lost: _,
        } = self;
    }
}

/// A document with a text, or a lost one. It takes no memory.
fn document_with(
    alloc: Global,
    key: OwnedText,
    uri: OwnedText,
    version: Option<i64>,
    text: Option<OwnedText>,
) -> SessionDocument
    ensures { result ≡ spec.document_with key uri version (option_and_then spec.opened_text text) }
{
    match text.map(OpenText::from_owned) {
        Some(Ok(text)) => SessionDocument {
            key,
            uri,
            version,
            text,
            lost: false,
        },
        _ => SessionDocument {
            key,
            uri,
            version,
            text: OpenText::empty(alloc),
            lost: true,
        },
    }
}

/// The document as it is opened. It takes no memory.
pub fn open_document(alloc: Global, item: TextDocumentItem) -> SessionDocument
    ensures { result ≡ spec.opened item }
{
    let TextDocumentItem {
        key,
        uri,
        version,
        text,
    } = item;
    document_with(alloc, key, uri, Some(version), Some(text))
}

/// The document that was loaded, if there is one. It takes no memory.
pub fn load_document(alloc: Global, load: Load) -> Option<SessionDocument>
    ensures { result ≡ spec.loaded load }
{
    let Load { key, uri, content } = load;
    match content {
        LoadedContent::Text(text) => Some(document_with(alloc, key, uri, None, Some(text))),
        LoadedContent::Unfit => Some(document_with(alloc, key, uri, None, None)),
        LoadedContent::Gone => None,
    }
}

/// A copy of the document, for a project.
pub fn copy_document(alloc: Global, document: &SessionDocument) -> Result<Doc, NoMemory>
    ensures doc { IfOk result (λ doc. doc ≡ spec.doc_of document.now) }
    ensures text { IfOk result (λ doc. length doc.text ≤ 2 ^ 22) }
{
    Ok(Doc {
        key: document.key.copied(alloc)?,
        uri: document.uri.copied(alloc)?,
        version: document.version,
        text: document.text.copied(alloc)?,
    })
}

/// Its text is not known any more. It takes no memory.
fn lose(alloc: Global, document: &mut SessionDocument)
    ensures { document.new ≡ spec.document_with document.old.key document.old.uri document.old.version None }
{
    document.text = OpenText::empty(alloc);
    document.lost = true;
}

/// Makes the changes of its text. False where it is not known after them.
fn make_changes(
    alloc: Global,
    encoding: PositionEncoding,
    document: &mut SessionDocument,
    params: &DidChangeParams,
) -> bool
    ensures text { result ≡ true → spec.edited_text encoding document.old (spec.changes_in params.now) ≡ Some document.new.text }
    ensures key { document.new.key ≡ document.old.key }
    ensures uri { document.new.uri ≡ document.old.uri }
    ensures version { document.new.version ≡ document.old.version }
    ensures lost { result ≡ true → document.new.lost ≡ false }
{
    match (params.version, &params.changes) {
        (Some(_), Some(changes)) if !document.lost => document
            .text
            .apply_changes(alloc, encoding, changes.as_slice())
            .is_ok(),
        _ => false,
    }
}

/// Makes the changes of its text, which is lost where it was, or they cannot be read or kept, or found no memory.
fn change_text(
    alloc: Global,
    encoding: PositionEncoding,
    document: &mut SessionDocument,
    params: &DidChangeParams,
)
    ensures { (refused : Bool) × (document.new ≡ spec.document_with document.old.key document.old.uri document.old.version
        (spec.unless_refused refused (spec.edited_text encoding document.old (spec.changes_in params.now)))) }
{
    if make_changes(alloc, encoding, document, params) {
        return;
    }
    lose(alloc, document);
}

/// Makes the changes of its text, and sets its version, where that can be read.
fn edit_document(
    alloc: Global,
    encoding: PositionEncoding,
    document: &mut SessionDocument,
    params: &DidChangeParams,
)
    ensures { (refused : Bool) × (document.new ≡ spec.edited encoding document.old params.now refused) }
{
    change_text(alloc, encoding, document, params);
    document.version = params.version.or(document.version);
}

/// Documents in ascending byte order of their keys.
pub struct SessionDocuments {
    documents: Vec<SessionDocument>,
}

impl Drop for SessionDocuments {
    fn drop(self) {
        let SessionDocuments {
            documents: _documents,
        } = self;
    }
}

impl Model for SessionDocuments {
    ghost use Rattle.std.specs.Prelude.{List};
    ghost use Rattle.gq_events.specs.declared.documents.SessionDocument.{SessionDocument};
    ghost use Rattle.gq_events.specs.Documents.{IsInOrder};

    ghost Value = { List SessionDocument };

    ghost view = { λ d. d.documents.items };

    ghost invariant = { λ d. IsInOrder d.documents.items };
}

impl SessionDocuments {
    /// No documents. It takes no memory.
    pub fn new(alloc: Global) -> SessionDocuments
        ensures { result ≡ [] }
    {
        SessionDocuments {
            documents: Vec::new(alloc),
        }
    }

    /// The documents, lent.
    pub fn as_slice(&self) -> &[SessionDocument]
        ensures { result.now ≡ self.now }
    {
        self.documents.as_slice()
    }

    /// The documents are in order, and each has a text of at most 4 MiB.
    pub(crate) fn texts_fit(&self)
        ensures in_order { spec.IsInOrder self.now }
        ensures texts { AreTexts (spec.docs_of self.now) }
    {
        for document in self.documents.iter() {
            document.text.fits();
        }
    }

    /// Where the document of that key is, or where it would go.
    fn place(&self, key: &str) -> Result<usize, usize>
        ensures found { IfOk result (IsPlaceOf (λ document. document.key) key.now self.now) }
        ensures absent { IfErr result (IsGapFor (λ document. document.key) key.now self.now) }
    {
        self.documents
            .binary_search_by(|document| document.key.as_str().cmp(&key))
    }

    /// The document of that key.
    pub fn get(&self, key: &str) -> Option<&SessionDocument>
        ensures { option_copied result ≡ spec.document_at key.now self.now }
    {
        match self.place(key) {
            Ok(at) => Some(&self.documents[at]),
            Err(_) => None,
        }
    }

    /// Whether there is a document of that key, open or loaded.
    fn has_document(&self, key: &str) -> bool
        ensures { result ≡ spec.has_document key.now self.now }
    {
        self.place(key).is_ok()
    }

    /// Whether the client has the document of that key open.
    pub fn is_open(&self, key: &str) -> bool
        ensures { result ≡ spec.is_open key.now self.now }
    {
        match self.get(key) {
            Some(document) => document.version.is_some(),
            None => false,
        }
    }

    /// Whether there is a document of that key, or there may be one more.
    fn has_room_for(&self, key: &str) -> bool
        ensures { result ≡ spec.has_room_for key.now self.now }
    {
        self.has_document(key) || self.documents.len() < DOCUMENTS_MAX
    }

    /// Whether what is loaded is a document more than there may be.
    pub fn is_one_too_many(&self, load: &Load) -> bool
        ensures { result ≡ spec.is_one_too_many self.now load.now }
    {
        !matches!(load.content, LoadedContent::Gone) && !self.has_room_for(load.key.as_str())
    }

    /// Whether some document's text is not known.
    pub fn any_lost(&self) -> bool
        ensures { result ≡ spec.is_any_lost self.now }
    {
        self.documents.iter().any(|document| document.lost)
    }

    /// Whether a change is one of the documents.
    pub fn is_change(&self, change: &Change) -> bool
        ensures { result ≡ spec.is_change self.now change.now }
    {
        match change {
            Change::Open(item) => self.has_room_for(item.key.as_str()),
            Change::Edit(params) => self.is_open(params.key.as_str()),
            Change::Close(key) => self.is_open(key.as_str()),
            Change::Load(load) => !self.is_open(load.key.as_str()),
        }
    }

    /// Puts the document in its place, and answers the one that was there. Only one more takes memory.
    pub fn put(&mut self, document: SessionDocument) -> Result<Option<SessionDocument>, NoMemory>
        ensures documents { OnOk result (self.new ≡ spec.with_document self.old document) }
        ensures replaced { IfOk result (λ replaced. replaced ≡ spec.document_at document.key self.old) }
    {
        match self.place(document.key.as_str()) {
            Ok(at) => Ok(Some(mem::replace(&mut self.documents[at], document))),
            Err(at) => match self.documents.insert(at, document) {
                Ok(()) => Ok(None),
                Err(_) => Err(NoMemory),
            },
        }
    }

    /// Puts in the document behind an open one that comes before it, if it was loaded.
    pub fn put_behind(&mut self, document: Option<SessionDocument>) -> Result<(), NoMemory>
        ensures { OnOk result (self.new ≡ spec.with_behind self.old document) }
    {
        match document {
            Some(document) if document.version.is_none() => {
                self.put(document)?;
                Ok(())
            }
            _ => Ok(()),
        }
    }

    /// Puts this document in the place of that of the key, or takes that out.
    pub fn set(&mut self, key: &str, document: Option<SessionDocument>) -> Result<(), NoMemory>
        ensures { OnOk result (self.new ≡ spec.with_changed self.old key.now document) }
    {
        match document {
            Some(document) => {
                self.put(document)?;
            }
            None => {
                self.take(key);
            }
        }
        Ok(())
    }

    /// Edits the document of that key, if there is one: where it is. It takes no memory but for the changes of its text,
    /// which is lost where they find none.
    pub fn edit(
        &mut self,
        alloc: Global,
        encoding: PositionEncoding,
        params: &DidChangeParams,
    ) -> Option<usize>
        ensures { spec.EditsAt encoding self.old params.now self.new result }
    {
        match self.place(params.key.as_str()) {
            Ok(at) => {
                edit_document(alloc, encoding, &mut self.documents[at], params);
                Some(at)
            }
            Err(_) => None,
        }
    }

    /// Takes the document of that key out. It takes no memory.
    pub fn take(&mut self, key: &str) -> Option<SessionDocument>
        ensures taken { result ≡ spec.document_at key.now self.old }
        ensures others { self.new ≡ spec.with_changed self.old key.now None }
    {
        match self.place(key) {
            Ok(at) => Some(self.documents.remove(at)),
            Err(_) => None,
        }
    }

    /// The project of the documents.
    pub fn project(&self, alloc: Global) -> Result<Project, NoMemory>
        ensures project { IfOk result (λ project. project ≡ spec.docs_of self.now) }
        ensures texts { IfOk result AreTexts }
    {
        let mut docs = Items::new(alloc);
        for document in self.documents.iter() {
            docs.push(copy_document(alloc, document)?)?;
        }
        Ok(Project::from_ordered(docs.into_vec()))
    }
}
