//! How far a session has come, and its documents.
ghost use Rattle.std.specs.Prelude.{◌≡◌, ◌++◌, [], Some, None, IfOk, OnOk, option_to_list, option_map, if◌then◌else◌};
ghost use Rattle.std.specs.Option.{option_copied};
ghost use Rattle.gq_project.specs.declared.document.DocChange.TheVariants as doc_change;
ghost use Rattle.gq_events.specs.declared.event.Task.TheVariants as task;
ghost use Rattle.gq_events.specs.declared.effect.Change.TheVariants as change;
ghost use Rattle.gq_events.specs.declared.effect.Effect.TheVariants as effect;
ghost use Rattle.gq_events.specs.Documents.{doc_of, document_at, opened, loaded, published, with_changed};
ghost use Rattle.gq_events.specs.Rules as spec;

use crate::documents::{
    SessionDocument, SessionDocuments, copy_document, load_document, open_document,
};
use crate::effect::{Change, Effect, Phase, effect_of};
use crate::event::{Event, Job, Load, Out, Task};
use crate::refusals::{
    Denial, are_too_many, denied, is_pending, key_of, wants_code_actions, wants_document_changes,
};
use gq_project::DocChange;
use gq_rpc::{
    ClientCapabilities, DidChangeParams, Id, Outgoing, PublishDiagnosticsParams, Question,
    ResponseError, ServerCapabilities, TextDocumentItem,
};
use gq_text::{Items, NoMemory, OwnedText, PositionEncoding};
use std::alloc::Global;
use std::marker::Model;

/// What the characters of positions are counted in, where the client lists nothing: UTF-16 code units, as every client counts
/// (LSP 3.17, "PositionEncodingKind").
const DEFAULT_ENCODING: PositionEncoding = PositionEncoding::Utf16;

/// What this server does for a client (LSP 3.17, ServerCapabilities).
fn server_capabilities(client: ClientCapabilities) -> ServerCapabilities
    ensures { result ≡ spec.server_capabilities client }
{
    ServerCapabilities {
        completion_provider: client.completion,
        definition_provider: client.definition,
        hover_provider: client.hover,
        references_provider: client.references,
        rename_provider: client.document_changes,
        prepare_provider: client.document_changes && client.prepare_support,
        code_action_provider: client.code_actions,
        position_encoding: client.position_encoding,
    }
}

/// Adds that a document which is closed has nothing wrong in it, where the client takes diagnostics.
fn clear(
    alloc: Global,
    diagnostics: bool,
    closed: Option<&SessionDocument>,
    outs: &mut Vec<Out>,
) -> Result<(), NoMemory>
    ensures { OnOk result (outs.new.items ≡ outs.old.items ++ (if diagnostics then option_to_list (option_map spec.nothing_wrong (option_copied closed.entry)) else [])) }
{
    match closed {
        Some(document) if diagnostics => {
            outs.push(Out::Notify(Outgoing::Diagnostics(PublishDiagnosticsParams {
                uri: document.uri.copied(alloc)?,
                version: None,
                diagnostics: Items::new(alloc),
            })))?;
            Ok(())
        }
        _ => Ok(()),
    }
}

/// Adds a copy of the document for workers, where there are any.
fn show(
    alloc: Global,
    workers: u8,
    document: &SessionDocument,
    outs: &mut Vec<Out>,
) -> Result<(), NoMemory>
    ensures { OnOk result (outs.new.items ≡ outs.old.items ++ spec.shown workers (doc_change.Put (doc_of document.now))) }
{
    if workers == 0 {
        return Ok(());
    }
    let copy = copy_document(alloc, document)?;
    outs.push(Out::Publish(DocChange::Put(copy)))?;
    Ok(())
}

/// Adds for workers, where there are any, that no document has that key now.
fn hide(workers: u8, key: OwnedText, outs: &mut Vec<Out>) -> Result<(), NoMemory>
    ensures { OnOk result (outs.new.items ≡ outs.old.items ++ spec.shown workers (doc_change.Close key)) }
{
    if workers == 0 {
        return Ok(());
    }
    outs.push(Out::Publish(DocChange::Close(key)))?;
    Ok(())
}

/// Puts this document in the place of that of the key, or takes that out, and shows it to workers.
fn replace(
    alloc: Global,
    workers: u8,
    documents: &mut SessionDocuments,
    key: OwnedText,
    document: Option<SessionDocument>,
    outs: &mut Vec<Out>,
) -> Result<(), NoMemory>
    ensures documents { OnOk result (documents.new ≡ with_changed documents.old key document) }
    ensures outs { OnOk result (outs.new.items ≡ outs.old.items ++ spec.shown workers (published key document)) }
{
    match document {
        Some(document) => {
            show(alloc, workers, &document, outs)?;
            documents.put(document)?;
            Ok(())
        }
        None => {
            documents.take(key.as_str());
            hide(workers, key, outs)
        }
    }
}

/// After a change the documents are checked, where the client takes diagnostics.
fn check_after(diagnostics: bool, encoding: PositionEncoding) -> Option<Task>
    ensures { result ≡ (if diagnostics then Some (task.Check encoding) else None) }
{
    if diagnostics {
        Some(Task::Check(encoding))
    } else {
        None
    }
}

/// The reply to a question that is denied.
fn reply_to_denied(alloc: Global, id: Id, denial: Denial) -> Outgoing
    ensures { result ≡ spec.denying id denial }
{
    match denial {
        Denial::Error(why) => Outgoing::Error(Some(id), why),
        Denial::NoActions => Outgoing::CodeActions(id, Items::new(alloc)),
    }
}

/// Adds how a question is denied, if it is; else it is a task.
fn take_question(
    alloc: Global,
    encoding: PositionEncoding,
    id: Id,
    asked: Option<Question>,
    denied: Option<Denial>,
    outs: &mut Vec<Out>,
) -> Result<Option<Task>, NoMemory>
    ensures task { IfOk result (λ task. task ≡ spec.accepted encoding id asked denied) }
    ensures outs { OnOk result (outs.new.items ≡ outs.old.items ++ spec.denied_with id denied) }
{
    match (asked, denied) {
        (_, Some(denial)) => {
            outs.push(Out::Reply(reply_to_denied(alloc, id, denial)))?;
            Ok(None)
        }
        (Some(question), None) => Ok(Some(Task::Ask(encoding, id, question))),
        (None, None) => Ok(None),
    }
}

/// How far a session has come, and its documents.
pub struct ClientSession {
    phase: Phase,
    /// What the characters of its positions are counted in.
    position_encoding: PositionEncoding,
    /// Its client takes edits with versions.
    document_changes: bool,
    /// Its client takes code actions that hold such edits.
    code_actions: bool,
    /// Its client takes diagnostics.
    diagnostics: bool,
    documents: SessionDocuments,
    /// Those that were loaded, of documents that its client has open.
    behind: SessionDocuments,
}

impl Drop for ClientSession {
    fn drop(self) {
        let ClientSession {
            phase: _,
            position_encoding: _,
            document_changes: _,
            code_actions: _,
            diagnostics: _,
            documents: _documents,
            behind: _behind,
        } = self;
    }
}

impl Model for ClientSession {
    ghost use Rattle.gq_events.specs.Rules.{Session};

    ghost Value = { Session };

    ghost view = { λ s. record {
      phase = s.phase;
      position_encoding = s.position_encoding;
      document_changes = s.document_changes;
      code_actions = s.code_actions;
      diagnostics = s.diagnostics;
      documents = s.documents;
      behind = s.behind;
    } };
}

impl ClientSession {
    /// A session that has not begun. It takes no memory.
    pub fn new(alloc: Global) -> ClientSession
        ensures { result ≡ spec.begun }
    {
        ClientSession {
            phase: Phase::Fresh,
            position_encoding: DEFAULT_ENCODING,
            document_changes: false,
            code_actions: false,
            diagnostics: false,
            documents: SessionDocuments::new(alloc),
            behind: SessionDocuments::new(alloc),
        }
    }

    pub fn documents(&self) -> &SessionDocuments
        ensures { result.now ≡ self.now.documents }
    {
        &self.documents
    }

    /// What an event comes to.
    pub fn effect(&self, event: Event) -> Effect
        ensures { result ≡ spec.effect_of self.now.phase self.now.documents event }
    {
        effect_of(self.phase, &self.documents, event)
    }

    /// How a question is denied, if it is.
    fn denial_of_question(
        &self,
        alloc: Global,
        pending: &[Job],
        question: &Question,
    ) -> Result<Option<Denial>, NoMemory>
        ensures { IfOk result (λ denied. denied ≡ spec.denial_of_question self.now pending.now question.now) }
    {
        if !self.documents.is_open(key_of(question)) {
            return Ok(Some(Denial::Error(ResponseError::InvalidParams)));
        }
        if self.documents.any_lost() {
            return Ok(Some(denied(alloc, "document lost")?));
        }
        if wants_document_changes(question) && !self.document_changes {
            return Ok(Some(denied(alloc, "no documentChanges")?));
        }
        if wants_code_actions(question) && !self.code_actions {
            return Ok(Some(Denial::NoActions));
        }
        if are_too_many(pending) {
            return Ok(Some(denied(alloc, "too many pending")?));
        }
        Ok(None)
    }

    fn denial_of_request(
        &self,
        alloc: Global,
        pending: &[Job],
        id: &Id,
        asked: &Option<Question>,
    ) -> Result<Option<Denial>, NoMemory>
        ensures { IfOk result (λ denied. denied ≡ spec.denial_of_request self.now pending.now id.now asked.now) }
    {
        if is_pending(pending, id) {
            return Ok(Some(Denial::Error(ResponseError::InvalidRequest)));
        }
        match asked {
            Some(question) => self.denial_of_question(alloc, pending, question),
            None => Ok(Some(Denial::Error(ResponseError::InvalidParams))),
        }
    }

    /// How an event is denied, where it asks.
    pub fn denied_by(
        &self,
        alloc: Global,
        pending: &[Job],
        effect: &Effect,
    ) -> Result<Option<Denial>, NoMemory>
        ensures { IfOk result (λ denied. denied ≡ spec.denied_by self.now pending.now effect.now) }
    {
        match effect {
            Effect::Asks(id, asked) => self.denial_of_request(alloc, pending, id, asked),
            _ => Ok(None),
        }
    }

    /// Opens a document, in place of the one of its key, and shows it to workers. One that was loaded comes behind it.
    fn open(
        &mut self,
        alloc: Global,
        workers: u8,
        item: TextDocumentItem,
        outs: &mut Vec<Out>,
    ) -> Result<(), NoMemory>
        ensures session { OnOk result (self.new ≡ spec.session_changed self.old (change.Open item) (Some (opened item))) }
        ensures outs { OnOk result (outs.new.items ≡ outs.old.items ++ spec.shown workers (doc_change.Put (doc_of (opened item)))) }
    {
        let document = open_document(alloc, item);
        show(alloc, workers, &document, outs)?;
        let replaced = self.documents.put(document)?;
        self.behind.put_behind(replaced)
    }

    /// Edits a document, and shows it to workers.
    fn edit(
        &mut self,
        alloc: Global,
        workers: u8,
        params: DidChangeParams,
        outs: &mut Vec<Out>,
    ) -> Result<(), NoMemory>
        ensures { OnOk result (spec.Edits workers self.old params self.new outs.old.items outs.new.items) }
    {
        match self.documents.edit(alloc, self.position_encoding, &params) {
            Some(at) => show(alloc, workers, &self.documents.as_slice()[at], outs),
            None => hide(workers, params.into_key(), outs),
        }
    }

    /// Adds that nothing is wrong any more in a document that is closed, and closes it: what was loaded of it is its
    /// document then. Workers see that.
    fn close(
        &mut self,
        alloc: Global,
        workers: u8,
        key: OwnedText,
        outs: &mut Vec<Out>,
    ) -> Result<(), NoMemory>
        ensures session { OnOk result (self.new ≡ spec.session_changed self.old (change.Close key) (document_at key self.old.behind)) }
        ensures outs { OnOk result (outs.new.items ≡ outs.old.items ++ spec.own_of_change workers self.old (change.Close key) (document_at key self.old.behind)) }
    {
        clear(
            alloc,
            self.diagnostics,
            self.documents.get(key.as_str()),
            outs,
        )?;
        let loaded = self.behind.take(key.as_str());
        replace(alloc, workers, &mut self.documents, key, loaded, outs)
    }

    /// Puts in what was loaded of a document that is not open, and shows it to workers.
    fn load(
        &mut self,
        alloc: Global,
        workers: u8,
        load: Load,
        outs: &mut Vec<Out>,
    ) -> Result<(), NoMemory>
        ensures session { OnOk result (self.new ≡ spec.session_changed self.old (change.Load load) (loaded load)) }
        ensures outs { OnOk result (outs.new.items ≡ outs.old.items ++ spec.shown workers (published load.key (loaded load))) }
    {
        let key = load.key.copied(alloc)?;
        let document = load_document(alloc, load);
        replace(alloc, workers, &mut self.documents, key, document, outs)
    }

    /// Puts what was loaded of a document that is open behind that.
    fn load_behind(&mut self, alloc: Global, load: Load) -> Result<(), NoMemory>
        ensures { OnOk result (self.new ≡ spec.session_after self.old (effect.LoadsBehind load) (loaded load)) }
    {
        let key = load.key.copied(alloc)?;
        let document = load_document(alloc, load);
        self.behind.set(key.as_str(), document)
    }

    /// Changes the documents, and adds what that makes known, to the client and to so many workers.
    fn change(
        &mut self,
        alloc: Global,
        workers: u8,
        change: Change,
        outs: &mut Vec<Out>,
    ) -> Result<(), NoMemory>
        ensures { OnOk result (spec.Changes workers self.old change self.new outs.old.items outs.new.items) }
    {
        match change {
            Change::Open(item) => self.open(alloc, workers, item, outs),
            Change::Edit(params) => self.edit(alloc, workers, params, outs),
            Change::Close(key) => self.close(alloc, workers, key, outs),
            Change::Load(load) => self.load(alloc, workers, load, outs),
        }
    }

    /// The session begins, with what its client states.
    fn begin(&mut self, client: ClientCapabilities)
        ensures { self.new ≡ spec.begun_by self.old client }
    {
        self.phase = Phase::Running;
        self.position_encoding = client.position_encoding.unwrap_or(DEFAULT_ENCODING);
        self.document_changes = client.document_changes;
        self.code_actions = client.code_actions;
        self.diagnostics = client.publish_diagnostics;
    }

    /// Takes in an event of this effect, and adds its own reply and what it publishes for so many workers: the task that
    /// it brings.
    pub fn take_in(
        &mut self,
        alloc: Global,
        workers: u8,
        denied: Option<Denial>,
        effect: Effect,
        outs: &mut Vec<Out>,
    ) -> Result<Option<Task>, NoMemory>
        ensures task { IfOk result (λ task. task ≡ spec.taken self.old denied effect) }
        ensures own { OnOk result (spec.Replies workers self.old denied effect self.new outs.old.items outs.new.items) }
    {
        match effect {
            Effect::Begins(id, capabilities) => {
                self.begin(capabilities);
                let server = server_capabilities(capabilities);
                outs.push(Out::Reply(Outgoing::Initialized(id, server)))?;
                Ok(None)
            }
            Effect::Refuses(id, why) => {
                outs.push(Out::Reply(Outgoing::Error(id, why)))?;
                Ok(None)
            }
            Effect::Asks(id, asked) => {
                take_question(alloc, self.position_encoding, id, asked, denied, outs)
            }
            Effect::Changes(change) => {
                self.change(alloc, workers, change, outs)?;
                Ok(check_after(self.diagnostics, self.position_encoding))
            }
            Effect::LoadsBehind(load) => {
                self.load_behind(alloc, load)?;
                Ok(None)
            }
            Effect::ShutsDown(id) => {
                self.phase = Phase::Down;
                outs.push(Out::Reply(Outgoing::ShutDown(id)))?;
                Ok(None)
            }
            Effect::Stops(status) => {
                self.phase = Phase::Stopped;
                outs.push(Out::Stop(status))?;
                Ok(None)
            }
            Effect::Nothing => Ok(None),
            Effect::Cancels(_) => Ok(None),
            Effect::Finishes(_) => Ok(None),
        }
    }
}
