//! What an event comes to, by how far the session has come.
ghost use Rattle.std.specs.Prelude.{◌≡◌};
ghost use Rattle.gq_events.specs.Documents.{key_of};
ghost use Rattle.gq_events.specs.Rules as spec;

use crate::documents::SessionDocuments;
use crate::event::{Done, Event, InputEnd, Load};
use gq_rpc::{
    ClientCapabilities, DidChangeParams, Id, Incoming, Notification, Question, Request,
    ResponseError, TextDocumentItem,
};
use gq_text::OwnedText;

/// How far a session has come (LSP 3.17, "Server lifecycle").
#[derive(Clone, Copy, Debug, PartialEq, Eq)]
pub enum Phase {
    /// The client has not sent `initialize`.
    Fresh,
    /// Between `initialize` and `shutdown`.
    Running,
    /// The client has sent `shutdown`; `exit` is to come.
    Down,
    /// After `exit`, or the end of the input.
    Stopped,
}

/// A change of the documents: of those that a client has open (LSP 3.17, "Text Document Synchronization"), or of one that was
/// loaded.
#[derive(Drop)]
pub enum Change {
    Open(TextDocumentItem),
    Edit(DidChangeParams),
    /// The document of this key is closed.
    Close(OwnedText),
    Load(Load),
}

impl Change {
    /// The key of the document that changes.
    pub fn key(&self) -> &str
        ensures { result.now ≡ key_of self.now }
    {
        match self {
            Change::Open(item) => item.key.as_str(),
            Change::Edit(params) => params.key.as_str(),
            Change::Close(key) => key.as_str(),
            Change::Load(load) => load.key.as_str(),
        }
    }
}

/// What an event comes to.
#[derive(Drop)]
pub enum Effect {
    Nothing,
    /// The session begins, by the request of this id.
    Begins(Id, ClientCapabilities),
    /// A request, or what is no message, that is refused whatever else happens.
    Refuses(Option<Id>, ResponseError),
    /// The request of this id asks this. The question is absent where its parameters cannot be read.
    Asks(Id, Option<Question>),
    Changes(Change),
    /// This was loaded of a document that the client has open, and comes behind that.
    LoadsBehind(Load),
    /// The request of this id is no longer wanted.
    Cancels(Id),
    /// The session is shut down, by the request of this id.
    ShutsDown(Id),
    /// A worker has done a job.
    Finishes(Done),
    /// The session stops, with this status of the process.
    Stops(u8),
}

fn request_effect(phase: Phase, id: Id, request: Request) -> Effect
    ensures { result ≡ spec.effect_of_request phase id request }
{
    match (phase, request) {
        (Phase::Fresh, Request::Initialize(capabilities)) => Effect::Begins(id, capabilities),
        (Phase::Fresh, _) => Effect::Refuses(Some(id), ResponseError::NotInitialized),
        (Phase::Running, Request::Shutdown) => Effect::ShutsDown(id),
        (Phase::Running, Request::Ask(question)) => Effect::Asks(id, Some(question)),
        (Phase::Running, Request::InvalidParams) => Effect::Asks(id, None),
        (Phase::Running, Request::Unknown) => {
            Effect::Refuses(Some(id), ResponseError::MethodNotFound)
        }
        (Phase::Stopped, _) => Effect::Nothing,
        _ => Effect::Refuses(Some(id), ResponseError::InvalidRequest),
    }
}

fn change_effect(documents: &SessionDocuments, change: Change) -> Effect
    ensures { result ≡ spec.effect_of_change documents.now change }
{
    if documents.is_change(&change) {
        Effect::Changes(change)
    } else {
        Effect::Nothing
    }
}

fn notification_effect(
    phase: Phase,
    documents: &SessionDocuments,
    notification: Notification,
) -> Effect
    ensures { result ≡ spec.effect_of_notification phase documents.now notification }
{
    match (phase, notification) {
        (Phase::Running, Notification::DidOpen(item)) => {
            change_effect(documents, Change::Open(item))
        }
        (Phase::Running, Notification::DidChange(params)) => {
            change_effect(documents, Change::Edit(params))
        }
        (Phase::Running, Notification::DidClose(key)) => {
            change_effect(documents, Change::Close(key))
        }
        (Phase::Running, Notification::Cancel(id)) => Effect::Cancels(id),
        (Phase::Fresh | Phase::Running, Notification::Exit) => Effect::Stops(1),
        (Phase::Down, Notification::Exit) => Effect::Stops(0),
        _ => Effect::Nothing,
    }
}

pub(crate) fn message_effect(
    phase: Phase,
    documents: &SessionDocuments,
    message: Incoming,
) -> Effect
    ensures { result ≡ spec.effect_of_message phase documents.now message }
{
    match message {
        Incoming::Request(id, request) => request_effect(phase, id, request),
        Incoming::Notification(notification) => notification_effect(phase, documents, notification),
        Incoming::Invalid(id) => Effect::Refuses(id, ResponseError::InvalidRequest),
        Incoming::Ignored => Effect::Nothing,
        Incoming::NotJson => Effect::Refuses(None, ResponseError::ParseError),
    }
}

/// The status of the process where more documents are loaded than there may be.
const TOO_MANY_STATUS: u8 = 3;

fn loaded_effect(documents: &SessionDocuments, load: Load) -> Effect
    ensures { result ≡ spec.effect_of_loaded documents.now load }
{
    if documents.is_open(load.key.as_str()) {
        return Effect::LoadsBehind(load);
    }
    if documents.is_one_too_many(&load) {
        return Effect::Stops(TOO_MANY_STATUS);
    }
    Effect::Changes(Change::Load(load))
}

pub(crate) fn load_effect(phase: Phase, documents: &SessionDocuments, load: Load) -> Effect
    ensures { result ≡ spec.effect_of_load phase documents.now load }
{
    match phase {
        Phase::Fresh | Phase::Running => loaded_effect(documents, load),
        Phase::Down | Phase::Stopped => Effect::Nothing,
    }
}

pub(crate) fn end_status(end: InputEnd) -> u8
    ensures { result ≡ spec.end_status end }
{
    match end {
        InputEnd::Border => 1,
        InputEnd::Fault => 3,
    }
}

/// What an event comes to.
pub fn effect_of(phase: Phase, documents: &SessionDocuments, event: Event) -> Effect
    ensures { result ≡ spec.effect_of phase documents.now event }
{
    event.effect(phase, documents)
}
