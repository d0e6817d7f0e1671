//! Messages of the language server protocol (LSP 3.17) as plain data: contracts see their texts as lists of bytes.
ghost use Rattle.std.specs.Prelude.{◌≡◌, List, ℕ};
ghost use Rattle.gq_rpc.specs.Actions.{action_name, action_title};

use gq_edit::WorkspaceEdit;
use gq_text::{Change, Items, OwnedText, Position, PositionEncoding, Range};

/// What names a request (JSON-RPC 2.0, section 4): `1` and `"1"` differ.
pub enum Id {
    Number(i64),
    Text(OwnedText),
}

impl Drop for Id {
    fn drop(self) {
        match self {
            Id::Number(_) => {}
            Id::Text(_text) => {}
        }
    }
}

/// What the client can do (LSP 3.17, ClientCapabilities), as far as this server looks at it.
#[derive(Clone, Copy, Debug, PartialEq, Eq)]
pub struct ClientCapabilities {
    /// It takes edits of documents with their versions: `workspace.workspaceEdit.documentChanges` is true.
    pub document_changes: bool,
    /// It asks what a rename would be of: `textDocument.rename.prepareSupport` is true.
    pub prepare_support: bool,
    /// It takes code actions that hold edits with versions: `document_changes`, and
    /// `textDocument.codeAction.codeActionLiteralSupport` is an object.
    pub code_actions: bool,
    /// `textDocument` holds an object of this name, as for the four below.
    pub completion: bool,
    pub definition: bool,
    pub hover: bool,
    pub publish_diagnostics: bool,
    pub references: bool,
    /// Where `general.positionEncodings` is an array: its first entry that is `utf-8` or `utf-16`, else UTF-16.
    pub position_encoding: Option<PositionEncoding>,
}

/// A place in a document (LSP 3.17, TextDocumentPositionParams).
#[derive(Drop)]
pub struct TextDocumentPositionParams {
    /// The key of the document.
    pub key: OwnedText,
    pub position: Position,
}

/// References that are asked for (LSP 3.17, ReferenceParams).
#[derive(Drop)]
pub struct ReferenceParams {
    /// The key of the document.
    pub key: OwnedText,
    pub position: Position,
    /// The definitions are asked for too.
    pub include_declaration: bool,
}

/// A rename that is asked for (LSP 3.17, RenameParams).
#[derive(Drop)]
pub struct RenameParams {
    /// The key of the document.
    pub key: OwnedText,
    pub position: Position,
    pub new_name: OwnedText,
}

/// What code actions are asked with (LSP 3.17, CodeActionContext), as far as this server looks at it.
#[derive(Drop)]
pub struct CodeActionContext {
    /// The kinds that are asked for, where not all are.
    pub only: Option<Items<OwnedText>>,
}

/// Code actions that are asked for (LSP 3.17, CodeActionParams).
#[derive(Drop)]
pub struct CodeActionParams {
    /// The key of the document.
    pub key: OwnedText,
    /// As the client wrote it: its start may lie after its end.
    pub range: Range,
    /// The kinds that are asked for, where not all are.
    pub only: Option<Items<OwnedText>>,
}

/// What is asked about an open document (LSP 3.17, "Language Features").
pub enum Question {
    Completion(TextDocumentPositionParams),
    Definition(TextDocumentPositionParams),
    Hover(TextDocumentPositionParams),
    PrepareRename(TextDocumentPositionParams),
    References(ReferenceParams),
    Rename(RenameParams),
    CodeAction(CodeActionParams),
}

impl Drop for Question {
    fn drop(self) {
        match self {
            Question::Completion(_params) => {}
            Question::Definition(_params) => {}
            Question::Hover(_params) => {}
            Question::PrepareRename(_params) => {}
            Question::References(_params) => {}
            Question::Rename(_params) => {}
            Question::CodeAction(_params) => {}
        }
    }
}

/// What a request asks for.
#[derive(Drop)]
pub enum Request {
    Initialize(ClientCapabilities),
    Shutdown,
    Ask(Question),
    /// A question whose parameters cannot be read.
    InvalidParams,
    /// A method that this server does not know.
    Unknown,
}

/// A document as a client opens it (LSP 3.17, TextDocumentItem).
#[derive(Drop)]
pub struct TextDocumentItem {
    /// The key of its URI.
    pub key: OwnedText,
    /// Its URI as the client wrote it.
    pub uri: OwnedText,
    pub version: i64,
    pub text: OwnedText,
}

/// Changes of a document (LSP 3.17, DidChangeTextDocumentParams). What cannot be read is none.
pub struct DidChangeParams {
    /// The key of the document.
    pub key: OwnedText,
    pub version: Option<i64>,
    pub changes: Option<Items<Change>>,
}

impl Drop for DidChangeParams {
    fn drop(self) {
        let DidChangeParams {
            key: _key,
            version: _,
            changes: _changes,
        } = self;
    }
}

impl DidChangeParams {
    /// The key of the document itself; the changes are let go. It takes no memory.
    pub fn into_key(self) -> OwnedText
        ensures { result ≡ self.key }
    {
        let DidChangeParams {
            key,
            version: _,
            changes: _changes,
        } = self;
        key
    }
}

/// What a notification tells.
#[derive(Drop)]
pub enum Notification {
    /// The request of this id is no longer wanted (LSP 3.17, `$/cancelRequest`).
    Cancel(Id),
    DidChange(DidChangeParams),
    /// The document of this key is closed.
    DidClose(OwnedText),
    DidOpen(TextDocumentItem),
    Exit,
    /// A method that this server does not know or need, or parameters that cannot be read.
    Unknown,
}

/// A message from the client.
#[derive(Drop)]
pub enum Incoming {
    Request(Id, Request),
    Notification(Notification),
    /// JSON that is no message, with its id where it has one.
    Invalid(Option<Id>),
    /// An answer, to a request that was never made.
    Ignored,
    /// A body that is no JSON.
    NotJson,
}

/// What this server says that it can do (LSP 3.17, ServerCapabilities), beside text synchronization.
#[derive(Clone, Copy, Debug, PartialEq, Eq)]
pub struct ServerCapabilities {
    pub completion_provider: bool,
    pub definition_provider: bool,
    pub hover_provider: bool,
    pub references_provider: bool,
    pub rename_provider: bool,
    /// What a rename would be of is answered, where renames are.
    pub prepare_provider: bool,
    pub code_action_provider: bool,
    /// What positions are counted in, where the client listed what it knows; else nothing is said, and UTF-16 holds.
    pub position_encoding: Option<PositionEncoding>,
}

/// What is shown where a pointer rests (LSP 3.17, Hover).
pub struct Hover {
    /// Plain text.
    pub value: OwnedText,
    pub range: Range,
}

impl Drop for Hover {
    fn drop(self) {
        let Hover {
            value: _value,
            range: _,
        } = self;
    }
}

/// A range of a document (LSP 3.17, Location).
pub struct Location {
    pub uri: OwnedText,
    pub range: Range,
}

impl Drop for Location {
    fn drop(self) {
        let Location {
            uri: _uri,
            range: _,
        } = self;
    }
}

/// What a completion item is (LSP 3.17, CompletionItemKind).
#[derive(Clone, Copy, Debug, PartialEq, Eq)]
pub enum CompletionItemKind {
    /// 5: a field of a type.
    Field,
    /// 6: a variable.
    Variable,
    /// 18: a fragment.
    Reference,
}

/// A name that may be written at a place (LSP 3.17, CompletionItem).
pub struct CompletionItem {
    pub kind: CompletionItemKind,
    pub label: OwnedText,
}

impl Drop for CompletionItem {
    fn drop(self) {
        let CompletionItem {
            kind: _,
            label: _label,
        } = self;
    }
}

/// What a rename would be of (LSP 3.17, "Prepare Rename Request").
pub struct PrepareRename {
    pub placeholder: OwnedText,
    pub range: Range,
}

impl Drop for PrepareRename {
    fn drop(self) {
        let PrepareRename {
            placeholder: _placeholder,
            range: _,
        } = self;
    }
}

/// What a code action does (LSP 3.17, CodeActionKind).
#[derive(Clone, Copy, Debug, PartialEq, Eq)]
pub enum CodeActionKind {
    /// Selections become a fragment.
    Extract,
    /// A fragment takes the place of its spread.
    Inline,
    /// The braces of an inline fragment go.
    Rewrite,
}

impl CodeActionKind {
    /// Its name in messages, as `refactor.extract`.
    pub fn name(self) -> &'static str
        ensures { result.now ≡ action_name self }
    {
        match self {
            CodeActionKind::Extract => "refactor.extract",
            CodeActionKind::Inline => "refactor.inline",
            CodeActionKind::Rewrite => "refactor.rewrite",
        }
    }

    /// Its title, as an editor shows it.
    pub fn title(self) -> &'static str
        ensures { result.now ≡ action_title self }
    {
        match self {
            CodeActionKind::Extract => "Extract fragment",
            CodeActionKind::Inline => "Inline fragment",
            CodeActionKind::Rewrite => "Remove redundant inline fragment",
        }
    }
}

/// An edit that is offered (LSP 3.17, CodeAction).
pub struct CodeAction {
    pub kind: CodeActionKind,
    pub edit: WorkspaceEdit,
}

impl Drop for CodeAction {
    fn drop(self) {
        let CodeAction {
            kind: _,
            edit: _edit,
        } = self;
    }
}

/// What is wrong at a range of a document (LSP 3.17, Diagnostic): an error of this server.
pub struct Diagnostic {
    pub code: OwnedText,
    pub message: OwnedText,
    pub range: Range,
}

impl Drop for Diagnostic {
    fn drop(self) {
        let Diagnostic {
            code: _code,
            message: _message,
            range: _,
        } = self;
    }
}

/// All that is wrong with a document (LSP 3.17, PublishDiagnosticsParams), without a version where it is closed.
pub struct PublishDiagnosticsParams {
    pub uri: OwnedText,
    pub version: Option<i64>,
    pub diagnostics: Items<Diagnostic>,
}

impl Drop for PublishDiagnosticsParams {
    fn drop(self) {
        let PublishDiagnosticsParams {
            uri: _uri,
            version: _,
            diagnostics: _diagnostics,
        } = self;
    }
}

/// Why a request is answered with an error (LSP 3.17, ErrorCodes and LSPErrorCodes).
pub enum ResponseError {
    ParseError,
    InvalidRequest,
    MethodNotFound,
    InvalidParams,
    NotInitialized,
    /// The client took the request back.
    Cancelled,
    /// A document changed before the answer stood.
    ContentModified,
    /// The request is right, and is refused for what the text says.
    RequestFailed(OwnedText),
}

impl Drop for ResponseError {
    fn drop(self) {
        match self {
            ResponseError::ParseError => {}
            ResponseError::InvalidRequest => {}
            ResponseError::MethodNotFound => {}
            ResponseError::InvalidParams => {}
            ResponseError::NotInitialized => {}
            ResponseError::Cancelled => {}
            ResponseError::ContentModified => {}
            ResponseError::RequestFailed(_why) => {}
        }
    }
}

/// A message to the client.
pub enum Outgoing {
    Initialized(Id, ServerCapabilities),
    ShutDown(Id),
    Completions(Id, Items<CompletionItem>),
    Hover(Id, Option<Hover>),
    /// The answer to a question for definitions or references.
    Locations(Id, Items<Location>),
    Prepared(Id, Option<PrepareRename>),
    Renamed(Id, WorkspaceEdit),
    CodeActions(Id, Items<CodeAction>),
    /// An error, where there is an id for the request that has it.
    Error(Option<Id>, ResponseError),
    /// A notification, not an answer.
    Diagnostics(PublishDiagnosticsParams),
}

impl Drop for Outgoing {
    fn drop(self) {
        match self {
            Outgoing::Initialized(_id, _) => {}
            Outgoing::ShutDown(_id) => {}
            Outgoing::Completions(_id, _found) => {}
            Outgoing::Hover(_id, _found) => {}
            Outgoing::Locations(_id, _found) => {}
            Outgoing::Prepared(_id, _found) => {}
            Outgoing::Renamed(_id, _edit) => {}
            Outgoing::CodeActions(_id, _found) => {}
            Outgoing::Error(_id, _error) => {}
            Outgoing::Diagnostics(_params) => {}
        }
    }
}
