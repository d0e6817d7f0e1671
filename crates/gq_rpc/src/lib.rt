//! The language server's side of the wire: frames of bytes, the messages in them, and the keys of documents.
#![tactic(auto)]

pub mod capabilities;
pub mod code_actions;
pub mod devices;
pub mod edits;
pub mod framer;
pub mod header;
pub mod keys;
pub mod laws;
pub mod messages;
pub mod notifications;
pub mod parameters;
pub mod reads;
pub mod requests;
pub mod results;
pub mod writes;

pub use devices::{Flagged, Reading, Sink, SinkFailed, Source, send};
pub use framer::Framer;
pub use header::{FrameFault, Scan, scan_front};
pub use keys::key_of;
pub use messages::{
    ClientCapabilities, CodeAction, CodeActionContext, CodeActionKind, CodeActionParams,
    CompletionItem, CompletionItemKind, Diagnostic, DidChangeParams, Hover, Id, Incoming, Location,
    Notification, Outgoing, PrepareRename, PublishDiagnosticsParams, Question, ReferenceParams,
    RenameParams, Request, ResponseError, ServerCapabilities, TextDocumentItem,
    TextDocumentPositionParams,
};
pub use reads::{decode, read_message};
pub use writes::encode;
