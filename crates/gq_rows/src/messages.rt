//! The message that a body is, in a line.
use crate::no_answer::NoAnswer;
use crate::row::Row;
use crate::telling::Telling;
use gq_rpc::{
    ClientCapabilities, CodeActionParams, DidChangeParams, Id, Incoming, Notification, Question,
    Request, TextDocumentItem, read_message,
};
use gq_text::{Change, Items, OwnedText, Position, Range};
use std::alloc::Global;

fn put_id(out: &mut Telling, id: &Id) {
    match id {
        Id::Number(number) => out.put_debug(number),
        Id::Text(text) => put_quoted(out, text),
    }
}

fn put_quoted(out: &mut Telling, text: &OwnedText) {
    out.put("'");
    out.put(text.as_str());
    out.put("'");
}

/// A word, a key and a position, such as `hover file:///q 1:2`.
fn put_place(out: &mut Telling, method: &str, key: &OwnedText, position: Position) {
    out.put(method);
    out.put(" ");
    out.put(key.as_str());
    out.put(" ");
    out.put_number(position.line as usize);
    out.put(":");
    out.put_number(position.character as usize);
}

/// The characters of a range, without its lines.
fn put_range(out: &mut Telling, range: Range) {
    out.put_number(range.start.character as usize);
    out.put("-");
    out.put_number(range.end.character as usize);
}

fn put_only(out: &mut Telling, only: &Option<Items<OwnedText>>) {
    let Some(kinds) = only else {
        return;
    };
    out.put(" only");
    for kind in kinds.as_slice() {
        out.put(" ");
        put_quoted(out, kind);
    }
}

fn put_code_action(out: &mut Telling, params: &CodeActionParams) {
    out.put("actions ");
    out.put(params.key.as_str());
    out.put(" ");
    put_range(out, params.range);
    put_only(out, &params.only);
}

fn put_question(out: &mut Telling, question: &Question) {
    match question {
        Question::Completion(p) => put_place(out, "completion", &p.key, p.position),
        Question::Definition(p) => put_place(out, "definition", &p.key, p.position),
        Question::Hover(p) => put_place(out, "hover", &p.key, p.position),
        Question::PrepareRename(p) => put_place(out, "prepare", &p.key, p.position),
        Question::References(p) => {
            put_place(out, "references", &p.key, p.position);
            out.put(if p.include_declaration {
                " true"
            } else {
                " false"
            })
        }
        Question::CodeAction(p) => put_code_action(out, p),
        Question::Rename(p) => {
            put_place(out, "rename", &p.key, p.position);
            out.put(" ");
            out.put(p.new_name.as_str())
        }
    }
}

/// What of the client is read: whether it takes edits with versions, answers to prepareRename, hovers and code actions.
fn put_client(out: &mut Telling, client: &ClientCapabilities) {
    out.put("initialize");
    for holds in [
        client.document_changes,
        client.prepare_support,
        client.hover,
        client.code_actions,
    ] {
        out.put(if holds { " true" } else { " false" });
    }
}

fn put_request(out: &mut Telling, request: &Request) {
    match request {
        Request::Initialize(client) => put_client(out, client),
        Request::Shutdown => out.put("shutdown"),
        Request::Ask(question) => put_question(out, question),
        Request::InvalidParams => out.put("invalid"),
        Request::Unknown => out.put("unknown"),
    }
}

fn put_change(out: &mut Telling, change: &Change) {
    out.put(" ");
    match change {
        Change::Whole(text) => put_quoted(out, text),
        Change::Part(range, text) => {
            put_range(out, *range);
            out.put(" ");
            put_quoted(out, text)
        }
    }
}

fn put_changed(out: &mut Telling, params: &DidChangeParams) {
    out.put("change ");
    out.put(params.key.as_str());
    out.put(" ");
    out.put_debug(&params.version);
    let Some(changes) = &params.changes else {
        out.put(" unread");
        return;
    };
    for change in changes.as_slice() {
        put_change(out, change);
    }
}

fn put_opened(out: &mut Telling, item: &TextDocumentItem) {
    out.put("open ");
    out.put(item.key.as_str());
    out.put(" ");
    out.put(item.uri.as_str());
    out.put(" ");
    out.put_debug(&item.version);
    out.put(" ");
    put_quoted(out, &item.text);
}

fn put_notification(out: &mut Telling, notification: &Notification) {
    match notification {
        Notification::Cancel(id) => {
            out.put("cancel ");
            put_id(out, id)
        }
        Notification::DidChange(params) => put_changed(out, params),
        Notification::DidClose(key) => {
            out.put("close ");
            out.put(key.as_str())
        }
        Notification::DidOpen(item) => put_opened(out, item),
        Notification::Exit => out.put("exit"),
        Notification::Unknown => out.put("unknown"),
    }
}

fn put_message(out: &mut Telling, message: &Incoming) {
    match message {
        Incoming::Request(id, request) => {
            put_id(out, id);
            out.put(" ");
            put_request(out, request)
        }
        Incoming::Notification(notification) => put_notification(out, notification),
        Incoming::Invalid(Some(id)) => {
            out.put("invalid ");
            put_id(out, id)
        }
        Incoming::Invalid(None) => out.put("invalid null"),
        Incoming::Ignored => out.put("ignored"),
        Incoming::NotJson => out.put("not JSON"),
    }
}

/// Tells the message that a body is.
pub fn tell_message(alloc: Global, row: &Row<'_>, telling: &mut Telling) -> Result<(), NoAnswer> {
    let body = row.asked_bytes(alloc)?;
    put_message(telling, &read_message(alloc, &body)?);
    Ok(())
}
