//! Which tasks and documents are the same.
ghost use Rattle.std.specs.Prelude.{◌≡◌};
ghost use Rattle.std.specs.Option.{option_copied};
ghost use Rattle.gq_events.specs.Documents.{doc_of, docs_of};
ghost use Rattle.gq_events.specs.Tasks as spec;

use crate::documents::{SessionDocument, SessionDocuments};
use crate::event::Task;
use crate::refusals::key_of;
use gq_project::{Doc, Project};
use gq_rpc::{Id, Question};
use gq_text::{Items, OwnedText, Position, PositionEncoding};

fn same_id(a: &Id, b: &Id) -> bool
    ensures { result ≡ spec.same_id a.now b.now }
{
    match (a, b) {
        (Id::Number(a), Id::Number(b)) => a == b,
        (Id::Text(a), Id::Text(b)) => a == b,
        _ => false,
    }
}

/// Whether a task is the request of that id.
pub fn is_of(id: &Id, task: &Task) -> bool
    ensures { result ≡ spec.is_of id.now task.now }
{
    match task {
        Task::Ask(_, other, _) => same_id(other, id),
        Task::Check(_) => false,
    }
}

fn same_encoding(a: PositionEncoding, b: PositionEncoding) -> bool
    ensures { result ≡ spec.same_encoding a b }
{
    matches!(
        (a, b),
        (PositionEncoding::Utf8, PositionEncoding::Utf8)
            | (PositionEncoding::Utf16, PositionEncoding::Utf16)
    )
}

/// The kinds of questions, numbered.
fn kind_of(question: &Question) -> u8
    ensures { result ≡ spec.kind_of question.now }
{
    match question {
        Question::Completion(_) => 0,
        Question::Definition(_) => 1,
        Question::Hover(_) => 2,
        Question::PrepareRename(_) => 3,
        Question::References(_) => 4,
        Question::Rename(_) => 5,
        Question::CodeAction(_) => 6,
    }
}

/// The position that a question is asked at, or where its range starts.
fn position_of(question: &Question) -> Position
    ensures { result ≡ (spec.place_of question.now).position }
{
    match question {
        Question::Completion(params)
        | Question::Definition(params)
        | Question::Hover(params)
        | Question::PrepareRename(params) => params.position,
        Question::References(params) => params.position,
        Question::Rename(params) => params.position,
        Question::CodeAction(params) => params.range.start,
    }
}

/// Whether references are to have the definitions too.
fn includes_declaration(question: &Question) -> bool
    ensures { result ≡ spec.includes_declaration question.now }
{
    match question {
        Question::References(params) => params.include_declaration,
        _ => false,
    }
}

/// The new name of a rename.
fn new_name_of(question: &Question) -> &str
    ensures { result.now ≡ spec.new_name_of question.now }
{
    match question {
        Question::Rename(params) => params.new_name.as_str(),
        _ => "",
    }
}

/// Where the range ends that code actions are asked for.
fn end_of(question: &Question) -> Position
    ensures { result ≡ spec.end_of question.now }
{
    match question {
        Question::CodeAction(params) => params.range.end,
        _ => Position {
            line: 0,
            character: 0,
        },
    }
}

/// The kinds of code actions that are asked for, where not all are.
fn kinds_of(question: &Question) -> Option<&Items<OwnedText>>
    ensures { option_copied result ≡ spec.kinds_of question.now }
{
    match question {
        Question::CodeAction(params) => params.only.as_ref(),
        _ => None,
    }
}

fn same_position(a: Position, b: Position) -> bool
    ensures { result ≡ spec.same_position a b }
{
    a.line == b.line && a.character == b.character
}

fn same_place(a: &Question, b: &Question) -> bool
    ensures { result ≡ spec.same_place (spec.place_of a.now) (spec.place_of b.now) }
{
    key_of(a) == key_of(b) && same_position(position_of(a), position_of(b))
}

fn same_texts(a: &[OwnedText], b: &[OwnedText]) -> bool
    ensures { result ≡ spec.same_texts a.now b.now }
{
    a == b
}

fn same_kinds(a: &Question, b: &Question) -> bool
    ensures { result ≡ spec.same_kinds (spec.kinds_of a.now) (spec.kinds_of b.now) }
{
    match (kinds_of(a), kinds_of(b)) {
        (None, None) => true,
        (Some(a), Some(b)) => same_texts(a.as_slice(), b.as_slice()),
        _ => false,
    }
}

fn same_question(a: &Question, b: &Question) -> bool
    ensures { result ≡ spec.same_question a.now b.now }
{
    kind_of(a) == kind_of(b)
        && same_place(a, b)
        && includes_declaration(a) == includes_declaration(b)
        && new_name_of(a) == new_name_of(b)
        && same_position(end_of(a), end_of(b))
        && same_kinds(a, b)
}

/// Whether two tasks are the same.
pub fn same_task(a: &Task, b: &Task) -> bool
    ensures { result ≡ spec.same_task a.now b.now }
{
    match (a, b) {
        (Task::Ask(encoding, id, question), Task::Ask(another, other, asked)) => {
            same_encoding(*encoding, *another)
                && same_id(id, other)
                && same_question(question, asked)
        }
        (Task::Check(encoding), Task::Check(another)) => same_encoding(*encoding, *another),
        _ => false,
    }
}

pub(crate) fn same_document(a: &Doc, b: &SessionDocument) -> bool
    ensures { result ≡ spec.same_doc a.now (doc_of b.now) }
{
    a.key == b.key && a.uri == b.uri && a.version == b.version && b.text.is(a.text.as_str())
}

fn are_same(texts: &[Doc], documents: &[SessionDocument]) -> bool
    ensures { result ≡ spec.same_docs texts.now (docs_of documents.now) }
{
    if texts.len() != documents.len() {
        return false;
    }
    for i in 0..texts.len() {
        if !same_document(&texts[i], &documents[i]) {
            return false;
        }
    }
    true
}

/// Whether the texts are those of the documents as they are now. It makes no copy of a text.
pub fn same_documents(texts: &Project, documents: &SessionDocuments) -> bool
    ensures { result ≡ spec.same_docs texts.now (docs_of documents.now) }
{
    are_same(texts.documents(), documents.as_slice())
}
