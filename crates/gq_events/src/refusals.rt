//! How a question is denied before it is looked at.
ghost use Rattle.std.specs.Prelude.{◌≡◌, ◌==◌, nat_le, IfOk, count_by};
ghost use Rattle.std.specs.List.{list_any};
ghost use Rattle.gq_events.specs.Tasks as tasks;
ghost use Rattle.gq_events.specs.Rules as spec;

use crate::event::{Job, Task};
use crate::same::is_of;
use gq_rpc::{Id, Question, ResponseError};
use gq_text::{NoMemory, OwnedText};
use std::alloc::Global;

/// How a question is denied.
#[derive(Drop)]
pub enum Denial {
    /// By an error.
    Error(ResponseError),
    /// By no code action.
    NoActions,
}

/// So many questions may be pending.
const PENDING_MAX: usize = 64;

/// A request is right, and is refused for this.
pub fn failed(alloc: Global, why: &str) -> Result<ResponseError, NoMemory>
    ensures { IfOk result (λ error. error ≡ spec.failed why.now) }
{
    Ok(ResponseError::RequestFailed(OwnedText::from_str(alloc, why)?))
}

/// A question is right, and is refused for this.
pub fn denied(alloc: Global, why: &str) -> Result<Denial, NoMemory>
    ensures { IfOk result (λ denial. denial ≡ spec.denied why.now) }
{
    Ok(Denial::Error(failed(alloc, why)?))
}

fn is_ask(task: &Task) -> bool
    ensures { result ≡ tasks.is_ask task.now }
{
    match task {
        Task::Ask(_, _, _) => true,
        Task::Check(_) => false,
    }
}

/// Whether the id is that of a question that is pending.
pub fn is_pending(pending: &[Job], id: &Id) -> bool
    ensures { result ≡ list_any (λ job. tasks.is_of id.now job.task) pending.now }
{
    pending.iter().any(|job| is_of(id, &job.task))
}

/// Whether no more questions may be pending.
pub fn are_too_many(pending: &[Job]) -> bool
    ensures { result ≡ spec.are_too_many pending.now }
{
    let asks = pending.iter().filter(|job| is_ask(&job.task)).count();
    asks >= PENDING_MAX
}

/// The key of the document that a question is about.
pub fn key_of(question: &Question) -> &str
    ensures { result.now ≡ (tasks.place_of question.now).key }
{
    match question {
        Question::Completion(params)
        | Question::Definition(params)
        | Question::Hover(params)
        | Question::PrepareRename(params) => params.key.as_str(),
        Question::References(params) => params.key.as_str(),
        Question::Rename(params) => params.key.as_str(),
        Question::CodeAction(params) => params.key.as_str(),
    }
}

/// Whether a question wants a client that takes edits with versions.
pub fn wants_document_changes(question: &Question) -> bool
    ensures { result ≡ spec.wants_document_changes question.now }
{
    matches!(question, Question::Rename(_))
}

/// Whether a question wants a client that takes code actions.
pub fn wants_code_actions(question: &Question) -> bool
    ensures { result ≡ spec.wants_code_actions question.now }
{
    matches!(question, Question::CodeAction(_))
}
