//! What a worker makes of a job.
ghost use Rattle.std.specs.Prelude.{◌≡◌, false, IfOk};
ghost use Rattle.gq_edit.specs.Workspace.{AreTexts};
ghost use Rattle.gq_replies.specs.Answers.{IsAnswer, AreDiagnosticsMessages};
ghost use Rattle.gq_events.specs.declared.event.Answer.TheVariants as answers;
ghost use Rattle.gq_events.specs.declared.event.Task.TheVariants as tasks;
ghost use Rattle.gq_events.specs.Tasks.{Answers, is_superseded};

use crate::copies::copy_id;
use crate::event::{Answer, Done, Task};
use gq_kept::Kept;
use gq_parse::Piece;
use gq_project::Project;
use gq_replies::{answer, diagnostics_messages};
use gq_rpc::{Id, Outgoing, Question};
use gq_text::{Items, NoMemory, PositionEncoding};
use std::alloc::Global;
use std::sync::Arc;

/// The response to a question about the documents that are kept.
fn respond(
    alloc: Global,
    encoding: PositionEncoding,
    kept: &mut Kept,
    id: &Id,
    question: &Question,
) -> Result<Outgoing, NoMemory>
    requires { AreTexts kept.old.documents }
    ensures message { IfOk result (λ message. ∥ IsAnswer encoding kept.old.documents id.now question.now message ∥₁) }
    ensures documents { kept.new.documents ≡ kept.old.documents }
{
    let id = copy_id(alloc, id)?;
    answer(alloc, encoding, kept, id, question)
}

/// The notifications that tell what is wrong with each of the documents that are kept.
fn report(
    alloc: Global,
    encoding: PositionEncoding,
    kept: &mut Kept,
) -> Result<Items<Outgoing>, NoMemory>
    requires { AreTexts kept.old.documents }
    ensures messages { IfOk result (λ messages. ∥ AreDiagnosticsMessages encoding kept.old.documents messages ∥₁) }
    ensures documents { kept.new.documents ≡ kept.old.documents }
{
    let messages = diagnostics_messages(alloc, encoding, kept)?;
    Ok(Items::from_vec(messages))
}

/// The answer to a task about the documents that are kept.
pub(crate) fn find_answer(alloc: Global, kept: &mut Kept, task: &Task) -> Result<Answer, NoMemory>
    requires { AreTexts kept.old.documents }
    ensures answer { IfOk result (λ answer. Answers kept.old.documents task.now answer) }
    ensures made { IfOk result (λ answer. is_superseded answer ≡ false) }
    ensures documents { kept.new.documents ≡ kept.old.documents }
{
    match task {
        Task::Ask(encoding, id, question) => {
            let message = respond(alloc, *encoding, kept, id, question)?;
            Ok(Answer::Response(message))
        }
        Task::Check(encoding) => Ok(Answer::Report(report(alloc, *encoding, kept)?)),
    }
}

/// The answer to a task about these texts, to which what is kept is brought.
fn bring_and_answer(
    alloc: Global,
    task: &Task,
    texts: &Project,
    pieces: &[Arc<Piece>],
    parsed: &mut Vec<Arc<Piece>>,
    kept: &mut Kept,
) -> Result<Answer, NoMemory>
    requires { AreTexts texts.now }
    ensures answer { IfOk result (λ answer. Answers texts.now task.now answer) }
    ensures made { IfOk result (λ answer. is_superseded answer ≡ false) }
{
    kept.bring_to(alloc, texts, pieces, parsed)?;
    find_answer(alloc, kept, task)
}

/// The same. Want of memory is an answer, too.
fn answer_task(
    alloc: Global,
    task: &Task,
    texts: &Project,
    pieces: &[Arc<Piece>],
    parsed: &mut Vec<Arc<Piece>>,
    kept: &mut Kept,
) -> Answer
    requires { AreTexts texts.now }
    ensures answer { Answers texts.now task.now result }
    ensures made { is_superseded result ≡ false }
{
    match bring_and_answer(alloc, task, texts, pieces, parsed, kept) {
        Ok(answer) => answer,
        Err(NoMemory) => Answer::NoMemory,
    }
}

impl Done {
    /// What a worker makes of the job of that number: the answer to its task about these texts, each of at most 4 MiB, as
    /// those of open documents are. A question comes to a response, and a check to a report of a notification for each
    /// text, in order of key. Where a growth was refused, that is the answer.
    ///
    /// What the worker keeps is brought to the texts. Of those of which the job has pieces none is read, and pieces of the
    /// others are with what is made, where there is memory for them.
    pub fn of(
        alloc: Global,
        job: u64,
        task: Task,
        texts: Project,
        pieces: &[Arc<Piece>],
        kept: &mut Kept,
    ) -> Done
        requires { AreTexts texts }
        ensures job { result.job ≡ job }
        ensures task { result.task ≡ task }
        ensures texts { result.texts ≡ texts }
        ensures made { is_superseded result.answer ≡ false }
    {
        let mut parsed = Vec::new(alloc);
        let answer = answer_task(alloc, &task, &texts, pieces, &mut parsed, kept);
        Done {
            job,
            task,
            texts,
            answer,
            pieces: parsed,
        }
    }

    /// What a worker makes of a check in that encoding, under that number, where another check is on its way: that it is
    /// superseded. It takes no memory, and reads no text.
    pub fn superseded(alloc: Global, job: u64, encoding: PositionEncoding, texts: Project) -> Done
        ensures job { result.job ≡ job }
        ensures task { result.task ≡ tasks.Check encoding }
        ensures texts { result.texts ≡ texts }
        ensures answer { result.answer ≡ answers.Superseded }
    {
        Done {
            job,
            task: Task::Check(encoding),
            texts,
            answer: Answer::Superseded,
            pieces: Vec::new(alloc),
        }
    }
}
