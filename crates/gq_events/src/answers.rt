//! What is written for answers, and the answers that the desk gives itself, where no worker is to answer.
ghost use Rattle.std.specs.Prelude.{◌≡◌, ◌++◌, map, OnOk};
ghost use Rattle.gq_events.specs.declared.event.Answer.{Answer};
ghost use Rattle.gq_events.specs.declared.event.Out.TheVariants as out;
ghost use Rattle.gq_events.specs.Documents.{docs_of};
ghost use Rattle.gq_events.specs.Keeping.{IsKeptOf};
ghost use Rattle.gq_events.specs.Rules as rules;
ghost use Rattle.gq_events.specs.Rules.{answer_to, FitsTaken};

use crate::documents::SessionDocuments;
use crate::event::{Answer, Out, Task};
use crate::keeping::Keeping;
use gq_rpc::{Outgoing, ResponseError};
use gq_text::NoMemory;
use std::alloc::Global;

pub(crate) fn notify(messages: Vec<Outgoing>, outs: &mut Vec<Out>) -> Result<(), NoMemory>
    ensures { OnOk result (outs.new.items ≡ outs.old.items ++ map out.Notify messages.items) }
{
    for message in messages {
        outs.push(Out::Notify(message))?;
    }
    Ok(())
}

/// Refuses a task. A check has no request, and nothing is written for it.
pub fn refuse(task: Task, why: ResponseError, outs: &mut Vec<Out>) -> Result<(), NoMemory>
    ensures { OnOk result (outs.new.items ≡ outs.old.items ++ rules.refused_as task why) }
{
    task.refuse(why, outs)
}

/// Adds the answer to a task. Nothing is written for a check that is superseded. None such is pending where its answer comes:
/// the change that its worker saw came to the desk before, and a change decides all that is pending. No clause says that.
pub fn write_answer(
    alloc: Global,
    task: Task,
    answer: Answer,
    outs: &mut Vec<Out>,
) -> Result<(), NoMemory>
    ensures { OnOk result (outs.new.items ≡ outs.old.items ++ rules.answered task answer) }
{
    answer.write(alloc, task, outs)
}

/// Adds the answer to the task that an event brings, if it brings one. What is kept is brought to the documents first, of
/// which only those that changed are copied and read.
pub fn answer_task(
    alloc: Global,
    documents: &SessionDocuments,
    keeping: &mut Keeping,
    task: Option<Task>,
    outs: &mut Vec<Out>,
) -> Result<(), NoMemory>
    requires { IsKeptOf keeping.old (docs_of documents.now) }
    ensures outs { OnOk result ((answer : Answer) × FitsTaken (docs_of documents.now) task answer × (outs.new.items ≡ outs.old.items ++ answer_to task answer)) }
    ensures kept { IsKeptOf keeping.new (docs_of documents.now) }
{
    let Some(task) = task else {
        return Ok(());
    };
    let answer = keeping.answer(alloc, documents, &task);
    write_answer(alloc, task, answer, outs)
}
