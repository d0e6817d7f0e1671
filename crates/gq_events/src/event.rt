//! What comes to the desk, and what it puts out.
ghost use Rattle.std.specs.Prelude.{◌≡◌, ◌++◌, OnOk, is_some};
ghost use Rattle.gq_events.specs.Lifecycle.{load_in};
ghost use Rattle.gq_events.specs.Rules as rules;
ghost use Rattle.gq_events.specs.Tasks.{Answers};

use crate::answers::notify;
use crate::documents::SessionDocuments;
use crate::effect::{Effect, Phase, end_status, load_effect, message_effect};
use crate::refusals::failed;
use gq_parse::Piece;
use gq_project::{DocChange, Project};
use gq_rpc::{Id, Incoming, Outgoing, Question, ResponseError};
use gq_text::{Items, NoMemory, OwnedText, PositionEncoding};
use std::alloc::Global;
use std::marker::Model;
use std::sync::Arc;

/// What is to be answered about the documents, with positions in the encoding that the session has.
pub enum Task {
    /// A client's question, under the id of its request.
    Ask(PositionEncoding, Id, Question),
    /// What is wrong with each document.
    Check(PositionEncoding),
}

impl Drop for Task {
    fn drop(self) {
        match self {
            Task::Ask(_, _id, _question) => {}
            Task::Check(_) => {}
        }
    }
}

impl Task {
    /// Refuses it. A check has no request, and nothing is written for it.
    pub(crate) fn refuse(self, why: ResponseError, outs: &mut Vec<Out>) -> Result<(), NoMemory>
        ensures { OnOk result (outs.new.items ≡ outs.old.items ++ rules.refused_as self why) }
    {
        match self {
            Task::Ask(_, id, _question) => {
                outs.push(Out::Reply(Outgoing::Error(Some(id), why)))?;
                Ok(())
            }
            Task::Check(_) => Ok(()),
        }
    }
}

/// A task under its number. Contracts see these two: pieces decide no answer.
pub struct Job {
    /// Jobs count from 1, in the order in which their tasks came.
    pub number: u64,
    pub task: Task,
    /// Pieces of documents as they are when the job is handed on, in ascending order of their keys, each key once. Whoever
    /// does the job need not read their texts.
    pub pieces: Vec<Arc<Piece>>,
}

impl Drop for Job {
    fn drop(self) {
        let Job {
            number: _,
            task: _task,
            pieces: _pieces,
        } = self;
    }
}

impl Model for Job {
    ghost use Rattle.gq_events.specs.Jobs.{JobOf};

    ghost Value = { JobOf };

    ghost view = { λ j. record { number = j.number; task = j.task } };
}

impl Job {
    /// The task itself, which is answered or refused; the pieces that went with it are let go. It takes no memory.
    pub fn into_task(self) -> Task
        ensures { result ≡ self.task }
    {
        let Job {
            number: _,
            task,
            pieces: _pieces,
        } = self;
        task
    }
}

/// What a task came to.
pub enum Answer {
    /// The response to a question.
    Response(Outgoing),
    /// The notifications of a check, one for each document, in order of key.
    Report(Items<Outgoing>),
    /// A growth was refused.
    NoMemory,
    /// Documents changed behind what the check is of, as its worker saw. So it looked for nothing, and another check is on
    /// its way.
    Superseded,
}

impl Drop for Answer {
    fn drop(self) {
        match self {
            Answer::Response(_message) => {}
            Answer::Report(_messages) => {}
            Answer::NoMemory => {}
            Answer::Superseded => {}
        }
    }
}

impl Answer {
    /// Adds it, as the answer to a task.
    pub(crate) fn write(
        self,
        alloc: Global,
        task: Task,
        outs: &mut Vec<Out>,
    ) -> Result<(), NoMemory>
        ensures { OnOk result (outs.new.items ≡ outs.old.items ++ rules.answered task self) }
    {
        match self {
            Answer::Response(message) => {
                outs.push(Out::Reply(message))?;
                Ok(())
            }
            Answer::Report(messages) => notify(messages.into_vec(), outs),
            Answer::NoMemory => {
                let why = failed(alloc, "12 NoMemory")?;
                task.refuse(why, outs)
            }
            Answer::Superseded => Ok(()),
        }
    }
}

/// What a worker made of a job. Contracts see all but the pieces.
pub struct Done {
    /// The number of the job.
    pub job: u64,
    pub task: Task,
    /// The documents that the worker saw.
    pub texts: Project,
    pub answer: Answer,
    /// Pieces of the documents whose texts the worker read for it.
    pub pieces: Vec<Arc<Piece>>,
    /// The answer is the one that is defined for this task and these documents, or that memory was refused, or that a check
    /// is superseded.
    ghost fits: { Answers texts task answer },
}

impl Drop for Done {
    fn drop(self) {
        let Done {
            job: _,
            task: _task,
            texts: _texts,
            answer: _answer,
            pieces: _pieces,
        } = self;
    }
}

impl Model for Done {
    ghost use Rattle.gq_events.specs.Jobs.{DoneOf};

    ghost Value = { DoneOf };

    ghost view = { λ d. record { job = d.job; task = d.task; texts = d.texts; answer = d.answer; fits = d.fits } };
}

impl Done {
    /// The answer itself; the task, the texts and the pieces that came with it are let go. It takes no memory.
    pub fn into_answer(self) -> Answer
        ensures { result ≡ self.answer }
    {
        let Done {
            job: _,
            task: _task,
            texts: _texts,
            answer,
            pieces: _pieces,
        } = self;
        answer
    }
}

/// What was loaded of a file of the project's folder.
#[derive(Drop)]
pub enum LoadedContent {
    Text(OwnedText),
    /// There is no such file any more.
    Gone,
    /// The file is not UTF-8, or has more than 4 MiB.
    Unfit,
}

/// A file of the project's folder, as it is there.
#[derive(Drop)]
pub struct Load {
    /// What names it: its URI, escaped in one way.
    pub key: OwnedText,
    pub uri: OwnedText,
    pub content: LoadedContent,
}

/// How the input ended.
#[derive(Clone, Copy)]
pub enum InputEnd {
    /// Behind a whole frame, or before any.
    Border,
    /// Inside a frame, at what is none, or the reader failed.
    Fault,
}

/// What comes to the desk.
pub enum Event {
    Message(Incoming),
    /// A file was loaded. What is loaded of a document that the client has open counts once that is closed.
    Load(Load),
    Done(Done),
    End(InputEnd),
}

impl Drop for Event {
    fn drop(self) {
        match self {
            Event::Message(_message) => {}
            Event::Load(_load) => {}
            Event::Done(_done) => {}
            Event::End(_) => {}
        }
    }
}

impl Event {
    /// Whether a file was loaded.
    pub fn is_load(&self) -> bool
        ensures { result ≡ is_some (load_in self.now) }
    {
        matches!(self, Event::Load(_))
    }

    /// What it comes to.
    pub(crate) fn effect(self, phase: Phase, documents: &SessionDocuments) -> Effect
        ensures { result ≡ rules.effect_of phase documents.now self }
    {
        match phase {
            Phase::Stopped => Effect::Nothing,
            _ => match self {
                Event::Message(message) => message_effect(phase, documents, message),
                Event::Load(load) => load_effect(phase, documents, load),
                Event::Done(done) => Effect::Finishes(done),
                Event::End(end) => Effect::Stops(end_status(end)),
            },
        }
    }
}

/// What the desk puts out.
#[derive(Drop)]
pub enum Out {
    /// The reply to a message.
    Reply(Outgoing),
    /// A notification to the client.
    Notify(Outgoing),
    /// What workers are to see changed.
    Publish(DocChange),
    /// What a worker is to do.
    Job(Job),
    /// The session stops, with this status of the process.
    Stop(u8),
}
