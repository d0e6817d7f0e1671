//! The desk: one event after another.
ghost use Rattle.std.specs.Prelude.{◌≡◌, ◌++◌, ◌<◌, ◌^◌, ◌==◌, [], Some, None, is_none, Err, IfOk, IfSome, OnOk, OnErr, IsErrOf, if◌then◌else◌};
ghost use Rattle.gq_events.specs.Keeping.{IsKeptOf};
ghost use Rattle.gq_events.specs.declared.event.Answer.{Answer};
ghost use Rattle.gq_events.specs.Documents.{docs_of};
ghost use Rattle.gq_events.specs.Rules.{answer_to, FitsTaken};
ghost use Rattle.gq_events.specs.Machine as spec;

use crate::jobs::Jobs;
use crate::pieces::Pieces;
use gq_events::answers::answer_task;
use gq_events::documents::SessionDocuments;
use gq_events::{ClientSession, Event, Keeping, Out, Task};
use gq_text::NoMemory;
use std::alloc::Global;
use std::marker::Model;

/// Why a step of the desk fails.
#[derive(Clone, Copy, Debug, PartialEq, Eq)]
pub enum DeskFault {
    /// A growth was refused.
    NoMemory,
    /// The desk failed before.
    Failed,
}

/// Answers a task at once where there are no workers, by what is kept of the documents; else makes a job for it.
fn bring(
    alloc: Global,
    documents: &SessionDocuments,
    keeping: &mut Keeping,
    workers: u8,
    jobs: &mut Jobs,
    task: Option<Task>,
    outs: &mut Vec<Out>,
) -> Result<(), NoMemory>
    requires next { jobs.old.next < 2 ^ 62 }
    requires kept { IsKeptOf keeping.old (docs_of documents.now) }
    ensures kept { IsKeptOf keeping.new (docs_of documents.now) }
    ensures jobs { OnOk result (jobs.new ≡ spec.with_jobs jobs.old (spec.jobs_for workers jobs.old.next task)) }
    ensures outs { OnOk result ((answer : Answer) × (workers ≡ 0 → FitsTaken (docs_of documents.now) task answer)
        × (outs.new.items ≡ outs.old.items ++ (if workers == 0 then answer_to task answer else []))) }
{
    if workers == 0 {
        return answer_task(alloc, documents, keeping, task, outs);
    }
    match task {
        Some(task) => jobs.add(alloc, task),
        None => Ok(()),
    }
}

/// One step over a session and its jobs.
fn take_event(
    alloc: Global,
    session: &mut ClientSession,
    keeping: &mut Keeping,
    pieces: &mut Pieces,
    workers: u8,
    jobs: &mut Jobs,
    event: Event,
    outs: &mut Vec<Out>,
) -> Result<(), NoMemory>
    requires next { jobs.old.next < 2 ^ 62 }
    requires empty { outs.old.items ≡ [] }
    requires kept { IsKeptOf keeping.old (docs_of session.old.documents) }
    ensures kept { OnOk result (IsKeptOf keeping.new (docs_of session.new.documents)) }
    ensures steps { OnOk result (spec.Steps (record { session = session.old; workers = workers; jobs = jobs.old }) event outs.new.items
        (record { session = session.new; workers = workers; jobs = jobs.new })) }
{
    let effect = session.effect(event);
    let denied = session.denied_by(alloc, jobs.pending(), &effect)?;
    keeping.follow(alloc, &effect);
    pieces.follow(session.documents(), &effect);
    let rest = jobs.settle(alloc, session.documents(), effect, outs)?;
    let task = session.take_in(alloc, workers, denied, rest, outs)?;
    bring(
        alloc,
        session.documents(),
        keeping,
        workers,
        jobs,
        task,
        outs,
    )?;
    jobs.hand_on(alloc, pieces, outs)
}

/// A session with its jobs. Contracts see its state, or nothing once it has failed.
pub struct Desk {
    session: ClientSession,
    /// What is known of the documents, from the last task that was answered here. An answer is the same without.
    keeping: Keeping,
    /// Pieces of the documents, as workers made them. They decide no answer.
    pieces: Pieces,
    workers: u8,
    jobs: Jobs,
    failed: bool,
}

impl Drop for Desk {
    fn drop(self) {
        let Desk {
            session: _session,
            keeping: _keeping,
            pieces: _pieces,
            workers: _,
            jobs: _jobs,
            failed: _,
        } = self;
    }
}

impl Model for Desk {
    ghost use Rattle.std.specs.Prelude.{Option, Some, None, if◌then◌else◌};
    ghost use Rattle.gq_events.specs.Machine.{State};

    ghost Value = { Option State };

    ghost use Rattle.gq_events.specs.Documents.{docs_of};
    ghost use Rattle.gq_events.specs.Keeping.{IsKeptOf};

    ghost view = { λ d. if d.failed then None else Some (record { session = d.session; workers = d.workers; jobs = d.jobs }) };

    ghost invariant = { λ d. IsKeptOf d.keeping (docs_of d.session.documents) };
}

impl Desk {
    /// A desk with so many workers. With none it answers each task itself, in the step that brings it. It takes no
    /// memory.
    pub fn new(alloc: Global, workers: u8) -> Desk
        ensures { result ≡ Some (spec.start workers) }
    {
        Desk {
            session: ClientSession::new(alloc),
            keeping: Keeping::new(alloc),
            pieces: Pieces::new(alloc),
            workers,
            jobs: Jobs::new(alloc),
            failed: false,
        }
    }

    /// Whether it has failed.
    pub fn has_failed(&self) -> bool
        ensures { result ≡ is_none self.now }
    {
        self.failed
    }

    /// It fails: what it put out was not delivered.
    pub(crate) fn fail(&mut self)
        ensures { self.new ≡ None }
    {
        self.failed = true;
    }

    /// Takes an event. After `NoMemory` the desk has failed.
    pub fn step(&mut self, alloc: Global, event: Event) -> Result<Vec<Out>, DeskFault>
        requires { IfSome self.old (λ s. s.jobs.next < 2 ^ 62) }
        ensures step { IfOk result (λ outs. spec.DeskSteps self.old event outs.items self.new) }
        ensures err { OnErr result (self.new ≡ None) }
        ensures failed { self.old ≡ None → result ≡ Err DeskFault.Failed }
        ensures only_failed { IsErrOf result DeskFault.Failed → self.old ≡ None }
    {
        if self.failed {
            return Err(DeskFault::Failed);
        }
        let mut outs = Vec::new(alloc);
        let done = take_event(
            alloc,
            &mut self.session,
            &mut self.keeping,
            &mut self.pieces,
            self.workers,
            &mut self.jobs,
            event,
            &mut outs,
        );
        match done {
            Ok(()) => Ok(outs),
            Err(NoMemory) => {
                self.keeping.forget();
                self.failed = true;
                Err(DeskFault::NoMemory)
            }
        }
    }
}
