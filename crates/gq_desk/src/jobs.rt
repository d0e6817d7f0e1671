//! The tasks that are pending, and the jobs that they make.
ghost use Rattle.std.specs.Prelude.{◌≡◌, ◌++◌, ◌<◌, ◌^◌, ℕ, Some, codes, map, take, drop, filter, not, length, option_to_list, IfOk, IfNone, IfSome, OnOk, true, false};
ghost use Rattle.std.specs.List.{HoldsAt, AllByRecursion};
ghost use Rattle.gq_rpc.specs.declared.messages.ResponseError.TheVariants as error;
ghost use Rattle.gq_events.specs.declared.effect.Effect.TheVariants as effects;
ghost use Rattle.gq_events.specs.declared.event.Out.TheVariants as output;
ghost use Rattle.gq_events.specs.Documents.{docs_of};
ghost use Rattle.gq_events.specs.Rules as rules;
ghost use Rattle.gq_events.specs.Tasks as tasks;
ghost use Rattle.gq_events.specs.Machine as spec;
ghost use Rattle.gq_desk.specs.Helping.Settling.{AreNumbered, refused_each, is_result_of, rest_of};

use crate::pieces::Pieces;
use gq_events::answers::{refuse, write_answer};
use gq_events::documents::SessionDocuments;
use gq_events::refusals::failed;
use gq_events::{Done, Effect, Job, Out, Task, copy_task, is_of, same_documents, same_task};
use gq_rpc::{Id, ResponseError};
use gq_text::NoMemory;
use std::alloc::Global;
use std::collections::VecDeque;
use std::marker::Model;
use std::mem;

/// So many jobs are out at once.
const OUT_MAX: usize = 64;

/// Refuses all of them, since a document changed.
fn refuse_modified(pending: Vec<Job>, outs: &mut Vec<Out>) -> Result<(), NoMemory>
    ensures { OnOk result (outs.new.items ≡ outs.old.items ++ refused_each error.ContentModified pending.items) }
{
    for job in pending {
        refuse(job.into_task(), ResponseError::ContentModified, outs)?;
    }
    Ok(())
}

/// Refuses all of them, since the session is shut down.
fn refuse_at_shutdown(alloc: Global, pending: Vec<Job>, outs: &mut Vec<Out>) -> Result<(), NoMemory>
    ensures { OnOk result (outs.new.items ≡ outs.old.items ++ refused_each (rules.failed (codes "shutdown")) pending.items) }
{
    for job in pending {
        let why = failed(alloc, "shutdown")?;
        refuse(job.into_task(), why, outs)?;
    }
    Ok(())
}

/// Refuses the request of that id, and hands the others back.
fn refuse_cancelled(
    alloc: Global,
    pending: Vec<Job>,
    id: &Id,
    outs: &mut Vec<Out>,
) -> Result<Vec<Job>, NoMemory>
    ensures kept { IfOk result (λ kept. kept.items ≡ filter (λ job. not (tasks.is_of id.now job.task)) pending.items) }
    ensures outs { OnOk result (outs.new.items ≡ outs.old.items ++ refused_each error.Cancelled (filter (λ job. tasks.is_of id.now job.task) pending.items)) }
{
    let mut kept = Vec::new(alloc);
    for job in pending {
        if is_of(id, &job.task) {
            refuse(job.into_task(), ResponseError::Cancelled, outs)?;
        } else {
            kept.push(job)?;
        }
    }
    Ok(kept)
}

/// Whether what a worker made is of that job, and about the documents as they are.
#[tactic(auto, unfolding(crate::specs::Helping::Settling::is_result_of))]
fn is_decided_by(documents: &SessionDocuments, done: &Done, job: &Job) -> bool
    ensures { result ≡ is_result_of (docs_of documents.now) done.now job.now }
{
    done.job == job.number
        && same_task(&done.task, &job.task)
        && same_documents(&done.texts, documents)
}

/// Where the job is that is decided by what a worker made.
fn place_of(pending: &[Job], documents: &SessionDocuments, done: &Done) -> Option<usize>
    ensures some { IfSome result (λ i. (i < length pending.now) × HoldsAt (λ job. is_result_of (docs_of documents.now) done.now job ≡ true) pending.now i) }
    ensures none { IfNone result (AllByRecursion (λ job. is_result_of (docs_of documents.now) done.now job ≡ false) pending.now) }
{
    pending
        .iter()
        .position(|job| is_decided_by(documents, done, job))
}

/// Takes the job out that is decided by what a worker made.
fn take_decided(pending: &mut Vec<Job>, documents: &SessionDocuments, done: &Done) -> Option<Job>
    requires { (next : ℕ) × AreNumbered pending.old.items next }
    ensures taken { filter (rules.decides (docs_of documents.now) (effects.Finishes done.now)) pending.old.items ≡ option_to_list result }
    ensures left { pending.new.items ≡ spec.left (docs_of documents.now) (effects.Finishes done.now) pending.old.items }
{
    match place_of(pending, documents, done) {
        Some(at) => Some(pending.remove(at)),
        None => None,
    }
}

/// Takes the job out that is decided by what a worker made, and adds its answer.
fn finish(
    alloc: Global,
    pending: &mut Vec<Job>,
    documents: &SessionDocuments,
    done: Done,
    outs: &mut Vec<Out>,
) -> Result<(), NoMemory>
    requires { (next : ℕ) × AreNumbered pending.old.items next }
    ensures left { pending.new.items ≡ spec.left (docs_of documents.now) (effects.Finishes done) pending.old.items }
    ensures outs { OnOk result (outs.new.items ≡ outs.old.items ++ spec.verdicts (docs_of documents.now) (effects.Finishes done) pending.old.items) }
{
    match take_decided(pending, documents, &done) {
        Some(job) => write_answer(alloc, job.into_task(), done.into_answer(), outs),
        None => Ok(()),
    }
}

/// Writes what becomes of the jobs that an event decides: the other jobs, and what is left of the event.
fn settle_pending(
    alloc: Global,
    mut pending: Vec<Job>,
    documents: &SessionDocuments,
    effect: Effect,
    outs: &mut Vec<Out>,
) -> Result<(Vec<Job>, Effect), NoMemory>
    requires { (next : ℕ) × AreNumbered pending.items next }
    ensures left { IfOk result (λ settled. settled.0.items ≡ spec.left (docs_of documents.now) effect pending.items) }
    ensures rest { IfOk result (λ settled. settled.1 ≡ rest_of effect) }
    ensures outs { OnOk result (outs.new.items ≡ outs.old.items ++ spec.verdicts (docs_of documents.now) effect pending.items) }
{
    match effect {
        Effect::Changes(change) => {
            refuse_modified(pending, outs)?;
            Ok((Vec::new(alloc), Effect::Changes(change)))
        }
        Effect::ShutsDown(id) => {
            refuse_at_shutdown(alloc, pending, outs)?;
            Ok((Vec::new(alloc), Effect::ShutsDown(id)))
        }
        Effect::Cancels(id) => {
            let others = refuse_cancelled(alloc, pending, &id, outs)?;
            Ok((others, Effect::Cancels(id)))
        }
        Effect::Finishes(done) => {
            finish(alloc, &mut pending, documents, done, outs)?;
            Ok((pending, Effect::Nothing))
        }
        other => Ok((pending, other)),
    }
}

/// Whether an event decides a job.
#[tactic(auto, unfolding(crate::specs::Helping::Settling::is_result_of))]
fn decides(documents: &SessionDocuments, effect: &Effect, job: &Job) -> bool
    ensures { result ≡ rules.decides (docs_of documents.now) effect.now job.now }
{
    match effect {
        Effect::Changes(_) | Effect::ShutsDown(_) => true,
        Effect::Cancels(id) => is_of(id, &job.task),
        Effect::Finishes(done) => is_decided_by(documents, done, job),
        _ => false,
    }
}

fn keep_undecided(waiting: &mut VecDeque<Job>, documents: &SessionDocuments, effect: &Effect)
    ensures { waiting.new.items ≡ spec.left (docs_of documents.now) effect.now waiting.old.items }
{
    waiting.retain(|job| !decides(documents, effect, job));
}

/// Whether an event is the end of the job of that number.
fn finishes(effect: &Effect, number: u64) -> bool
    ensures { result ≡ rules.finishes number effect.now }
{
    match effect {
        Effect::Finishes(done) => done.job == number,
        _ => false,
    }
}

fn keep_out(out: &mut Vec<u64>, effect: &Effect)
    ensures { out.new.items ≡ spec.still_out effect.now out.old.items }
{
    out.retain(|number| !finishes(effect, *number));
}

/// The job, with all pieces.
fn with_pieces(alloc: Global, job: Job, pieces: &Pieces) -> Job
    ensures { result ≡ job }
{
    Job {
        number: job.number,
        task: job.into_task(),
        pieces: pieces.shared(alloc),
    }
}

/// A job without pieces. It takes no memory.
fn bare_job(alloc: Global, number: u64, task: Task) -> Job
    ensures { result ≡ record { number = number; task = task } }
{
    Job {
        number,
        task,
        pieces: Vec::new(alloc),
    }
}

/// Hands on the first jobs that wait, each with all pieces, while fewer are out than may be.
fn hand_on(
    alloc: Global,
    out: &mut Vec<u64>,
    waiting: &mut VecDeque<Job>,
    pieces: &Pieces,
    outs: &mut Vec<Out>,
) -> Result<(), NoMemory>
    ensures out { OnOk result (out.new.items ≡ out.old.items ++ map (λ job. job.number) (take (spec.room_for out.old.items) waiting.old.items)) }
    ensures waiting { OnOk result (waiting.new.items ≡ drop (spec.room_for out.old.items) waiting.old.items) }
    ensures jobs { OnOk result (outs.new.items ≡ outs.old.items ++ map output.Job (take (spec.room_for out.old.items) waiting.old.items)) }
{
    while out.len() < OUT_MAX {
        let Some(job) = waiting.pop_front() else {
            return Ok(());
        };
        out.push(job.number)?;
        outs.push(Out::Job(with_pieces(alloc, job, pieces)))?;
    }
    Ok(())
}

/// The tasks that are pending, in order of arrival, those of them that wait to be handed on, the numbers of the jobs
/// that are out, and the next number.
pub struct Jobs {
    pending: Vec<Job>,
    /// Copies of those among them that wait.
    waiting: VecDeque<Job>,
    out: Vec<u64>,
    next: u64,
}

impl Drop for Jobs {
    fn drop(self) {
        let Jobs {
            pending: _pending,
            waiting: _waiting,
            out: _out,
            next: _,
        } = self;
    }
}

impl Model for Jobs {
    ghost use Rattle.gq_events.specs.Machine.{Table};
    ghost use Rattle.gq_desk.specs.Helping.Settling.{AreNumbered};

    ghost Value = { Table };

    ghost view = { λ j. record { pending = j.pending.items; waiting = j.waiting.items; out = j.out.items; next = j.next } };

    ghost invariant = { λ j. AreNumbered j.pending.items j.next };
}

impl Jobs {
    /// No jobs. It takes no memory.
    pub(crate) fn new(alloc: Global) -> Jobs
        ensures { result ≡ spec.no_jobs }
    {
        Jobs {
            pending: Vec::new(alloc),
            waiting: VecDeque::new(alloc),
            out: Vec::new(alloc),
            next: 1,
        }
    }

    pub(crate) fn pending(&self) -> &[Job]
        ensures { result.now ≡ self.now.pending }
    {
        &self.pending
    }

    /// Writes what becomes of the tasks that an event decides, and drops them, and the job that it is the end of: what
    /// is left of the event.
    pub(crate) fn settle(
        &mut self,
        alloc: Global,
        documents: &SessionDocuments,
        effect: Effect,
        outs: &mut Vec<Out>,
    ) -> Result<Effect, NoMemory>
        ensures jobs { OnOk result (self.new ≡ spec.settled (docs_of documents.now) effect self.old) }
        ensures outs { OnOk result (outs.new.items ≡ outs.old.items ++ spec.verdicts (docs_of documents.now) effect self.old.pending) }
        ensures rest { IfOk result (λ rest. rest ≡ rest_of effect) }
    {
        keep_undecided(&mut self.waiting, documents, &effect);
        keep_out(&mut self.out, &effect);
        let pending = mem::replace(&mut self.pending, Vec::new(alloc));
        let (pending, rest) = settle_pending(alloc, pending, documents, effect, outs)?;
        self.pending = pending;
        Ok(rest)
    }

    /// Makes the job for a task.
    pub(crate) fn add(&mut self, alloc: Global, task: Task) -> Result<(), NoMemory>
        requires { self.old.next < 2 ^ 62 }
        ensures { OnOk result (self.new ≡ spec.with_jobs self.old (spec.job_for self.old.next (Some task))) }
    {
        let number = self.next;
        let copy = copy_task(alloc, &task)?;
        self.waiting.push_back(bare_job(alloc, number, copy))?;
        self.pending.push(bare_job(alloc, number, task))?;
        self.next += 1;
        Ok(())
    }

    /// Hands on the first jobs that wait, each with all pieces, while fewer are out than may be.
    pub(crate) fn hand_on(
        &mut self,
        alloc: Global,
        pieces: &Pieces,
        outs: &mut Vec<Out>,
    ) -> Result<(), NoMemory>
        ensures jobs { OnOk result (self.new ≡ spec.handed_on self.old) }
        ensures outs { OnOk result (outs.new.items ≡ outs.old.items ++ map output.Job (spec.next_jobs self.old)) }
    {
        hand_on(alloc, &mut self.out, &mut self.waiting, pieces, outs)
    }
}
