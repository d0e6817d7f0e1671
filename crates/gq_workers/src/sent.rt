//! What a worker makes of an order.
ghost use Rattle.std.specs.Prelude.{◌≡◌, length, nat_lt, MatchOption, MatchResult, IfSome, true, false};
ghost use mathlib.Core.List.{IsPrefix};
ghost use Rattle.gq_edit.specs.Workspace.{AreTexts};
ghost use Rattle.gq_events.specs.declared.event.Task.TheVariants as tasks;
ghost use Rattle.gq_events.specs.Tasks.{is_superseded};
ghost use Rattle.gq_board.specs.Published.{docs_after};
ghost use Rattle.gq_workers.specs.Orders.{is_behind};

use crate::order::Order;
use gq_board::{Looker, Room, Told};
use gq_events::{Done, Task, copy_task};
use gq_kept::Kept;
use gq_parse::Piece;
use gq_project::Project;
use gq_text::PositionEncoding;
use gq_text::text::TEXT_MAX;
use std::alloc::Global;
use std::sync::Arc;

/// What was made of an order, with what had been published as its worker saw it. `attend` alone makes one.
#[non_exhaustive]
pub struct Sent<J: Room> {
    pub order: Order<J>,
    pub seen: Told<J>,
    pub done: Done,
    /// It is about the task of the order, under its number.
    pub ghost same: { (done.job ≡ order.job.number) × (done.task ≡ order.job.task) },
    /// What the worker saw begins with all that had been published when the order was put.
    pub ghost later: { ∥ IsPrefix order.told seen ∥₁ },
    /// Its documents are those that the changes seen make.
    pub ghost texts: { done.texts ≡ docs_after J.base seen },
    /// That another check comes is said of a check whose worker saw more than had been published when the order was put, and of no other task.
    pub ghost behind: { is_superseded done.answer ≡ is_behind done.task order.told seen },
}

impl<J: Room> Drop for Sent<J> {
    fn drop(self) {
        let Sent {
            order: _order,
            seen: _seen,
            done: _done,
        } = self;
    }
}

impl<J: Room> Sent<J> {
    /// What was made.
    pub fn into_done(self) -> Done
        ensures { result ≡ self.done }
    {
        let Sent {
            order: _order,
            seen: _seen,
            done,
        } = self;
        done
    }
}

/// Whether each text has at most 4 MiB.
fn texts_fit(texts: &Project) -> bool
    ensures { result ≡ true → AreTexts texts.now }
{
    texts
        .documents()
        .iter()
        .all(|doc| doc.text.as_str().len() <= TEXT_MAX)
}

/// Looks at the documents, no earlier than was told: a copy of them, where the look is let in and there is memory for it.
fn see<J: Room>(
    alloc: Global,
    mut looker: Looker<J>,
    told: &Told<J>,
) -> (Looker<J>, Option<Project>)
    ensures later { IsPrefix looker result.0 }
    ensures told { IsPrefix told.now result.0 }
    ensures texts { IfSome result.1 (λ texts. texts ≡ docs_after J.base result.0) }
{
    looker.learn(told);
    match looker.look() {
        Ok(seen) => {
            let copy = seen.project().copied(alloc);
            (seen.leave(), copy.ok())
        }
        Err(looker) => (looker, None),
    }
}

/// Brings what is kept to what is published by now, where more had been published, as was told, than the worker has seen. Where memory is
/// refused, some of that is done. It waits for nobody.
pub(crate) fn hear<J: Room>(
    alloc: Global,
    looker: Looker<J>,
    told: &Told<J>,
    kept: &mut Kept,
) -> Looker<J>
    ensures { IsPrefix looker result }
{
    if looker.tell().is(told) {
        return looker;
    }
    let (looker, texts) = see(alloc, looker, told);
    if let Some(texts) = texts {
        let _ = kept.bring_to(alloc, &texts, &[], &mut Vec::new(alloc));
    }
    looker
}

/// Whether more was seen than was told.
#[tactic(auto, using(crate::proofs::Behind::more_seen))]
fn saw_more<J: Room>(told: &Told<J>, seen: &Told<J>) -> bool
    requires { IsPrefix told.now seen.now }
    ensures { result ≡ nat_lt (length told.now) (length seen.now) }
{
    !seen.is(told)
}

/// The encoding of a check that is superseded: documents changed behind its order. The desk has taken that change by now, which decides all
/// that was pending and brings a check of its own.
fn superseded<J: Room>(order: &Order<J>, seen: &Told<J>) -> Option<PositionEncoding>
    requires { IsPrefix order.now.told seen.now }
    ensures { MatchOption result (is_behind order.now.job.task order.now.told seen.now ≡ false)
        (λ encoding. (order.now.job.task ≡ tasks.Check encoding) × (is_behind order.now.job.task order.now.told seen.now ≡ true)) }
{
    match &order.job.task {
        Task::Ask(..) => None,
        Task::Check(encoding) => {
            if saw_more(&order.told, seen) {
                Some(*encoding)
            } else {
                None
            }
        }
    }
}

/// Makes what an order asks for, of the texts that were seen. The pieces that were parsed for it before are with what is made. The order
/// comes back where there is no memory for a copy of its task.
fn make<J: Room>(
    alloc: Global,
    order: Order<J>,
    seen: Told<J>,
    texts: Project,
    mut parsed: Vec<Arc<Piece>>,
    kept: &mut Kept,
) -> Result<Sent<J>, Order<J>>
    requires later { IsPrefix order.told seen }
    requires texts { texts ≡ docs_after J.base seen }
    requires not_behind { is_behind order.job.task order.told seen ≡ false }
    ensures { MatchResult result (λ s. (s.order ≡ order) × (s.seen ≡ seen)) (λ o. o ≡ order) }
{
    if !texts_fit(&texts) {
        return Err(order);
    }
    let Ok(task) = copy_task(alloc, &order.job.task) else {
        return Err(order);
    };
    let mut done = Done::of(
        alloc,
        order.job.number,
        task,
        texts,
        &order.job.pieces,
        kept,
    );
    let _ = done.pieces.append(&mut parsed);
    Ok(Sent { order, seen, done })
}

/// Answers an order about the texts that were seen: that it is superseded, where it is, without a look at them.
fn answer_about<J: Room>(
    alloc: Global,
    order: Order<J>,
    seen: Told<J>,
    texts: Project,
    parsed: Vec<Arc<Piece>>,
    kept: &mut Kept,
) -> Result<Sent<J>, Order<J>>
    requires later { IsPrefix order.told seen }
    requires texts { texts ≡ docs_after J.base seen }
    ensures { MatchResult result (λ s. (s.order ≡ order) × (s.seen ≡ seen)) (λ o. o ≡ order) }
{
    let Some(encoding) = superseded(&order, &seen) else {
        return make(alloc, order, seen, texts, parsed, kept);
    };
    let done = Done::superseded(alloc, order.job.number, encoding, texts);
    Ok(Sent { order, seen, done })
}

/// Answers an order about what stands now: no earlier than was told.
fn answer_now<J: Room>(
    alloc: Global,
    looker: Looker<J>,
    order: Order<J>,
    parsed: Vec<Arc<Piece>>,
    kept: &mut Kept,
) -> (Looker<J>, Result<Sent<J>, Order<J>>)
    ensures later { IsPrefix looker result.0 }
    ensures answer { MatchResult result.1 (λ s. (s.order ≡ order) × (s.seen ≡ result.0) × IsPrefix order.told result.0 × (s.done.texts ≡ docs_after J.base result.0)) (λ o. o ≡ order) }
{
    let (looker, texts) = see(alloc, looker, &order.told);
    let Some(texts) = texts else {
        return (looker, Err(order));
    };
    let answered = answer_about(alloc, order, looker.tell(), texts, parsed, kept);
    (looker, answered)
}

/// Whether an order is a check behind which nothing was seen.
fn is_due_check<J: Room>(order: &Order<J>, seen: &Told<J>) -> bool {
    match &order.job.task {
        Task::Ask(..) => false,
        Task::Check(_) => seen.is(&order.told),
    }
}

/// Brings what is kept to these texts, and answers pieces of those that it read. Where memory is refused, some of that is done.
fn mend<J: Room>(
    alloc: Global,
    order: &Order<J>,
    texts: &Project,
    kept: &mut Kept,
) -> Vec<Arc<Piece>> {
    let mut parsed = Vec::new(alloc);
    let _ = kept.bring_to(alloc, texts, &order.job.pieces, &mut parsed);
    parsed
}

/// Looks once more, and copies nothing.
fn glance<J: Room>(looker: Looker<J>) -> Looker<J>
    ensures { IsPrefix looker result }
{
    match looker.look() {
        Ok(seen) => seen.leave(),
        Err(looker) => looker,
    }
}

/// Answers an order about the texts that were seen. A check is answered only once what is kept was brought to them and nothing more
/// was published by then, since it would be superseded; else about what stands then.
fn answer_seen<J: Room>(
    alloc: Global,
    looker: Looker<J>,
    order: Order<J>,
    texts: Project,
    kept: &mut Kept,
) -> (Looker<J>, Result<Sent<J>, Order<J>>)
    requires later { IsPrefix order.told looker }
    requires texts { texts ≡ docs_after J.base looker }
    ensures later { IsPrefix looker result.0 }
    ensures answer { MatchResult result.1 (λ s. (s.order ≡ order) × (s.seen ≡ result.0) × IsPrefix order.told result.0 × (s.done.texts ≡ docs_after J.base result.0)) (λ o. o ≡ order) }
{
    let seen = looker.tell();
    if !is_due_check(&order, &seen) {
        let answered = answer_about(alloc, order, seen, texts, Vec::new(alloc), kept);
        return (looker, answered);
    }
    let parsed = mend(alloc, &order, &texts, kept);
    let looker = glance(looker);
    if !looker.tell().is(&seen) {
        return answer_now(alloc, looker, order, parsed, kept);
    }
    let answered = answer_about(alloc, order, seen, texts, parsed, kept);
    (looker, answered)
}

/// Answers an order about documents as they are no earlier than when it was put. A check behind which documents changed is superseded: the
/// answer says so, and what is kept stays as it is or is brought to what was seen before. The order comes back where the look is refused, or
/// there is no memory for a copy of the texts or of the task. It waits for nobody.
pub fn attend<J: Room>(
    alloc: Global,
    looker: Looker<J>,
    order: Order<J>,
    kept: &mut Kept,
) -> (Looker<J>, Result<Sent<J>, Order<J>>)
    ensures later { IsPrefix looker result.0 }
    ensures answer { MatchResult result.1 (λ s. (s.order ≡ order) × (s.seen ≡ result.0) × IsPrefix order.told result.0 × (s.done.texts ≡ docs_after J.base result.0)) (λ o. o ≡ order) }
{
    let (looker, texts) = see(alloc, looker, &order.told);
    match texts {
        Some(texts) => answer_seen(alloc, looker, order, texts, kept),
        None => (looker, Err(order)),
    }
}
