//! What a worker's thread does.
ghost use Rattle.std.specs.Prelude.{◌≡◌, [], ◌∷◌, ◌++◌, ◌⊎◌, true, false, IfOk, IfSome, MatchBool};
ghost use Rattle.gq_workers.specs.declared.order.OrderOf.{OrderOf};
ghost use Rattle.gq_workers.specs.Orders.{order_of};
ghost use Rattle.gq_workers.specs.Work.{AllHanded, ButOne};

use crate::ends::Outbox;
use crate::jobs::JobsIn;
use crate::order::{Dispatch, Order};
use crate::sent::{Sent, attend, hear};
use gq_board::{Looker, Room};
use gq_kept::Kept;
use gq_project::Project;
use gq_text::NoMemory;
use std::alloc::Global;
use std::sync::Wait;

/// What a worker passes before it hands on what it made.
pub trait Gate {
    fn pass(&self, job: u64);
}

/// A gate that stands open.
pub struct Open;

impl Gate for Open {
    fn pass(&self, _job: u64) {}
}

/// Attends to an order, and once more where that is refused.
fn attend_twice<J: Room>(
    alloc: Global,
    looker: Looker<J>,
    order: Order<J>,
    kept: &mut Kept,
) -> (Looker<J>, Option<Sent<J>>)
    ensures { IfSome result.1 (λ s. s.order ≡ order) }
{
    let (looker, order) = match attend(alloc, looker, order, kept) {
        (looker, Ok(sent)) => return (looker, Some(sent)),
        (looker, Err(order)) => (looker, order),
    };
    let (looker, again) = attend(alloc, looker, order, kept);
    (looker, again.ok())
}

/// Hands on what was made, and once more where that is refused. Whether it was taken.
fn hand_twice<J: Room, R: Wait>(rt: &R, inbox: &mut Outbox<J>, sent: Sent<J>) -> bool
    ensures { MatchBool result (inbox.new ≡ inbox.old ++ order_of sent.order ∷ []) (inbox.new ≡ inbox.old) }
{
    match inbox.hand(rt, sent) {
        Ok(()) => true,
        Err(sent) => inbox.hand(rt, sent).is_ok(),
    }
}

/// Attends to an order, and hands on what comes of it. False where the worker has to end.
fn serve_order<J: Room, G: Gate, R: Wait>(
    rt: &R,
    alloc: Global,
    looker: Looker<J>,
    order: Order<J>,
    inbox: &mut Outbox<J>,
    kept: &mut Kept,
    gate: &G,
) -> (Looker<J>, bool)
    ensures { MatchBool result.1 (inbox.new ≡ inbox.old ++ order_of order ∷ []) (inbox.new ≡ inbox.old) }
{
    let (looker, sent) = attend_twice(alloc, looker, order, kept);
    let Some(sent) = sent else {
        return (looker, false);
    };
    gate.pass(sent.order.job.number);
    (looker, hand_twice(rt, inbox, sent))
}

/// Takes a job, and hands on what comes of it, or takes in news. False where the worker has to end.
fn serve_one<J: Room, G: Gate, R: Wait>(
    rt: &R,
    alloc: Global,
    looker: Looker<J>,
    jobs: &mut JobsIn<J>,
    inbox: &mut Outbox<J>,
    kept: &mut Kept,
    gate: &G,
) -> (Looker<J>, bool)
    ensures on { result.1 ≡ true → ((jobs.new ≡ jobs.old) × (inbox.new ≡ inbox.old)) ⊎ ((o : OrderOf) × (jobs.new ≡ jobs.old ++ o ∷ []) × (inbox.new ≡ inbox.old ++ o ∷ [])) }
    ensures ends { result.1 ≡ false → (inbox.new ≡ inbox.old) × ((jobs.new ≡ jobs.old) ⊎ ((o : OrderOf) × (jobs.new ≡ jobs.old ++ o ∷ []))) }
{
    match jobs.take(rt) {
        Some(Dispatch::Order(order)) => { serve_order(rt, alloc, looker, order, inbox, kept, gate) }
        Some(Dispatch::News(told)) => (hear(alloc, looker, &told, kept), true),
        None => (looker, false),
    }
}

/// Serves until nothing comes any more, or it has to end.
fn serve<J: Room, G: Gate, R: Wait>(
    rt: &R,
    alloc: Global,
    mut looker: Looker<J>,
    jobs: &mut JobsIn<J>,
    inbox: &mut Outbox<J>,
    kept: &mut Kept,
    gate: &G,
)
    ensures { AllHanded jobs.old jobs.new inbox.old inbox.new ⊎ ButOne jobs.old jobs.new inbox.old inbox.new }
{
    for _ in rt.forever() {
        let (next, goes_on) = serve_one(rt, alloc, looker, jobs, inbox, kept, gate);
        kept.let_go();
        looker = next;
        if !goes_on {
            return;
        }
    }
    unreachable!()
}

/// What a worker keeps at first, of no documents. It is made once more where that is refused.
fn keep_nothing(alloc: Global) -> Result<Kept, NoMemory>
    ensures { IfOk result (λ kept. kept ≡ record { documents = []; is_indexed = false; is_judged = false }) }
{
    match Kept::of(alloc, &Project::new(alloc)) {
        Ok(kept) => Ok(kept),
        Err(NoMemory) => Kept::of(alloc, &Project::new(alloc)),
    }
}

/// Takes jobs, and hands on what comes of each, until nothing comes any more; between them it takes in news. It ends too where what it keeps at first, an order or a
/// handing on is refused twice.
pub fn work<J: Room, G: Gate, R: Wait>(
    rt: &R,
    alloc: Global,
    looker: Looker<J>,
    jobs: &mut JobsIn<J>,
    inbox: &mut Outbox<J>,
    gate: &G,
)
    ensures { AllHanded jobs.old jobs.new inbox.old inbox.new ⊎ ButOne jobs.old jobs.new inbox.old inbox.new }
{
    let Ok(mut kept) = keep_nothing(alloc) else {
        return;
    };
    serve(rt, alloc, looker, jobs, inbox, &mut kept, gate);
}
