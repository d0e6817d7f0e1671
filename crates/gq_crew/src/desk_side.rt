//! What the desk's thread does: it drives a desk over what is collected.
ghost use Rattle.std.specs.Prelude.{◌≡◌, ◌≤◌, ◌^◌, ℕ, [], false, Some, IfSome};
ghost use Rattle.gq_events.specs.Machine.{start};
ghost use Rattle.gq_crew.specs.Runs.{sink_after};
ghost use Rattle.gq_workers.specs.Ends.{collected, desk_on};
ghost use Rattle.gq_crew.specs.Helping.Ends as spec;
ghost use Rattle.gq_crew.specs.Helping.Sides.{GivenDesk, DeskComes, DeskDrives};

use crate::hands::CrewHands;
use crate::one_thread::{Ended, failed, fault_at};
use gq_board::{Front, Room};
use gq_desk::{Desk, Event, drive};
use gq_reader::RunFault;
use gq_rpc::Sink;
use gq_workers::{Collected, Delivery, DeskEnd, Jobs};
use std::alloc::Global;
use std::sync::Wait;

/// What a desk takes, one after another: what was read, and what workers sent.
#[derive(Drop)]
pub struct Deliveries<'r, J: Room, R> {
    pub rt: &'r R,
    pub end: DeskEnd<J>,
    /// Nobody is left who reads or answers.
    pub ended: bool,
}

impl<J: Room, R: Wait> Iterator for Deliveries<'_, J, R> {
    ghost use Rattle.std.specs.Prelude.{◌≡◌, []};
    ghost use Rattle.gq_workers.specs.Ends.{collected, desk_on};
    ghost use Rattle.gq_crew.specs.Helping.Delivered.{Delivers};

    type Item = Event;

    // The board opens with no documents.
    ghost can_next = { λ _. J.base ≡ [] };

    ghost next_gives = { λ s e t. Delivers (record { on = desk_on s.end; collected = collected s.end; ended = s.ended }) e
        (record { on = desk_on t.end; collected = collected t.end; ended = t.ended }) };

    fn next(&mut self) -> Option<Event> {
        match self.end.collect(self.rt) {
            Some(Delivery::Read(event)) => Some(event),
            Some(Delivery::Sent(sent)) => Some(Event::Done(sent.into_done())),
            None => {
                self.ended = true;
                None
            }
        }
    }
}

/// Drives a desk, which is a new one, over what is collected, up to a stop, or until nobody is left or a fault comes.
fn drive_desk<J: Room, R: Wait, K: Sink>(
    alloc: Global,
    desk: &mut Desk,
    deliveries: &mut Deliveries<'_, J, R>,
    hands: &mut CrewHands<'_, '_, J, R>,
    output: &mut K,
) -> Ended
    requires base { J.base ≡ [] }
    requires fresh { collected deliveries.old.end ≡ [] }
    requires going { deliveries.old.ended ≡ false }
    requires works { K.failed output.old ≡ false }
    requires next { IfSome desk.old (λ s. s.jobs.next ≤ 2 ^ 61) }
    ensures { (workers : ℕ) → desk.old ≡ Some (start workers)
        → DeskDrives workers (desk_on deliveries.old.end) (desk_on deliveries.new.end) (collected deliveries.new.end) (K.held output.old) (sink_after K.held K.failed output.new) result }
{
    match drive(alloc, desk, deliveries, hands, output) {
        Ok(_) if deliveries.ended => failed(RunFault::Closed),
        Ok(status) => Ended {
            status,
            fault: None,
        },
        Err(fault) => failed(fault_at(fault)),
    }
}

/// What the desk's thread owns: its end of the inbox, the channel of jobs, and the output; the front of the board is lent.
#[derive(Drop)]
pub struct DeskSide<'f, J: Room, K> {
    pub end: DeskEnd<J>,
    pub front: &'f mut Front<J>,
    pub jobs: Jobs<J>,
    pub output: K,
}

/// What it leaves, and how it ended.
#[derive(Drop)]
pub struct DeskCame<J: Room, K> {
    pub output: K,
    pub collected: Collected<J>,
    pub ended: Ended,
}

/// What the desk's thread does. In the end it lets go of its ends, so that whoever waits for it ends too.
pub fn drive_side<J: Room, R: Wait, K: Sink>(
    rt: &R,
    alloc: Global,
    workers: u8,
    side: DeskSide<'_, J, K>,
) -> DeskCame<J, K>
    requires base { J.base ≡ [] }
    requires given { GivenDesk K.failed side }
    ensures { DeskComes K.held K.failed workers side.entry result }
{
    let DeskSide {
        end,
        front,
        jobs,
        mut output,
    } = side;
    let mut deliveries = Deliveries {
        rt,
        end,
        ended: false,
    };
    let mut hands = CrewHands {
        rt,
        front,
        jobs: jobs.into_out(),
        others: workers.saturating_sub(1),
        closed: false,
    };
    let mut desk = Desk::new(alloc, workers);
    let ended = drive_desk(alloc, &mut desk, &mut deliveries, &mut hands, &mut output);
    drop(desk);
    drop(hands);
    DeskCame {
        output,
        collected: deliveries.end.close(),
        ended,
    }
}
