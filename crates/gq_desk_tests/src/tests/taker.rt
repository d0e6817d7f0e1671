//! A desk that takes the events of a list.
ghost use Rattle.std.specs.Prelude.{◌≡◌, Some};
ghost use Rattle.gq_events.specs.Machine.{start};

use gq_desk::{Desk, Event, Out};
use std::alloc::Global;
use std::marker::Model;
use std::test::Fail;

/// So many events a list has, at most.
const EVENTS_MAX: u64 = 1 << 32;

/// A desk, and how many events it has taken: it has made no more jobs.
#[derive(Drop)]
pub struct Taker {
    desk: Desk,
    taken: u64,
}

impl Model for Taker {
    ghost use Rattle.std.specs.Prelude.{◌≤◌, ◌+◌, Option, IfSome};
    ghost use Rattle.gq_events.specs.Machine.{State};

    ghost Value = { Option State };

    ghost view = { λ t. t.desk };

    ghost invariant = { λ t. IfSome t.desk (λ s. s.jobs.next ≤ t.taken + 1) };
}

impl Taker {
    pub fn new(alloc: Global, workers: u8) -> Taker
        ensures { result ≡ Some (start workers) }
    {
        Taker {
            desk: Desk::new(alloc, workers),
            taken: 0,
        }
    }

    /// What the desk puts out for an event.
    pub fn step(&mut self, alloc: Global, event: Event) -> Result<Vec<Out>, Fail> {
        if self.taken >= EVENTS_MAX {
            return Err("too many events".into());
        }
        let stepped = self.desk.step(alloc, event);
        self.taken += 1;
        match stepped {
            Ok(outs) => Ok(outs),
            Err(fault) => Err(fault.into()),
        }
    }
}
