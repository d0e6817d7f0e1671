//! The channel by which workers get their jobs.
ghost use Rattle.std.specs.Prelude.{◌≡◌, [], ◌∷◌, ◌++◌, IfOk, MatchResult, MatchOption};
ghost use Rattle.gq_workers.specs.Orders.{with_order};

use crate::order::{Dispatch, Order, OrderOf};
use atomic_table::Split;
use crossbeam_channel::protocol::{Lesson, Outcome, Protocol};
use crossbeam_channel::{Pass, RuledReceiver, RuledSender, bounded_with};
use gq_board::{Room, Told};
use gq_events::Job;
use gq_text::NoMemory;
use std::alloc::Global;
use std::collections::LinkedList;
use std::marker::Model;
use std::sync::Wait;

/// So much the channel holds, at most: the 64 jobs that a desk gives before it takes what was made of the first, and for each of them, and
/// the one before, news for seven other workers. So neither waits for room.
const DISPATCHES_MAX: usize = 64 + 65 * 7;

/// No worker is left to take a job.
#[derive(Clone, Copy, Debug, PartialEq, Eq)]
pub struct NoTaker;

/// The orders that a pass has put, and those that it has taken. No value of it is made.
pub struct Hand {
    pub put: LinkedList<OrderOf>,
    pub taken: LinkedList<OrderOf>,
}

/// The rule of the channel: an order is taken, or still there, as often as it was put.
pub struct EachOnce;

impl<J: Room> Protocol<Dispatch<J>, Hand> for EachOnce {
    ghost use Rattle.std.specs.Prelude.{[], flat_map};
    ghost use Rattle.gq_workers.specs.Orders.{orders_in};
    ghost use Rattle.gq_workers.specs.Jobs.{hand, Balanced};

    ghost holds = { λ dispatches views. Balanced (flat_map orders_in dispatches) views };

    ghost first = { hand [] [] };
}

struct Puts;

impl<J: Room> Outcome<Dispatch<J>, Hand> for Puts {
    ghost use Rattle.std.specs.Prelude.{◌≡◌};
    ghost use Rattle.gq_workers.specs.Orders.{with_order};
    ghost use Rattle.gq_workers.specs.Jobs.{hand};

    ghost then = { λ v x w. w ≡ hand (with_order v.put x) v.taken };
}

impl<J: Room> Lesson<Dispatch<J>, Hand> for Puts {
    ghost fact = { λ v dispatches. Unit {0} };
}

struct Takes;

impl<J: Room> Outcome<Dispatch<J>, Hand> for Takes {
    ghost use Rattle.std.specs.Prelude.{◌≡◌};
    ghost use Rattle.gq_workers.specs.Orders.{with_order};
    ghost use Rattle.gq_workers.specs.Jobs.{hand};

    ghost then = { λ v x w. w ≡ hand v.put (with_order v.taken x) };
}

impl<J: Room> Lesson<Dispatch<J>, Hand> for Takes {
    ghost fact = { λ v dispatches. Unit {0} };
}

struct Newcomer;

impl Split<Hand> for Newcomer {
    ghost use Rattle.std.specs.Prelude.{[]};
    ghost use Rattle.gq_workers.specs.Jobs.{hand};

    ghost left = { λ v. v };

    ghost right = { λ v. hand [] [] };
}

/// The channel before its ends are handed out. Contracts see the orders that were put by it.
pub struct Jobs<J: Room> {
    sender: RuledSender<Dispatch<J>, Hand, EachOnce>,
    receiver: RuledReceiver<Dispatch<J>, Hand, EachOnce>,
    pass: Pass<Dispatch<J>, Hand>,
}

impl<J: Room> Drop for Jobs<J> {
    fn drop(self) {
        let Jobs {
            sender: _sender,
            receiver: _receiver,
            pass: _pass,
        } = self;
    }
}

impl<J: Room> Model for Jobs<J> {
    ghost use Rattle.std.specs.Prelude.{◌≡◌, List};
    ghost use Rattle.crossbeam_channel.specs.Claims.{view as view_of, IsSeatAt};
    ghost use Rattle.crossbeam_channel.specs.Ends.{sends_on, receives_on};
    ghost use Rattle.gq_workers.specs.declared.order.OrderOf.{OrderOf};

    ghost Value = { List OrderOf };

    ghost view = { λ j. (view_of j.pass).put };

    ghost invariant = { λ j. IsSeatAt (sends_on j.sender) j.pass × (receives_on j.receiver ≡ sends_on j.sender) };
}

/// The end that puts jobs. Contracts see the orders that it has put.
pub struct JobsOut<J: Room> {
    sender: RuledSender<Dispatch<J>, Hand, EachOnce>,
    pass: Pass<Dispatch<J>, Hand>,
}

impl<J: Room> Drop for JobsOut<J> {
    fn drop(self) {
        let JobsOut {
            sender: _sender,
            pass: _pass,
        } = self;
    }
}

impl<J: Room> Model for JobsOut<J> {
    ghost use Rattle.std.specs.Prelude.{List};
    ghost use Rattle.crossbeam_channel.specs.Claims.{view as view_of, IsSeatAt};
    ghost use Rattle.crossbeam_channel.specs.Ends.{sends_on};
    ghost use Rattle.gq_workers.specs.declared.order.OrderOf.{OrderOf};

    ghost Value = { List OrderOf };

    ghost view = { λ j. (view_of j.pass).put };

    ghost invariant = { λ j. IsSeatAt (sends_on j.sender) j.pass };
}

/// A worker's end, which takes jobs. Contracts see the orders that it has taken.
pub struct JobsIn<J: Room> {
    receiver: RuledReceiver<Dispatch<J>, Hand, EachOnce>,
    pass: Pass<Dispatch<J>, Hand>,
}

impl<J: Room> Drop for JobsIn<J> {
    fn drop(self) {
        let JobsIn {
            receiver: _receiver,
            pass: _pass,
        } = self;
    }
}

impl<J: Room> Model for JobsIn<J> {
    ghost use Rattle.std.specs.Prelude.{List};
    ghost use Rattle.crossbeam_channel.specs.Claims.{view as view_of, IsSeatAt};
    ghost use Rattle.crossbeam_channel.specs.Ends.{receives_on};
    ghost use Rattle.gq_workers.specs.declared.order.OrderOf.{OrderOf};

    ghost Value = { List OrderOf };

    ghost view = { λ j. (view_of j.pass).taken };

    ghost invariant = { λ j. IsSeatAt (receives_on j.receiver) j.pass };
}

impl<J: Room> Jobs<J> {
    /// A channel that holds up to 64 jobs, and news beside them.
    pub fn new(alloc: Global) -> Result<Jobs<J>, NoMemory>
        ensures { IfOk result (λ j. j ≡ []) }
    {
        let made = bounded_with::<Dispatch<J>, Hand, EachOnce, Global>(alloc, DISPATCHES_MAX);
        let Ok((sender, receiver, pass)) = made else {
            return Err(NoMemory);
        };
        Ok(Jobs {
            sender,
            receiver,
            pass,
        })
    }

    /// An end for one more worker.
    pub fn worker(&mut self) -> Result<JobsIn<J>, NoMemory>
        ensures same { self.new ≡ self.old }
        ensures none { IfOk result (λ j. j ≡ []) }
    {
        let Ok(receiver) = self.receiver.try_clone() else {
            return Err(NoMemory);
        };
        let pass = self.sender.another::<Newcomer>(&mut self.pass);
        Ok(JobsIn { receiver, pass })
    }

    /// The end that puts. There will be no more workers.
    pub fn into_out(self) -> JobsOut<J>
        ensures { result ≡ self }
    {
        let Jobs {
            sender,
            receiver: _receiver,
            pass,
        } = self;
        JobsOut { sender, pass }
    }
}

impl<J: Room> JobsOut<J> {
    /// Puts a job behind the others, as an order with what its worker has to learn. It waits while the channel is full.
    pub fn put<R: Wait>(&mut self, rt: &R, job: Job, told: Told<J>) -> Result<(), NoTaker>
        ensures { MatchResult result (λ _. self.new ≡ self.old ++ record { number = job.number; told = told } ∷ []) (λ _. self.new ≡ self.old) }
    {
        let order = Dispatch::Order(Order { job, told });
        match self.sender.send_as::<Puts, R>(rt, &mut self.pass, order) {
            Ok(()) => Ok(()),
            Err(_) => Err(NoTaker),
        }
    }

    /// Puts what is published behind the jobs, for so many workers that have none, as far as there is room. It waits for nobody.
    pub fn tell<R: Wait>(&mut self, rt: &R, told: &Told<J>, workers: u8)
        ensures { self.new ≡ self.old }
    {
        for _ in 0..workers {
            self.tell_one(rt, told.again());
        }
    }

    // The same for one worker.
    fn tell_one<R: Wait>(&mut self, rt: &R, told: Told<J>)
        ensures { self.new ≡ self.old }
    {
        let news = Dispatch::News(told);
        let _ = self.sender.try_send_as::<Puts, R>(rt, &mut self.pass, news);
    }
}

impl<J: Room> JobsIn<J> {
    /// Takes what is in front. It waits while there is nothing, and gives nothing where no more will come.
    pub fn take<R: Wait>(&mut self, rt: &R) -> Option<Dispatch<J>>
        ensures { MatchOption result (self.new ≡ self.old) (λ dispatch. self.new ≡ with_order self.old dispatch) }
    {
        self.receiver.recv_as::<Takes, R>(rt, &mut self.pass).ok()
    }
}
