//! What a desk with workers hands on to.
ghost use Rattle.std.specs.Prelude.{◌≡◌, false, OnErr};
ghost use Rattle.gq_crew.specs.Helping.Handing.{handed};

use gq_board::{BoardFault, Front, Room};
use gq_desk::{Hands, HandsFault, Job};
use gq_events::Task;
use gq_project::DocChange;
use gq_workers::JobsOut;
use std::sync::Wait;

/// It publishes each change on the board, and puts each job with what is published by then. Of what it puts a check with, it tells the other
/// workers, so that one that has nothing to do takes it in before it is asked.
#[derive(Drop)]
pub struct CrewHands<'r, 'f, J: Room, R> {
    pub rt: &'r R,
    pub front: &'f mut Front<J>,
    pub jobs: JobsOut<J>,
    /// How many workers there are beside the one that takes a job.
    pub others: u8,
    /// It takes no more.
    pub closed: bool,
}

/// Whether it is a check, which comes with a change of documents.
fn is_check(job: &Job) -> bool {
    matches!(job.task, Task::Check(_))
}

impl<J: Room, R: Wait> Hands for CrewHands<'_, '_, J, R> {
    ghost use Rattle.std.specs.Prelude.{◌≡◌};
    ghost use Rattle.gq_crew.specs.Helping.Handing.{handed};

    ghost takes = { λ h x k. record { published = k.front.now.0; put = k.jobs } ≡ handed (record { published = h.front.now.0; put = h.jobs }) x };

    ghost refuses = { λ h x k. (k.front.now.0 ≡ h.front.now.0) × (k.jobs ≡ h.jobs) };

    ghost closed = { λ h. h.closed };

    fn publish(&mut self, change: DocChange) -> Result<(), HandsFault> {
        match self.front.publish(self.rt, change) {
            Ok(()) => Ok(()),
            Err(BoardFault::Failed) => {
                self.closed = true;
                Err(HandsFault::Closed)
            }
            Err(_) => Err(HandsFault::NoMemory),
        }
    }

    fn job(&mut self, job: Job) -> Result<(), HandsFault> {
        let told = self.front.tell();
        let others = if is_check(&job) { self.others } else { 0 };
        match self.jobs.put(self.rt, job, told.again()) {
            Ok(()) => {
                self.jobs.tell(self.rt, &told, others);
                Ok(())
            }
            Err(_) => {
                self.closed = true;
                Err(HandsFault::Closed)
            }
        }
    }
}
