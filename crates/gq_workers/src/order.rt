//! Orders: jobs on their way to workers, and what else comes to them.

use gq_board::{Room, Told};
use gq_events::Job;
use gq_project::DocChange;
use std::collections::LinkedList;

/// A job, with what its worker has to learn before it looks at the documents. `JobsOut::put` alone makes one.
#[non_exhaustive]
pub struct Order<J: Room> {
    pub job: Job,
    /// What had been published when the order was put.
    pub told: Told<J>,
}

impl<J: Room> Drop for Order<J> {
    fn drop(self) {
        let Order {
            job: _job,
            told: _told,
        } = self;
    }
}

/// What comes to a worker.
#[derive(Drop)]
pub enum Dispatch<J: Room> {
    /// A job, of which it hands on what it made.
    Order(Order<J>),
    /// What had been published when another worker was given a job. It brings what it keeps to that, and hands on nothing.
    News(Told<J>),
}

/// What rules see of an order: the number of its job, and what had been published when it was put. No value of it is made.
pub struct OrderOf {
    pub number: u64,
    pub told: LinkedList<DocChange>,
}
