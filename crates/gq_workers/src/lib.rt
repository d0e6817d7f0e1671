//! Jobs for workers, the channels by which jobs and what is made of them travel, and what a worker does.
#![tactic(auto)]

pub mod delivery;
pub mod ends;
pub mod jobs;
pub mod order;
pub mod passing;
pub mod sent;
pub mod worker;

pub use delivery::Delivery;
pub use ends::{Collected, DeskEnd, Outbox, ReaderEnd};
pub use jobs::{Jobs, JobsIn, JobsOut, NoTaker};
pub use order::{Dispatch, Order, OrderOf};
pub use passing::{compare, inbox};
pub use sent::{Sent, attend};
pub use worker::{Gate, Open, work};
