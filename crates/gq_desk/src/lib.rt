//! The desk: event after event, what is put out for it, and where that goes.
#![tactic(auto)]

pub mod desk;
pub mod driving;
pub mod hands;
mod jobs;
pub mod laws;
mod pieces;

pub use desk::{Desk, DeskFault};
pub use driving::{DriveFault, drive};
pub use gq_events::{Answer, Done, Event, InputEnd, Job, Out, SessionDocument, Task};
pub use hands::{Hands, HandsFault, NoHands};
