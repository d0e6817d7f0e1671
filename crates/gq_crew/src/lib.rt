//! A run of the server, bytes in to bytes out: on one thread, or with workers.
#![tactic(auto)]

mod crew;
mod desk_side;
mod hands;
pub mod laws;
pub mod one_thread;
mod reader_side;
mod reader_thread;
mod staff;

pub use crew::{Ran, run};
pub use gq_reader::{Files, FilesFault, MemoryFile, MemoryFiles, NoFiles, RunFault};
pub use gq_workers::{Gate, Open, Order, Sent, attend, work};
pub use one_thread::{Ended, run_one};
