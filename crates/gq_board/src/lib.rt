//! The project as one end publishes it and as others look at it, from any thread, without waiting for it.
#![tactic(auto)]

pub mod board;
pub mod front;
pub mod history;
pub mod looker;
pub mod shown;

pub use board::{BoardFault, open};
pub use front::Front;
pub use history::{Opened, Room};
pub use looker::{Looker, Seen, Told};
