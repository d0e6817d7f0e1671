//! Where fragments and variables are defined and used in a project.
#![tactic(auto)]

pub mod definitions;
pub mod files;
pub mod fragments;
mod group;
pub mod index;
pub mod laws;
mod look_ups;
mod making;
mod mending;
pub mod occurrence;
pub mod part;
pub mod parts;
mod placed;
mod places;
mod placing;
mod seats;
mod spreads;
mod standing;
mod variables;

pub use definitions::{Executable, executables};
pub use index::Index;
pub use occurrence::{Occurrence, put_spans};
pub use parts::Parts;
