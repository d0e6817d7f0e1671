//! The edits of renames in all documents of a project.
#![tactic(auto)]

mod edits;
mod group;
pub mod renames;

pub use renames::{fragment_edit, variable_edit};
