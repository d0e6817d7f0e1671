//! What is known of a project: what its documents read as, and their type system.
#![tactic(auto)]

pub mod executable_definitions;
pub mod known;
pub mod learned;

pub use known::Known;
pub use learned::Learned;
