//! What is known of a project, kept from question to question, and mended where a file changes.
#![tactic(auto)]

mod alike;
mod beside;
mod by_document;
mod differing;
mod field_lists;
mod field_names;
mod gathering;
mod held;
mod indexed;
mod judged;
mod judging;
pub mod kept;
mod noted;
mod pieces;
mod places;
mod same_definitions;
mod sameness;
mod typed;
mod unseen;

pub use kept::Kept;
