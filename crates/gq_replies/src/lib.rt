//! From a question about documents to the message that answers it, and what is wrong with them as notifications.
#![tactic(auto)]

mod answers;
mod code_actions;
pub mod laws;
mod locations;
mod notifications;
mod offsets;
mod over_kept;
mod places;
mod queries;
mod ranges;
mod renames;

pub use answers::answer;
pub use laws::{answered_edits_are_safe, answers_respond};
pub use notifications::diagnostics_messages;
