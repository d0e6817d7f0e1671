//! What completes a text (LSP 3.17, "Completion Request").
#![tactic(auto)]

pub mod completion;
mod fields;
mod fragments;
mod labels;
pub mod laws;
mod sets;
mod tokens;
mod variables;

pub use completion::{Completion, CompletionKind, complete, complete_by};
