//! What is wrong with each document of a project.
#![tactic(auto)]

pub mod code_words;
pub mod diagnosing;
mod parting;

pub use code_words::words;
pub use diagnosing::{diagnostics, diagnostics_of};
