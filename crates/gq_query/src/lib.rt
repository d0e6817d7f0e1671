//! Answers to what is asked of a place in a text: hovers, definitions, references and what completes it, and what is
//! wrong with documents (LSP 3.17, "Language Features").
//!
//! Offsets and spans are in bytes. The documents that have a tree are read, the others have no definitions.
#![tactic(auto)]

mod asking;
pub mod definitions;
mod fragments;
mod groups;
pub mod hovers;
mod order;
mod own;
mod parents;
mod places;
pub mod referring;
mod schemas;
pub mod told;
mod variables;
mod wanted;
mod words;

pub use definitions::{definition, definition_by};
pub use gq_completion::{Completion, CompletionKind, complete};
pub use gq_diagnostics::diagnostics;
pub use gq_index::Occurrence;
pub use hovers::{hover, hover_by};
pub use referring::{references, references_by};
pub use told::Hover;
