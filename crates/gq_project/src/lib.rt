//! Documents and projects.
#![tactic(auto)]

pub mod document;
pub mod laws;
pub mod project;

pub use document::{Doc, DocChange};
pub use project::Project;
