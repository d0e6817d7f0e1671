//! What is known of a project, lent to all that is asked of it.

use gq_project::Project;
use gq_tree::Parsed;
use gq_types::Types;
use std::sync::Arc;

/// A project, what its documents read as, and its type system. Whoever asks is lent them, and reads no text again.
#[derive(Clone, Copy)]
pub struct Known<'a> {
    pub project: &'a Project,
    /// What the documents read as, one for each, in their order.
    pub readings: &'a [Arc<Parsed>],
    /// What the documents define of the type system, and what is built in.
    pub types: &'a Types,
    /// Whether no rule of the type system (GraphQL, October 2021, section 3) is broken.
    pub has_schema: bool,
}
