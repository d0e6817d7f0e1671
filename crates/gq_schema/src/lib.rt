//! The schema of a project: its types exactly, or all that is wrong with them (GraphQL, October 2021, section 3).
#![tactic(auto)]

pub mod laws;
pub mod schema;

pub use schema::{Schema, SchemaFault};
