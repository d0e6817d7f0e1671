//! The fields that selections give for an object type, in groups by their keys (GraphQL, October 2021, section 6.3.2),
//! and what the executor looks up: types, fragments, directives, rows.
#![tactic(auto)]

pub mod collect;
pub mod directives;
pub mod fragments;
pub mod groups;
pub mod world;
