//! Responses to operations, and their texts (GraphQL, October 2021, section 7).
#![tactic(auto)]

pub mod data;
pub mod text;

pub use data::{Data, Member, Response, Step};
