//! Operations answered from a table (GraphQL, October 2021, section 6).
#![tactic(auto)]

pub mod answer;
pub mod execute;
mod plans;

pub use execute::{operation, respond};
