//! Fields, their arguments, directives and default values in operations and fragments (GraphQL, October 2021, sections 5.3.1,
//! 5.3.3, 5.4, 5.6 and 5.7): what is wrong with them, and where.
#![tactic(auto)]

mod arguments;
mod directives;
pub mod field_faults;
mod field_selections;
mod leaf_field_selections;
mod values;

pub use field_faults::add_field_faults;
