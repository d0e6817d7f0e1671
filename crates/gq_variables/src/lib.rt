//! The variables of operations, and what is wrong with them (GraphQL, October 2021, section 5.8).
#![tactic(auto)]

mod again;
mod alike;
mod all_variable_usages_are_allowed;
mod all_variable_uses_defined;
mod all_variables_used;
mod behind;
mod compatible;
pub mod definition_faults;
pub mod faults;
mod has_variable;
mod leading;
mod parts;
mod places;
mod reached;
mod selections;
mod uses;
mod values;
mod variable_uniqueness;
mod variables;
mod variables_are_input_types;

pub use definition_faults::add_variable_definition_faults;
pub use faults::add_variable_faults;
