//! What a schema must be (GraphQL, October 2021, section 3), a rule a module.
#![tactic(auto)]

mod bad_extension;
mod default_values;
pub mod defined_twice;
mod directive_sites;
mod directives_and_defaults;
mod each_entry;
mod empty_or_repeated;
mod endless_inputs;
pub mod faultless;
pub mod faults;
mod implementations;
mod input_fields;
mod judged;
mod marks;
mod parts;
mod query_root;
mod required_inputs;
mod reserved_name;
mod root_entries;
mod root_types;
mod used_types;
mod uses;

pub use defined_twice::definition_place;
pub use faultless::are_faultless;
pub use faults::schema_faults;
