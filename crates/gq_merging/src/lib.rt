//! Field selection merging (GraphQL, October 2021, section 5.3.2): fields under one response key that do not merge.
#![tactic(auto)]

mod by_name;
mod by_parent;
mod classes;
mod cliques;
mod comparing;
mod earliest;
mod entries;
mod faults;
mod groups;
mod joined;
mod kept;
mod marks;
mod members;
mod pairs;
mod parts;
mod passed;
mod places;
pub mod purpose;
mod rows;
mod same_arguments;
mod same_strings;
mod same_values;
mod search;
mod sets;
mod unions;

pub use faults::{add_merging_faults, add_merging_faults_by_threads};
pub use purpose::Purpose;
