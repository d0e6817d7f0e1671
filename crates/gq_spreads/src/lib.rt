//! Fragments, where they are spread and what is reached through them (GraphQL, October 2021, section 5.5).
#![tactic(auto)]

pub mod faults;
pub mod fragment_names;
mod fragment_spread_target_defined;
mod fragment_spreads_must_not_form_cycles;
mod fragments_must_be_used;
mod links;
mod name_rows;
pub mod spreads;

pub use faults::add_spread_faults;
pub use fragment_names::FragmentNames;
pub use spreads::{Spreads, reached_fragments};
