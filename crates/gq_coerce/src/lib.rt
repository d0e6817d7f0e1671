//! Values coerced to types (GraphQL, October 2021, sections 3 and 6): results of leaf types, arguments and variables.
#![tactic(auto)]

mod coerced;
pub mod coercion;
mod forms;
mod free;
mod inputs;
pub mod leaves;
mod literals;
mod parts;
mod raw;
mod raw_scalars;
mod scalars;
mod setting;
pub mod values;
mod wrapping;

pub use coercion::Coercion;
pub use leaves::{is_composite, is_leaf_of, leaf_at};
pub use values::Variables;
