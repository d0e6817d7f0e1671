//! The type system of a project (GraphQL, October 2021, section 3): its definitions joined with their extensions, and
//! what is found under each name.
#![tactic(auto)]

mod argument_names;
pub mod arguments;
pub mod built_in;
mod declarers;
mod definitions;
pub mod entry;
pub mod entry_parts;
mod fields;
pub mod implementers;
mod joined;
pub mod laws;
mod locations;
mod parts;
mod places;
pub mod possible;
pub mod replacement;
pub mod required;
mod roots;
pub mod subtype;
mod table;
mod tables;
pub mod types;
mod uses;

pub use arguments::Arguments;
pub use built_in::{is_built_in_scalar, with_built_in};
pub use entry::{Entry, TypeKind};
pub use replacement::Replacement;
pub use required::is_required;
pub use types::{DefinedField, Types};
