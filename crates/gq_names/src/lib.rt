//! Names in the order in which they stand, those that stand there twice, and lists of items under names.
#![tactic(auto)]

pub mod by_name;
pub mod list;
mod places;
pub mod repeated;

pub use by_name::ByName;
pub use list::NameList;
pub use repeated::repeated_names;
