//! Renames of fragments and of variables, in all documents of a project.
#![tactic(auto)]

pub mod checking;
pub mod laws;
mod names;
mod offers;
pub mod preparing;
pub mod refusal;
pub mod renames;
pub mod targets;

pub use gq_mentions::{Target, TargetKind};
pub use gq_renamed::{is_fragment_name, is_name};
pub use preparing::{prepare, prepare_by};
pub use refusal::Refusal;
pub use renames::{rename, rename_by, rename_fragment, rename_variable};
pub use targets::target;
