//! The names in operations and fragments, each at its place: what an offset means to a query and to a rename.
#![tactic(auto)]

pub mod finding;
pub mod mention;
pub mod mentions;
mod renameables;
pub mod target;
mod targets;

pub use finding::meant;
pub use mention::{Mention, MentionKind};
pub use mentions::put_mentions;
pub use target::{Target, TargetKind};
pub use targets::target_in;
