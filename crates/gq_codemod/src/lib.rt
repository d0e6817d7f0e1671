//! What `gqls rename` does: the rename of what is at a place of files, as it is printed, and the edited texts.
#![tactic(auto)]

pub mod edits;
pub mod renaming;

pub use edits::EditedFile;
pub use renaming::{Renaming, rename, rename_by_threads};
