//! What is told of a project by its files and by closed sets of them, kept until one of these changes,
//! and the laws of that.
#![tactic(auto)]

pub mod across;
mod alone;
mod apart;
pub mod by_file;
mod by_names;
pub mod by_threads;
pub mod closed_sets;
pub mod covers;
mod halves;
pub mod laws;
pub mod links;
mod marks;
mod moved;
pub mod names;
mod own;
mod part;

pub use across::Across;
pub use alone::{found_alone, put_in_file};
pub use by_file::ByFile;
pub use by_threads::{valid_by_threads, validate_by_threads};
