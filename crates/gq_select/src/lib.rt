//! What a range of a document means to a refactoring: a selection, or selections one after the other.
#![tactic(auto)]

pub mod laws;
pub mod runs;
pub mod selecting;
pub mod touching;

pub use runs::{Run, find_run, innermost};
pub use selecting::{SelectionKind, Standing, meant};
pub use touching::touched;
