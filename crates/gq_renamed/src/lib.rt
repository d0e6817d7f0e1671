//! Names changed in documents: how they are spelled, the trees afterwards, and that the edited texts read as these.
#![tactic(auto)]

pub mod laws;
pub mod names;

pub use names::{is_fragment_name, is_name};
