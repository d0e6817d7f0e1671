//! Extract, inline and remove: refactorings of selections.
#![tactic(auto)]

mod asked;
mod depth;
pub mod extracting;
mod fragments;
pub mod inlining;
pub mod laws;
mod limits;
mod naming;
pub mod offering;
pub mod placed;
pub mod removing;
mod reshaping;
mod texts;

pub use extracting::{extract, extract_by};
pub use inlining::{inline, inline_by};
pub use offering::{Ask, offer};
pub use placed::PlacedReplacement;
pub use removing::{remove_redundant, remove_redundant_by};
