//! Laws under execution and refactorings: what validity promises to execution, that renames and rewrites keep what every
//! operation is answered (GraphQL, October 2021, section 6), and that they keep projects valid (section 5).
#![tactic(auto)]

pub mod agreement;
pub mod cuts_read;
pub mod inlines;
pub mod merging_kept;
pub mod places;
pub mod renames;
pub mod renames_valid;
pub mod responses;
pub mod rewrites;
pub mod rewrites_valid;
pub mod static_types;
pub mod types;
pub mod uses;
pub mod validity;
