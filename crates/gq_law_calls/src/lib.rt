//! The calls of resolvers that an operation makes: one list, which edits keep.
#![tactic(auto)]

pub mod laws;
