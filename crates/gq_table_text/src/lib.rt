//! Tables read row by row from the bytes of a file, where their rows are written as they mostly are.
#![tactic(auto)]

mod arguments;
mod leaves;
mod outcomes;
mod places;
mod row;
pub mod rows;
mod steps;

pub use rows::read_in_rows;
