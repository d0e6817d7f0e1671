//! Values as execution sees them, and tables of what resolvers answer (GraphQL, October 2021, sections 6.4.2 and 6.4.3).
#![tactic(auto)]

pub mod calls;
pub mod faults;
mod index;
mod json_rows;
mod json_values;
pub mod numbers;
pub mod results;
pub mod table;
pub mod values;
pub mod variables;

pub use calls::Call;
pub use faults::{TableFault, VariablesFault};
pub use results::Outcome;
pub use table::{Row, Table};
pub use values::{Entry, Leaf, Value};
pub use variables::Variables;
