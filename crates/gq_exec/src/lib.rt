//! Execution of operations (GraphQL, October 2021, section 6).
#![tactic(auto)]

pub mod executing;
pub mod refusal;

pub use executing::{coerce_variables, execute};
pub use gq_response::Response;
pub use gq_table::{Table, TableFault, Variables, VariablesFault};
pub use refusal::CoercionRefusal;
