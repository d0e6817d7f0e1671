//! What validation finds: the rules that do not hold, and where.
#![tactic(auto)]

pub mod code;
pub mod fault;
pub mod fault_places;
pub mod found;
pub mod laws;
pub mod order;

pub use code::Code;
pub use fault::Fault;
pub use fault_places::{add_fault, add_fault_at, fault_at, fault_over, first_bytes};
pub use found::{Found, found_at};
pub use order::put_in_order;
