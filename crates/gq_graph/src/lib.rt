//! What can be reached in a graph, and what stands on a cycle of it.
//!
//! A vertex is a number below a count. A graph gives each of them a list of numbers, those that it leads to: computed
//! when their turn comes (`Graph`), or as a table with a row for each vertex.
//!
//! - `reach` and `reach_rows` list what the starts lead to in any number of steps, the starts among it, each number once.
//! - `on_cycles` marks what leads back to itself.
//! - `components` tells which numbers lead to each other.
//! - `mark_all` marks numbers, and `transposed` gives a table of what leads to each number.
//!
//! Everything is done with lists of numbers and marks, and nothing recurses, so a long way takes no deep stack.
#![tactic(auto)]

mod closing;
pub mod cycles;
mod found;
mod gathered;
pub mod graph;
pub mod marks;
pub mod rows;
pub mod strongly_connected;
pub mod transposed;
mod walk;

pub use cycles::on_cycles;
pub use graph::{Graph, reach};
pub use marks::mark_all;
pub use rows::{are_below, is_in_range, reach_rows};
pub use strongly_connected::components;
