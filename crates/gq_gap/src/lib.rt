//! A buffer of bytes in one raw block, with a gap where it is edited.
#![tactic(auto)]

mod block;
mod buffer;
mod gap;

// A crate can name a buffer in a contract only if the types of its fields are exported.
#[doc(hidden)]
pub use block::{Base, Deed};
pub use buffer::GapBuffer;
#[doc(hidden)]
pub use gap::Gap;
