//! What comes to a desk: the files of a folder, and the messages of an input, one after another.
#![tactic(auto)]

pub mod fault;
pub mod files;
pub mod loads;
pub mod reader;

pub use fault::RunFault;
pub use files::{Files, FilesFault, MemoryFile, MemoryFiles, NoFiles};
pub use loads::Loads;
pub use reader::{Pending, Reader};
