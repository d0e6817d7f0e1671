//! The commands over files: a check, and the execution of an operation over a table. What is told of them as text, and the
//! status of the process.
#![tactic(auto)]

pub mod checking;
pub mod exec_fault;
pub mod executing;
pub mod fault;
pub mod files;
mod flaws;
pub mod formats;
mod inputs;
mod judging;
pub mod lines;
mod places;
pub mod printing;
mod reasons;
pub mod sections;

pub use checking::{check, check_by_threads, refuse};
pub use exec_fault::ExecFault;
pub use executing::exec;
pub use fault::CheckFault;
pub use files::File;
pub use formats::Format;
pub use printing::print;
