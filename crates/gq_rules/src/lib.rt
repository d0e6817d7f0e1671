//! The rules of validation (GraphQL, October 2021, section 5): every fault of a project, exactly where it stands.
#![tactic(auto)]

pub mod by_file;
mod demands;
mod fields_by_threads;
mod giving_back;
pub mod known;
pub mod laws;
pub mod report;
mod rule_faults;
mod unread;
pub mod valid;
mod wrong;
mod wrong_by_threads;

pub use by_file::{first_faults, found_across, found_in, unread_and_mixed};
pub use giving_back::give_back;
pub use known::{validate_known, why_not_known};
pub use report::{Report, report_of, validate};
pub use valid::{Invalid, Valid, Why};
pub use wrong_by_threads::wrong_over_by_threads;
