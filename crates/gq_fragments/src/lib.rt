//! Operations and fragments by themselves, and where fragments may be spread (GraphQL, October 2021, sections 5.2 and 5.5).
#![tactic(auto)]

pub mod condition_faults;
mod conditions_by_name;
pub mod fragment_faults;
mod fragment_name_uniqueness;
mod fragment_spread_is_possible;
mod inline_conditions;
mod lone_anonymous_operation;
pub mod operation_faults;
mod operation_name_uniqueness;
mod operation_place;
mod root_operation_types;
mod selections;
mod shared_objects;
mod subscription_operation;
mod type_conditions;

pub use condition_faults::add_condition_faults;
pub use fragment_faults::add_fragment_faults;
pub use operation_faults::add_operation_faults;
