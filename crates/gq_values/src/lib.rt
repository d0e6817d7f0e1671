//! Literals read at types, arguments and uses of directives (GraphQL, October 2021, sections 5.4, 5.6 and 5.7): what is
//! wrong with them, and where.
#![tactic(auto)]

pub mod argument_faults;
pub mod directive_faults;
pub mod expected_type;
pub mod fitting;
pub mod laws;
pub mod literal_faults;

pub use argument_faults::add_argument_faults;
pub use directive_faults::add_directive_faults;
pub use expected_type::ExpectedType;
pub use fitting::fits;
pub use literal_faults::add_literal_faults;
