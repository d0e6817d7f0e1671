//! The definitions of a project's documents, and the selections of its operations and fragments.
#![tactic(auto)]

pub mod as_parsed;
pub mod definitions;
pub mod executable;
pub mod fields;
pub mod laws;
pub mod selections;
pub mod sets;

pub use as_parsed::AsParsed;
pub use definitions::{
    Definitions, FragmentEntry, OperationEntry, one_defines_types, type_system_entries,
};
pub use executable::Executable;
pub use fields::{SelectedField, field_on, is_composite_named, selected_field};
pub use selections::{Selected, fragment_selections, operation_selections, selections_of};
pub use sets::{SetIn, sets_in};
