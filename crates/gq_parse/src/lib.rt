//! Documents from texts.
#![tactic(auto)]

mod definitions;
pub mod depth;
mod directive_definitions;
mod directives;
mod expected;
pub mod fault;
mod fields;
mod first_fault;
pub mod laws;
mod many;
mod moves;
mod names;
pub mod parser;
mod phrases;
pub mod piece;
pub mod reader;
mod schema_definitions;
mod selections;
mod type_definitions;
mod type_system;
mod types;
mod values;
mod variables;
mod words;

pub use depth::{NESTING_MAX, too_deep};
pub use fault::Fault;
pub use gq_project::Doc;
pub use gq_tree::{
    Argument, Definition, Directive, DirectiveDefinition, DirectiveLocation, Document,
    EnumValueDefinition, Field, FieldDefinition, FieldsAndInterfaces, Fragment, InlineFragment,
    InputValueDefinition, Literal, Name, ObjectField, Operation, OperationKind, Parsed,
    RootOperationType, SchemaDefinition, Selection, SelectionSet, Spread, TypeBody, TypeDefinition,
    TypeRef, TypeSystemDefinition, Value, Variable, VariableDefinition, share, share_all,
};
pub use parser::parse;
pub use piece::Piece;
pub use reader::{read, read_by_threads, read_shared};
