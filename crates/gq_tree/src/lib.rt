//! Trees of GraphQL documents.
#![tactic(auto)]

pub mod laws;
pub mod names;
pub mod parsed;
pub mod same;
pub mod tree;
pub mod type_system;
pub mod types;
pub mod value;

pub use names::{fragment_names, spread_names};
pub use parsed::{Parsed, share, share_all};
pub use same::are_same_arguments;
pub use tree::{
    Definition, Document, Field, Fragment, InlineFragment, Name, Operation, OperationKind,
    Selection, SelectionSet, Spread, VariableDefinition,
};
pub use type_system::{
    DirectiveDefinition, DirectiveLocation, EnumValueDefinition, FieldDefinition,
    FieldsAndInterfaces, InputValueDefinition, RootOperationType, SchemaDefinition, TypeBody,
    TypeDefinition, TypeSystemDefinition,
};
pub use types::{TypeRef, base_name, named_type};
pub use value::{Argument, Directive, Literal, ObjectField, Value, Variable};
