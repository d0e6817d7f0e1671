//! Type system definitions and extensions (GraphQL, October 2021, section 3). Spans are in bytes of the text. A
//! description is the spelling of its string (section 3.2).

use crate::tree::{Name, OperationKind};
use crate::types::TypeRef;
use crate::value::{Directive, Literal, Value};
use gq_text::Span;

/// A type system definition or extension (section 3). Its span goes from its first token, which is the description where
/// it has one, to the end of its last token.
pub enum TypeSystemDefinition {
    Schema(SchemaDefinition),
    Type(TypeDefinition),
    Directive(DirectiveDefinition),
}

impl Drop for TypeSystemDefinition {
    fn drop(self) {
        match self {
            TypeSystemDefinition::Schema(_one) => {}
            TypeSystemDefinition::Type(_one) => {}
            TypeSystemDefinition::Directive(_one) => {}
        }
    }
}

/// A schema definition (section 3.3) or, where `extends` is true, a schema extension (section 3.3.2).
#[derive(Drop)]
pub struct SchemaDefinition {
    pub extends: bool,
    pub description: Option<Literal>,
    pub directives: Vec<Directive>,
    pub roots: Vec<RootOperationType>,
    pub span: Span,
}

/// The type of a root operation (section 3.3.1).
#[derive(Drop)]
pub struct RootOperationType {
    pub kind: OperationKind,
    pub name: Name,
}

/// The definition of a type (section 3.4) or, where `extends` is true, a type extension (section 3.4.3).
#[derive(Drop)]
pub struct TypeDefinition {
    pub extends: bool,
    pub description: Option<Literal>,
    pub name: Name,
    pub directives: Vec<Directive>,
    pub body: TypeBody,
    pub span: Span,
}

/// What a type is, and its parts.
#[derive(Drop)]
pub enum TypeBody {
    /// Section 3.5.
    Scalar,
    /// Section 3.6.
    Object(FieldsAndInterfaces),
    /// Section 3.7.
    Interface(FieldsAndInterfaces),
    /// Section 3.8: its members.
    Union(Vec<Name>),
    /// Section 3.9: its values.
    Enum(Vec<EnumValueDefinition>),
    /// Section 3.10: its fields.
    InputObject(Vec<InputValueDefinition>),
}

/// The interfaces that an object type or an interface implements, and its fields.
#[derive(Drop)]
pub struct FieldsAndInterfaces {
    pub interfaces: Vec<Name>,
    pub fields: Vec<FieldDefinition>,
}

/// The definition of a field (section 3.6).
#[derive(Drop)]
pub struct FieldDefinition {
    pub description: Option<Literal>,
    pub name: Name,
    pub arguments: Vec<InputValueDefinition>,
    pub type_ref: TypeRef,
    pub directives: Vec<Directive>,
}

/// The definition of an argument (section 3.6.1) or of an input field (section 3.10).
#[derive(Drop)]
pub struct InputValueDefinition {
    pub description: Option<Literal>,
    pub name: Name,
    pub type_ref: TypeRef,
    pub default: Option<Value>,
    pub directives: Vec<Directive>,
}

/// The definition of a value of an enum (section 3.9).
#[derive(Drop)]
pub struct EnumValueDefinition {
    pub description: Option<Literal>,
    pub name: Name,
    pub directives: Vec<Directive>,
}

/// The definition of a directive (section 3.13).
#[derive(Drop)]
pub struct DirectiveDefinition {
    pub description: Option<Literal>,
    pub name: Name,
    pub arguments: Vec<InputValueDefinition>,
    pub repeatable: bool,
    pub locations: Vec<DirectiveLocation>,
    pub span: Span,
}

/// Where a directive may stand (section 3.13).
#[derive(Clone, Copy, Debug, PartialEq, Eq)]
pub enum DirectiveLocation {
    Query,
    Mutation,
    Subscription,
    Field,
    FragmentDefinition,
    FragmentSpread,
    InlineFragment,
    VariableDefinition,
    Schema,
    Scalar,
    Object,
    FieldDefinition,
    ArgumentDefinition,
    Interface,
    Union,
    Enum,
    EnumValue,
    InputObject,
    InputFieldDefinition,
}
