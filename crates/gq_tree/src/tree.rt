//! The tree of a document (GraphQL, October 2021, section 2). Spans are in bytes of its text.

use crate::type_system::TypeSystemDefinition;
use crate::types::TypeRef;
use crate::value::{Argument, Directive, Value, Variable};
use gq_text::{SmallText, Span};
use std::sync::Arc;

/// A name, with the place of its token (section 2.1.9).
#[derive(Drop)]
pub struct Name {
    pub text: SmallText,
    pub span: Span,
}

/// A selection (section 2.4).
#[derive(Drop)]
#[cycle(tree)]
pub enum Selection {
    Field(Field),
    Spread(Spread),
    Inline(InlineFragment),
}

/// A field (section 2.5), with its alias (section 2.7) and its selection set where it has them. Its span goes from its
/// first token to the end of its last one.
#[derive(Drop)]
#[cycle(tree)]
pub struct Field {
    pub alias: Option<Box<Name>>,
    pub name: Name,
    pub arguments: Vec<Argument>,
    pub directives: Vec<Directive>,
    pub set: Option<Box<SelectionSet>>,
    pub span: Span,
}

/// A fragment spread (section 2.8). Its span goes from the first of the three dots to the end of the name or of the last
/// directive.
#[derive(Drop)]
pub struct Spread {
    pub name: Name,
    pub directives: Vec<Directive>,
    pub span: Span,
}

/// An inline fragment (section 2.8.2), with its type condition where it has one. Its span goes from the first of the
/// three dots to the end of the closing brace.
#[derive(Drop)]
#[cycle(tree)]
pub struct InlineFragment {
    pub on: Option<Name>,
    pub directives: Vec<Directive>,
    pub set: SelectionSet,
    pub span: Span,
}

/// A selection set (section 2.4). Its span goes from the opening brace to the end of the closing one.
#[derive(Drop)]
#[cycle(tree)]
pub struct SelectionSet {
    pub span: Span,
    pub items: Vec<Selection>,
}

/// What an operation does (section 2.3).
#[derive(Clone, Copy, Debug, PartialEq, Eq)]
pub enum OperationKind {
    Query,
    Mutation,
    Subscription,
}

/// The definition of a variable (section 2.10).
#[derive(Drop)]
pub struct VariableDefinition {
    pub variable: Variable,
    pub type_ref: TypeRef,
    pub default: Option<Value>,
    pub directives: Vec<Directive>,
}

/// An operation definition (section 2.3). Its span goes from its first token, the keyword or the opening brace, to the
/// end of its closing brace.
pub struct Operation {
    pub kind: OperationKind,
    pub name: Option<Name>,
    pub variables: Vec<VariableDefinition>,
    pub directives: Vec<Directive>,
    pub set: SelectionSet,
    pub span: Span,
}

impl Drop for Operation {
    fn drop(self) {
        let Operation {
            kind: _,
            name: _name,
            variables: _variables,
            directives: _directives,
            set: _set,
            span: _,
        } = self;
    }
}

/// A fragment definition (section 2.8), with its type condition. Its span goes from the keyword `fragment` to the
/// end of its closing brace.
pub struct Fragment {
    pub name: Name,
    pub on: Name,
    pub directives: Vec<Directive>,
    pub set: SelectionSet,
    pub span: Span,
}

impl Drop for Fragment {
    fn drop(self) {
        let Fragment {
            name: _name,
            on: _on,
            directives: _directives,
            set: _set,
            span: _,
        } = self;
    }
}

/// A definition (section 2.2). One of the type system may have several owners: a type system shares it with the tree.
#[derive(Drop)]
pub enum Definition {
    Operation(Operation),
    Fragment(Fragment),
    TypeSystem(Arc<TypeSystemDefinition>),
}

/// A document (section 2.2), its definitions in the order of the text.
#[derive(Drop)]
pub struct Document {
    pub definitions: Vec<Definition>,
}
