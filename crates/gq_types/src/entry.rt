//! The definitions and extensions of a type system, and the kinds of types.

use gq_tree::{TypeBody, TypeSystemDefinition};
use std::sync::Arc;

/// A definition or extension of the type system, which the tree of its document may have too, and the document that it stands in.
#[derive(Drop)]
pub struct Entry {
    /// The number of the document in the project, from 0.
    pub file: usize,
    pub definition: Arc<TypeSystemDefinition>,
}

/// The kinds of types (GraphQL, October 2021, section 3.4).
#[derive(Clone, Copy, Debug, PartialEq, Eq)]
pub enum TypeKind {
    Scalar,
    Object,
    Interface,
    Union,
    Enum,
    InputObject,
}

impl TypeKind {
    ghost use Rattle.std.specs.Prelude.{◌≡◌};
    ghost use Rattle.gq_tree.specs.Views.{body_view};
    ghost use Rattle.gq_types.specs.Kinds.{kind_of, same_kind, is_input, is_output, is_composite};

    /// What a definition of a type defines.
    pub fn of(body: &TypeBody) -> TypeKind
        ensures { result ≡ kind_of (body_view body.now) }
    {
        match body {
            TypeBody::Scalar => TypeKind::Scalar,
            TypeBody::Object(_) => TypeKind::Object,
            TypeBody::Interface(_) => TypeKind::Interface,
            TypeBody::Union(_) => TypeKind::Union,
            TypeBody::Enum(_) => TypeKind::Enum,
            TypeBody::InputObject(_) => TypeKind::InputObject,
        }
    }

    /// Whether the two are the same kind.
    pub fn is(self, other: TypeKind) -> bool
        ensures { result ≡ same_kind self other }
    {
        self == other
    }

    /// Whether it is an input type: the type of an argument, of an input field, of a variable (section 3.4.2).
    pub fn is_input(self) -> bool
        ensures { result ≡ is_input self }
    {
        matches!(
            self,
            TypeKind::Scalar | TypeKind::Enum | TypeKind::InputObject
        )
    }

    /// Whether it is an output type: the type of a field (section 3.4.2).
    pub fn is_output(self) -> bool
        ensures { result ≡ is_output self }
    {
        !matches!(self, TypeKind::InputObject)
    }

    /// Whether selections stand below a field of this type (section 5.3.3).
    pub fn is_composite(self) -> bool
        ensures { result ≡ is_composite self }
    {
        matches!(
            self,
            TypeKind::Object | TypeKind::Interface | TypeKind::Union
        )
    }
}
