//! Type references (GraphQL, October 2021, section 2.11).
ghost use Rattle.std.specs.Prelude.{◌≡◌};
ghost use Rattle.std.specs.Option.{option_map};
ghost use Rattle.gq_tree.specs.NamedTypes.{named_type, base_name};
ghost use Rattle.gq_tree.specs.Views.{name_of, type_view};
ghost use Rattle.gq_tree.specs.Wrapping.{is_non_null, item_of};

use crate::tree::Name;

/// A type reference (section 2.11): a named type, a list of a type, or a type without null.
#[derive(Drop)]
pub enum TypeRef {
    Named(Name),
    List(Box<TypeRef>),
    NonNull(Box<TypeRef>),
}

impl TypeRef {
    /// Whether it is a type without null (section 3.12).
    #[tactic(auto, using(crate::proofs::Trees::types))]
    pub fn is_non_null(&self) -> bool
        ensures { result ≡ is_non_null (type_view self.now) }
    {
        match self {
            TypeRef::Named(_) => false,
            TypeRef::List(_) => false,
            TypeRef::NonNull(_) => true,
        }
    }

    /// The type of the items of a list, which may be without null; `None` for any other type (section 3.11).
    #[tactic(auto, using(crate::proofs::Trees::types))]
    pub fn item_type(&self) -> Option<&TypeRef>
        ensures { option_map (λ item. type_view item.now) result ≡ item_of (type_view self.now) }
    {
        match self {
            TypeRef::Named(_) => None,
            TypeRef::List(item) => Some(item),
            TypeRef::NonNull(inner) => inner.item_type(),
        }
    }
}

/// The name inside lists and types without null (section 3.4.1).
#[tactic(auto, using(crate::proofs::Trees::types))]
pub fn named_type(type_ref: &TypeRef) -> &Name
    ensures { name_of result.now ≡ named_type (type_view type_ref.now) }
{
    match type_ref {
        TypeRef::Named(name) => name,
        TypeRef::List(item) => named_type(item),
        TypeRef::NonNull(inner) => named_type(inner),
    }
}

/// What the name inside lists and types without null says (section 3.4.1).
#[tactic(auto, using(crate::proofs::Trees::types))]
pub fn base_name(type_ref: &TypeRef) -> &str
    ensures { result.now ≡ base_name (type_view type_ref.now) }
{
    match type_ref {
        TypeRef::Named(name) => name.text.as_str(),
        TypeRef::List(item) => base_name(item),
        TypeRef::NonNull(inner) => base_name(inner),
    }
}
