//! Subtypes (GraphQL, October 2021, section 3.6).
ghost use Rattle.std.specs.Prelude.{◌≡◌, ◌↔◌, IsTrue};
ghost use Rattle.gq_tree.specs.Views.{type_view};
ghost use Rattle.gq_types.specs.Look.{types_view};
ghost use Rattle.gq_types.specs.Possible.{Covers, IsSubtype};
ghost use Rattle.gq_types.specs.Subtypes.{MayBeSubtypeName};
ghost use Rattle.gq_types.specs.SubtypesTests.{is_subtype_name, names_relate, covers};

use crate::entry::TypeKind;
use crate::possible::is_possible;
use crate::types::Types;
use gq_tree::TypeRef;

impl Types {
    /// Whether a value of the first type stands wherever one of the second does. It takes no memory.
    pub fn is_subtype(&self, sub: &TypeRef, super_type: &TypeRef) -> bool
        ensures { IsTrue result ↔ IsSubtype (types_view self.now) (type_view sub.now) (type_view super_type.now) }
    {
        type_covers(self, false, sub, super_type)
    }

    /// The same, where a name that is not known stands for any type. It takes no memory.
    pub fn may_be_subtype(&self, sub: &TypeRef, super_type: &TypeRef) -> bool
        ensures { IsTrue result ↔ Covers (MayBeSubtypeName (types_view self.now)) (type_view sub.now) (type_view super_type.now) }
    {
        type_covers(self, true, sub, super_type)
    }
}

fn is_named_subtype(types: &Types, sub: &str, super_type: &str) -> bool
    ensures { result ≡ is_subtype_name (types_view types.now) sub.now super_type.now }
{
    if sub == super_type || is_possible(types, super_type, sub) {
        return true;
    }
    types.has_kind(sub, TypeKind::Interface)
        && types.has_kind(super_type, TypeKind::Interface)
        && types.declares(sub, super_type)
}

fn name_covers(types: &Types, unknown_too: bool, sub: &str, super_type: &str) -> bool
    ensures { result ≡ names_relate (types_view types.now) unknown_too sub.now super_type.now }
{
    if unknown_too && (types.kind(sub).is_none() || types.kind(super_type).is_none()) {
        return true;
    }
    is_named_subtype(types, sub, super_type)
}

#[tactic(auto, using(gq_tree::proofs::Trees::types))]
fn type_covers(types: &Types, unknown_too: bool, sub: &TypeRef, super_type: &TypeRef) -> bool
    ensures { result ≡ covers (names_relate (types_view types.now) unknown_too) (type_view sub.now) (type_view super_type.now) }
{
    match sub {
        TypeRef::Named(a) => match super_type {
            TypeRef::Named(b) => name_covers(types, unknown_too, a.text.as_str(), b.text.as_str()),
            TypeRef::List(_) => false,
            TypeRef::NonNull(_) => false,
        },
        TypeRef::List(a) => match super_type {
            TypeRef::Named(_) => false,
            TypeRef::List(b) => type_covers(types, unknown_too, a, b),
            TypeRef::NonNull(_) => false,
        },
        TypeRef::NonNull(a) => match super_type {
            TypeRef::Named(_) => type_covers(types, unknown_too, a, super_type),
            TypeRef::List(_) => type_covers(types, unknown_too, a, super_type),
            TypeRef::NonNull(b) => type_covers(types, unknown_too, a, b),
        },
    }
}
