//! What is the same but for places.
ghost use Rattle.std.specs.Prelude.{◌≡◌, ◌≤◌, ◌-◌, ℕ, drop, length, map, take, true};
ghost use Rattle.std.specs.Option.{option_map};
ghost use Rattle.gq_tree.specs.Plain.{NameOf, Val, TypeOf, DirectiveOf, InputOf, FieldDefinitionOf, EnumValueOf, RootOf, no_place, place_name, place_value, place_type, place_directive, place_input, place_field, place_enum_value, place_root};
ghost use Rattle.gq_tree.specs.Same.{same_types};
ghost use Rattle.gq_tree.specs.Views.{name_of, literal_view, value_view, type_view, directive_view, input_view, field_definition_view, enum_value_view, root_view};
ghost use Rattle.gq_tree.specs.declared.type_system.DirectiveLocation as location;

use gq_tree::same::{are_same_arguments, have_same_text, same_value};
use gq_tree::{
    Directive, DirectiveLocation, EnumValueDefinition, FieldDefinition, InputValueDefinition,
    Literal, Name, RootOperationType, TypeRef, Value,
};

/// What may be the same as another but for places.
pub(crate) trait Alike {
    // What it is without its places.
    ghost Bare: { Type 0 };

    ghost bare: { Self → Bare };

    /// Whether the two are the same but for places.
    fn is_alike(&self, other: &Self) -> bool
        ensures { result ≡ true → bare self.now ≡ bare other.now };
}

/// Whether the two lists are the same but for places.
pub(crate) fn are_alike<T: Alike>(all: &[T], others: &[T]) -> bool
    ensures { result ≡ true → map T.bare all.now ≡ map T.bare others.now }
{
    if all.len() != others.len() {
        return false;
    }
    for i in 0..all.len() {
        if !all[i].is_alike(&others[i]) {
            return false;
        }
    }
    true
}

/// Whether both are there and the same but for places, or neither is there.
pub(crate) fn are_both_alike<T: Alike>(one: &Option<T>, other: &Option<T>) -> bool
    ensures { result ≡ true → option_map T.bare one.now ≡ option_map T.bare other.now }
{
    match one {
        Some(one) => match other {
            Some(other) => one.is_alike(other),
            None => false,
        },
        None => other.is_none(),
    }
}

/// How many at the front are the same but for places.
pub(crate) fn common_front<T: Alike>(all: &[T], others: &[T]) -> usize
    ensures all { result ≤ length all.now }
    ensures others { result ≤ length others.now }
    ensures alike { map T.bare (take result all.now) ≡ map T.bare (take result others.now) }
{
    let most = all.len().min(others.len());
    for i in 0..most {
        if !all[i].is_alike(&others[i]) {
            return i;
        }
    }
    most
}

/// How many at the back are the same but for places.
pub(crate) fn common_back<T: Alike>(all: &[T], others: &[T]) -> usize
    ensures all { result ≤ length all.now }
    ensures others { result ≤ length others.now }
    ensures alike { map T.bare (drop (length all.now - result) all.now) ≡ map T.bare (drop (length others.now - result) others.now) }
{
    let most = all.len().min(others.len());
    for i in 0..most {
        if !all[all.len() - 1 - i].is_alike(&others[others.len() - 1 - i]) {
            return i;
        }
    }
    most
}

impl Alike for u8 {
    ghost Bare = { ℕ };

    ghost bare = { λ b. b };

    fn is_alike(&self, other: &Self) -> bool {
        self == other
    }
}

impl Alike for Name {
    ghost Bare = { NameOf (Unit {0}) };

    ghost bare = { λ n. place_name no_place (name_of n) };

    fn is_alike(&self, other: &Self) -> bool {
        have_same_text(self, other)
    }
}

impl Alike for Literal {
    ghost Bare = { NameOf (Unit {0}) };

    ghost bare = { λ l. place_name no_place (literal_view l) };

    fn is_alike(&self, other: &Self) -> bool {
        self.text.as_str() == other.text.as_str()
    }
}

impl Alike for Value {
    ghost Bare = { Val (Unit {0}) };

    ghost bare = { λ v. place_value no_place (value_view v) };

    fn is_alike(&self, other: &Self) -> bool {
        same_value(self, other)
    }
}

/// Whether the two types are the same but for places.
#[tactic(auto, using(gq_tree::proofs::Trees::types))]
fn is_same_type(one: &TypeRef, other: &TypeRef) -> bool
    ensures { result ≡ same_types (type_view one.now) (type_view other.now) }
{
    match one {
        TypeRef::Named(one) => match other {
            TypeRef::Named(other) => one.text.as_str() == other.text.as_str(),
            TypeRef::List(_) => false,
            TypeRef::NonNull(_) => false,
        },
        TypeRef::List(one) => match other {
            TypeRef::Named(_) => false,
            TypeRef::List(other) => is_same_type(one, other),
            TypeRef::NonNull(_) => false,
        },
        TypeRef::NonNull(one) => match other {
            TypeRef::Named(_) => false,
            TypeRef::List(_) => false,
            TypeRef::NonNull(other) => is_same_type(one, other),
        },
    }
}

impl Alike for TypeRef {
    ghost Bare = { TypeOf (Unit {0}) };

    ghost bare = { λ t. place_type no_place (type_view t) };

    fn is_alike(&self, other: &Self) -> bool {
        is_same_type(self, other)
    }
}

impl Alike for DirectiveLocation {
    ghost Bare = { location.DirectiveLocation };

    ghost bare = { λ l. l };

    fn is_alike(&self, other: &Self) -> bool {
        self == other
    }
}

impl Alike for Directive {
    ghost Bare = { DirectiveOf (Unit {0}) };

    ghost bare = { λ d. place_directive no_place (directive_view d) };

    fn is_alike(&self, other: &Self) -> bool {
        self.name.is_alike(&other.name) && are_same_arguments(&self.arguments, &other.arguments)
    }
}

impl Alike for RootOperationType {
    ghost Bare = { RootOf (Unit {0}) };

    ghost bare = { λ r. place_root no_place (root_view r) };

    fn is_alike(&self, other: &Self) -> bool {
        self.kind == other.kind && self.name.is_alike(&other.name)
    }
}

impl Alike for EnumValueDefinition {
    ghost Bare = { EnumValueOf (Unit {0}) };

    ghost bare = { λ v. place_enum_value no_place (enum_value_view v) };

    fn is_alike(&self, other: &Self) -> bool {
        if !self.name.is_alike(&other.name) {
            return false;
        }
        if !are_alike(&self.directives, &other.directives) {
            return false;
        }
        are_both_alike(&self.description, &other.description)
    }
}

impl Alike for InputValueDefinition {
    ghost Bare = { InputOf (Unit {0}) };

    ghost bare = { λ i. place_input no_place (input_view i) };

    fn is_alike(&self, other: &Self) -> bool {
        if !self.name.is_alike(&other.name) {
            return false;
        }
        if !self.type_ref.is_alike(&other.type_ref) {
            return false;
        }
        if !are_both_alike(&self.default, &other.default) {
            return false;
        }
        if !are_alike(&self.directives, &other.directives) {
            return false;
        }
        are_both_alike(&self.description, &other.description)
    }
}

impl Alike for FieldDefinition {
    ghost Bare = { FieldDefinitionOf (Unit {0}) };

    ghost bare = { λ d. place_field no_place (field_definition_view d) };

    fn is_alike(&self, other: &Self) -> bool {
        if !self.name.is_alike(&other.name) {
            return false;
        }
        if !self.type_ref.is_alike(&other.type_ref) {
            return false;
        }
        if !are_alike(&self.arguments, &other.arguments) {
            return false;
        }
        if !are_alike(&self.directives, &other.directives) {
            return false;
        }
        are_both_alike(&self.description, &other.description)
    }
}
