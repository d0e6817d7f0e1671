//! What a literal is read at (GraphQL, October 2021, section 5.6).
ghost use Rattle.std.specs.Prelude.{◌≡◌};
ghost use Rattle.gq_tree.specs.Views.{type_view};
ghost use Rattle.gq_values.specs.Literals.{is_input_type, default_at, items_at, at_input, at_field, field_at, input_object_at};
ghost use Rattle.gq_types.specs.Names.{input_named};
ghost use Rattle.gq_types.specs.Look.{types_view, text_of};
ghost use Rattle.gq_values.specs.ExpectedTypes.{expected_view};

use gq_tree::TypeRef;
use gq_types::{TypeKind, Types};

/// What a literal is read at: a type, or any, where none is known and inside the literal of a custom scalar or one that
/// does not fit.
#[derive(Clone, Copy)]
pub enum ExpectedType<'a> {
    AtType(&'a TypeRef),
    AtAny,
}

/// Whether the type is known and an input type (section 3.4.2).
#[tactic(auto, using(gq_tree::proofs::Trees::types))]
fn is_input_type(types: &Types, type_ref: &TypeRef) -> bool
    ensures { result ≡ is_input_type (types_view types.now) (type_view type_ref.now) }
{
    match type_ref {
        TypeRef::Named(name) => match types.kind(name.text.as_str()) {
            Some(kind) => kind.is_input(),
            None => false,
        },
        TypeRef::List(item) => is_input_type(types, item),
        TypeRef::NonNull(inner) => is_input_type(types, inner),
    }
}

/// What a default value of that type is read at.
pub fn default_at<'a>(types: &Types, type_ref: &'a TypeRef) -> ExpectedType<'a>
    ensures { expected_view result ≡ default_at (types_view types.now) (type_view type_ref.now) }
{
    if is_input_type(types, type_ref) {
        ExpectedType::AtType(type_ref)
    } else {
        ExpectedType::AtAny
    }
}

/// What the items of a list literal are read at.
pub fn items_at(reading: ExpectedType<'_>) -> ExpectedType<'_>
    ensures { expected_view result ≡ items_at (expected_view reading.entry) }
{
    match reading {
        ExpectedType::AtType(type_ref) => match type_ref.item_type() {
            Some(item) => ExpectedType::AtType(item),
            None => ExpectedType::AtAny,
        },
        ExpectedType::AtAny => ExpectedType::AtAny,
    }
}

fn at_input_field<'a>(types: &'a Types, type_name: &str, field: &str) -> ExpectedType<'a>
    ensures { expected_view result ≡ at_input (input_named (types_view types.now) type_name.now field.now) }
{
    match types.input_field(type_name, field) {
        Some(definition) => ExpectedType::AtType(&definition.type_ref),
        None => ExpectedType::AtAny,
    }
}

fn at_field<'a>(types: &'a Types, type_name: Option<&str>, field: &str) -> ExpectedType<'a>
    ensures { expected_view result ≡ at_field (types_view types.now) (text_of type_name.entry) field.now }
{
    match type_name {
        Some(type_name) => at_input_field(types, type_name, field),
        None => ExpectedType::AtAny,
    }
}

/// What the value of the field of that name in an object literal is read at.
pub fn field_at<'a>(types: &'a Types, reading: ExpectedType<'_>, field: &str) -> ExpectedType<'a>
    ensures { expected_view result ≡ field_at (types_view types.now) (expected_view reading.entry) field.now }
{
    match reading {
        ExpectedType::AtType(type_ref) => at_field(types, input_object_at(types, type_ref), field),
        ExpectedType::AtAny => ExpectedType::AtAny,
    }
}

/// The name of the input object at whose fields an object literal at this type is read.
#[tactic(auto, using(gq_tree::proofs::Trees::types))]
pub fn input_object_at<'a>(types: &Types, type_ref: &'a TypeRef) -> Option<&'a str>
    ensures { text_of result ≡ input_object_at (types_view types.now) (type_view type_ref.now) }
{
    match type_ref {
        TypeRef::Named(name) => match types.kind(name.text.as_str()) {
            Some(TypeKind::InputObject) => Some(name.text.as_str()),
            Some(TypeKind::Scalar) => None,
            Some(TypeKind::Object) => None,
            Some(TypeKind::Interface) => None,
            Some(TypeKind::Union) => None,
            Some(TypeKind::Enum) => None,
            None => None,
        },
        TypeRef::List(item) => input_object_at(types, item),
        TypeRef::NonNull(inner) => input_object_at(types, inner),
    }
}
