//! Whether two definitions of a type system are the same but for places.
ghost use Rattle.std.specs.Prelude.{◌≡◌, true};
ghost use Rattle.gq_tree.specs.Plain.{no_place, place_body, place_type_system};
ghost use Rattle.gq_tree.specs.Views.{body_view, type_system_view};
ghost use Rattle.gq_tree.specs.declared.type_system.TypeSystemDefinition.TheVariants as definition;
ghost use Rattle.gq_tree.specs.declared.type_system.TypeBody.TheVariants as body;
ghost use Rattle.gq_laws.specs.Placing.ObjectTypes.{defines_object};

use crate::sameness::{Alike, are_alike, are_both_alike};
use gq_tree::{
    DirectiveDefinition, FieldsAndInterfaces, SchemaDefinition, TypeBody, TypeDefinition,
    TypeSystemDefinition,
};

/// Whether the two are the same but for places.
pub(crate) fn is_same_definition(one: &TypeSystemDefinition, other: &TypeSystemDefinition) -> bool
    ensures { result ≡ true → place_type_system no_place (type_system_view one.now) ≡ place_type_system no_place (type_system_view other.now) }
{
    match one {
        TypeSystemDefinition::Type(one) => match other {
            TypeSystemDefinition::Type(other) => is_same_type(one, other),
            _ => false,
        },
        TypeSystemDefinition::Schema(one) => match other {
            TypeSystemDefinition::Schema(other) => is_same_schema(one, other),
            _ => false,
        },
        TypeSystemDefinition::Directive(one) => match other {
            TypeSystemDefinition::Directive(other) => is_same_directive(one, other),
            _ => false,
        },
    }
}

/// Whether the two are the same but for places.
pub(crate) fn is_same_schema(one: &SchemaDefinition, other: &SchemaDefinition) -> bool
    ensures { result ≡ true → place_type_system no_place (type_system_view (definition.Schema one.now)) ≡ place_type_system no_place (type_system_view (definition.Schema other.now)) }
{
    if one.extends != other.extends {
        return false;
    }
    if !are_alike(&one.roots, &other.roots) {
        return false;
    }
    if !are_alike(&one.directives, &other.directives) {
        return false;
    }
    are_both_alike(&one.description, &other.description)
}

/// Whether the two are the same but for places.
pub(crate) fn is_same_directive(one: &DirectiveDefinition, other: &DirectiveDefinition) -> bool
    ensures { result ≡ true → place_type_system no_place (type_system_view (definition.Directive one.now)) ≡ place_type_system no_place (type_system_view (definition.Directive other.now)) }
{
    if one.repeatable != other.repeatable {
        return false;
    }
    if !one.name.is_alike(&other.name) {
        return false;
    }
    if !are_alike(&one.locations, &other.locations) {
        return false;
    }
    if !are_alike(&one.arguments, &other.arguments) {
        return false;
    }
    are_both_alike(&one.description, &other.description)
}

/// Whether the two are the same but for places.
fn is_same_type(one: &TypeDefinition, other: &TypeDefinition) -> bool
    ensures { result ≡ true → place_type_system no_place (type_system_view (definition.Type one.now)) ≡ place_type_system no_place (type_system_view (definition.Type other.now)) }
{
    if one.extends != other.extends {
        return false;
    }
    if !one.name.is_alike(&other.name) {
        return false;
    }
    if !are_alike(&one.directives, &other.directives) {
        return false;
    }
    if !are_both_alike(&one.description, &other.description) {
        return false;
    }
    is_same_body(&one.body, &other.body)
}

/// Whether the two are the same but for places.
fn is_same_body(one: &TypeBody, other: &TypeBody) -> bool
    ensures { result ≡ true → place_body no_place (body_view one.now) ≡ place_body no_place (body_view other.now) }
{
    match one {
        TypeBody::Object(one) => match other {
            TypeBody::Object(other) => have_same_parts(one, other),
            _ => false,
        },
        TypeBody::Interface(one) => match other {
            TypeBody::Interface(other) => have_same_parts(one, other),
            _ => false,
        },
        TypeBody::Scalar => matches!(other, TypeBody::Scalar),
        TypeBody::Union(one) => match other {
            TypeBody::Union(other) => are_alike(one, other),
            _ => false,
        },
        TypeBody::Enum(one) => match other {
            TypeBody::Enum(other) => are_alike(one, other),
            _ => false,
        },
        TypeBody::InputObject(one) => match other {
            TypeBody::InputObject(other) => are_alike(one, other),
            _ => false,
        },
    }
}

/// Whether the interfaces of the two are the same but for places, and their fields.
fn have_same_parts(one: &FieldsAndInterfaces, other: &FieldsAndInterfaces) -> bool
    ensures object { result ≡ true → place_body no_place (body_view (body.Object one.now)) ≡ place_body no_place (body_view (body.Object other.now)) }
    ensures interface { result ≡ true → place_body no_place (body_view (body.Interface one.now)) ≡ place_body no_place (body_view (body.Interface other.now)) }
{
    if !are_alike(&one.interfaces, &other.interfaces) {
        return false;
    }
    are_alike(&one.fields, &other.fields)
}

/// Whether it is the definition of an object type, and no extension (section 3.6).
pub(crate) fn defines_object(definition: &TypeSystemDefinition) -> bool
    ensures { result ≡ defines_object (type_system_view definition.now) }
{
    match definition {
        TypeSystemDefinition::Type(one) => match one.body {
            TypeBody::Object(_) => !one.extends,
            _ => false,
        },
        _ => false,
    }
}
