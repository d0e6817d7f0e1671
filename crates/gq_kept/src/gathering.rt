//! The names of the fields in which two definitions differ.
ghost use Rattle.std.specs.Prelude.{◌≡◌, ◌++◌, IfOk, map, true};
ghost use Rattle.gq_tree.specs.Plain.{no_place, place_body, place_field, place_type_system};
ghost use Rattle.gq_tree.specs.Views.{body_view, field_definition_view, type_system_view};
ghost use Rattle.gq_tree.specs.declared.type_system.TypeSystemDefinition.TheVariants as definition;
ghost use Rattle.gq_tree.specs.declared.type_system.TypeBody.TheVariants as body;
ghost use Rattle.gq_laws.specs.Placing.OtherFields.{body_without, definition_without, fields_without};
ghost use Rattle.gq_kept.specs.Helping.Gathered.{Gathered};
ghost use Rattle.gq_kept.specs.Helping.Texts.{texts_at};

use crate::same_definitions::{is_same_directive, is_same_schema};
use crate::sameness::{Alike, are_alike, common_back, common_front};
use gq_text::NoMemory;
use gq_tree::{
    FieldDefinition, FieldsAndInterfaces, Name, TypeBody, TypeDefinition, TypeSystemDefinition,
};

/// So many names are gathered at most.
const MOST: usize = 16;

/// Gathers the names of the fields in which the two definitions differ: false where they may differ otherwise, and where the names are too many.
pub(crate) fn gather_differing<'a>(
    one: &'a TypeSystemDefinition,
    other: &'a TypeSystemDefinition,
    names: &mut Vec<&'a Name>,
) -> Result<bool, NoMemory>
    ensures { IfOk result (λ done. done ≡ true → Gathered (texts_at names.old.items) (texts_at names.new.items) (λ texts.
        place_type_system no_place (definition_without texts (type_system_view one.now)) ≡ place_type_system no_place (definition_without texts (type_system_view other.now)))) }
{
    match one {
        TypeSystemDefinition::Type(one) => match other {
            TypeSystemDefinition::Type(other) => gather_in_type(one, other, names),
            _ => Ok(false),
        },
        TypeSystemDefinition::Schema(one) => match other {
            TypeSystemDefinition::Schema(other) => Ok(is_same_schema(one, other)),
            _ => Ok(false),
        },
        TypeSystemDefinition::Directive(one) => match other {
            TypeSystemDefinition::Directive(other) => Ok(is_same_directive(one, other)),
            _ => Ok(false),
        },
    }
}

/// So of two types, the descriptions of which may differ.
fn gather_in_type<'a>(
    one: &'a TypeDefinition,
    other: &'a TypeDefinition,
    names: &mut Vec<&'a Name>,
) -> Result<bool, NoMemory>
    ensures { IfOk result (λ done. done ≡ true → Gathered (texts_at names.old.items) (texts_at names.new.items) (λ texts.
        place_type_system no_place (definition_without texts (type_system_view (definition.Type one.now))) ≡
        place_type_system no_place (definition_without texts (type_system_view (definition.Type other.now))))) }
{
    if one.extends != other.extends {
        return Ok(false);
    }
    if !one.name.is_alike(&other.name) {
        return Ok(false);
    }
    if !are_alike(&one.directives, &other.directives) {
        return Ok(false);
    }
    gather_in_body(&one.body, &other.body, names)
}

/// So of what two types are.
fn gather_in_body<'a>(
    one: &'a TypeBody,
    other: &'a TypeBody,
    names: &mut Vec<&'a Name>,
) -> Result<bool, NoMemory>
    ensures { IfOk result (λ done. done ≡ true → Gathered (texts_at names.old.items) (texts_at names.new.items) (λ texts.
        place_body no_place (body_without texts (body_view one.now)) ≡ place_body no_place (body_without texts (body_view other.now)))) }
{
    match one {
        TypeBody::Object(one) => match other {
            TypeBody::Object(other) => gather_in_parts(one, other, names),
            _ => Ok(false),
        },
        TypeBody::Interface(one) => match other {
            TypeBody::Interface(other) => gather_in_parts(one, other, names),
            _ => Ok(false),
        },
        TypeBody::Scalar => Ok(matches!(other, TypeBody::Scalar)),
        TypeBody::Union(one) => match other {
            TypeBody::Union(other) => Ok(are_alike(one, other)),
            _ => Ok(false),
        },
        TypeBody::Enum(one) => match other {
            TypeBody::Enum(other) => Ok(are_alike(one, other)),
            _ => Ok(false),
        },
        TypeBody::InputObject(one) => match other {
            TypeBody::InputObject(other) => Ok(are_alike(one, other)),
            _ => Ok(false),
        },
    }
}

/// So of two object types, and of two interfaces.
fn gather_in_parts<'a>(
    one: &'a FieldsAndInterfaces,
    other: &'a FieldsAndInterfaces,
    names: &mut Vec<&'a Name>,
) -> Result<bool, NoMemory>
    ensures { IfOk result (λ done. done ≡ true → Gathered (texts_at names.old.items) (texts_at names.new.items) (λ texts.
        (place_body no_place (body_without texts (body_view (body.Object one.now))) ≡ place_body no_place (body_without texts (body_view (body.Object other.now))))
        × (place_body no_place (body_without texts (body_view (body.Interface one.now))) ≡ place_body no_place (body_without texts (body_view (body.Interface other.now)))))) }
{
    if !are_alike(&one.interfaces, &other.interfaces) {
        return Ok(false);
    }
    gather_between(&one.fields, &other.fields, names)
}

/// Gathers the names of the fields between those at the front and those at the back that are the same but for places.
fn gather_between<'a>(
    fields: &'a [FieldDefinition],
    others: &'a [FieldDefinition],
    names: &mut Vec<&'a Name>,
) -> Result<bool, NoMemory>
    ensures { IfOk result (λ done. done ≡ true → Gathered (texts_at names.old.items) (texts_at names.new.items) (λ texts.
        map (place_field no_place) (fields_without texts (map field_definition_view fields.now)) ≡ map (place_field no_place) (fields_without texts (map field_definition_view others.now)))) }
{
    let front = common_front(fields, others);
    let (fields, others) = (&fields[front..], &others[front..]);
    let back = common_back(fields, others);
    if !gather(&fields[..fields.len() - back], names)? {
        return Ok(false);
    }
    gather(&others[..others.len() - back], names)
}

/// Puts the names of the fields behind the others: false where they are too many.
fn gather<'a>(fields: &'a [FieldDefinition], names: &mut Vec<&'a Name>) -> Result<bool, NoMemory>
    ensures { IfOk result (λ done. done ≡ true → texts_at names.new.items ≡ texts_at names.old.items ++ map (λ f. f.name.text) fields.now) }
{
    if names.len() + fields.len() > MOST {
        return Ok(false);
    }
    for field in fields {
        names.push(&field.name)?;
    }
    Ok(true)
}
