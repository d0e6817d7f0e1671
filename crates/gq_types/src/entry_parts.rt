//! The parts of a definition or extension of a type, which is given by its number.
ghost use Rattle.std.specs.Prelude.{◌≡◌, map};
ghost use Rattle.gq_tree.specs.Views.{name_of, field_definition_view, body_view, type_system_view};
ghost use Rattle.gq_types.specs.Entries.{entries_view};
ghost use Rattle.gq_types.specs.Joined.{body_in, fields_in_body, interfaces_in_body, members_in_body};
ghost use Rattle.gq_types.specs.Look.{types_view};
ghost use Rattle.gq_types.specs.LookUps.{parts_of_entry};

use crate::entry::Entry;
use crate::types::Types;
use gq_tree::{FieldDefinition, Name, TypeBody, TypeSystemDefinition};

impl Types {
    /// The interfaces that it declares; none where it is no object type or interface.
    pub fn interfaces_at(&self, number: usize) -> &[Name]
        ensures { map name_of result.now ≡ parts_of_entry interfaces_in_body (types_view self.now) number }
    {
        match self.entries().get(number) {
            Some(entry) => interfaces_of(&entry.definition),
            None => &[],
        }
    }

    /// Its fields; none where it is no object type or interface.
    pub fn fields_at(&self, number: usize) -> &[FieldDefinition]
        ensures { map field_definition_view result.now ≡ parts_of_entry fields_in_body (types_view self.now) number }
    {
        fields_among(self.entries(), number)
    }

    /// Its members; none where it is no union.
    pub fn members_at(&self, number: usize) -> &[Name]
        ensures { map name_of result.now ≡ parts_of_entry members_in_body (types_view self.now) number }
    {
        match self.entries().get(number) {
            Some(entry) => members_of(&entry.definition),
            None => &[],
        }
    }
}

fn interfaces_of(definition: &TypeSystemDefinition) -> &[Name]
    ensures { map name_of result.now ≡ interfaces_in_body (body_in (type_system_view definition.now)) }
{
    match definition {
        TypeSystemDefinition::Type(one) => interfaces_in(&one.body),
        TypeSystemDefinition::Schema(_) => &[],
        TypeSystemDefinition::Directive(_) => &[],
    }
}

fn interfaces_in(body: &TypeBody) -> &[Name]
    ensures { map name_of result.now ≡ interfaces_in_body (body_view body.now) }
{
    match body {
        TypeBody::Object(parts) => &parts.interfaces,
        TypeBody::Interface(parts) => &parts.interfaces,
        TypeBody::Scalar => &[],
        TypeBody::Union(_) => &[],
        TypeBody::Enum(_) => &[],
        TypeBody::InputObject(_) => &[],
    }
}

/// The fields of the entry with that number; none where it is no object type or interface, nor past the last one.
pub(crate) fn fields_among(entries: &[Entry], number: usize) -> &[FieldDefinition]
    ensures { map field_definition_view result.now ≡ parts_of_entry fields_in_body (entries_view entries.now) number }
{
    match entries.get(number) {
        Some(entry) => fields_of(&entry.definition),
        None => &[],
    }
}

/// The fields of an object type or interface.
pub(crate) fn fields_of(definition: &TypeSystemDefinition) -> &[FieldDefinition]
    ensures { map field_definition_view result.now ≡ fields_in_body (body_in (type_system_view definition.now)) }
{
    match definition {
        TypeSystemDefinition::Type(one) => fields_in(&one.body),
        TypeSystemDefinition::Schema(_) => &[],
        TypeSystemDefinition::Directive(_) => &[],
    }
}

fn fields_in(body: &TypeBody) -> &[FieldDefinition]
    ensures { map field_definition_view result.now ≡ fields_in_body (body_view body.now) }
{
    match body {
        TypeBody::Object(parts) => &parts.fields,
        TypeBody::Interface(parts) => &parts.fields,
        TypeBody::Scalar => &[],
        TypeBody::Union(_) => &[],
        TypeBody::Enum(_) => &[],
        TypeBody::InputObject(_) => &[],
    }
}

fn members_of(definition: &TypeSystemDefinition) -> &[Name]
    ensures { map name_of result.now ≡ members_in_body (body_in (type_system_view definition.now)) }
{
    match definition {
        TypeSystemDefinition::Type(one) => members_in(&one.body),
        TypeSystemDefinition::Schema(_) => &[],
        TypeSystemDefinition::Directive(_) => &[],
    }
}

fn members_in(body: &TypeBody) -> &[Name]
    ensures { map name_of result.now ≡ members_in_body (body_view body.now) }
{
    match body {
        TypeBody::Union(members) => members,
        TypeBody::Object(_) => &[],
        TypeBody::Interface(_) => &[],
        TypeBody::Scalar => &[],
        TypeBody::Enum(_) => &[],
        TypeBody::InputObject(_) => &[],
    }
}
