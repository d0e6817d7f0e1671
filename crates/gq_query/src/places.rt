//! Where fields and types are defined (GraphQL, October 2021, sections 3.4 and 3.6).
ghost use Rattle.std.specs.Prelude.{◌≡◌, bytes_eq, map, option_and_then, slice_get};
ghost use Rattle.std.specs.List.{list_any};
ghost use Rattle.gq_tree.specs.Views.{field_definition_view, type_system_view};
ghost use Rattle.gq_types.specs.Look.{types_view};
ghost use Rattle.gq_query.specs.Places.{field_place, type_place, type_name_place};
ghost use Rattle.gq_query.specs.Helping.Gathered.{field_places_at, field_place_in, first_of};

use gq_index::Occurrence;
use gq_tree::{FieldDefinition, TypeSystemDefinition};
use gq_types::{Types, is_built_in_scalar};

/// Where the type of that name is defined, which is not built in.
pub(crate) fn type_place(types: &Types, name: &str) -> Option<Occurrence>
    ensures { result ≡ type_place (types_view types.now) name.now }
{
    if is_built_in_scalar(name) {
        return None;
    }
    match types.type_number(name) {
        Some(number) => type_place_at(types, number),
        None => None,
    }
}

/// The name of the type that the definition or extension with that number is of.
fn type_place_at(types: &Types, number: usize) -> Option<Occurrence>
    ensures { result ≡ option_and_then (λ e. type_name_place e.file e.definition) (slice_get (types_view types.now) number) }
{
    let entry = types.entries().get(number)?;
    type_name_place(entry.file, &entry.definition)
}

/// The name of the type that a definition or extension in that document is of.
fn type_name_place(file: usize, definition: &TypeSystemDefinition) -> Option<Occurrence>
    ensures { result ≡ type_name_place file (type_system_view definition.now) }
{
    match definition {
        TypeSystemDefinition::Type(one) => Some(Occurrence {
            file,
            span: one.name.span,
        }),
        TypeSystemDefinition::Schema(_) => None,
        TypeSystemDefinition::Directive(_) => None,
    }
}

/// Where the field of that name of the type of that name is defined.
pub(crate) fn field_place(types: &Types, type_name: &str, name: &str) -> Option<Occurrence>
    ensures { result ≡ field_place (types_view types.now) type_name.now name.now }
{
    if name == "__typename" {
        return None;
    }
    match types.type_number(type_name) {
        Some(number) => field_place_among(types, types.joined(number), name),
        None => None,
    }
}

/// Where the field of that name is defined in the definitions and extensions with these numbers.
fn field_place_among(types: &Types, numbers: &[usize], name: &str) -> Option<Occurrence>
    ensures { result ≡ first_of (field_places_at (types_view types.now) name.now) numbers.now }
{
    for number in numbers {
        if let Some(place) = field_place_at(types, *number, name) {
            return Some(place);
        }
    }
    None
}

/// Where it is defined in the definition or extension with that number.
fn field_place_at(types: &Types, number: usize, name: &str) -> Option<Occurrence>
    ensures { result ≡ field_places_at (types_view types.now) name.now number }
{
    let entry = types.entries().get(number)?;
    field_place_in(entry.file, types.fields_at(number), name)
}

/// Where the field of that name stands among these of that document.
fn field_place_in(file: usize, fields: &[FieldDefinition], name: &str) -> Option<Occurrence>
    ensures { result ≡ field_place_in file name.now (map field_definition_view fields.now) }
{
    for field in fields {
        if name == field.name.text.as_str() {
            return Some(Occurrence {
                file,
                span: field.name.span,
            });
        }
    }
    None
}
