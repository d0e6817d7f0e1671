//! The places in arguments and in literals (GraphQL, October 2021, sections 5.6 and 5.8.5).
ghost use Rattle.std.specs.Prelude.{◌≡◌};
ghost use Rattle.gq_types.specs.Look.{types_view, input_of};
ghost use Rattle.gq_values.specs.ArgumentPlaces.{definitions_view};
ghost use Rattle.gq_values.specs.ExpectedTypes.{expected_view};
ghost use Rattle.gq_variables.specs.Uses.{is_defaulted, input_field_at, items_place, field_place, argument_place};
ghost use Rattle.gq_variables.specs.Helping.Views.{place_view};

use crate::uses::Place;
use gq_tree::InputValueDefinition;
use gq_types::{Arguments, Types};
use gq_values::ExpectedType;
use gq_values::expected_type::{field_at, input_object_at, items_at};

fn is_defaulted(input: Option<&InputValueDefinition>) -> bool
    ensures { result ≡ is_defaulted (input_of input.entry) }
{
    match input {
        Some(input) => input.default.is_some(),
        None => false,
    }
}

/// The input field of that name, where an object literal is read at an input object.
fn input_field_at<'a>(
    types: &'a Types,
    reading: ExpectedType<'_>,
    name: &str,
) -> Option<&'a InputValueDefinition>
    ensures { input_of result ≡ input_field_at (types_view types.now) (expected_view reading.entry) name.now }
{
    match reading {
        ExpectedType::AtType(type_ref) => match input_object_at(types, type_ref) {
            Some(type_name) => types.input_field(type_name, name),
            None => None,
        },
        ExpectedType::AtAny => None,
    }
}

/// The place of each item of a list literal.
pub(crate) fn items_place(place: Place<'_>) -> Place<'_>
    ensures { place_view result ≡ items_place (place_view place.entry) }
{
    Place {
        reading: items_at(place.reading),
        has_default: false,
    }
}

/// The place of the value of the field of that name in an object literal.
pub(crate) fn field_place<'a>(types: &'a Types, place: Place<'_>, name: &str) -> Place<'a>
    ensures { place_view result ≡ field_place (types_view types.now) (place_view place.entry) name.now }
{
    Place {
        reading: field_at(types, place.reading, name),
        has_default: is_defaulted(input_field_at(types, place.reading, name)),
    }
}

/// The place of the argument of that name, where those of its field or directive are known.
pub(crate) fn argument_place<'a>(known: Option<Arguments<'a>>, name: &str) -> Place<'a>
    ensures { place_view result ≡ argument_place (definitions_view known.entry) name.now }
{
    let Some(known) = known else {
        return Place {
            reading: ExpectedType::AtAny,
            has_default: false,
        };
    };
    match known.named(name) {
        Some(definition) => Place {
            reading: ExpectedType::AtType(&definition.type_ref),
            has_default: definition.default.is_some(),
        },
        None => Place {
            reading: ExpectedType::AtAny,
            has_default: false,
        },
    }
}
