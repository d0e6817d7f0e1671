//! The locations at which directives may stand (GraphQL, October 2021, section 3.13).
ghost use Rattle.std.specs.Prelude.{◌≡◌, ◌++◌, ◌∷◌, [], IfOk, OnOk};
ghost use Rattle.std.specs.List.{list_any};
ghost use Rattle.gq_tree.specs.Same.{location_number, same_locations};
ghost use Rattle.gq_tree.specs.Views.{type_system_view};
ghost use Rattle.gq_types.specs.Directives.{locations_in};
ghost use Rattle.gq_types.specs.Helping.Index.{AreLocationsOf};

use gq_text::NoMemory;
use gq_tree::{DirectiveLocation, TypeSystemDefinition};
use std::alloc::Global;

fn number(location: DirectiveLocation) -> u8
    ensures { result ≡ location_number location }
{
    match location {
        DirectiveLocation::Query => 0,
        DirectiveLocation::Mutation => 1,
        DirectiveLocation::Subscription => 2,
        DirectiveLocation::Field => 3,
        DirectiveLocation::FragmentDefinition => 4,
        DirectiveLocation::FragmentSpread => 5,
        DirectiveLocation::InlineFragment => 6,
        DirectiveLocation::VariableDefinition => 7,
        DirectiveLocation::Schema => 8,
        DirectiveLocation::Scalar => 9,
        DirectiveLocation::Object => 10,
        DirectiveLocation::FieldDefinition => 11,
        DirectiveLocation::ArgumentDefinition => 12,
        DirectiveLocation::Interface => 13,
        DirectiveLocation::Union => 14,
        DirectiveLocation::Enum => 15,
        DirectiveLocation::EnumValue => 16,
        DirectiveLocation::InputObject => 17,
        DirectiveLocation::InputFieldDefinition => 18,
    }
}

/// Whether the location is one of these.
pub(crate) fn has_location(locations: &[DirectiveLocation], location: DirectiveLocation) -> bool
    ensures { result ≡ list_any (same_locations location) locations.now }
{
    for one in locations {
        if number(location) == number(*one) {
            return true;
        }
    }
    false
}

/// The locations of a directive; none of any other definition.
pub(crate) fn locations_in(definition: &TypeSystemDefinition) -> &[DirectiveLocation]
    ensures { result.now ≡ locations_in (type_system_view definition.now) }
{
    match definition {
        TypeSystemDefinition::Directive(one) => &one.locations,
        TypeSystemDefinition::Schema(_) => &[],
        TypeSystemDefinition::Type(_) => &[],
    }
}

/// These locations, each once.
pub(crate) fn distinct(
    alloc: Global,
    locations: &[DirectiveLocation],
) -> Result<Vec<DirectiveLocation>, NoMemory>
    ensures { IfOk result (λ kept. AreLocationsOf locations.now kept.items) }
{
    let mut kept = Vec::new(alloc);
    for location in locations {
        put_location(*location, &mut kept)?;
    }
    Ok(kept)
}

/// Puts the location behind the others, if it is none of them.
fn put_location(
    location: DirectiveLocation,
    kept: &mut Vec<DirectiveLocation>,
) -> Result<(), NoMemory>
    ensures { OnOk result (AreLocationsOf (kept.old.items ++ location ∷ []) kept.new.items) }
{
    if !has_location(kept, location) {
        kept.push(location)?;
    }
    Ok(())
}
