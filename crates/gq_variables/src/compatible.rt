//! Whether a variable may stand at a type (GraphQL, October 2021, section 5.8.5).
ghost use Rattle.std.specs.Prelude.{◌≡◌};
ghost use Rattle.std.specs.Option.{option_map};
ghost use Rattle.gq_tree.specs.Views.{type_view, value_view, variable_view};
ghost use Rattle.gq_variables.specs.AllVariableUsagesAreAllowed.{is_value};
ghost use Rattle.gq_variables.specs.Helping.VariablePlaces.{are_compatible, defaults, is_allowed};

use gq_tree::{TypeRef, Value, VariableDefinition};

/// Whether a value of the first type may stand where one of the second is wanted.
#[tactic(auto, using(gq_tree::proofs::Trees::types))]
pub(crate) fn are_compatible(variable: &TypeRef, location: &TypeRef) -> bool
    ensures { result ≡ are_compatible (type_view variable.now) (type_view location.now) }
{
    match variable {
        TypeRef::Named(name) => match location {
            TypeRef::Named(wanted) => name.text.as_str() == wanted.text.as_str(),
            TypeRef::List(_) => false,
            TypeRef::NonNull(_) => false,
        },
        TypeRef::List(item) => match location {
            TypeRef::Named(_) => false,
            TypeRef::List(wanted) => are_compatible(item, wanted),
            TypeRef::NonNull(_) => false,
        },
        TypeRef::NonNull(inner) => match location {
            TypeRef::Named(_) => are_compatible(inner, location),
            TypeRef::List(_) => are_compatible(inner, location),
            TypeRef::NonNull(wanted) => are_compatible(inner, wanted),
        },
    }
}

/// Whether it is there, and not the literal null.
pub(crate) fn is_value(default: &Option<Value>) -> bool
    ensures { result ≡ is_value (option_map value_view default.now) }
{
    match default {
        Some(value) => !value.is_null(),
        None => false,
    }
}

/// Whether a default value lets the nullable variable stand at a type without null.
fn defaults(variable: &VariableDefinition, place_has_default: bool) -> bool
    ensures { result ≡ defaults (variable_view variable.now) place_has_default }
{
    !variable.type_ref.is_non_null() && (is_value(&variable.default) || place_has_default)
}

/// Whether the variable may stand at a place of that type, where the place has a default value or not.
#[tactic(auto, using(gq_tree::proofs::Trees::types))]
pub(crate) fn is_allowed(
    variable: &VariableDefinition,
    place_has_default: bool,
    location: &TypeRef,
) -> bool
    ensures { result ≡ is_allowed (variable_view variable.now) place_has_default (type_view location.now) }
{
    match location {
        TypeRef::Named(_) => are_compatible(&variable.type_ref, location),
        TypeRef::List(_) => are_compatible(&variable.type_ref, location),
        TypeRef::NonNull(inner) => {
            if defaults(variable, place_has_default) {
                are_compatible(&variable.type_ref, inner)
            } else {
                are_compatible(&variable.type_ref, location)
            }
        }
    }
}
