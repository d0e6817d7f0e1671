//! What the coercion of literals depends on.
ghost use Rattle.std.specs.Prelude.{◌≡◌, ◌<◌, ◌-◌};
ghost use Rattle.gq_tree.specs.Forest.{none};
ghost use Rattle.gq_types.specs.Look.{types_view};
ghost use Rattle.gq_coerce.specs.Helping.Views.{variables_in};

use crate::values::Variables;
use gq_types::Types;

/// A type system, the values of variables, and how many defaults may be entered, each in the one before.
#[derive(Clone, Copy)]
pub(crate) struct Setting<'a> {
    pub(crate) types: &'a Types,
    pub(crate) variables: Option<&'a Variables>,
    pub(crate) limit: u128,
}

/// The setting of a default: it has no variables.
pub(crate) fn within(setting: Setting<'_>) -> Setting<'_>
    requires { 0 < setting.limit }
    ensures types { types_view result.types.now ≡ types_view setting.entry.types.now }
    ensures variables { variables_in result.variables ≡ none }
    ensures limit { result.limit ≡ setting.entry.limit - 1 }
{
    Setting {
        types: setting.types,
        variables: None,
        limit: setting.limit - 1,
    }
}
