//! Which definitions are judged: a definition of what is built in is accepted and has no effect.
ghost use Rattle.std.specs.Prelude.{◌≡◌, not};
ghost use Rattle.std.specs.List.{list_any};
ghost use Rattle.std.specs.Str.{bytes_eq};
ghost use Rattle.gq_tree.specs.Views.{type_system_view, body_view};
ghost use Rattle.gq_types.specs.BuiltIn.{defines_built_in, built_in_directives};

use gq_tree::{TypeBody, TypeSystemDefinition};
use gq_types::is_built_in_scalar;

/// Whether it is the name of a directive that is built in (section 3.13).
fn is_built_in_directive(name: &str) -> bool
    ensures { result ≡ list_any (bytes_eq name.now) built_in_directives }
{
    name == "skip" || name == "include" || name == "deprecated" || name == "specifiedBy"
}

/// Whether a definition or extension is judged: all are but those that define a scalar or a directive that is built in.
pub fn is_judged(definition: &TypeSystemDefinition) -> bool
    ensures { result ≡ not (defines_built_in (type_system_view definition.now)) }
{
    match definition {
        TypeSystemDefinition::Schema(_) => true,
        TypeSystemDefinition::Type(one) => match one.body {
            TypeBody::Scalar => one.extends || !is_built_in_scalar(one.name.text.as_str()),
            _ => true,
        },
        TypeSystemDefinition::Directive(one) => !is_built_in_directive(one.name.text.as_str()),
    }
}
