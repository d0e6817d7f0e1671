//! The uses of variables in literals, arguments and directives.
ghost use Rattle.std.specs.Prelude.{◌≡◌, ◌++◌, OnOk, map};
ghost use Rattle.gq_tree.specs.Views.{value_view, argument_view, directive_view};
ghost use Rattle.gq_types.specs.Look.{types_view};
ghost use Rattle.gq_values.specs.ArgumentPlaces.{definitions_view};
ghost use Rattle.gq_variables.specs.Helping.UsesPlaces.{value_uses, item_uses, uses_of_field, field_uses, uses_of_argument, argument_uses, uses_of_directive, directive_uses};
ghost use Rattle.gq_variables.specs.Helping.Views.{place_view, uses_view};

use crate::places::{argument_place, field_place, items_place};
use crate::uses::{Place, Use};
use gq_text::NoMemory;
use gq_tree::{Argument, Directive, ObjectField, Value};
use gq_types::{Arguments, Types};

#[cycle(literals)]
#[tactic(auto, using(gq_tree::proofs::Trees::gathers))]
fn put_uses_of_value<'a>(
    types: &'a Types,
    file: usize,
    place: Place<'a>,
    value: &'a Value,
    uses: &mut Vec<Use<'a>>,
) -> Result<(), NoMemory>
    ensures { OnOk result (uses_view uses.new.items ≡ uses_view uses.old.items ++ value_uses (types_view types.now) file (place_view place.entry) (value_view value.now)) }
{
    match value {
        Value::Variable(variable) => {
            uses.push(Use {
                file,
                name: &variable.name,
                place,
            })?;
            Ok(())
        }
        Value::List { items, .. } => {
            put_uses_of_items(types, file, items_place(place), items, uses)
        }
        Value::Object { fields, .. } => put_uses_of_fields(types, file, place, fields, uses),
        Value::Int(_) => Ok(()),
        Value::Float(_) => Ok(()),
        Value::String(_) => Ok(()),
        Value::Boolean { .. } => Ok(()),
        Value::Null { .. } => Ok(()),
        Value::Enum(_) => Ok(()),
    }
}

#[cycle(literals)]
#[tactic(auto, using(gq_tree::proofs::Trees::gathers))]
fn put_uses_of_items<'a>(
    types: &'a Types,
    file: usize,
    place: Place<'a>,
    values: &'a [Value],
    uses: &mut Vec<Use<'a>>,
) -> Result<(), NoMemory>
    ensures { OnOk result (uses_view uses.new.items ≡ uses_view uses.old.items ++ item_uses (types_view types.now) file (place_view place.entry) values.now) }
{
    for value in values {
        put_uses_of_value(types, file, place, value, uses)?;
    }
    Ok(())
}

#[cycle(literals)]
#[tactic(auto, using(gq_tree::proofs::Trees::gathers))]
fn put_uses_of_fields<'a>(
    types: &'a Types,
    file: usize,
    place: Place<'a>,
    fields: &'a [ObjectField],
    uses: &mut Vec<Use<'a>>,
) -> Result<(), NoMemory>
    ensures { OnOk result (uses_view uses.new.items ≡ uses_view uses.old.items ++ field_uses (types_view types.now) file (place_view place.entry) fields.now) }
{
    for field in fields {
        put_uses_of_field(types, file, place, field, uses)?;
    }
    Ok(())
}

#[cycle(literals)]
fn put_uses_of_field<'a>(
    types: &'a Types,
    file: usize,
    place: Place<'a>,
    field: &'a ObjectField,
    uses: &mut Vec<Use<'a>>,
) -> Result<(), NoMemory>
    ensures { OnOk result (uses_view uses.new.items ≡ uses_view uses.old.items ++ uses_of_field (types_view types.now) file (place_view place.entry) field.now) }
{
    let within = field_place(types, place, field.name.text.as_str());
    put_uses_of_value(types, file, within, &field.value, uses)
}

fn put_uses_of_argument<'a>(
    types: &'a Types,
    file: usize,
    known: Option<Arguments<'a>>,
    argument: &'a Argument,
    uses: &mut Vec<Use<'a>>,
) -> Result<(), NoMemory>
    ensures { OnOk result (uses_view uses.new.items ≡ uses_view uses.old.items ++ uses_of_argument (types_view types.now) file (definitions_view known.entry) (argument_view argument.now)) }
{
    let place = argument_place(known, argument.name.text.as_str());
    put_uses_of_value(types, file, place, &argument.value, uses)
}

/// Puts the uses in arguments behind the others. The definitions are those of the arguments of their field or directive,
/// `None` where it is not known.
#[tactic(auto, using(gq_tree::proofs::Trees::gathers))]
pub(crate) fn put_uses_of_arguments<'a>(
    types: &'a Types,
    file: usize,
    known: Option<Arguments<'a>>,
    arguments: &'a [Argument],
    uses: &mut Vec<Use<'a>>,
) -> Result<(), NoMemory>
    ensures { OnOk result (uses_view uses.new.items ≡ uses_view uses.old.items ++ argument_uses (types_view types.now) file (definitions_view known.entry) (map argument_view arguments.now)) }
{
    for argument in arguments {
        put_uses_of_argument(types, file, known, argument, uses)?;
    }
    Ok(())
}

fn put_uses_of_directive<'a>(
    types: &'a Types,
    file: usize,
    directive: &'a Directive,
    uses: &mut Vec<Use<'a>>,
) -> Result<(), NoMemory>
    ensures { OnOk result (uses_view uses.new.items ≡ uses_view uses.old.items ++ uses_of_directive (types_view types.now) file (directive_view directive.now)) }
{
    let known = types.directive_arguments(directive.name.text.as_str());
    put_uses_of_arguments(types, file, known, &directive.arguments, uses)
}

/// Puts the uses in the arguments of directives behind the others.
#[tactic(auto, using(gq_tree::proofs::Trees::gathers))]
pub(crate) fn put_uses_of_directives<'a>(
    types: &'a Types,
    file: usize,
    directives: &'a [Directive],
    uses: &mut Vec<Use<'a>>,
) -> Result<(), NoMemory>
    ensures { OnOk result (uses_view uses.new.items ≡ uses_view uses.old.items ++ directive_uses (types_view types.now) file (map directive_view directives.now)) }
{
    for directive in directives {
        put_uses_of_directive(types, file, directive, uses)?;
    }
    Ok(())
}
