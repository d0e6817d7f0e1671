//! Arguments, and the fields of object literals, found by their names.
ghost use Rattle.std.specs.Prelude.{◌≡◌, ◌∷◌, [], IfOk, map, find};
ghost use Rattle.std.specs.Option.{option_map};
ghost use Rattle.std.specs.Str.{bytes_eq};
ghost use Rattle.gq_tree.specs.Plain.{erase_values};
ghost use Rattle.gq_tree.specs.Views.{value_view, entry_view, argument_view};
ghost use Rattle.gq_coerce.specs.Helping.Views.{part_view, value_seen};

use gq_names::NameList;
use gq_text::NoMemory;
use gq_tree::{Argument, ObjectField, Value};
use std::alloc::Global;

/// A literal under a name.
#[derive(Clone, Copy)]
pub(crate) struct Part<'a> {
    pub(crate) name: &'a str,
    pub(crate) value: &'a Value,
}

/// The fields of an object literal.
#[tactic(auto, using(gq_tree::proofs::Trees::gathers))]
pub(crate) fn parts_of_fields(
    alloc: Global,
    fields: &[ObjectField],
) -> Result<Vec<Part<'_>>, NoMemory>
    ensures { IfOk result (λ parts. map part_view parts.items ≡ erase_values (map entry_view fields.now)) }
{
    let mut parts = Vec::new(alloc);
    for field in fields {
        parts.push(part_of_field(field))?;
    }
    Ok(parts)
}

fn part_of_field(field: &ObjectField) -> Part<'_>
    ensures { map part_view (result ∷ []) ≡ erase_values (map entry_view (field.now ∷ [])) }
{
    Part {
        name: field.name.text.as_str(),
        value: &field.value,
    }
}

/// The arguments of a field.
#[tactic(auto, using(gq_tree::proofs::Trees::gathers))]
pub(crate) fn parts_of_arguments(
    alloc: Global,
    arguments: &[Argument],
) -> Result<Vec<Part<'_>>, NoMemory>
    ensures { IfOk result (λ parts. map part_view parts.items ≡ erase_values (map argument_view arguments.now)) }
{
    let mut parts = Vec::new(alloc);
    for argument in arguments {
        parts.push(part_of_argument(argument))?;
    }
    Ok(parts)
}

fn part_of_argument(argument: &Argument) -> Part<'_>
    ensures { map part_view (result ∷ []) ≡ erase_values (map argument_view (argument.now ∷ [])) }
{
    Part {
        name: argument.name.text.as_str(),
        value: &argument.value,
    }
}

/// The names of the parts.
#[tactic(auto, using(gq_tree::proofs::Trees::gathers))]
pub(crate) fn names_of(alloc: Global, parts: &[Part]) -> Result<NameList, NoMemory>
    ensures { IfOk result (λ names. names ≡ map (λ p. p.name.now) parts.now) }
{
    let mut names = NameList::new(alloc);
    for part in parts {
        let _ = names.push(part.name)?;
    }
    Ok(names)
}

/// The first part of that name, where these are the names of the parts.
pub(crate) fn part_named<'a>(parts: &[Part<'a>], names: &NameList, name: &str) -> Option<&'a Value>
    requires { names.now ≡ map (λ p. p.name.now) parts.now }
    ensures { value_seen result ≡ option_map (λ p. value_view p.value.now) (find (λ p. bytes_eq name.now p.name.now) parts.now) }
{
    match names.place(name) {
        Some(place) => Some(parts[place].value),
        None => None,
    }
}
