//! What an answer depends on beside the selections.
ghost use Rattle.std.specs.Prelude.{◌≡◌, ◌≤◌, ℕ, IfSome, IfOk, is_some, map, option_and_then};
ghost use Rattle.std.specs.Option.{option_map};
ghost use Rattle.gq_tree.specs.Views.{type_view, argument_view};
ghost use Rattle.gq_tree.specs.Plain.{erase_values};
ghost use Rattle.gq_table.specs.Rows.{row_of, deepest};
ghost use Rattle.gq_table.specs.Views.{leaf_view, answer_view, entries_view, rows_view};
ghost use Rattle.gq_document.specs.Definitions.{fragment_view};
ghost use Rattle.gq_meaning.specs.Expand.{find_definition};
ghost use Rattle.gq_meaning.specs.Depth.{depth};
ghost use Rattle.gq_types.specs.Look.{types_view};
ghost use Rattle.gq_collect.specs.Fragments.{definition_of};
ghost use Rattle.gq_collect.specs.World.{types_in, rows_in, given_by, definitions_in, type_in, call_in, look_in, deepest_in};

use crate::fragments::Fragments;
use gq_coerce::{Coercion, Variables};
use gq_document::FragmentEntry;
use gq_table::{Call, Entry, Leaf, Outcome, Table};
use gq_text::NoMemory;
use gq_tree::{Argument, TypeRef};
use gq_types::Types;
use std::alloc::Global;

/// A type system, the fragments of its documents, the values of an operation's variables, and what resolvers answer.
#[derive(Clone, Copy)]
pub struct World<'a> {
    pub coercion: Coercion<'a>,
    pub fragments: &'a Fragments<'a>,
    pub variables: &'a Variables,
    pub table: &'a Table,
}

/// The type system.
pub fn types(world: World<'_>) -> &Types
    ensures { types_view result.now ≡ types_in world.entry }
{
    world.coercion.types()
}

/// The definition of the fragment of that name.
pub fn fragment<'a>(world: World<'a>, name: &str) -> Option<&'a FragmentEntry<'a>>
    ensures { option_map (λ f. definition_of (fragment_view f.now)) result ≡ find_definition (definitions_in world.entry) name.now }
{
    world.fragments.named(name)
}

/// Whether a type condition applies to an object (section 6.3.2, DoesFragmentTypeApply).
pub fn applies(world: World, condition: &str, object: &str) -> bool
    ensures { result ≡ (given_by world.entry).applies condition.now object.now }
{
    types(world).applies(condition, object)
}

/// Whether the type has selections below it.
pub fn is_composite(world: World, name: &str) -> bool
    ensures { result ≡ (given_by world.entry).is_composite name.now }
{
    gq_coerce::is_composite(types(world), name)
}

/// The type of a field of an object type, but for `__typename`.
pub fn type_of<'a>(world: World<'a>, object: &str, field: &str) -> Option<&'a TypeRef>
    ensures { option_map (λ t. type_view t.now) result ≡ type_in world.entry object.now field.now }
{
    match types(world).field(object, field) {
        Some(definition) => Some(&definition.type_ref),
        None => None,
    }
}

/// What a leaf is written as at a leaf type (section 6.4.3).
pub fn leaf_at(
    alloc: Global,
    world: World,
    name: &str,
    leaf: &Leaf,
) -> Result<Option<Leaf>, NoMemory>
    ensures { IfOk result (λ o. option_map leaf_view o ≡ (given_by world.entry).leaf_at name.now (leaf_view leaf.now)) }
{
    gq_coerce::leaf_at(alloc, types(world), name, leaf)
}

/// Whether a leaf is a value of a leaf type.
pub fn is_leaf_of(world: World, name: &str, leaf: &Leaf) -> bool
    ensures { result ≡ is_some ((given_by world.entry).leaf_at name.now (leaf_view leaf.now)) }
{
    gq_coerce::is_leaf_of(types(world), name, leaf)
}

/// The arguments of a field, but for `__typename`, of each object of that type; none where they are at fault (section 6.4.1).
pub fn arguments_of(
    alloc: Global,
    world: World,
    object: &str,
    field: &str,
    arguments: &[Argument],
) -> Result<Option<Vec<Entry>>, NoMemory>
    ensures { IfOk result (λ o. (number : ℕ) →
        option_map (λ es. record { type_name = object.now; number = number; field = field.now; arguments = entries_view es.items }) o ≡
        call_in world.entry object.now number field.now (erase_values (map argument_view arguments.now))) }
{
    match types(world).field(object, field) {
        Some(definition) => {
            let definitions = &definition.arguments;
            world
                .coercion
                .arguments(alloc, world.variables, definitions, arguments)
        }
        None => Ok(None),
    }
}

/// What the table has for a field of an object, but for `__typename` (section 6.4.2).
pub fn look<'a>(
    alloc: Global,
    world: World<'a>,
    object: &str,
    number: u64,
    field: &str,
    arguments: &[Argument],
) -> Result<Option<&'a Outcome>, NoMemory>
    ensures is { IfOk result (λ o. option_map (λ r. answer_view r.now) o ≡ look_in world.entry object.now number field.now (erase_values (map argument_view arguments.now))) }
    ensures within { IfOk result (λ o. IfSome o (λ r. depth (answer_view r.now).below ≤ deepest_in world.entry)) }
{
    let arguments = arguments_of(alloc, world, object, field, arguments)?;
    let found = look_with(alloc, world, object, number, field, &arguments)?;
    Ok(found)
}

/// The same for arguments that are coerced already, if they are not at fault.
pub fn look_with<'a>(
    alloc: Global,
    world: World<'a>,
    object: &str,
    number: u64,
    field: &str,
    arguments: &Option<Vec<Entry>>,
) -> Result<Option<&'a Outcome>, NoMemory>
    ensures is { IfOk result (λ o. option_map (λ r. answer_view r.now) o ≡ option_and_then (row_of (rows_in world.entry))
        (option_map (λ es. record { type_name = object.now; number = number; field = field.now; arguments = entries_view es.items }) arguments.now)) }
    ensures within { IfOk result (λ o. IfSome o (λ r. depth (answer_view r.now).below ≤ deepest_in world.entry)) }
{
    match arguments {
        None => Ok(None),
        Some(arguments) => found(alloc, world.table, object, number, field, arguments),
    }
}

/// What the table has for a call.
fn found<'a>(
    alloc: Global,
    table: &'a Table,
    object: &str,
    number: u64,
    field: &str,
    arguments: &[Entry],
) -> Result<Option<&'a Outcome>, NoMemory>
    ensures is { IfOk result (λ o. option_map (λ r. answer_view r.now) o ≡ row_of (rows_view table.now)
        (record { type_name = object.now; number = number; field = field.now; arguments = entries_view arguments.now })) }
    ensures within { IfOk result (λ o. IfSome o (λ r. depth (answer_view r.now).below ≤ deepest (rows_view table.now))) }
{
    let call = Call {
        type_name: object,
        number,
        field,
        arguments,
    };
    table.get(alloc, call)
}
