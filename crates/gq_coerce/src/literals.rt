//! Literals at types (GraphQL, October 2021, sections 3.9 to 3.12 and 6.4.1).
ghost use Rattle.std.specs.Prelude.{◌≡◌, IfOk, Some, map};
ghost use Rattle.std.specs.Option.{option_map};
ghost use Rattle.gq_tree.specs.Forest.{row};
ghost use Rattle.gq_tree.specs.Views.{value_view, type_view};
ghost use Rattle.gq_types.specs.Joined.{kind_named};
ghost use Rattle.gq_types.specs.Look.{types_view};
ghost use Rattle.gq_table.specs.Views.{value_view as given_value, entry_view as given_entry};
ghost use Rattle.gq_coerce.specs.Coerced.{absent, items_of, entries_of};
ghost use Rattle.gq_coerce.specs.Literals.{at_type, at_name, read_all, missing_item, or_default, inputs_from, literal_value};
ghost use Rattle.gq_coerce.specs.Helping.Views.{bare, coerced_view, setting_view, inputs_view, part_view, value_seen};
ghost use Rattle.gq_coerce.specs.Helping.Readings.{given_literal};

use crate::coerced::{Coerced, add_item, in_order, list_of, object_of, put_coerced};
use crate::forms::{Form, fields_of, form_of};
use crate::free::free_value;
use crate::inputs::input_fields;
use crate::parts::{Part, names_of, part_named, parts_of_fields};
use crate::scalars::{scalar_value, value_of_enum, variable_value};
use crate::setting::{Setting, within};
use crate::wrapping::{unless_null, wrapped_to};
use gq_table::{Entry, Value};
use gq_text::NoMemory;
use gq_tree::{InputValueDefinition, TypeRef, Value as Literal, base_name};
use gq_types::{TypeKind, is_built_in_scalar};
use std::alloc::Global;

/// A literal at a type.
#[cycle(literals)]
pub(crate) fn literal_value(
    alloc: Global,
    setting: Setting,
    type_ref: &TypeRef,
    literal: &Literal,
) -> Result<Coerced, NoMemory>
    ensures { IfOk result (λ c. coerced_view c ≡ literal_value (setting_view setting.entry) (type_view type_ref.now) (bare literal.now)) }
{
    match form_of(literal) {
        Form::Variable(name) => {
            let value = variable_value(alloc, setting.variables, name)?;
            Ok(unless_null(type_ref, value))
        }
        Form::Null => Ok(unless_null(type_ref, Coerced::Given(Value::Null))),
        Form::List(items) => match type_ref.item_type() {
            Some(item) => {
                let items = list_items(alloc, setting, item, items)?;
                Ok(list_of(items))
            }
            None => at_name(alloc, setting, base_name(type_ref), literal),
        },
        Form::Single => {
            let value = at_name(alloc, setting, base_name(type_ref), literal)?;
            wrapped_to(alloc, type_ref, value)
        }
    }
}

/// A literal that is no variable and not null, at the type of that name.
#[cycle(literals)]
fn at_name(
    alloc: Global,
    setting: Setting,
    name: &str,
    literal: &Literal,
) -> Result<Coerced, NoMemory>
    ensures { IfOk result (λ c. coerced_view c ≡ at_name (setting_view setting.entry) name.now
        (kind_named (types_view setting.entry.types.now) name.now) (bare literal.now).label.says (read_all (setting_view setting.entry) (bare literal.now).below)) }
{
    match setting.types.kind(name) {
        Some(TypeKind::Scalar) => {
            if is_built_in_scalar(name) {
                return scalar_value(alloc, name, literal);
            }
            free_value(alloc, setting, literal)
        }
        Some(TypeKind::Enum) => value_of_enum(alloc, setting.types, name, literal),
        Some(TypeKind::InputObject) => match fields_of(literal) {
            Some(fields) => {
                let definitions = input_fields(alloc, setting.types, name)?;
                let parts = parts_of_fields(alloc, fields)?;
                let entries = input_entries(alloc, setting, &definitions, &parts)?;
                Ok(object_of(entries))
            }
            None => Ok(Coerced::Fault),
        },
        Some(TypeKind::Object) => Ok(Coerced::Fault),
        Some(TypeKind::Interface) => Ok(Coerced::Fault),
        Some(TypeKind::Union) => Ok(Coerced::Fault),
        None => Ok(Coerced::Fault),
    }
}

/// The items of a list literal, each at that type.
#[cycle(literals)]
fn list_items(
    alloc: Global,
    setting: Setting,
    type_ref: &TypeRef,
    items: &[Literal],
) -> Result<Option<Vec<Value>>, NoMemory>
    ensures { IfOk result (λ o. option_map (λ vs. map given_value vs.items) o ≡ items_of (missing_item (type_view type_ref.now))
        (read_all (setting_view setting.entry) (row (map bare items.now)) (at_type (type_view type_ref.now)))) }
{
    let has_null = !type_ref.is_non_null();
    let mut values = Vec::new(alloc);
    for item in items {
        let coerced = literal_value(alloc, setting, type_ref, item)?;
        if !add_item(&mut values, coerced, has_null)? {
            return Ok(None);
        }
    }
    Ok(Some(values))
}

/// The entries of an input object, or arguments, by their definitions and what is given.
#[cycle(literals)]
pub(crate) fn input_entries(
    alloc: Global,
    setting: Setting,
    definitions: &[&InputValueDefinition],
    parts: &[Part],
) -> Result<Option<Vec<Entry>>, NoMemory>
    ensures { IfOk result (λ o. option_map (λ es. map given_entry es.items) o ≡ entries_of
        (inputs_from (setting_view setting.entry) (inputs_view definitions.now)
        (λ t. read_all (setting_view setting.entry) (row (map part_view parts.now)) (at_type t)))) }
{
    let names = names_of(alloc, parts)?;
    let mut entries = Vec::new(alloc);
    let mut left = definitions.len();
    'inputs: while left > 0 {
        left -= 1;
        let definition = definitions[left];
        let name = definition.name.text.as_str();
        let literal = part_named(parts, &names, name);
        let coerced = input_value(alloc, setting, definition, literal)?;
        if !put_coerced(alloc, &mut entries, name, coerced)? {
            return Ok(None);
        }
    }
    Ok(Some(in_order(entries)?))
}

/// The value of an input for which that literal is given, if one is.
#[cycle(literals)]
fn input_value(
    alloc: Global,
    setting: Setting,
    definition: &InputValueDefinition,
    literal: Option<&Literal>,
) -> Result<Coerced, NoMemory>
    ensures { IfOk result (λ c. coerced_view c ≡ or_default (setting_view setting.entry) (type_view definition.now.type_ref)
        (option_map value_view definition.now.default) (given_literal (setting_view setting.entry) (type_view definition.now.type_ref) (value_seen literal.entry))) }
{
    let given = match literal {
        Some(literal) => literal_value(alloc, setting, &definition.type_ref, literal)?,
        None => Coerced::Absent,
    };
    or_default(
        alloc,
        setting,
        &definition.type_ref,
        &definition.default,
        given,
    )
}

/// What an input is given or, without that, its default.
#[cycle(literals)]
pub(crate) fn or_default(
    alloc: Global,
    setting: Setting,
    type_ref: &TypeRef,
    default: &Option<Literal>,
    given: Coerced,
) -> Result<Coerced, NoMemory>
    ensures { IfOk result (λ c. coerced_view c ≡ or_default (setting_view setting.entry) (type_view type_ref.now) (option_map value_view default.now) (coerced_view given)) }
{
    match given {
        Coerced::Absent => default_value(alloc, setting, type_ref, default),
        Coerced::Fault => Ok(Coerced::Fault),
        Coerced::Given(value) => Ok(Coerced::Given(value)),
    }
}

/// The value of an input that is given none.
#[cycle(literals)]
fn default_value(
    alloc: Global,
    setting: Setting,
    type_ref: &TypeRef,
    default: &Option<Literal>,
) -> Result<Coerced, NoMemory>
    ensures { IfOk result (λ c. coerced_view c ≡ or_default (setting_view setting.entry) (type_view type_ref.now) (option_map value_view default.now) absent) }
{
    match default {
        Some(literal) => {
            if setting.limit == 0 {
                return Ok(Coerced::Fault);
            }
            literal_value(alloc, within(setting), type_ref, literal)
        }
        None => {
            if type_ref.is_non_null() {
                return Ok(Coerced::Fault);
            }
            Ok(Coerced::Absent)
        }
    }
}
