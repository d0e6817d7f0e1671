//! Values that are given for variables, at types (GraphQL, October 2021, sections 3.5 to 3.12 and 6.1.2).
ghost use Rattle.std.specs.Prelude.{◌≡◌, IfOk, IfSome, IfNone, Some, false, not, map};
ghost use Rattle.std.specs.Option.{option_map};
ghost use Rattle.gq_tree.specs.Views.{value_view as literal_view, type_view};
ghost use Rattle.gq_types.specs.Joined.{kind_named};
ghost use Rattle.gq_types.specs.Look.{types_view};
ghost use Rattle.gq_meaning.specs.Values.{object};
ghost use Rattle.gq_table.specs.Views.{value_view, values_view, entry_view, entries_view};
ghost use Rattle.gq_coerce.specs.Coerced.{fault, alone, items_of, entries_of};
ghost use Rattle.gq_coerce.specs.Literals.{input_fields, or_default, inputs_from};
ghost use Rattle.gq_coerce.specs.Variables.{at_name, read_all, input_value, is_known, has_unknown, is_object_value};
ghost use Rattle.gq_coerce.specs.Helping.Views.{coerced_view, setting_view, inputs_view, raw_seen};
ghost use Rattle.gq_tree.specs.NamedTypes.{base_name};
ghost use Rattle.gq_coerce.specs.Helping.Wrapping.{wrapped_to};
ghost use Rattle.gq_coerce.specs.Helping.Readings.{given_raw};

use crate::coerced::{Coerced, add_item, in_order, list_of, object_of, put_coerced};
use crate::inputs::input_fields;
use crate::literals::or_default;
use crate::raw_scalars::{enum_input, scalar_input};
use crate::setting::Setting;
use crate::values::{entry_named, entry_names};
use crate::wrapping::{unless_null, wrapped_to};
use gq_table::{Entry, Value};
use gq_text::NoMemory;
use gq_tree::{InputValueDefinition, TypeRef, Value as Literal, base_name};
use gq_types::{TypeKind, Types, is_built_in_scalar};
use std::alloc::Global;

/// A value at a type.
#[cycle(raw)]
#[tactic(auto, using(gq_table::proofs::Trees::values))]
pub(crate) fn raw_value(
    alloc: Global,
    setting: Setting,
    type_ref: &TypeRef,
    value: &Value,
) -> Result<Coerced, NoMemory>
    ensures { IfOk result (λ c. coerced_view c ≡ input_value (setting_view setting.entry) (type_view type_ref.now) (value_view value.now)) }
{
    match value {
        Value::Null => Ok(unless_null(type_ref, Coerced::Given(Value::Null))),
        Value::Leaf(_) => single(alloc, setting, type_ref, value),
        Value::Enum(_) => single(alloc, setting, type_ref, value),
        Value::List(items) => match type_ref.item_type() {
            Some(item) => {
                let items = raw_items(alloc, setting, item, items)?;
                Ok(list_of(items))
            }
            None => at_name(alloc, setting, base_name(type_ref), value),
        },
        Value::Object(_) => single(alloc, setting, type_ref, value),
    }
}

/// A value that is no list, at a type.
#[cycle(raw)]
fn single(
    alloc: Global,
    setting: Setting,
    type_ref: &TypeRef,
    value: &Value,
) -> Result<Coerced, NoMemory>
    ensures { IfOk result
        (λ c. coerced_view c ≡ wrapped_to (type_view type_ref.now) (at_name (setting_view setting.entry) (base_name (type_view type_ref.now))
        (kind_named (types_view setting.entry.types.now) (base_name (type_view type_ref.now))) (value_view value.now).label.says
        (value_view value.now).below (read_all (setting_view setting.entry) (value_view value.now).below))) }
{
    let inner = at_name(alloc, setting, base_name(type_ref), value)?;
    wrapped_to(alloc, type_ref, inner)
}

/// The entries of an object.
#[tactic(auto, using(gq_table::proofs::Trees::values))]
fn entries_in(value: &Value) -> Option<&[Entry]>
    ensures some { IfSome result (λ es. value_view value.now ≡ alone object (entries_view es.now)) }
    ensures none { IfNone result (is_object_value (value_view value.now).label.says ≡ false) }
{
    match value {
        Value::Null => None,
        Value::Leaf(_) => None,
        Value::Enum(_) => None,
        Value::List(_) => None,
        Value::Object(entries) => Some(entries),
    }
}

/// Whether an entry is of no input field of the input object of that name.
fn has_unknown(types: &Types, name: &str, entries: &[Entry]) -> bool
    ensures { result ≡ has_unknown (input_fields (types_view types.now) name.now) (entries_view entries.now) }
{
    for entry in entries {
        if is_unknown(types, name, entry) {
            return true;
        }
    }
    false
}

fn is_unknown(types: &Types, name: &str, entry: &Entry) -> bool
    ensures { result ≡ not (is_known (input_fields (types_view types.now) name.now) (Some entry.now.name)) }
{
    match types.input_field(name, entry.name.as_str()) {
        Some(_) => false,
        None => true,
    }
}

/// A value that is not null, at the type of that name.
#[cycle(raw)]
fn at_name(alloc: Global, setting: Setting, name: &str, value: &Value) -> Result<Coerced, NoMemory>
    ensures { IfOk result (λ c. coerced_view c ≡ at_name (setting_view setting.entry) name.now
        (kind_named (types_view setting.entry.types.now) name.now) (value_view value.now).label.says (value_view value.now).below
        (read_all (setting_view setting.entry) (value_view value.now).below)) }
{
    match setting.types.kind(name) {
        Some(TypeKind::Scalar) => {
            if is_built_in_scalar(name) {
                return scalar_input(alloc, name, value);
            }
            Ok(Coerced::Given(value.copied(alloc)?))
        }
        Some(TypeKind::Enum) => enum_input(alloc, setting.types, name, value),
        Some(TypeKind::InputObject) => match entries_in(value) {
            Some(entries) => {
                if has_unknown(setting.types, name, entries) {
                    return Ok(Coerced::Fault);
                }
                let definitions = input_fields(alloc, setting.types, name)?;
                let entries = raw_entries(alloc, setting, &definitions, entries)?;
                Ok(object_of(entries))
            }
            None => Ok(Coerced::Fault),
        },
        Some(TypeKind::Object) => Ok(Coerced::Fault),
        Some(TypeKind::Interface) => Ok(Coerced::Fault),
        Some(TypeKind::Union) => Ok(Coerced::Fault),
        None => Ok(Coerced::Fault),
    }
}

/// The items of a list, each at that type.
#[cycle(raw)]
fn raw_items(
    alloc: Global,
    setting: Setting,
    type_ref: &TypeRef,
    items: &[Value],
) -> Result<Option<Vec<Value>>, NoMemory>
    ensures { IfOk result (λ o. option_map (λ vs. map value_view vs.items) o ≡ items_of fault (read_all (setting_view setting.entry) (values_view items.now) (type_view type_ref.now))) }
{
    let mut values = Vec::new(alloc);
    for item in items {
        let coerced = raw_value(alloc, setting, type_ref, item)?;
        if !add_item(&mut values, coerced, false)? {
            return Ok(None);
        }
    }
    Ok(Some(values))
}

/// The entries of an input object, by the definitions of its fields and what is given.
#[cycle(raw)]
fn raw_entries(
    alloc: Global,
    setting: Setting,
    definitions: &[&InputValueDefinition],
    given: &[Entry],
) -> Result<Option<Vec<Entry>>, NoMemory>
    ensures { IfOk result (λ o. option_map (λ es. map entry_view es.items) o ≡ entries_of
        (inputs_from (setting_view setting.entry) (inputs_view definitions.now) (read_all (setting_view setting.entry) (entries_view given.now)))) }
{
    let names = entry_names(alloc, given)?;
    let mut entries = Vec::new(alloc);
    let mut left = definitions.len();
    'inputs: while left > 0 {
        left -= 1;
        let definition = definitions[left];
        let name = definition.name.text.as_str();
        let value = entry_named(given, &names, name);
        let type_ref = &definition.type_ref;
        let coerced = raw_input(alloc, setting, type_ref, &definition.default, value)?;
        if !put_coerced(alloc, &mut entries, name, coerced)? {
            return Ok(None);
        }
    }
    Ok(Some(in_order(entries)?))
}

/// The value of an input field or variable for which that value is given, if one is.
#[cycle(raw)]
pub(crate) fn raw_input(
    alloc: Global,
    setting: Setting,
    type_ref: &TypeRef,
    default: &Option<Literal>,
    value: Option<&Value>,
) -> Result<Coerced, NoMemory>
    ensures { IfOk result (λ c. coerced_view c ≡ or_default (setting_view setting.entry) (type_view type_ref.now)
        (option_map literal_view default.now) (given_raw (setting_view setting.entry) (type_view type_ref.now) (raw_seen value.entry))) }
{
    let given = match value {
        Some(value) => raw_value(alloc, setting, type_ref, value)?,
        None => Coerced::Absent,
    };
    or_default(alloc, setting, type_ref, default, given)
}
