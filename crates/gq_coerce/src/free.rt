//! Literals at custom scalars: each is what it says (GraphQL, October 2021, section 3.5).
ghost use Rattle.std.specs.Prelude.{◌≡◌, IfOk, map};
ghost use Rattle.std.specs.Option.{option_map};
ghost use Rattle.gq_tree.specs.Forest.{row};
ghost use Rattle.gq_tree.specs.Plain.{erase_values};
ghost use Rattle.gq_tree.specs.Views.{entry_view};
ghost use Rattle.gq_table.specs.Views.{value_view, entry_view as given_entry};
ghost use Rattle.gq_coerce.specs.Coerced.{null_value, items_of, entries_of};
ghost use Rattle.gq_coerce.specs.Literals.{at_any, read_all};
ghost use Rattle.gq_coerce.specs.Helping.Views.{bare, coerced_view, setting_view};
ghost use Rattle.gq_coerce.specs.Helping.Readings.{read_value};

use crate::coerced::{Coerced, add_item, in_order, list_of, object_of, put_coerced};
use crate::scalars::{boolean_leaf, enum_leaf, number_leaf, string_leaf, variable_value};
use crate::setting::Setting;
use gq_table::{Entry, Value};
use gq_text::NoMemory;
use gq_tree::{ObjectField, Value as Literal};
use std::alloc::Global;

/// A literal as what it says.
#[cycle(free)]
#[tactic(auto, using(crate::proofs::Trees::literals))]
pub(crate) fn free_value(
    alloc: Global,
    setting: Setting,
    literal: &Literal,
) -> Result<Coerced, NoMemory>
    ensures { IfOk result (λ c. coerced_view c ≡ read_value (setting_view setting.entry) at_any (bare literal.now)) }
{
    match literal {
        Literal::Variable(variable) => {
            variable_value(alloc, setting.variables, variable.name.text.as_str())
        }
        Literal::Int(spelling) => number_leaf(alloc, &spelling.text),
        Literal::Float(spelling) => number_leaf(alloc, &spelling.text),
        Literal::String(spelling) => string_leaf(alloc, &spelling.text),
        Literal::Boolean { value, .. } => Ok(boolean_leaf(*value)),
        Literal::Null { .. } => Ok(Coerced::Given(Value::Null)),
        Literal::Enum(name) => enum_leaf(alloc, &name.text),
        Literal::List { items, .. } => {
            let items = free_items(alloc, setting, items)?;
            Ok(list_of(items))
        }
        Literal::Object { fields, .. } => {
            let entries = free_entries(alloc, setting, fields)?;
            Ok(object_of(entries))
        }
    }
}

/// The items of a list literal.
#[cycle(free)]
fn free_items(
    alloc: Global,
    setting: Setting,
    items: &[Literal],
) -> Result<Option<Vec<Value>>, NoMemory>
    ensures { IfOk result (λ o. option_map (λ vs. map value_view vs.items) o ≡ items_of null_value (read_all (setting_view setting.entry) (row (map bare items.now)) at_any)) }
{
    let mut values = Vec::new(alloc);
    for item in items {
        let coerced = free_value(alloc, setting, item)?;
        if !add_item(&mut values, coerced, true)? {
            return Ok(None);
        }
    }
    Ok(Some(values))
}

/// The entries of an object literal.
#[cycle(free)]
fn free_entries(
    alloc: Global,
    setting: Setting,
    fields: &[ObjectField],
) -> Result<Option<Vec<Entry>>, NoMemory>
    ensures { IfOk result (λ o. option_map (λ es. map given_entry es.items) o ≡ entries_of (read_all (setting_view setting.entry) (row (erase_values (map entry_view fields.now))) at_any)) }
{
    let mut entries = Vec::new(alloc);
    let mut left = fields.len();
    'fields: while left > 0 {
        left -= 1;
        let field = &fields[left];
        let coerced = free_field(alloc, setting, field)?;
        if !put_coerced(alloc, &mut entries, field.name.text.as_str(), coerced)? {
            return Ok(None);
        }
    }
    Ok(Some(in_order(entries)?))
}

#[cycle(free)]
fn free_field(alloc: Global, setting: Setting, field: &ObjectField) -> Result<Coerced, NoMemory>
    ensures { IfOk result (λ c. coerced_view c ≡ read_value (setting_view setting.entry) at_any (bare field.now.value)) }
{
    free_value(alloc, setting, &field.value)
}
