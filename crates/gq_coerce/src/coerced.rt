//! What values are coerced to, and the entries of objects (GraphQL, October 2021, section 6.4.1).
ghost use Rattle.std.specs.Prelude.{◌≡◌, IfOk, OnOk, Some, None, map, if◌then◌else◌};
ghost use Rattle.std.specs.Option.{option_map};
ghost use Rattle.std.specs.Ordering.{nat_cmp};
ghost use Rattle.std.specs.Cmp.Lexicographic.{slice_cmp};
ghost use Rattle.gq_table.specs.Views.{value_view, entry_view};
ghost use Rattle.gq_coerce.specs.Coerced.{fault, null_value, entry_with, put_entry, wrapped, list_value, object_value};
ghost use Rattle.gq_coerce.specs.Helping.Order.{in_order};
ghost use Rattle.gq_coerce.specs.Helping.Readings.{item_after};
ghost use Rattle.gq_coerce.specs.Helping.Views.{coerced_view};

use gq_table::{Entry, Value};
use gq_text::{NoMemory, SmallText};
use std::alloc::Global;
use std::cmp::Ordering;

/// What something is coerced to.
#[derive(Drop)]
pub(crate) enum Coerced {
    /// Nothing was given.
    Absent,
    /// What was given does not fit.
    Fault,
    Given(Value),
}

/// The only item of a list.
#[tactic(auto, using(crate::proofs::Trees::made))]
pub(crate) fn wrapped(alloc: Global, coerced: Coerced) -> Result<Coerced, NoMemory>
    ensures { IfOk result (λ c. coerced_view c ≡ wrapped (coerced_view coerced)) }
{
    match coerced {
        Coerced::Absent => Ok(Coerced::Absent),
        Coerced::Fault => Ok(Coerced::Fault),
        Coerced::Given(value) => {
            let mut items = Vec::new(alloc);
            items.push(value)?;
            Ok(Coerced::Given(Value::List(items)))
        }
    }
}

/// The order of entries: that of their names.
fn by_name(a: &Entry, b: &Entry) -> Ordering
    ensures { result ≡ slice_cmp nat_cmp a.now.name b.now.name }
{
    a.name.as_str().cmp(b.name.as_str())
}

/// Gathered entries in the order of their names. Those of one name stay in their order.
pub(crate) fn in_order(gathered: Vec<Entry>) -> Result<Vec<Entry>, NoMemory>
    ensures { IfOk result (λ entries. map entry_view entries.items ≡ in_order gathered.items) }
{
    let mut entries = gathered;
    entries.sort_by(|a, b| by_name(a, b))?;
    Ok(entries)
}

/// Puts an entry behind those that were gathered.
pub(crate) fn put_entry(
    entries: &mut Vec<Entry>,
    name: SmallText,
    value: Value,
) -> Result<(), NoMemory>
    ensures { OnOk result (in_order entries.new.items ≡ put_entry name (value_view value) (in_order entries.old.items)) }
{
    entries.push(Entry { name, value })?;
    Ok(())
}

/// Puts what was coerced, under its name, behind the entries that were gathered, and tells whether it is not at fault. What is
/// absent is left out.
pub(crate) fn put_coerced(
    alloc: Global,
    entries: &mut Vec<Entry>,
    name: &str,
    coerced: Coerced,
) -> Result<bool, NoMemory>
    ensures { IfOk result (λ fits. (if fits then Some (in_order entries.new.items) else None) ≡ entry_with (Some name.now) (coerced_view coerced) (Some (in_order entries.old.items))) }
{
    match coerced {
        Coerced::Absent => Ok(true),
        Coerced::Fault => Ok(false),
        Coerced::Given(value) => {
            let name = SmallText::from_str(alloc, name)?;
            put_entry(entries, name, value)?;
            Ok(true)
        }
    }
}

/// Puts an item behind others, and tells whether it is not at fault. One that is absent is null, or at fault where there is no
/// null.
#[tactic(auto, using(crate::proofs::Trees::made))]
pub(crate) fn add_item(
    items: &mut Vec<Value>,
    coerced: Coerced,
    has_null: bool,
) -> Result<bool, NoMemory>
    ensures { IfOk result (λ fits. (if fits then Some (map value_view items.new.items) else None) ≡ item_after (map value_view items.old.items)
        (if has_null then null_value else fault) (coerced_view coerced)) }
{
    match coerced {
        Coerced::Absent => {
            if !has_null {
                return Ok(false);
            }
            items.push(Value::Null)?;
            Ok(true)
        }
        Coerced::Fault => Ok(false),
        Coerced::Given(value) => {
            items.push(value)?;
            Ok(true)
        }
    }
}

/// A list, where no item was at fault.
#[tactic(auto, using(crate::proofs::Trees::made))]
pub(crate) fn list_of(items: Option<Vec<Value>>) -> Coerced
    ensures { coerced_view result ≡ list_value (option_map (λ vs. map value_view vs.items) items) }
{
    match items {
        Some(items) => Coerced::Given(Value::List(items)),
        None => Coerced::Fault,
    }
}

/// An object, where no entry was at fault.
#[tactic(auto, using(crate::proofs::Trees::made))]
pub(crate) fn object_of(entries: Option<Vec<Entry>>) -> Coerced
    ensures { coerced_view result ≡ object_value (option_map (λ es. map entry_view es.items) entries) }
{
    match entries {
        Some(entries) => Coerced::Given(Value::Object(entries)),
        None => Coerced::Fault,
    }
}
