//! Identical values (section 5.3.2): lists item by item, input objects as sets of names and values.
ghost use Rattle.std.specs.Prelude.{◌≡◌, ◌↔◌, ◌<◌, IsTrue, IfOk, OnOk, length};
ghost use Rattle.std.specs.Str.{bytes_eq};
ghost use Rattle.gq_tree.specs.Views.{value_view, values_view};
ghost use Rattle.gq_merging.specs.SameArguments.{AreInOrder, IsArgument, SameArguments};
ghost use Rattle.gq_merging.specs.Helping.Entries.{entry_seen, entries_seen};
ghost use Rattle.gq_merging.specs.Helping.Marks.{AreAlike, AreItsPlaces, IsAmong, MarksEach};

use crate::entries::{Entries, Entry};
use crate::marks::{are_all_marked, unmarked};
use crate::places::Places;
use crate::same_strings::are_same_strings;
use gq_text::NoMemory;
use gq_tree::{Literal, Name, Value};
use std::alloc::Global;

fn have_same_text(left: &Name, right: &Name) -> bool
    ensures { result ≡ bytes_eq left.now.text right.now.text }
{
    left.text.as_str() == right.text.as_str()
}

fn have_same_spelling(left: &Literal, right: &Literal) -> bool
    ensures { result ≡ bytes_eq left.now.text right.now.text }
{
    left.text.as_str() == right.text.as_str()
}

/// Whether the values are identical.
#[cycle(alike)]
#[tactic(auto, using(gq_tree::proofs::Trees::values))]
fn are_identical(alloc: Global, left: &Value, right: &Value) -> Result<bool, NoMemory>
    ensures { IfOk result (λ same. IsTrue same ↔ AreAlike (value_view left.now) (value_view right.now)) }
{
    match (left, right) {
        (Value::Variable(left), Value::Variable(right)) => {
            Ok(have_same_text(&left.name, &right.name))
        }
        (Value::Int(left), Value::Int(right)) => Ok(have_same_spelling(left, right)),
        (Value::Float(left), Value::Float(right)) => Ok(have_same_spelling(left, right)),
        (Value::String(left), Value::String(right)) => {
            are_same_strings(alloc, left.text.as_str(), right.text.as_str())
        }
        (Value::Boolean { value: left, .. }, Value::Boolean { value: right, .. }) => {
            Ok(left == right)
        }
        (Value::Null { .. }, Value::Null { .. }) => Ok(true),
        (Value::Enum(left), Value::Enum(right)) => Ok(have_same_text(left, right)),
        (Value::List { items: left, .. }, Value::List { items: right, .. }) => {
            are_in_order(alloc, left, right)
        }
        (Value::Object { fields: left, .. }, Value::Object { fields: right, .. }) => {
            have_same_entries(alloc, Entries::Fields(left), Entries::Fields(right))
        }
        _ => Ok(false),
    }
}

/// Whether each item is identical to the other's at its place.
#[cycle(alike)]
#[tactic(auto, using(gq_tree::proofs::Trees::values))]
fn are_in_order(alloc: Global, left: &[Value], right: &[Value]) -> Result<bool, NoMemory>
    ensures { IfOk result (λ same. IsTrue same ↔ AreInOrder (values_view left.now) (values_view right.now)) }
{
    if left.len() != right.len() {
        return Ok(false);
    }
    for i in 0..left.len() {
        let same = are_identical(alloc, &left[i], &right[i])?;
        if !same {
            return Ok(false);
        }
    }
    Ok(true)
}

/// Whether each entry of the one is in the other, and the other way round. Each pair of entries of one name is compared
/// once.
#[cycle(alike)]
pub(crate) fn have_same_entries(
    alloc: Global,
    left: Entries<'_>,
    right: Entries<'_>,
) -> Result<bool, NoMemory>
    ensures { IfOk result (λ same. IsTrue same ↔ SameArguments (entries_seen left.entry) (entries_seen right.entry)) }
{
    let places = Places::of(alloc, right)?;
    let mut marks = unmarked(alloc, right.len())?;
    for i in 0..left.len() {
        let entry = left.at(i);
        let these = places.with_name(entry.name.text.as_str());
        let found = mark_entries(alloc, entry, right, these, &mut marks)?;
        if !found {
            return Ok(false);
        }
    }
    Ok(are_all_marked(&marks))
}

/// Marks the entries that are identical to this one, and answers whether there are some. All that can be stand at these
/// places.
#[cycle(alike)]
fn mark_entries(
    alloc: Global,
    entry: Entry<'_>,
    others: Entries<'_>,
    places: &[usize],
    marks: &mut Vec<bool>,
) -> Result<bool, NoMemory>
    requires count { length marks.old.items ≡ length (entries_seen others) }
    requires places { AreItsPlaces (entry_seen entry) (entries_seen others) places.now }
    ensures found { IfOk result (λ found. IsTrue found ↔ IsAmong (entry_seen entry.entry) (entries_seen others.entry)) }
    ensures marks { OnOk result (MarksEach (entry_seen entry.entry) (entries_seen others.entry) marks.old.items marks.new.items) }
{
    let mut found = false;
    for place in places {
        let same = is_same_entry(alloc, entry, others.at(*place))?;
        if same {
            marks[*place] = true;
            found = true;
        }
    }
    Ok(found)
}

/// Whether the names are one and the values identical.
#[cycle(alike)]
fn is_same_entry(alloc: Global, left: Entry<'_>, right: Entry<'_>) -> Result<bool, NoMemory>
    ensures { IfOk result (λ same. IsTrue same ↔ IsArgument (entry_seen left.entry) (entry_seen right.entry)) }
{
    if !have_same_text(left.name, right.name) {
        return Ok(false);
    }
    are_identical(alloc, left.value, right.value)
}
