//! A quick test for all selection sets at once, by classes of them. Where in each class the fields of one key say the same, and the
//! sets in their braces are in one class for each key, the fields under all sets merge.
ghost use Rattle.std.specs.Prelude.{◌≡◌, ◌<◌, ℕ, All, Contains, IsTrue, IfOk, length, map};
ghost use Rattle.gq_graph.specs.Reach.{InRange, row};
ghost use Rattle.gq_graph.specs.Transposed.{Transposed};
ghost use Rattle.gq_types.specs.Look.{types_view};
ghost use Rattle.gq_merging.specs.Helping.GroupTables.{IsSettled, IsTested};
ghost use Rattle.gq_merging.specs.Helping.GroupViews.{groups_view};
ghost use Rattle.gq_merging.specs.Helping.UnionTables.{AreUnions, IsInOne};
ghost use Rattle.gq_merging.specs.Helping.Views.{rows_view};

use crate::classes::{Tables, groups_below};
use crate::members::{gathered, reached_sets};
use crate::parts::in_rows;
use crate::places::numbers_below;
use gq_graph::is_in_range;
use gq_graph::transposed::transposed;
use gq_text::NoMemory;

/// Whether the set is in the class with that number.
fn is_in_class(numbers: &[Vec<usize>], set: usize, class: usize) -> bool
    ensures { IsTrue result → Contains (row numbers.now set) class }
{
    if set >= numbers.len() {
        return false;
    }
    let own = &numbers[set];
    if own.len() != 1 {
        return false;
    }
    let first = own[0];
    if first != class {
        return false;
    }
    true
}

/// Whether all sets of the group are in the class with that number.
fn are_in_class(numbers: &[Vec<usize>], group: &[usize], class: usize) -> bool
    ensures { IsTrue result → (n : ℕ) → Contains group.now n → Contains (row numbers.now n) class }
{
    for set in group {
        if !is_in_class(numbers, *set, class) {
            return false;
        }
    }
    true
}

/// The class of the first set of the group; of a group in which nothing is, that one.
fn class_of(numbers: &[Vec<usize>], group: &[usize], class: usize) -> usize {
    if group.is_empty() || group[0] >= numbers.len() {
        return class;
    }
    let own = &numbers[group[0]];
    if own.is_empty() { class } else { own[0] }
}

/// Whether the sets of the group are in one class. A group in which nothing is counts for that class.
fn is_in_one(numbers: &[Vec<usize>], group: &[usize], class: usize) -> bool
    ensures { IsTrue result → IsInOne numbers.now group.now }
{
    let one = class_of(numbers, group, class);
    if one >= numbers.len() {
        return false;
    }
    are_in_class(numbers, group, one)
}

/// Whether that is so of each group.
fn are_in_classes(numbers: &[Vec<usize>], groups: &[Vec<usize>], class: usize) -> bool
    ensures { IsTrue result → All (IsInOne numbers.now) (groups_view groups.now) }
{
    for group in groups {
        if !is_in_one(numbers, group, class) {
            return false;
        }
    }
    true
}

/// Whether the fields of one key in the class say the same, and the sets in their braces are in one class for each key.
fn is_settled(
    tables: Tables<'_>,
    numbers: &[Vec<usize>],
    classes: &[Vec<usize>],
    class: usize,
) -> Result<bool, NoMemory>
    requires reach { InRange tables.spreads.now }
    requires spreads { map (λ v. v.items) tables.spreads.now ≡ map (λ r. r.spreads.items) tables.rows.now }
    requires unions { AreUnions tables.spreads.now numbers.now classes.now }
    requires class { class < length classes.now }
    ensures { IfOk result (λ settled. IsTrue settled →
        IsSettled (types_view tables.entry.types.now) (rows_view tables.entry.rows.now) (groups_view classes.now) (row classes.now class)) }
{
    let found = reached_sets(tables.alloc, tables.spreads, &classes[class])?;
    let members = gathered(tables.alloc, tables.rows, &found)?;
    let Some(below) = groups_below(tables, &members)? else {
        return Ok(false);
    };
    Ok(are_in_classes(numbers, &below, class))
}

/// Whether that is so of each class.
fn are_settled(
    tables: Tables<'_>,
    numbers: &[Vec<usize>],
    classes: &[Vec<usize>],
) -> Result<bool, NoMemory>
    requires reach { InRange tables.spreads.now }
    requires spreads { map (λ v. v.items) tables.spreads.now ≡ map (λ r. r.spreads.items) tables.rows.now }
    requires unions { AreUnions tables.spreads.now numbers.now classes.now }
    ensures { IfOk result (λ settled. IsTrue settled → (n : ℕ) → n < length classes.now →
        IsSettled (types_view tables.entry.types.now) (rows_view tables.entry.rows.now) (groups_view classes.now) (row classes.now n)) }
{
    for class in 0..classes.len() {
        if !is_settled(tables, numbers, classes, class)? {
            return Ok(false);
        }
    }
    Ok(true)
}

/// All sets that have a number, where the fields under them merge as far as this test sees; otherwise none.
fn tested_sets(tables: Tables<'_>, numbers: &[Vec<usize>]) -> Result<Vec<usize>, NoMemory>
    requires reach { InRange tables.spreads.now }
    requires spreads { map (λ v. v.items) tables.spreads.now ≡ map (λ r. r.spreads.items) tables.rows.now }
    requires numbers { InRange numbers.now }
    requires count { length numbers.now ≡ length tables.spreads.now }
    ensures within { IfOk result (λ found. All (λ n. n < length tables.entry.rows.now) found.items) }
    ensures tested { IfOk result (λ found. All (IsTested (types_view tables.entry.types.now) (rows_view tables.entry.rows.now)) found.items) }
{
    let classes = transposed(tables.alloc, numbers)?;
    if !are_settled(tables, numbers, &classes)? {
        return Ok(Vec::new(tables.alloc));
    }
    let all = numbers_below(tables.alloc, classes.len())?;
    let found = in_rows(tables.alloc, &classes, &all)?;
    Ok(found)
}

/// The same, where the numbers are those of classes; otherwise none.
pub(crate) fn tested_by_classes(
    tables: Tables<'_>,
    numbers: &[Vec<usize>],
) -> Result<Vec<usize>, NoMemory>
    requires reach { InRange tables.spreads.now }
    requires spreads { map (λ v. v.items) tables.spreads.now ≡ map (λ r. r.spreads.items) tables.rows.now }
    ensures within { IfOk result (λ found. All (λ n. n < length tables.entry.rows.now) found.items) }
    ensures tested { IfOk result (λ found. All (IsTested (types_view tables.entry.types.now) (rows_view tables.entry.rows.now)) found.items) }
{
    if numbers.len() != tables.spreads.len() {
        return Ok(Vec::new(tables.alloc));
    }
    if !is_in_range(numbers) {
        return Ok(Vec::new(tables.alloc));
    }
    let found = tested_sets(tables, numbers)?;
    Ok(found)
}
