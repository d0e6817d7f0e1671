//! Sets that are joined, as far as it seems that their fields may stand together: a set with the fragments that are spread in it, and
//! those in the braces of the fields of one key in sets that are joined.
//!
//! Each set has the number of another one, that of the least in its class as far as that was found. Nothing here is proved to be found:
//! what is made of it is tested (`unions`).
use crate::by_name::FieldsByName;
use crate::classes::{Tables, has_selections};
use crate::members::gathered;
use crate::places::numbers_below;
use crate::rows::{Member, Row};
use gq_text::NoMemory;
use std::alloc::Global;

/// How often all sets are looked at, at most. Sets that stand deep are joined after those above them.
const MOST_TURNS: usize = 8;

/// The number that the set has.
fn number_of(numbers: &[usize], set: usize) -> usize {
    if set < numbers.len() {
        numbers[set]
    } else {
        set
    }
}

/// Gives the set a number.
fn put(numbers: &mut Vec<usize>, set: usize, number: usize) {
    if set < numbers.len() {
        numbers[set] = number;
    }
}

/// Gives each set the number of the set whose number it has.
fn look_through(numbers: &mut Vec<usize>) {
    for set in 0..numbers.len() {
        let number = number_of(numbers, number_of(numbers, set));
        put(numbers, set, number);
    }
}

/// Joins the sets, and tells whether they were apart.
fn join(left: usize, right: usize, numbers: &mut Vec<usize>) -> bool {
    let left = number_of(numbers, left);
    let right = number_of(numbers, right);
    if left == right {
        return false;
    }
    let later = left.max(right);
    if number_of(numbers, later) == later {
        put(numbers, later, left.min(right));
    }
    true
}

/// Joins the set with each of the others.
fn join_all(set: usize, others: &[usize], numbers: &mut Vec<usize>) -> bool {
    let mut joined = false;
    for other in others {
        joined = join(set, *other, numbers) || joined;
    }
    joined
}

/// Joins each set with the fragments that are spread in it.
fn join_spreads(rows: &[Row<'_>], numbers: &mut Vec<usize>) -> bool {
    let mut joined = false;
    for set in 0..rows.len() {
        joined = join_all(set, &rows[set].spreads, numbers) || joined;
    }
    joined
}

/// Joins the sets in the braces of these fields.
fn join_list(rows: &[Row<'_>], list: &[Member<'_>], numbers: &mut Vec<usize>) -> bool {
    let Some(first) = list.first() else {
        return false;
    };
    let mut joined = false;
    for member in list {
        if has_selections(rows, member.below) {
            joined = join(first.below, member.below, numbers) || joined;
        }
    }
    joined
}

/// Joins the sets in the braces of the fields of each list.
fn join_lists(rows: &[Row<'_>], lists: &[Vec<Member<'_>>], numbers: &mut Vec<usize>) -> bool {
    let mut joined = false;
    for list in lists {
        joined = join_list(rows, list, numbers) || joined;
    }
    joined
}

/// Puts the set into the class of its number.
fn put_in_class(set: usize, number: usize, classes: &mut Vec<Vec<usize>>) -> Result<(), NoMemory> {
    if number < classes.len() {
        classes[number].push(set)?;
    }
    Ok(())
}

/// As many classes in which nothing is.
fn no_classes(alloc: Global, count: usize) -> Result<Vec<Vec<usize>>, NoMemory> {
    let mut classes = Vec::with_capacity(alloc, count)?;
    for _ in 0..count {
        classes.push(Vec::new(alloc))?;
    }
    Ok(classes)
}

/// For each number the sets that have it.
fn classes_of(alloc: Global, numbers: &[usize]) -> Result<Vec<Vec<usize>>, NoMemory> {
    let mut classes = no_classes(alloc, numbers.len())?;
    for set in 0..numbers.len() {
        put_in_class(set, numbers[set], &mut classes)?;
    }
    Ok(classes)
}

/// Joins the sets in the braces of the fields of each key, among the fields of the sets of each class.
fn join_classes(
    tables: Tables<'_>,
    classes: &[Vec<usize>],
    numbers: &mut Vec<usize>,
) -> Result<bool, NoMemory> {
    let mut joined = false;
    for class in classes {
        let members = gathered(tables.alloc, tables.rows, class)?;
        let by_key = FieldsByName::by_key(tables.alloc, &members)?;
        joined = join_lists(tables.rows, &by_key.lists, numbers) || joined;
    }
    Ok(joined)
}

/// Joins what is to be joined by what was so far, and tells whether something was apart.
fn join_once(tables: Tables<'_>, numbers: &mut Vec<usize>) -> Result<bool, NoMemory> {
    let spread = join_spreads(tables.rows, numbers);
    look_through(numbers);
    let classes = classes_of(tables.alloc, numbers)?;
    let below = join_classes(tables, &classes, numbers)?;
    look_through(numbers);
    Ok(spread || below)
}

/// A row for each set, with its number.
fn number_rows(alloc: Global, numbers: &[usize]) -> Result<Vec<Vec<usize>>, NoMemory> {
    let mut rows = Vec::with_capacity(alloc, numbers.len())?;
    for number in numbers {
        rows.push(vec![in alloc; *number; 1]?)?;
    }
    Ok(rows)
}

/// For each set a row with the number of its class; nothing where some sets of one class are still apart, since to test classes
/// that reach into one another would take time for each pair of them.
pub(crate) fn joined_sets(tables: Tables<'_>) -> Result<Vec<Vec<usize>>, NoMemory> {
    let mut numbers = numbers_below(tables.alloc, tables.rows.len())?;
    for _ in 0..MOST_TURNS {
        if !join_once(tables, &mut numbers)? {
            return number_rows(tables.alloc, &numbers);
        }
    }
    Ok(Vec::new(tables.alloc))
}
