//! Selection sets that the search for faults starts at: it passes over sets that are marked, and over fragments that are spread
//! in a set that it starts at, since their fields are among that set's.
ghost use Rattle.std.specs.Prelude.{◌≡◌, ◌<◌, All, IfOk, OnOk, length};
ghost use Rattle.gq_graph.specs.Reach.{InRange, row};
ghost use Rattle.gq_merging.specs.Helping.StartTables.{Passes, SetsMarks};

use gq_graph::reach_rows;
use gq_text::NoMemory;
use std::alloc::Global;

/// Sets the marks of these numbers.
fn put_marks(numbers: &[usize], mark: bool, marks: &mut Vec<bool>)
    requires { All (λ n. n < length marks.old.items) numbers.now }
    ensures { SetsMarks numbers.now mark marks.old.items marks.new.items }
{
    for number in numbers {
        marks[*number] = mark;
    }
}

/// A mark at each set that is spread somewhere.
pub(crate) fn named_rows(alloc: Global, spreads: &[Vec<usize>]) -> Result<Vec<bool>, NoMemory>
    requires { InRange spreads.now }
    ensures { IfOk result (λ named. length named.items ≡ length spreads.now) }
{
    let mut named = vec![in alloc; false; spreads.len()]?;
    for numbers in spreads {
        put_marks(numbers, true, &mut named);
    }
    Ok(named)
}

/// The numbers of the sets with neither mark.
fn roots(alloc: Global, marks: &[bool], named: &[bool]) -> Result<Vec<usize>, NoMemory>
    requires { length named.now ≡ length marks.now }
    ensures { IfOk result (λ numbers. All (λ n. n < length marks.now) numbers.items) }
{
    let mut numbers = Vec::new(alloc);
    for number in 0..marks.len() {
        if !marks[number] && !named[number] {
            numbers.push(number)?;
        }
    }
    Ok(numbers)
}

/// Marks all that the number leads to.
fn cover(
    alloc: Global,
    spreads: &[Vec<usize>],
    number: usize,
    covered: &mut Vec<bool>,
) -> Result<(), NoMemory>
    requires range { InRange spreads.now }
    requires number { number < length spreads.now }
    requires count { length covered.old.items ≡ length spreads.now }
    ensures { OnOk result (length covered.new.items ≡ length covered.old.items) }
{
    let found = reach_rows(alloc, spreads, &[number])?;
    put_marks(&found, true, covered);
    Ok(())
}

/// Puts a number of each cycle that is not covered behind the roots, and covers what that leads to.
fn put_roots_of_cycles(
    alloc: Global,
    spreads: &[Vec<usize>],
    covered: &mut Vec<bool>,
    roots: &mut Vec<usize>,
) -> Result<(), NoMemory>
    requires range { InRange spreads.now }
    requires count { length covered.old.items ≡ length spreads.now }
    requires roots { All (λ n. n < length spreads.now) roots.old.items }
    ensures { OnOk result (All (λ n. n < length spreads.now) roots.new.items) }
{
    for number in 0..spreads.len() {
        if !covered[number] {
            roots.push(number)?;
            cover(alloc, spreads, number, covered)?;
        }
    }
    Ok(())
}

/// Sets that are not marked and lead to all others that are not: those that are spread nowhere, and of what only cycles lead
/// to, one of each.
fn starts(alloc: Global, spreads: &[Vec<usize>], marks: &[bool]) -> Result<Vec<usize>, NoMemory>
    requires range { InRange spreads.now }
    requires count { length marks.now ≡ length spreads.now }
    ensures { IfOk result (λ numbers. All (λ n. n < length marks.now) numbers.items) }
{
    let named = named_rows(alloc, spreads)?;
    let mut roots = roots(alloc, marks, &named)?;
    let found = reach_rows(alloc, spreads, &roots)?;
    let mut covered = Vec::from_slice(alloc, marks)?;
    put_marks(&found, true, &mut covered);
    put_roots_of_cycles(alloc, spreads, &mut covered, &mut roots)?;
    Ok(roots)
}

/// A mark at each set that the search passes over.
pub(crate) fn passed_rows(
    alloc: Global,
    spreads: &[Vec<usize>],
    marks: &[bool],
) -> Result<Vec<bool>, NoMemory>
    requires range { InRange spreads.now }
    requires count { length marks.now ≡ length spreads.now }
    ensures { IfOk result (λ passed. Passes (row spreads.now) marks.now passed.items) }
{
    let roots = starts(alloc, spreads, marks)?;
    let found = reach_rows(alloc, spreads, &roots)?;
    let mut passed = Vec::from_slice(alloc, marks)?;
    put_marks(&found, true, &mut passed);
    put_marks(&roots, false, &mut passed);
    Ok(passed)
}
