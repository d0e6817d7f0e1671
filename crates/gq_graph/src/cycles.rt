//! What stands on a cycle, in time linear in the numbers and the entries of the table.
//!
//! A walk in depth puts the numbers in order. From the last to the first, each collects what leads to it and was not
//! collected before: by the order, just the numbers that it leads to as well. They stand on a cycle if one of those that
//! the number leads to was collected, since that one is then among them.
ghost use Rattle.std.specs.Prelude.{◌≡◌, ℕ, ◌<◌, ◌≤◌, ◌↔◌, length, All, IfOk, OnOk, IsTrue, slice_index_or, false, true};
ghost use Rattle.gq_graph.specs.Reach.{LeadsBack, row, InRange};
ghost use Rattle.gq_graph.specs.Helping.Found.{Marked};
ghost use Rattle.gq_graph.specs.Components.{Led, SomeMarked, Collected};

use crate::closing::close;
use crate::found::Found;
use crate::marks::mark_all;
use crate::transposed::transposed;
use crate::walk::finished;
use gq_text::NoMemory;
use std::alloc::Global;

/// A mark at each number from which a way of one step or more leads back to it. A row holds the numbers that its own
/// number leads to.
pub fn on_cycles(alloc: Global, rows: &[Vec<usize>]) -> Result<Vec<bool>, NoMemory>
    requires rows { InRange rows.now }
    ensures count { IfOk result (λ marks. length marks.items ≡ length rows.now) }
    ensures exact { IfOk result (λ marks. (n : ℕ) → n < length rows.now → IsTrue (slice_index_or marks.items n false) ↔ LeadsBack (row rows.now) n) }
{
    let back = transposed(alloc, rows)?;
    let mut order = finished(alloc, rows)?;
    let mut found = Found::new(alloc, rows.len())?;
    let mut marks = vec![in alloc; false; rows.len()]?;
    while let Some(number) = order.pop() {
        collect(&rows[number], &back, number, &mut found, &mut marks)?;
    }
    Ok(marks)
}

/// Finds the number and all that leads to it, and marks what is new of that if the number leads to a found one.
fn collect(
    ahead: &[usize],
    back: &[Vec<usize>],
    number: usize,
    found: &mut Found,
    marks: &mut Vec<bool>,
) -> Result<(), NoMemory>
    requires back { InRange back.now }
    requires range { number < length back.now }
    requires ahead { All (λ n. n < length back.now) ahead.now }
    requires marked { Marked found.old.marks.items found.old.numbers.items }
    requires count { length found.old.marks.items ≡ length back.now }
    requires marks { length marks.old.items ≡ length back.now }
    requires led { Led (row back.now) found.old.numbers.items found.old.numbers.items }
    ensures count { OnOk result (length found.new.marks.items ≡ length found.old.marks.items) }
    ensures marks { length marks.new.items ≡ length marks.old.items }
    ensures marked { OnOk result (Marked found.new.marks.items found.new.numbers.items) }
    ensures collected { OnOk result (Collected ahead.now (row back.now) number found.old.numbers.items found.new.numbers.items marks.old.items marks.new.items) }
{
    let from = found.numbers.len();
    found.add(number)?;
    close(back, found, from)?;
    if some_marked(ahead, &found.marks) {
        mark_all(marks, &found.numbers[from..]);
    }
    Ok(())
}

/// Whether one of the numbers is marked.
fn some_marked(numbers: &[usize], marks: &[bool]) -> bool
    requires { All (λ n. n < length marks.now) numbers.now }
    ensures { IsTrue result ↔ SomeMarked numbers.now marks.now }
{
    for number in numbers {
        if marks[*number] {
            return true;
        }
    }
    false
}
