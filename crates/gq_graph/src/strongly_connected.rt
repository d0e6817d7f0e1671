//! The strongly connected components of a graph: what leads to each other, in time linear in the numbers and the entries of the table.
//!
//! As for cycles, the numbers have their turns from the last to the first that a walk in depth finished with, and each
//! collects what leads to it and was not collected before: by the order, just what it leads to as well.
ghost use Rattle.std.specs.Prelude.{◌≡◌, ℕ, ◌<◌, ◌↔◌, length, All, IfOk, OnOk, slice_index};
ghost use Rattle.gq_graph.specs.Reach.{LeadToEachOther, row, InRange};
ghost use Rattle.gq_graph.specs.Helping.Found.{Marked};
ghost use Rattle.gq_graph.specs.Components.{Led};
ghost use Rattle.gq_graph.specs.Helping.Mutual.{Assigned, Gathered};

use crate::closing::close;
use crate::found::Found;
use crate::transposed::transposed;
use crate::walk::finished;
use gq_text::NoMemory;
use std::alloc::Global;

/// The component of each number, which is one of the numbers in it: two numbers are of one component exactly if each of
/// them leads to the other, in any number of steps. A row holds the numbers that its own number leads to.
pub fn components(alloc: Global, rows: &[Vec<usize>]) -> Result<Vec<usize>, NoMemory>
    requires rows { InRange rows.now }
    ensures count { IfOk result (λ components. length components.items ≡ length rows.now) }
    ensures exact { IfOk result (λ components. (m n : ℕ) → m < length rows.now → n < length rows.now →
        (slice_index components.items m ≡ slice_index components.items n) ↔ LeadToEachOther (row rows.now) m n) }
{
    let back = transposed(alloc, rows)?;
    let mut order = finished(alloc, rows)?;
    let mut found = Found::new(alloc, rows.len())?;
    let mut components = vec![in alloc; 0; rows.len()]?;
    while let Some(number) = order.pop() {
        gather(&back, number, &mut found, &mut components)?;
    }
    Ok(components)
}

/// Finds the number and all that leads to it, and gives what is new of that the number as its component.
fn gather(
    back: &[Vec<usize>],
    number: usize,
    found: &mut Found,
    components: &mut Vec<usize>,
) -> Result<(), NoMemory>
    requires back { InRange back.now }
    requires range { number < length back.now }
    requires marked { Marked found.old.marks.items found.old.numbers.items }
    requires count { length found.old.marks.items ≡ length back.now }
    requires components { length components.old.items ≡ length back.now }
    requires led { Led (row back.now) found.old.numbers.items found.old.numbers.items }
    ensures count { OnOk result (length found.new.marks.items ≡ length found.old.marks.items) }
    ensures components { length components.new.items ≡ length components.old.items }
    ensures marked { OnOk result (Marked found.new.marks.items found.new.numbers.items) }
    ensures gathered { OnOk result (Gathered (row back.now) number found.old.numbers.items found.new.numbers.items components.old.items components.new.items) }
{
    let from = found.numbers.len();
    found.add(number)?;
    close(back, found, from)?;
    assign(components, &found.numbers[from..], number);
    Ok(())
}

/// Gives the component to these numbers.
fn assign(components: &mut Vec<usize>, numbers: &[usize], component: usize)
    requires range { All (λ n. n < length components.old.items) numbers.now }
    ensures count { length components.new.items ≡ length components.old.items }
    ensures assigned { Assigned numbers.now component components.old.items components.new.items }
{
    for number in numbers {
        components[*number] = component;
    }
}
