//! The spreads of operations in two parts: those of fragments that several operations spread, or one of them twice, and those of
//! others.
ghost use Rattle.std.specs.Prelude.{◌≡◌, ◌<◌, All, IfOk, OnOk, length, map, not};
ghost use Rattle.gq_variables.specs.Helping.Leading.{AreInParts};

use crate::leading::marked_rows;
use gq_spreads::Spreads;
use gq_text::NoMemory;
use std::alloc::Global;

/// The spreads of operations in two parts, with what fragments spread.
#[derive(Drop)]
pub struct Parts {
    pub shared: Spreads,
    pub own: Vec<Vec<usize>>,
}

/// Marks those of the numbers that were seen before.
fn mark_again(numbers: &[usize], seen: &mut Vec<bool>, again: &mut Vec<bool>)
    requires numbers { All (λ n. n < length seen.now.items) numbers.now }
    requires count { length again.now.items ≡ length seen.now.items }
    ensures seen { length seen.new.items ≡ length seen.old.items }
    ensures again { length again.new.items ≡ length again.old.items }
{
    for number in numbers {
        again[*number] = again[*number] || seen[*number];
        seen[*number] = true;
    }
}

/// A mark at each of so many numbers that stands in several rows, or twice in one.
fn in_several(alloc: Global, rows: &[Vec<usize>], count: usize) -> Result<Vec<bool>, NoMemory>
    requires { All (λ v. All (λ n. n < count) v.items) rows.now }
    ensures { IfOk result (λ marks. length marks.items ≡ count) }
{
    let mut seen = vec![in alloc; false; count]?;
    let mut again = vec![in alloc; false; count]?;
    for row in rows {
        mark_again(row, &mut seen, &mut again);
    }
    Ok(again)
}

/// A mark where there is none.
fn inverted(alloc: Global, marks: &[bool]) -> Result<Vec<bool>, NoMemory>
    ensures { IfOk result (λ others. others.items ≡ map not marks.now) }
{
    let mut others = Vec::new(alloc);
    for mark in marks {
        others.push(!*mark)?;
    }
    Ok(others)
}

/// Leaves to operations the spreads of fragments that several of them spread, or one of them twice, and returns the others.
pub(crate) fn take_own(alloc: Global, spreads: &mut Spreads) -> Result<Vec<Vec<usize>>, NoMemory>
    requires { All (λ v. All (λ n. n < length spreads.now.of_fragments.items) v.items) spreads.now.of_operations.items }
    ensures { IfOk result (λ own. AreInParts spreads.old spreads.new own.items) }
{
    let several = in_several(alloc, &spreads.of_operations, spreads.of_fragments.len())?;
    let alone = inverted(alloc, &several)?;
    let own = marked_rows(alloc, &alone, &spreads.of_operations)?;
    spreads.of_operations = marked_rows(alloc, &several, &spreads.of_operations)?;
    Ok(own)
}
