//! A walk of a table in depth.
ghost use Rattle.std.specs.Prelude.{◌≡◌, ℕ, ◌+◌, ◌*◌, ◌<◌, length, All, Contains, IfOk, OnOk, ◌∷◌, ◌++◌, []};
ghost use Rattle.gq_graph.specs.Reach.{row, InRange};
ghost use Rattle.gq_graph.specs.Helping.Found.{Marked};
ghost use Rattle.gq_graph.specs.Helping.Finished.{Finished, Walk, entries_left};

use crate::found::Found;
use gq_text::NoMemory;
use std::alloc::Global;

/// All numbers of the table, in the order in which a walk in depth finishes with them: each number behind all that it
/// leads to, except for what leads back to it.
pub fn finished(alloc: Global, rows: &[Vec<usize>]) -> Result<Vec<usize>, NoMemory>
    requires rows { InRange rows.now }
    ensures order { IfOk result (λ order. Finished (row rows.now) order.items) }
    ensures range { IfOk result (λ order. All (λ n. n < length rows.now) order.items) }
    ensures all { IfOk result (λ order. (n : ℕ) → n < length rows.now → Contains order.items n) }
{
    let mut finished = Found::new(alloc, rows.len())?;
    let mut passed = vec![in alloc; 0; rows.len()]?;
    for number in 0..rows.len() {
        walk(alloc, rows, number, &mut passed, &mut finished)?;
    }
    Ok(finished.numbers)
}

/// Goes on with the walk from the number, until it is finished. Of each row so many entries are passed.
fn walk(
    alloc: Global,
    rows: &[Vec<usize>],
    number: usize,
    passed: &mut Vec<usize>,
    finished: &mut Found,
) -> Result<(), NoMemory>
    requires rows { InRange rows.now }
    requires range { number < length rows.now }
    requires walk { Walk rows.now passed.old.items finished.old.marks.items finished.old.numbers.items [] }
    ensures walk { OnOk result (Walk rows.now passed.new.items finished.new.marks.items finished.new.numbers.items []) }
    ensures kept { OnOk result ((n : ℕ) → Contains (finished.old.numbers.items ++ number ∷ []) n → Contains finished.new.numbers.items n) }
{
    let mut stack = Vec::new(alloc);
    stack.push(number)?;
    while let Some(top) = stack.pop() {
        step(rows, top, &mut stack, passed, finished)?;
    }
    Ok(())
}

/// Passes one entry of the row of the number that stood on top of the stack, or finishes with that number.
fn step(
    rows: &[Vec<usize>],
    top: usize,
    stack: &mut Vec<usize>,
    passed: &mut Vec<usize>,
    finished: &mut Found,
) -> Result<(), NoMemory>
    requires rows { InRange rows.now }
    requires walk { Walk rows.now passed.old.items finished.old.marks.items finished.old.numbers.items (stack.old.items ++ top ∷ []) }
    ensures walk { OnOk result (Walk rows.now passed.new.items finished.new.marks.items finished.new.numbers.items stack.new.items) }
    ensures kept { OnOk result ((n : ℕ) → Contains (finished.old.numbers.items ++ (stack.old.items ++ top ∷ [])) n → Contains (finished.new.numbers.items ++ stack.new.items) n) }
    ensures fewer { OnOk result (2 * entries_left rows.now passed.new.items + length stack.new.items < 2 * entries_left rows.now passed.old.items + (length stack.old.items + 1)) }
{
    let row = &rows[top];
    let at = passed[top];
    if at < row.len() {
        passed[top] = at + 1;
        stack.push(top)?;
        stack.push(row[at])?;
    } else {
        finished.add(top)?;
    }
    Ok(())
}
