//! What can be reached in a table with a row for each number.
ghost use Rattle.std.specs.Prelude.{◌≡◌, ℕ, ◌<◌, ◌↔◌, IsTrue, length, All, Contains, IfOk};
ghost use Rattle.gq_graph.specs.Reach.{Reach, NoneTwice, row, InRange};

use crate::gathered::{listed, put_all};
use gq_text::NoMemory;
use indexmap::IndexSet;
use std::alloc::Global;

/// Whether each number in the table has a row.
pub fn is_in_range(rows: &[Vec<usize>]) -> bool
    ensures { IsTrue result ↔ InRange rows.now }
{
    for row in rows {
        if !are_below(row, rows.len()) {
            return false;
        }
    }
    true
}

/// Whether each of the numbers is below the count.
pub fn are_below(numbers: &[usize], count: usize) -> bool
    ensures { IsTrue result ↔ All (λ n. n < count) numbers.now }
{
    numbers.iter().all(|n| *n < count)
}

/// All that can be reached from the starts, each number once. A row holds the numbers that its own number leads to. It
/// costs time and memory for what is found alone, however many rows there are.
pub fn reach_rows(
    alloc: Global,
    rows: &[Vec<usize>],
    starts: &[usize],
) -> Result<Vec<usize>, NoMemory>
    requires starts { All (λ n. n < length rows.now) starts.now }
    requires rows { InRange rows.now }
    ensures sound { IfOk result (λ found. All (λ n. Reach starts.now (row rows.now) n) found.items) }
    ensures complete { IfOk result (λ found. (n : ℕ) → Reach starts.now (row rows.now) n → Contains found.items n) }
    ensures once { IfOk result (λ found. NoneTwice found.items) }
    ensures within { IfOk result (λ found. All (λ n. n < length rows.now) found.items) }
{
    let mut found = IndexSet::new(alloc);
    put_all(&mut found, starts)?;
    let mut done = 0;
    while done < found.len() {
        let number = found.as_slice()[done];
        put_all(&mut found, &rows[number])?;
        done += 1;
    }
    let list = listed(alloc, &found)?;
    Ok(list)
}
