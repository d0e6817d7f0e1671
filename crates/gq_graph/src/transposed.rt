//! A transposed table.
ghost use Rattle.std.specs.Prelude.{◌≡◌, ◌<◌, length, All, IfOk, OnOk, ◌∷◌, []};
ghost use Rattle.gq_graph.specs.Reach.{row, InRange};
ghost use Rattle.gq_graph.specs.Transposed.{Put, Transposed};

use gq_text::NoMemory;
use std::alloc::Global;

/// A table of the same length in which each number's row has the numbers in whose rows it stood.
pub fn transposed(alloc: Global, rows: &[Vec<usize>]) -> Result<Vec<Vec<usize>>, NoMemory>
    requires rows { InRange rows.now }
    ensures { IfOk result (λ back. Transposed rows.now back.items) }
{
    let mut back = empty_rows(alloc, rows.len())?;
    for number in 0..rows.len() {
        put_all(&mut back, &rows[number], number)?;
    }
    Ok(back)
}

/// As many rows with nothing in them.
fn empty_rows(alloc: Global, count: usize) -> Result<Vec<Vec<usize>>, NoMemory>
    ensures count { IfOk result (λ rows. length rows.items ≡ count) }
    ensures empty { IfOk result (λ rows. All (λ v. v.items ≡ []) rows.items) }
{
    let mut rows = Vec::new(alloc);
    for _ in 0..count {
        rows.push(Vec::new(alloc))?;
    }
    Ok(rows)
}

/// Puts the number at the end of each of these rows.
fn put_all(rows: &mut Vec<Vec<usize>>, places: &[usize], number: usize) -> Result<(), NoMemory>
    requires range { All (λ n. n < length rows.old.items) places.now }
    ensures count { length rows.new.items ≡ length rows.old.items }
    ensures put { OnOk result (Put places.now number rows.old.items rows.new.items) }
{
    for place in places {
        put(rows, *place, number)?;
    }
    Ok(())
}

fn put(rows: &mut Vec<Vec<usize>>, place: usize, number: usize) -> Result<(), NoMemory>
    requires range { place < length rows.old.items }
    ensures count { length rows.new.items ≡ length rows.old.items }
    ensures put { OnOk result (Put (place ∷ []) number rows.old.items rows.new.items) }
{
    rows[place].push(number)?;
    Ok(())
}
