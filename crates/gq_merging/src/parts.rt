//! The fragments spread in each set in two parts: near ones, which the search looks at as part of that set, and far ones, of which it
//! keeps what they reach.
//!
//! Where each of many sets spreads a little fragment of its own beside one that reaches much, no two of them spread the same fragments.
//! The little one is near, so what the others reach is kept for all.
ghost use Rattle.std.specs.Prelude.{◌≡◌, ◌↔◌, ◌⊎◌, ◌<◌, ◌++◌, ◌∷◌, [], ℕ, List, Contains, IfOk, OnOk, length};
ghost use Rattle.std.specs.List.{flat_map};
ghost use Rattle.std.specs.declared.vec.Vec.{Vec};
ghost use Rattle.std.specs.declared.alloc.Global.{Global};
ghost use Rattle.gq_graph.specs.Reach.{Reach, InRange, row};
ghost use Rattle.gq_merging.specs.Helping.PartTables.{AreParts};

use crate::members::copied;
use crate::rows::Row;
use gq_graph::reach_rows;
use gq_text::NoMemory;
use std::alloc::Global;

/// The most sets and fields that a near fragment has, those of the near fragments that it spreads among them.
const FEW: usize = 16;

/// How often a near fragment is spread at most. What is spread often is best kept.
const FEW_SPREADS: usize = 4;

/// For each set the near fragments that are spread in it, and the far ones.
#[derive(Drop)]
pub(crate) struct Parts {
    pub(crate) near: Vec<Vec<usize>>,
    pub(crate) far: Vec<Vec<usize>>,
}

/// Counts each of these numbers once more.
fn count_more(numbers: &[usize], counts: &mut Vec<usize>) {
    for number in numbers {
        if *number < counts.len() {
            counts[*number] = counts[*number].saturating_add(1);
        }
    }
}

/// How often each fragment is spread.
fn spread_counts(alloc: Global, spreads: &[Vec<usize>]) -> Result<Vec<usize>, NoMemory> {
    let mut counts = vec![in alloc; 0; spreads.len()]?;
    for numbers in spreads {
        count_more(numbers, &mut counts);
    }
    Ok(counts)
}

/// How many sets and fields are looked at with each fragment: at first more than a few for one that is spread often, and none where
/// that is to be found out.
fn first_sizes(alloc: Global, spreads: &[Vec<usize>]) -> Result<Vec<usize>, NoMemory> {
    let counts = spread_counts(alloc, spreads)?;
    let mut sizes = Vec::with_capacity(alloc, counts.len())?;
    for count in &counts {
        let size = if *count > FEW_SPREADS { usize::MAX } else { 0 };
        sizes.push(size)?;
    }
    Ok(sizes)
}

/// The size of the fragment; none where it is not known.
fn known_size(sizes: &[usize], fragment: usize) -> usize {
    if fragment < sizes.len() {
        sizes[fragment]
    } else {
        0
    }
}

/// Whether a fragment of that size is near.
fn is_near(size: usize) -> bool {
    0 < size && size <= FEW
}

/// How many sets and fields are looked at with the set; none where that is not known of a fragment that is spread in it.
fn size_of(row: &Row<'_>, sizes: &[usize]) -> usize {
    let mut size = row.members.len().saturating_add(1);
    for fragment in &row.spreads {
        let known = known_size(sizes, *fragment);
        if known == 0 {
            return 0;
        }
        let share = if is_near(known) { known } else { 1 };
        size = size.saturating_add(share);
    }
    size
}

/// Puts the size of the fragment, if it is not known yet.
fn put_size(rows: &[Row<'_>], fragment: usize, sizes: &mut Vec<usize>)
    requires { fragment < length rows.now }
{
    if known_size(sizes, fragment) == 0 && fragment < sizes.len() {
        let size = size_of(&rows[fragment], sizes);
        sizes[fragment] = size;
    }
}

/// Puts the sizes, from the last to the first.
fn put_sizes_back(rows: &[Row<'_>], sizes: &mut Vec<usize>) {
    for fragment in (0..rows.len()).rev() {
        put_size(rows, fragment, sizes);
    }
}

/// Puts the sizes, from the first to the last.
fn put_sizes(rows: &[Row<'_>], sizes: &mut Vec<usize>) {
    for fragment in 0..rows.len() {
        put_size(rows, fragment, sizes);
    }
}

/// The sizes of the fragments. Those of some that spread others to and fro stay unknown, and they are far.
fn all_sizes(
    alloc: Global,
    rows: &[Row<'_>],
    spreads: &[Vec<usize>],
) -> Result<Vec<usize>, NoMemory> {
    let mut sizes = first_sizes(alloc, spreads)?;
    put_sizes_back(rows, &mut sizes);
    put_sizes(rows, &mut sizes);
    Ok(sizes)
}

/// Puts the fragment to the near ones or to the far ones.
fn put_fragment(
    fragment: usize,
    sizes: &[usize],
    near: &mut Vec<usize>,
    far: &mut Vec<usize>,
) -> Result<(), NoMemory>
    ensures { OnOk result ((rest : List ℕ) →
        ((k : ℕ) → (Contains near.old.items k ⊎ Contains far.old.items k) ↔ Contains rest k) →
        (k : ℕ) → (Contains near.new.items k ⊎ Contains far.new.items k) ↔ Contains (rest ++ fragment ∷ []) k) }
{
    if is_near(known_size(sizes, fragment)) {
        near.push(fragment)?;
        return Ok(());
    }
    far.push(fragment)?;
    Ok(())
}

/// Puts rows for a set that spreads these fragments behind the others: of the near ones, and of the far ones.
fn put_parts(
    alloc: Global,
    fragments: &[usize],
    sizes: &[usize],
    near: &mut Vec<Vec<usize>>,
    far: &mut Vec<Vec<usize>>,
) -> Result<(), NoMemory>
    ensures { OnOk result ((spreads : List (Vec ℕ Global)) (one : Vec ℕ Global) → one.items ≡ fragments.now →
        AreParts spreads near.old.items far.old.items → AreParts (spreads ++ one ∷ []) near.new.items far.new.items) }
{
    let mut some = Vec::new(alloc);
    let mut others = Vec::new(alloc);
    for fragment in fragments {
        put_fragment(*fragment, sizes, &mut some, &mut others)?;
    }
    near.push(some)?;
    far.push(others)?;
    Ok(())
}

/// The near and the far ones of the fragments that are spread in each set.
pub(crate) fn parts_of(
    alloc: Global,
    rows: &[Row<'_>],
    spreads: &[Vec<usize>],
) -> Result<Parts, NoMemory>
    ensures { IfOk result (λ parts. AreParts spreads.now parts.near.items parts.far.items) }
{
    let sizes = all_sizes(alloc, rows, spreads)?;
    let mut near = Vec::new(alloc);
    let mut far = Vec::new(alloc);
    for fragments in spreads {
        put_parts(alloc, fragments, &sizes, &mut near, &mut far)?;
    }
    Ok(Parts { near, far })
}

/// What stands in the rows of the table with these numbers.
pub(crate) fn in_rows(
    alloc: Global,
    table: &[Vec<usize>],
    numbers: &[usize],
) -> Result<Vec<usize>, NoMemory>
    ensures { IfOk result (λ found. found.items ≡ flat_map (row table.now) numbers.now) }
{
    let mut found = Vec::new(alloc);
    for number in numbers {
        put_row(table, *number, &mut found)?;
    }
    Ok(found)
}

fn put_row(table: &[Vec<usize>], number: usize, found: &mut Vec<usize>) -> Result<(), NoMemory>
    ensures { OnOk result (found.new.items ≡ found.old.items ++ row table.now number) }
{
    if number < table.len() {
        found.extend_from_slice(&table[number])?;
    }
    Ok(())
}

/// The sets of the group, and the near fragments that it reaches by spreads of such.
pub(crate) fn with_near(
    alloc: Global,
    near: &[Vec<usize>],
    group: &[usize],
) -> Result<Vec<usize>, NoMemory>
    requires { InRange near.now }
    ensures sound { IfOk result (λ all. (n : ℕ) → Contains all.items n → Reach group.now (row near.now) n) }
    ensures complete { IfOk result (λ all. (n : ℕ) → Reach group.now (row near.now) n → Contains all.items n) }
{
    let starts = in_rows(alloc, near, group)?;
    let found = reach_rows(alloc, near, &starts)?;
    let mut all = copied(alloc, group)?;
    all.extend_from_slice(&found)?;
    Ok(all)
}
