//! The fragments that have to be gone over for the uses of variables: those in which one stands, and those that lead to such a
//! fragment by spreads.
ghost use Rattle.std.specs.Prelude.{◌≡◌, ◌<◌, ◌≤◌, All, IfOk, filter, length, map, slice_index_or, false};
ghost use Rattle.gq_graph.specs.Reach.{row, InRange};
ghost use Rattle.gq_types.specs.Look.{types_view};
ghost use Rattle.gq_document.specs.Definitions.{fragments_view};
ghost use Rattle.gq_document.specs.Executable.{executable_view};
ghost use Rattle.gq_spreads.specs.Spreads.{AreSpreads};
ghost use Rattle.gq_variables.specs.Helping.Leading.{numbers_with_uses, LeadToUses, AreLeading};
ghost use Rattle.gq_variables.specs.Helping.UsesPlaces.{fragment_uses};
ghost use Rattle.gq_variables.specs.Helping.Views.{rows_view};

use crate::uses::Use;
use gq_document::Executable;
use gq_graph::transposed::transposed;
use gq_graph::{mark_all, reach_rows};
use gq_spreads::Spreads;
use gq_text::NoMemory;
use std::alloc::Global;

/// The numbers of the rows in which a use stands.
fn numbers_with_uses(alloc: Global, rows: &[Vec<Use<'_>>]) -> Result<Vec<usize>, NoMemory>
    ensures { IfOk result (λ numbers. numbers.items ≡ numbers_with_uses 0 (rows_view rows.now)) }
{
    let mut numbers = Vec::new(alloc);
    for (number, row) in rows.iter().enumerate() {
        if !row.is_empty() {
            numbers.push(number)?;
        }
    }
    Ok(numbers)
}

/// A mark at each number that leads to a use. For each fragment there is a row of its uses.
fn marks_of(
    alloc: Global,
    spreads: &[Vec<usize>],
    rows: &[Vec<Use<'_>>],
) -> Result<Vec<bool>, NoMemory>
    requires range { InRange spreads.now }
    requires rows { length (rows_view rows.now) ≤ length spreads.now }
    ensures count { IfOk result (λ marks. length marks.items ≡ length spreads.now) }
    ensures marks { IfOk result (λ marks. LeadToUses (row spreads.now) (rows_view rows.now) marks.items) }
{
    let numbers = numbers_with_uses(alloc, rows)?;
    let back = transposed(alloc, spreads)?;
    let leading = reach_rows(alloc, &back, &numbers)?;
    let mut marks = vec![in alloc; false; spreads.len()]?;
    mark_all(&mut marks, &leading);
    Ok(marks)
}

/// Those of the numbers that are marked.
fn marked(alloc: Global, marks: &[bool], numbers: &[usize]) -> Result<Vec<usize>, NoMemory>
    requires { All (λ n. n < length marks.now) numbers.now }
    ensures { IfOk result (λ kept. kept.items ≡ filter (λ n. slice_index_or marks.now n false) numbers.now) }
{
    let mut kept = Vec::new(alloc);
    for number in numbers {
        if marks[*number] {
            kept.push(*number)?;
        }
    }
    Ok(kept)
}

/// The same of each row.
pub(crate) fn marked_rows(
    alloc: Global,
    marks: &[bool],
    rows: &[Vec<usize>],
) -> Result<Vec<Vec<usize>>, NoMemory>
    requires { All (λ v. All (λ n. n < length marks.now) v.items) rows.now }
    ensures { IfOk result (λ kept. map (λ v. v.items) kept.items ≡ map (λ v. filter (λ n. slice_index_or marks.now n false) v.items) rows.now) }
{
    let mut kept = Vec::new(alloc);
    for row in rows {
        kept.push(marked(alloc, marks, row)?)?;
    }
    Ok(kept)
}

/// The spreads of fragments that lead to a use. For each fragment there is a row of its uses.
pub(crate) fn leading_spreads(
    alloc: Global,
    executable: &Executable<'_>,
    spreads: &Spreads,
    rows: &[Vec<Use<'_>>],
) -> Result<Spreads, NoMemory>
    requires spreads { AreSpreads (executable_view executable.now) spreads.now }
    requires rows { rows_view rows.now ≡ map (fragment_uses (types_view executable.now.types.now)) (fragments_view executable.now.fragments.now) }
    ensures { IfOk result (λ leading. AreLeading (executable_view executable.now) leading) }
{
    let marks = marks_of(alloc, &spreads.of_fragments, rows)?;
    let of_operations = marked_rows(alloc, &marks, &spreads.of_operations)?;
    let of_fragments = marked_rows(alloc, &marks, &spreads.of_fragments)?;
    Ok(Spreads {
        of_operations,
        of_fragments,
    })
}
