//! Which fragments are spread in each operation and each fragment, and which an operation reaches.
ghost use Rattle.std.specs.Prelude.{◌≡◌, ◌<◌, IfOk, filter, length, map};
ghost use Rattle.std.specs.Bool.{nat_lt};
ghost use Rattle.gq_graph.specs.Reach.{NoneTwice};
ghost use Rattle.gq_tree.specs.Views.{sels_view};
ghost use Rattle.gq_document.specs.Definitions.{operations_view, fragments_view};
ghost use Rattle.gq_document.specs.Executable.{executable_view};
ghost use Rattle.gq_spreads.specs.Helping.Links.{links, operation_links, fragment_links};
ghost use Rattle.gq_spreads.specs.Helping.Rows.{row_items};
ghost use Rattle.gq_spreads.specs.Spreads.{AreSpreads, AreShort, AreReached};

use crate::fragment_names::FragmentNames;
use crate::links::{put_groups, put_links};
use gq_document::{Executable, FragmentEntry, OperationEntry};
use gq_graph::reach_rows;
use gq_text::NoMemory;
use gq_tree::{Selection, spread_names};
use std::alloc::Global;

/// For each operation and each fragment a row of numbers that leads to the fragments that are spread in it. A fragment's number is
/// its place among all fragments, from 0. Numbers behind these are those of names that several fragments have: each leads to the
/// fragments of its name by a row of its own behind those of fragments. So there are no more numbers in the rows than spreads and
/// fragments.
#[derive(Drop)]
pub struct Spreads {
    pub of_operations: Vec<Vec<usize>>,
    pub of_fragments: Vec<Vec<usize>>,
}

impl Spreads {
    /// Where the fragments are spread.
    pub fn of(alloc: Global, executable: &Executable<'_>) -> Result<Spreads, NoMemory>
        ensures are { IfOk result (λ spreads. AreSpreads (executable_view executable.now) spreads) }
        ensures short { IfOk result (λ spreads. AreShort (executable_view executable.now) spreads) }
    {
        let names = FragmentNames::of(alloc, executable.fragments)?;
        let of_operations = operation_rows(alloc, &names, executable.operations)?;
        let mut of_fragments = fragment_rows(alloc, &names, executable.fragments)?;
        put_groups(alloc, &names, &mut of_fragments)?;
        Ok(Spreads {
            of_operations,
            of_fragments,
        })
    }
}

/// A row for each operation.
fn operation_rows(
    alloc: Global,
    names: &FragmentNames,
    operations: &[OperationEntry<'_>],
) -> Result<Vec<Vec<usize>>, NoMemory>
    ensures { IfOk result (λ rows. row_items rows.items ≡ map (operation_links names.now.names.items) (operations_view operations.now)) }
{
    let mut rows = Vec::new(alloc);
    for operation in operations {
        rows.push(links_in(alloc, names, &operation.definition.set.items)?)?;
    }
    Ok(rows)
}

/// A row for each fragment.
fn fragment_rows(
    alloc: Global,
    names: &FragmentNames,
    fragments: &[FragmentEntry<'_>],
) -> Result<Vec<Vec<usize>>, NoMemory>
    ensures { IfOk result (λ rows. row_items rows.items ≡ map (fragment_links names.now.names.items) (fragments_view fragments.now)) }
{
    let mut rows = Vec::new(alloc);
    for fragment in fragments {
        rows.push(links_in(alloc, names, &fragment.definition.set.items)?)?;
    }
    Ok(rows)
}

/// The numbers by which the spreads in the selections lead to fragments.
fn links_in(
    alloc: Global,
    names: &FragmentNames,
    selections: &[Selection],
) -> Result<Vec<usize>, NoMemory>
    ensures { IfOk result (λ row. row.items ≡ links names.now.names.items (sels_view selections.now)) }
{
    let mut row = Vec::new(alloc);
    put_links(names, &spread_names(alloc, selections)?, &mut row)?;
    Ok(row)
}

/// Those of the numbers that are below the count.
fn below(alloc: Global, count: usize, numbers: &[usize]) -> Result<Vec<usize>, NoMemory>
    ensures { IfOk result (λ all. all.items ≡ filter (λ n. nat_lt n count) numbers.now) }
{
    let mut all = Vec::new(alloc);
    for number in numbers {
        if *number < count {
            all.push(*number)?;
        }
    }
    Ok(all)
}

/// The numbers of the fragments that the operation with that number reaches, each once.
pub fn reached_fragments(
    alloc: Global,
    executable: &Executable<'_>,
    spreads: &Spreads,
    operation: usize,
) -> Result<Vec<usize>, NoMemory>
    requires spreads { AreSpreads (executable_view executable.now) spreads.now }
    requires operation { operation < length (operations_view executable.now.operations.now) }
    ensures reached { IfOk result (λ numbers. AreReached (executable_view executable.now) operation numbers.items) }
    ensures once { IfOk result (λ numbers. NoneTwice numbers.items) }
{
    let starts = &spreads.of_operations[operation];
    let found = reach_rows(alloc, &spreads.of_fragments, starts)?;
    below(alloc, executable.fragments.len(), &found)
}
