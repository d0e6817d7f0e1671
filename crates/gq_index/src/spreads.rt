//! Which fragments each definition spreads, by the numbers of the definitions.
ghost use Rattle.std.specs.Prelude.{◌≡◌, IfOk, flat_map, map};
ghost use Rattle.gq_graph.specs.Reach.{InRange};
ghost use Rattle.gq_types.specs.Entries.{Text};
ghost use Rattle.gq_index.specs.Helping.PlacedParts.{placed_view, operations_at};
ghost use Rattle.gq_index.specs.Helping.SpreadNumbers.{fragment_numbers, rows_under, spread_rows};
ghost use Rattle.gq_index.specs.Helping.SpreadPlaces.{ArePlaces, all_spreads, numbers_at};
ghost use Rattle.gq_index.specs.Helping.StandingParts.{numbers_under_names};
ghost use Rattle.gq_index.specs.Standing.{stands};

use crate::fragments::Fragments;
use crate::placed::Placed;
use gq_text::NoMemory;
use std::alloc::Global;

/// The numbers of the fragments of the names that have these places, one name after the other.
fn numbers_of(
    alloc: Global,
    places: &[usize],
    fragments: &Fragments,
) -> Result<Vec<usize>, NoMemory>
    ensures { IfOk result (λ row. row.items ≡ flat_map (numbers_at fragments.now) places.now) }
{
    let mut row = Vec::with_capacity(alloc, places.len())?;
    for place in places {
        row.extend_from_slice(fragments.numbers_at(*place))?;
    }
    Ok(row)
}

/// For each part the numbers of the fragments that it spreads, where the names of the parts stand so, and those in spreads
/// have these places.
pub(crate) fn spread_rows(
    alloc: Global,
    parts: &[Placed<'_>],
    places: &[usize],
    fragments: &Fragments,
) -> Result<Vec<Vec<usize>>, NoMemory>
    requires places { ArePlaces fragments.now.names (all_spreads (placed_view parts.now)) places.now }
    requires stand { (text : Text) → (stands fragments.now text).numbers ≡ fragment_numbers 0 (placed_view parts.now) text }
    ensures rows { IfOk result (λ rows. map (λ v. v.items) rows.items ≡ spread_rows (placed_view parts.now)) }
    ensures range { IfOk result (λ rows. InRange rows.items) }
{
    let rows = rows_of(alloc, parts, places, fragments)?;
    Ok(rows)
}

/// For each part the numbers of the fragments of the names that it spreads, which have these places.
fn rows_of(
    alloc: Global,
    parts: &[Placed<'_>],
    places: &[usize],
    fragments: &Fragments,
) -> Result<Vec<Vec<usize>>, NoMemory>
    requires { ArePlaces fragments.now.names (all_spreads (placed_view parts.now)) places.now }
    ensures { IfOk result (λ rows. map (λ v. v.items) rows.items ≡ rows_under (numbers_under_names fragments.now) (placed_view parts.now)) }
{
    let mut rows = Vec::with_capacity(alloc, parts.len())?;
    let mut rest = places;
    for one in parts {
        let (own, others) = rest.split_at(one.spreads.len());
        rows.push(numbers_of(alloc, own, fragments)?)?;
        rest = others;
    }
    Ok(rows)
}

/// Whether each part is an operation.
pub(crate) fn are_operations(alloc: Global, parts: &[Placed<'_>]) -> Result<Vec<bool>, NoMemory>
    ensures { IfOk result (λ marks. marks.items ≡ operations_at (placed_view parts.now)) }
{
    let mut marks = Vec::with_capacity(alloc, parts.len())?;
    for one in parts {
        marks.push(one.is_operation)?;
    }
    Ok(marks)
}
