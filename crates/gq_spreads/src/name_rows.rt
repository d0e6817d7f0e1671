//! Which names of fragments lead to which by spreads: one row for all fragments of a name, however many there are. A name has
//! the number of the first fragment that has it.
ghost use Rattle.std.specs.Prelude.{◌≡◌, ◌++◌, IfOk, OnOk, flat_map, map};
ghost use Rattle.std.specs.List.{enumerate_from};
ghost use Rattle.gq_tree.specs.Names.{names_at};
ghost use Rattle.gq_tree.specs.Views.{name_of};
ghost use Rattle.gq_document.specs.Definitions.{fragments_view};
ghost use Rattle.gq_spreads.specs.Helping.NameRows.{first_numbers_of, first_numbers, spreads_at, is_first_at, name_row, row_at, AreNameRows};
ghost use Rattle.gq_spreads.specs.Helping.Rows.{texts, row_items};

use crate::fragment_names::FragmentNames;
use gq_document::FragmentEntry;
use gq_text::NoMemory;
use gq_tree::{Name, spread_names};
use std::alloc::Global;

/// Puts the number of that name behind the others, if a fragment has it.
fn put_number(names: &FragmentNames, name: &Name, row: &mut Vec<usize>) -> Result<(), NoMemory>
    ensures { OnOk result (row.new.items ≡ row.old.items ++ first_numbers_of names.now.names.items (name_of name.now)) }
{
    match names.first_number(name.text.as_str()) {
        Some(number) => {
            row.push(number)?;
            Ok(())
        }
        None => Ok(()),
    }
}

/// Puts the numbers of these names behind the others.
fn put_numbers(
    names: &FragmentNames,
    spread: &[&Name],
    row: &mut Vec<usize>,
) -> Result<(), NoMemory>
    ensures { OnOk result (row.new.items ≡ row.old.items ++ first_numbers names.now.names.items (names_at spread.now)) }
{
    for name in spread {
        put_number(names, name, row)?;
    }
    Ok(())
}

/// Puts the numbers of the names that are spread in the fragment at that place behind the others.
fn put_spreads_at(
    alloc: Global,
    names: &FragmentNames,
    fragments: &[FragmentEntry<'_>],
    place: usize,
    row: &mut Vec<usize>,
) -> Result<(), NoMemory>
    ensures { OnOk result (row.new.items ≡ row.old.items ++ spreads_at names.now.names.items (fragments_view fragments.now) place) }
{
    match fragments.get(place) {
        Some(fragment) => {
            let spread = spread_names(alloc, &fragment.definition.set.items)?;
            put_numbers(names, &spread, row)
        }
        None => Ok(()),
    }
}

/// Puts the numbers of the names that are spread in the fragments at these places behind the others.
fn put_spreads(
    alloc: Global,
    names: &FragmentNames,
    fragments: &[FragmentEntry<'_>],
    places: &[usize],
    row: &mut Vec<usize>,
) -> Result<(), NoMemory>
    ensures { OnOk result (row.new.items ≡ row.old.items ++ flat_map (spreads_at names.now.names.items (fragments_view fragments.now)) places.now) }
{
    for place in places {
        put_spreads_at(alloc, names, fragments, *place, row)?;
    }
    Ok(())
}

/// What the name leads to, if the place is the first at which it stands, and nothing otherwise.
fn row_at(
    alloc: Global,
    names: &FragmentNames,
    fragments: &[FragmentEntry<'_>],
    place: usize,
    name: &str,
) -> Result<Vec<usize>, NoMemory>
    ensures { IfOk result (λ row. row.items ≡ name_row names.now.names.items (fragments_view fragments.now) place name.now) }
{
    let mut row = Vec::new(alloc);
    if is_first_at(names, place, name) {
        put_spreads(alloc, names, fragments, names.numbers(name), &mut row)?;
    }
    Ok(row)
}

/// Whether the place is the first of that name.
pub(crate) fn is_first_at(names: &FragmentNames, place: usize, name: &str) -> bool
    ensures { result ≡ is_first_at names.now.names.items place name.now }
{
    match names.first_number(name) {
        Some(number) => number == place,
        None => false,
    }
}

/// A row for each place among the names.
fn rows_of(
    alloc: Global,
    names: &FragmentNames,
    fragments: &[FragmentEntry<'_>],
) -> Result<Vec<Vec<usize>>, NoMemory>
    ensures { IfOk result (λ rows. row_items rows.items ≡ map (row_at names.now.names.items (fragments_view fragments.now)) (enumerate_from 0 names.now.names.items)) }
{
    let mut rows = Vec::new(alloc);
    for (place, name) in names.names.iter().enumerate() {
        rows.push(row_at(alloc, names, fragments, place, name.as_str())?)?;
    }
    Ok(rows)
}

/// For each name of a fragment, in the row of its number, the numbers of the names that are spread in fragments of that name.
/// The names are those of the fragments.
pub(crate) fn name_rows(
    alloc: Global,
    names: &FragmentNames,
    fragments: &[FragmentEntry<'_>],
) -> Result<Vec<Vec<usize>>, NoMemory>
    requires { names.now.names.items ≡ texts (fragments_view fragments.now) }
    ensures { IfOk result (λ rows. AreNameRows (fragments_view fragments.now) rows.items) }
{
    rows_of(alloc, names, fragments)
}
