//! The numbers by which spreads lead to fragments. A spread of a name that one fragment has leads to that fragment's number. A name
//! that several fragments have has a number of its own, behind those of the fragments, with a row of the numbers of its fragments.
ghost use Rattle.std.specs.Prelude.{◌≡◌, ◌++◌, ◌<◌, IfOk, OnOk, flat_map, length, map};
ghost use Rattle.std.specs.List.{enumerate_from};
ghost use Rattle.gq_tree.specs.Names.{names_at};
ghost use Rattle.gq_tree.specs.Views.{name_of};
ghost use Rattle.gq_spreads.specs.Helping.Links.{is_single, link, links_of, group, group_at};
ghost use Rattle.gq_spreads.specs.Helping.Rows.{row_items};

use crate::fragment_names::FragmentNames;
use crate::name_rows::is_first_at;
use gq_text::NoMemory;
use gq_tree::Name;
use std::alloc::Global;

/// Whether one fragment alone has that name.
fn is_single(names: &FragmentNames, name: &str) -> bool
    ensures { result ≡ is_single names.now.names.items name.now }
{
    names.numbers(name).len() == 1
}

/// The number by which a spread of that name leads to its fragments, of which the first has the given number.
fn link(names: &FragmentNames, name: &str, first: usize) -> usize
    requires { first < length names.now.names.items }
    ensures { result ≡ link names.now.names.items name.now first }
{
    if is_single(names, name) {
        first
    } else {
        names.names.len() + first
    }
}

/// Puts the number by which a spread of that name leads to its fragments behind the others, if a fragment has the name.
fn put_link(names: &FragmentNames, name: &Name, row: &mut Vec<usize>) -> Result<(), NoMemory>
    ensures { OnOk result (row.new.items ≡ row.old.items ++ links_of names.now.names.items (name_of name.now)) }
{
    let text = name.text.as_str();
    match names.first_number(text) {
        Some(first) => {
            row.push(link(names, text, first))?;
            Ok(())
        }
        None => Ok(()),
    }
}

/// Puts the numbers by which spreads of these names lead to their fragments behind the others.
pub(crate) fn put_links(
    names: &FragmentNames,
    spread: &[&Name],
    row: &mut Vec<usize>,
) -> Result<(), NoMemory>
    ensures { OnOk result (row.new.items ≡ row.old.items ++ flat_map (links_of names.now.names.items) (names_at spread.now)) }
{
    for name in spread {
        put_link(names, name, row)?;
    }
    Ok(())
}

/// The numbers of the fragments of a name that several have, if the place is the first at which the name stands, and nothing
/// otherwise.
fn group(
    alloc: Global,
    names: &FragmentNames,
    place: usize,
    name: &str,
) -> Result<Vec<usize>, NoMemory>
    ensures { IfOk result (λ row. row.items ≡ group names.now.names.items place name.now) }
{
    let mut row = Vec::new(alloc);
    if is_first_at(names, place, name) && !is_single(names, name) {
        names.put_numbers(name, &mut row)?;
    }
    Ok(row)
}

/// Puts a row for each place among the names behind the others.
pub(crate) fn put_groups(
    alloc: Global,
    names: &FragmentNames,
    rows: &mut Vec<Vec<usize>>,
) -> Result<(), NoMemory>
    ensures { OnOk result (row_items rows.new.items ≡ row_items rows.old.items ++ map (group_at names.now.names.items) (enumerate_from 0 names.now.names.items)) }
{
    for (place, name) in names.names.iter().enumerate() {
        rows.push(group(alloc, names, place, name.as_str())?)?;
    }
    Ok(())
}
