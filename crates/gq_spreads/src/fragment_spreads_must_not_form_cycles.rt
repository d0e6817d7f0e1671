//! Fragment spreads must not form cycles (section 5.5.2.2), in time linear in the spreads: a spread leads back exactly if
//! its name and that of the fragment in which it stands are of one component.
ghost use Rattle.std.specs.Prelude.{◌≡◌, ◌++◌, OnOk, length};
ghost use Rattle.gq_fault.specs.Adds.{AddsExactly};
ghost use Rattle.gq_tree.specs.Names.{names_at};
ghost use Rattle.gq_tree.specs.Views.{name_of};
ghost use Rattle.gq_document.specs.Definitions.{fragment_view, fragments_view};
ghost use Rattle.gq_document.specs.Executable.{executable_view};
ghost use Rattle.gq_spreads.specs.FragmentSpreadsMustNotFormCycles.{IsFragmentCycle};
ghost use Rattle.gq_spreads.specs.Helping.FragmentSpreadsMustNotFormCyclesPlaces.{is_of, fragment_cycle, cycles_among, cycles_in, fragment_cycles};
ghost use Rattle.gq_spreads.specs.Helping.NameRows.{first_number};
ghost use Rattle.gq_spreads.specs.Helping.Rows.{texts};

use crate::fragment_names::FragmentNames;
use crate::name_rows::name_rows;
use gq_document::{Executable, FragmentEntry};
use gq_fault::{Code, Fault};
use gq_graph::components;
use gq_text::NoMemory;
use gq_tree::{Name, spread_names};
use std::alloc::Global;

/// Adds a fault at the name of each spread that leads back to its own fragment. The names are those of the fragments.
pub fn add_fragment_cycles(
    alloc: Global,
    executable: &Executable<'_>,
    names: &FragmentNames,
    faults: &mut Vec<Fault>,
) -> Result<(), NoMemory>
    requires names { names.now.names.items ≡ texts (fragments_view executable.now.fragments.now) }
    ensures { OnOk result (AddsExactly (IsFragmentCycle (executable_view executable.now)) faults.old.items faults.new.items) }
{
    let rows = name_rows(alloc, names, executable.fragments)?;
    let components = components(alloc, &rows)?;
    add_cycles(alloc, executable.fragments, names, &components, faults)
}

/// The faults of the spreads in these fragments. For the number of each name there is its component.
fn add_cycles(
    alloc: Global,
    fragments: &[FragmentEntry<'_>],
    names: &FragmentNames,
    components: &[usize],
    faults: &mut Vec<Fault>,
) -> Result<(), NoMemory>
    requires { length components.now ≡ length names.now.names.items }
    ensures { OnOk result (faults.new.items ≡ faults.old.items ++ fragment_cycles names.now.names.items components.now (fragments_view fragments.now)) }
{
    for fragment in fragments {
        add_cycles_in(alloc, fragment, names, components, faults)?;
    }
    Ok(())
}

/// The faults of the spreads in the fragment.
fn add_cycles_in(
    alloc: Global,
    fragment: &FragmentEntry<'_>,
    names: &FragmentNames,
    components: &[usize],
    faults: &mut Vec<Fault>,
) -> Result<(), NoMemory>
    requires { length components.now ≡ length names.now.names.items }
    ensures { OnOk result (faults.new.items ≡ faults.old.items ++ cycles_in names.now.names.items components.now (fragment_view fragment.now)) }
{
    match names.first_number(fragment.definition.name.text.as_str()) {
        Some(number) => {
            let spread = spread_names(alloc, &fragment.definition.set.items)?;
            let component = components[number];
            add_cycles_among(fragment.file, component, &spread, names, components, faults)
        }
        None => Ok(()),
    }
}

/// The faults of these spreads, which stand in a fragment with a name of that component.
fn add_cycles_among(
    file: usize,
    component: usize,
    spread: &[&Name],
    names: &FragmentNames,
    components: &[usize],
    faults: &mut Vec<Fault>,
) -> Result<(), NoMemory>
    requires { length components.now ≡ length names.now.names.items }
    ensures { OnOk result (faults.new.items ≡ faults.old.items ++ cycles_among names.now.names.items components.now component file (names_at spread.now)) }
{
    for name in spread {
        add_cycle(file, component, name, names, components, faults)?;
    }
    Ok(())
}

/// The fault of a spread of that name, if the name is of the component.
fn add_cycle(
    file: usize,
    component: usize,
    name: &Name,
    names: &FragmentNames,
    components: &[usize],
    faults: &mut Vec<Fault>,
) -> Result<(), NoMemory>
    requires { length components.now ≡ length names.now.names.items }
    ensures { OnOk result (faults.new.items ≡ faults.old.items ++ fragment_cycle names.now.names.items components.now component file (name_of name.now)) }
{
    if is_of(components, component, names, name.text.as_str()) {
        faults.push(Fault {
            file,
            start: name.span.start,
            code: Code::FragmentCycle,
            end: name.span.end,
        })?;
    }
    Ok(())
}

/// Whether a fragment has the name, and it is of the component.
fn is_of(components: &[usize], component: usize, names: &FragmentNames, name: &str) -> bool
    requires { length components.now ≡ length names.now.names.items }
    ensures { result ≡ is_of components.now component (first_number names.now.names.items name.now) }
{
    match names.first_number(name) {
        Some(number) => components[number] == component,
        None => false,
    }
}
