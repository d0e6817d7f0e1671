//! Fragments must be used (section 5.5.1.4).
ghost use Rattle.std.specs.Prelude.{◌≡◌, ◌++◌, flat_map, map, IfOk, OnOk};
ghost use Rattle.gq_fault.specs.Adds.{AddsExactly};
ghost use Rattle.gq_tree.specs.Names.{names_at};
ghost use Rattle.gq_tree.specs.Views.{sels_view};
ghost use Rattle.gq_document.specs.Definitions.{operations_view, fragment_view, fragments_view};
ghost use Rattle.gq_document.specs.Executable.{executable_view};
ghost use Rattle.gq_spreads.specs.FragmentsMustBeUsed.{IsUnusedFragment};
ghost use Rattle.gq_spreads.specs.Helping.FragmentsMustBeUsedPlaces.{spread_texts, texts_of_operation, texts_of_fragment, all_spread_texts, unused_if, unused_fragments};

use gq_document::{Executable, FragmentEntry, OperationEntry};
use gq_fault::{Code, Fault};
use gq_names::NameList;
use gq_text::NoMemory;
use gq_tree::{Name, Selection, spread_names};
use std::alloc::Global;

/// Adds a fault at the name of each fragment that is spread nowhere.
pub fn add_unused_fragments(
    alloc: Global,
    executable: &Executable<'_>,
    faults: &mut Vec<Fault>,
) -> Result<(), NoMemory>
    ensures { OnOk result (AddsExactly (IsUnusedFragment (executable_view executable.now)) faults.old.items faults.new.items) }
{
    let spread = all_spread_names(alloc, executable)?;
    add_unspread(executable.fragments, &spread, faults)
}

/// The names of all spreads.
fn all_spread_names(alloc: Global, executable: &Executable<'_>) -> Result<NameList, NoMemory>
    ensures { IfOk result (λ spread. spread ≡ all_spread_texts (executable_view executable.now)) }
{
    let mut spread = NameList::new(alloc);
    put_of_operations(alloc, executable.operations, &mut spread)?;
    put_of_fragments(alloc, executable.fragments, &mut spread)?;
    Ok(spread)
}

/// Puts the names that are spread in operations behind the others.
fn put_of_operations(
    alloc: Global,
    operations: &[OperationEntry<'_>],
    spread: &mut NameList,
) -> Result<(), NoMemory>
    ensures { OnOk result (spread.new ≡ spread.old ++ flat_map texts_of_operation (operations_view operations.now)) }
{
    for operation in operations {
        put_of_selections(alloc, &operation.definition.set.items, spread)?;
    }
    Ok(())
}

/// Puts the names that are spread in fragments behind the others.
fn put_of_fragments(
    alloc: Global,
    fragments: &[FragmentEntry<'_>],
    spread: &mut NameList,
) -> Result<(), NoMemory>
    ensures { OnOk result (spread.new ≡ spread.old ++ flat_map texts_of_fragment (fragments_view fragments.now)) }
{
    for fragment in fragments {
        put_of_selections(alloc, &fragment.definition.set.items, spread)?;
    }
    Ok(())
}

/// Puts the names that are spread in selections behind the others.
fn put_of_selections(
    alloc: Global,
    selections: &[Selection],
    spread: &mut NameList,
) -> Result<(), NoMemory>
    ensures { OnOk result (spread.new ≡ spread.old ++ spread_texts (sels_view selections.now)) }
{
    put_names(&spread_names(alloc, selections)?, spread)
}

/// Puts these names behind the others.
fn put_names(names: &[&Name], spread: &mut NameList) -> Result<(), NoMemory>
    ensures { OnOk result (spread.new ≡ spread.old ++ map (λ n. n.text) (names_at names.now)) }
{
    for name in names {
        spread.add(name.text.as_str())?;
    }
    Ok(())
}

/// Adds a fault for each fragment whose name is not among those that are spread.
fn add_unspread(
    fragments: &[FragmentEntry<'_>],
    spread: &NameList,
    faults: &mut Vec<Fault>,
) -> Result<(), NoMemory>
    ensures { OnOk result (faults.new.items ≡ faults.old.items ++ unused_fragments spread.now (fragments_view fragments.now)) }
{
    for fragment in fragments {
        add_unless_spread(fragment, spread, faults)?;
    }
    Ok(())
}

/// Adds the fragment's fault, unless its name is among those that are spread.
fn add_unless_spread(
    fragment: &FragmentEntry<'_>,
    spread: &NameList,
    faults: &mut Vec<Fault>,
) -> Result<(), NoMemory>
    ensures { OnOk result (faults.new.items ≡ faults.old.items ++ unused_if spread.now (fragment_view fragment.now)) }
{
    let name = &fragment.definition.name;
    if !spread.contains(name.text.as_str()) {
        faults.push(Fault {
            file: fragment.file,
            start: name.span.start,
            code: Code::FragmentNotUsed,
            end: name.span.end,
        })?;
    }
    Ok(())
}
