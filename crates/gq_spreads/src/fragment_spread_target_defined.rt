//! Fragment spread target defined (section 5.5.2.1).
ghost use Rattle.std.specs.Prelude.{◌≡◌, ◌++◌, OnOk};
ghost use Rattle.gq_fault.specs.Adds.{AddsExactly};
ghost use Rattle.gq_tree.specs.Names.{names_at};
ghost use Rattle.gq_tree.specs.Views.{name_of, sels_view};
ghost use Rattle.gq_document.specs.Definitions.{operations_view, fragments_view};
ghost use Rattle.gq_document.specs.Executable.{executable_view};
ghost use Rattle.gq_spreads.specs.FragmentSpreadTargetDefined.{IsUnknownFragment};
ghost use Rattle.gq_spreads.specs.Helping.FragmentSpreadTargetDefinedPlaces.{unknown_fragment, unknown_among, unknown_in, unknown_in_operations, unknown_in_fragments};
ghost use Rattle.gq_spreads.specs.Helping.Rows.{texts};

use crate::fragment_names::FragmentNames;
use gq_document::{Executable, FragmentEntry, OperationEntry};
use gq_fault::{Code, Fault};
use gq_text::NoMemory;
use gq_tree::{Name, Selection, spread_names};
use std::alloc::Global;

/// Adds a fault at each name of a spread that no fragment has. The names are those of the fragments.
pub fn add_unknown_fragments(
    alloc: Global,
    executable: &Executable<'_>,
    names: &FragmentNames,
    faults: &mut Vec<Fault>,
) -> Result<(), NoMemory>
    requires names { names.now.names.items ≡ texts (fragments_view executable.now.fragments.now) }
    ensures { OnOk result (AddsExactly (IsUnknownFragment (executable_view executable.now)) faults.old.items faults.new.items) }
{
    add_unknown_in_operations(alloc, executable.operations, names, faults)?;
    add_unknown_in_fragments(alloc, executable.fragments, names, faults)
}

fn add_unknown_in_operations(
    alloc: Global,
    operations: &[OperationEntry<'_>],
    names: &FragmentNames,
    faults: &mut Vec<Fault>,
) -> Result<(), NoMemory>
    ensures { OnOk result (faults.new.items ≡ faults.old.items ++ unknown_in_operations names.now.names.items (operations_view operations.now)) }
{
    for operation in operations {
        let selections = &operation.definition.set.items;
        add_unknown_in(alloc, operation.file, selections, names, faults)?;
    }
    Ok(())
}

fn add_unknown_in_fragments(
    alloc: Global,
    fragments: &[FragmentEntry<'_>],
    names: &FragmentNames,
    faults: &mut Vec<Fault>,
) -> Result<(), NoMemory>
    ensures { OnOk result (faults.new.items ≡ faults.old.items ++ unknown_in_fragments names.now.names.items (fragments_view fragments.now)) }
{
    for fragment in fragments {
        let selections = &fragment.definition.set.items;
        add_unknown_in(alloc, fragment.file, selections, names, faults)?;
    }
    Ok(())
}

/// The faults of the selections of an operation or a fragment in that document.
fn add_unknown_in(
    alloc: Global,
    file: usize,
    selections: &[Selection],
    names: &FragmentNames,
    faults: &mut Vec<Fault>,
) -> Result<(), NoMemory>
    ensures { OnOk result (faults.new.items ≡ faults.old.items ++ unknown_in names.now.names.items file (sels_view selections.now)) }
{
    add_unknown_among(file, &spread_names(alloc, selections)?, names, faults)
}

fn add_unknown_among(
    file: usize,
    spread: &[&Name],
    names: &FragmentNames,
    faults: &mut Vec<Fault>,
) -> Result<(), NoMemory>
    ensures { OnOk result (faults.new.items ≡ faults.old.items ++ unknown_among names.now.names.items file (names_at spread.now)) }
{
    for name in spread {
        add_unknown(file, name, names, faults)?;
    }
    Ok(())
}

/// The fault of the name, if no fragment has it.
fn add_unknown(
    file: usize,
    name: &Name,
    names: &FragmentNames,
    faults: &mut Vec<Fault>,
) -> Result<(), NoMemory>
    ensures { OnOk result (faults.new.items ≡ faults.old.items ++ unknown_fragment names.now.names.items file (name_of name.now)) }
{
    if !names.contains(name.text.as_str()) {
        faults.push(Fault {
            file,
            start: name.span.start,
            code: Code::UnknownFragment,
            end: name.span.end,
        })?;
    }
    Ok(())
}
