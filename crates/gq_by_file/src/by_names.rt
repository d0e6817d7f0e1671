//! What is told of the names of operations and fragments in all files (GraphQL, October 2021, sections 5.2.1.1, 5.2.2.1,
//! 5.5.1.1 and 5.5.1.4).
ghost use Rattle.std.specs.Prelude.{◌≡◌, ◌++◌, ◌↔◌, [], Contains, IfOk, OnOk, flat_map};
ghost use Rattle.gq_fault.specs.declared.fault.Fault.{Fault};
ghost use Rattle.gq_document.specs.Definitions.{fragments_view};
ghost use Rattle.gq_document.specs.Executable.{executable_view};
ghost use Rattle.gq_fragments.specs.Helping.FragmentPlaces.{repeated_names};
ghost use Rattle.gq_by_file.specs.Closed.RestsOnNames.{IsFaultByNames};
ghost use Rattle.gq_by_file.specs.Helping.ByNames.{AreSpreadsOf, IsNamedOperationFault, all_spreads, unused_if};

use crate::closed_sets::faults_by_names_are_by_rules;
use crate::names::FileNames;
use crate::part::resting;
use gq_document::{Executable, FragmentEntry};
use gq_fault::{Code, Fault, add_fault, fault_at};
use gq_fragments::add_operation_faults;
use gq_names::NameList;
use gq_text::{NoMemory, SmallText};
use std::alloc::Global;

/// The operations that share a name, and those without one beside others.
fn found_of_operations(alloc: Global, executable: &Executable<'_>) -> Result<Vec<Fault>, NoMemory>
    ensures { IfOk result (λ faults. (fault : Fault) → Contains faults.items fault ↔ IsNamedOperationFault (executable_view executable.now) fault) }
{
    let mut faults = Vec::new(alloc);
    add_operation_faults(alloc, executable, &mut faults)?;
    let named = resting(alloc, &faults, true)?;
    Ok(named)
}

/// Adds a fault at each name of a fragment that an earlier fragment has.
fn add_repeated(
    alloc: Global,
    fragments: &[FragmentEntry<'_>],
    faults: &mut Vec<Fault>,
) -> Result<(), NoMemory>
    ensures { OnOk result (faults.new.items ≡ faults.old.items ++ repeated_names [] (fragments_view fragments.now)) }
{
    let mut before = NameList::new(alloc);
    for fragment in fragments {
        let name = &fragment.definition.name;
        if !before.push(name.text.as_str())? {
            add_fault(
                fault_at(fragment.file, Code::FragmentNameNotUnique, name),
                faults,
            )?;
        }
    }
    Ok(())
}

/// The names of the spreads in all files.
fn spread_list(alloc: Global, names: &[FileNames]) -> Result<NameList, NoMemory>
    ensures { IfOk result (λ spread. spread ≡ all_spreads names.now) }
{
    let mut spread = NameList::new(alloc);
    for one in names {
        put_names(&one.spreads, &mut spread)?;
    }
    Ok(spread)
}

/// Puts these names behind the others.
pub(crate) fn put_names(names: &[SmallText], all: &mut NameList) -> Result<(), NoMemory>
    ensures { OnOk result (all.new ≡ all.old ++ names.now) }
{
    for name in names {
        all.add(name.as_str())?;
    }
    Ok(())
}

/// Adds a fault at the name of each fragment that is not among those that are spread.
fn add_unused(
    fragments: &[FragmentEntry<'_>],
    spread: &NameList,
    faults: &mut Vec<Fault>,
) -> Result<(), NoMemory>
    ensures { OnOk result (faults.new.items ≡ faults.old.items ++ flat_map (unused_if spread.now) (fragments_view fragments.now)) }
{
    for fragment in fragments {
        let name = &fragment.definition.name;
        if !spread.contains(name.text.as_str()) {
            add_fault(fault_at(fragment.file, Code::FragmentNotUsed, name), faults)?;
        }
    }
    Ok(())
}

/// What is told of names, where those of the spreads in all files are given.
pub(crate) fn found_by_names(
    alloc: Global,
    executable: &Executable<'_>,
    names: &[FileNames],
) -> Result<Vec<Fault>, NoMemory>
    ensures { IfOk result (λ faults. AreSpreadsOf (executable_view executable.now) (all_spreads names.now)
        → (fault : Fault) → Contains faults.items fault ↔ IsFaultByNames (executable_view executable.now) fault) }
{
    faults_by_names_are_by_rules();
    let mut faults = found_of_operations(alloc, executable)?;
    add_repeated(alloc, executable.fragments, &mut faults)?;
    let spread = spread_list(alloc, names)?;
    add_unused(executable.fragments, &spread, &mut faults)?;
    Ok(faults)
}
