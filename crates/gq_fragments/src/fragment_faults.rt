//! All that is wrong with fragments by themselves, and where they may not be spread.
ghost use Rattle.std.specs.Prelude.{◌≡◌, ◌++◌, OnOk};
ghost use Rattle.gq_document.specs.Executable.{executable_view};
ghost use Rattle.gq_document.specs.Views.{selections_view};
ghost use Rattle.gq_fault.specs.Adds.{AddsExactly};
ghost use Rattle.gq_fragments.specs.FragmentFaults.{IsFragmentFault};
ghost use Rattle.gq_fragments.specs.Helping.FragmentPlaces.{faults_of_selections, fragment_faults};

use crate::conditions_by_name::conditions_by_name;
use crate::fragment_name_uniqueness::add_repeated_names;
use crate::fragment_spread_is_possible::add_impossible_spreads;
use crate::selections::fragment_selections_of;
use crate::type_conditions::{add_conditions_of_fragments, add_conditions_of_selections};
use gq_document::{Executable, Selected};
use gq_fault::Fault;
use gq_text::NoMemory;
use std::alloc::Global;

/// Adds each fault of a fragment by itself and of a spread by its types: a name of a fragment that an earlier
/// fragment has (section 5.5.1.1), a type condition that names no type (section 5.5.1.2) or no composite type (section
/// 5.5.1.3), a spread whose type condition has no object type in common with the parent (section 5.5.2.3). A fault stands
/// at the name or, for an inline fragment that is not possible, over its three dots.
pub fn add_fragment_faults(
    alloc: Global,
    executable: &Executable<'_>,
    faults: &mut Vec<Fault>,
) -> Result<(), NoMemory>
    ensures { OnOk result (AddsExactly (IsFragmentFault (executable_view executable.now)) faults.old.items faults.new.items) }
{
    add_each_rule(alloc, executable, faults)
}

/// The same, rule by rule.
fn add_each_rule(
    alloc: Global,
    executable: &Executable<'_>,
    faults: &mut Vec<Fault>,
) -> Result<(), NoMemory>
    ensures { OnOk result (faults.new.items ≡ faults.old.items ++ fragment_faults (executable_view executable.now)) }
{
    add_repeated_names(alloc, executable.fragments, faults)?;
    add_conditions_of_fragments(executable.types, executable.fragments, faults)?;
    let all = fragment_selections_of(alloc, executable)?;
    add_of_selections(alloc, executable, &all, faults)
}

/// What is wrong with these selections.
fn add_of_selections(
    alloc: Global,
    executable: &Executable<'_>,
    selections: &[Selected<'_>],
    faults: &mut Vec<Fault>,
) -> Result<(), NoMemory>
    ensures { OnOk result (faults.new.items ≡ faults.old.items ++ faults_of_selections (executable_view executable.now) (selections_view selections.now)) }
{
    let conditions = conditions_by_name(alloc, executable.fragments)?;
    add_conditions_of_selections(executable.types, selections, faults)?;
    add_impossible_spreads(alloc, executable, &conditions, selections, faults)
}
