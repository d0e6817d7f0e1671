//! All that is wrong with fragments and their spreads.
ghost use Rattle.std.specs.Prelude.{OnOk};
ghost use Rattle.gq_fault.specs.Adds.{AddsExactly};
ghost use Rattle.gq_document.specs.Executable.{executable_view};
ghost use Rattle.gq_spreads.specs.SpreadFaults.{IsSpreadFault};
ghost use Rattle.gq_spreads.specs.Spreads.{AreSpreads};

use crate::fragment_names::FragmentNames;
use crate::fragment_spread_target_defined::add_unknown_fragments;
use crate::fragment_spreads_must_not_form_cycles::add_fragment_cycles;
use crate::fragments_must_be_used::add_unused_fragments;
use crate::spreads::Spreads;
use gq_document::Executable;
use gq_fault::Fault;
use gq_text::NoMemory;
use std::alloc::Global;

/// Adds a fault at each fragment that is not used (section 5.5.1.4), each spread of an unknown fragment (section 5.5.2.1)
/// and each spread that leads back to its own fragment (section 5.5.2.2): behind the others, in no certain order. The
/// spreads are those of the operations and fragments.
pub fn add_spread_faults(
    alloc: Global,
    executable: &Executable<'_>,
    spreads: &Spreads,
    faults: &mut Vec<Fault>,
) -> Result<(), NoMemory>
    requires spreads { AreSpreads (executable_view executable.now) spreads.now }
    ensures { OnOk result (AddsExactly (IsSpreadFault (executable_view executable.now)) faults.old.items faults.new.items) }
{
    add_unused_fragments(alloc, executable, faults)?;
    let names = FragmentNames::of(alloc, executable.fragments)?;
    add_unknown_fragments(alloc, executable, &names, faults)?;
    add_fragment_cycles(alloc, executable, &names, faults)
}
