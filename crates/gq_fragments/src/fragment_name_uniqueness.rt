//! Fragments whose name an earlier fragment has (GraphQL, October 2021, section 5.5.1.1).
ghost use Rattle.std.specs.Prelude.{◌≡◌, ◌++◌, [], OnOk};
ghost use Rattle.gq_document.specs.Definitions.{fragments_view};
ghost use Rattle.gq_fragments.specs.Helping.FragmentPlaces.{repeated_names};

use gq_document::FragmentEntry;
use gq_fault::{Code, Fault, add_fault, fault_at};
use gq_names::NameList;
use gq_text::NoMemory;
use std::alloc::Global;

/// Each name of a fragment that an earlier fragment has.
pub(crate) fn add_repeated_names(
    alloc: Global,
    fragments: &[FragmentEntry<'_>],
    faults: &mut Vec<Fault>,
) -> Result<(), NoMemory>
    ensures { OnOk result (faults.new.items ≡ faults.old.items ++ repeated_names [] (fragments_view fragments.now)) }
{
    let mut before = NameList::new(alloc);
    for fragment in fragments {
        let name = &fragment.definition.name;
        if !before.push(name.text.as_str())? {
            add_fault(
                fault_at(fragment.file, Code::FragmentNameNotUnique, name),
                faults,
            )?;
        }
    }
    Ok(())
}
