//! What is wrong with a type system and, where nothing is, with the operations and fragments over it.
ghost use Rattle.std.specs.Prelude.{[], IfOk, OnOk};
ghost use Rattle.gq_tree.specs.Readings.{unshared_view};
ghost use Rattle.gq_document.specs.Executable.{executable_view};
ghost use Rattle.gq_rules.specs.Project.{defined_in};
ghost use Rattle.gq_rules.specs.Helping.Wrongs.{PutsWrong};

use crate::rule_faults::rule_faults;
use gq_document::{Definitions, Executable};
use gq_fault::Fault;
use gq_text::NoMemory;
use gq_tree::Parsed;
use gq_type_system::schema_faults;
use gq_types::{Entry, Types};
use std::alloc::Global;

/// Puts what is wrong with the type system that is defined and, where nothing is told by then, what the rules tell of the
/// operations and fragments that documents are read as.
pub fn add_wrong(
    alloc: Global,
    entries: Vec<Entry>,
    readings: &[Parsed],
    faults: &mut Vec<Fault>,
) -> Result<(), NoMemory>
    ensures { OnOk result (PutsWrong (defined_in entries.items (unshared_view readings.now)) faults.old.items faults.new.items) }
{
    let types = Types::of(alloc, entries)?;
    let definitions = Definitions::of(alloc, readings)?;
    let executable = Executable {
        types: &types,
        operations: &definitions.operations,
        fragments: &definitions.fragments,
    };
    add_wrong_in(alloc, &executable, faults)?;
    Ok(())
}

/// The same for the types that are looked up.
pub(crate) fn add_wrong_in(
    alloc: Global,
    executable: &Executable<'_>,
    faults: &mut Vec<Fault>,
) -> Result<(), NoMemory>
    ensures { OnOk result (PutsWrong (executable_view executable.now) faults.old.items faults.new.items) }
{
    if faults.is_empty() {
        let mut wrong = first_wrong(alloc, executable)?;
        faults.append(&mut wrong)?;
        return Ok(());
    }
    let mut wrong = schema_faults(alloc, executable.types)?;
    faults.append(&mut wrong)?;
    Ok(())
}

/// The same where nothing is told by then.
fn first_wrong(alloc: Global, executable: &Executable<'_>) -> Result<Vec<Fault>, NoMemory>
    ensures { IfOk result (λ faults. PutsWrong (executable_view executable.now) [] faults.items) }
{
    let wrong = schema_faults(alloc, executable.types)?;
    if wrong.is_empty() {
        return rule_faults(alloc, executable);
    }
    Ok(wrong)
}
