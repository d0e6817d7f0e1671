//! What is told of a file by itself, and rests on it and the type system alone.
ghost use Rattle.std.specs.Prelude.{◌≡◌, ◌↔◌, ◌++◌, [], Contains, IfOk, OnOk, filter, map};
ghost use Rattle.gq_tree.specs.Readings.{parsed_view};
ghost use Rattle.gq_types.specs.Look.{types_view};
ghost use Rattle.gq_fault.specs.declared.fault.Fault.{Fault};
ghost use Rattle.gq_fault.specs.Adds.{AddsExactly};
ghost use Rattle.gq_document.specs.Executable.{executable_view};
ghost use Rattle.gq_rules.specs.Files.{alone, in_file, IsLocalFault};
ghost use Rattle.gq_rules.specs.RestsOnFile.{rests_on_file};
ghost use Rattle.gq_by_file.specs.Helping.Alone.{IsToldAlone};

use gq_document::{Definitions, Executable};
use gq_fault::Fault;
use gq_fields::add_field_faults;
use gq_fragments::{add_condition_faults, add_operation_faults};
use gq_rules::by_file::rests_on_file;
use gq_text::NoMemory;
use gq_tree::Parsed;
use gq_types::Types;
use gq_variables::add_variable_definition_faults;
use std::alloc::Global;
use std::slice;

/// What is told by the rules that can tell what rests on one file.
fn told_alone(alloc: Global, executable: &Executable<'_>) -> Result<Vec<Fault>, NoMemory>
    ensures { IfOk result (λ faults. AddsExactly (IsToldAlone (executable_view executable.now)) [] faults.items) }
{
    let mut faults = Vec::new(alloc);
    add_operation_faults(alloc, executable, &mut faults)?;
    add_condition_faults(executable, &mut faults)?;
    add_field_faults(alloc, executable, &mut faults)?;
    add_variable_definition_faults(alloc, executable, &mut faults)?;
    Ok(faults)
}

/// Those of these faults that rest on one file.
fn resting_on_file(alloc: Global, faults: &[Fault]) -> Result<Vec<Fault>, NoMemory>
    ensures { IfOk result (λ some. some.items ≡ filter (λ fault. rests_on_file fault.code) faults.now) }
{
    let mut some = Vec::new(alloc);
    for fault in faults {
        if rests_on_file(fault.code) {
            some.push(*fault)?;
        }
    }
    Ok(some)
}

/// What the rules tell of the operations and fragments of a document that is read so, over a type system, and that rests on
/// this document alone. The document counts as the first: its number is 0. Only rules that can tell such faults are looked at.
pub fn found_alone(alloc: Global, types: &Types, reading: &Parsed) -> Result<Vec<Fault>, NoMemory>
    ensures { IfOk result (λ faults. (fault : Fault) → Contains faults.items fault ↔ IsLocalFault (alone (types_view types.now) 0 (parsed_view reading.now)) fault) }
{
    let definitions = Definitions::of(alloc, slice::from_ref(reading))?;
    let executable = Executable {
        types,
        operations: &definitions.operations,
        fragments: &definitions.fragments,
    };
    let faults = told_alone(alloc, &executable)?;
    let own = resting_on_file(alloc, &faults)?;
    Ok(own)
}

/// Puts faults that are told of the file of that number alone behind others, with its number.
pub fn put_in_file(file: usize, faults: &[Fault], all: &mut Vec<Fault>) -> Result<(), NoMemory>
    ensures { OnOk result (all.new.items ≡ all.old.items ++ map (in_file file) faults.now) }
{
    for fault in faults {
        all.push(Fault { file, ..*fault })?;
    }
    Ok(())
}
