//! What is wrong with a type system and, where nothing is, with the operations and fragments over it, looked for by threads.
ghost use Rattle.std.specs.Prelude.{◌↔◌, [], Contains, IfOk};
ghost use Rattle.std.specs.Thread.{IsSync};
ghost use Rattle.gq_document.specs.Executable.{executable_view};
ghost use Rattle.gq_fields.specs.FieldFaults.{IsFieldFault};
ghost use Rattle.gq_fault.specs.declared.fault.Fault.{Fault};
ghost use Rattle.gq_fault.specs.Adds.{AddsExactly};
ghost use Rattle.gq_merging.specs.FieldsMerge.{IsMergingFault};
ghost use Rattle.gq_rules.specs.WrongOver.{IsWrongOver};
ghost use Rattle.gq_rules.specs.Helping.RuleGroups.{IsDefinitionOrMergingFault, IsDefinitionFault, IsReachFault, IsOtherFault};
ghost use Rattle.gq_rules.specs.Helping.Wrongs.{IsWrong};

use crate::fields_by_threads::field_faults_by_threads;
use crate::rule_faults::{definition_faults, reach_faults};
use gq_document::Executable;
use gq_fault::Fault;
use gq_merging::add_merging_faults_by_threads;
use gq_text::NoMemory;
use gq_type_system::schema_faults;
use std::alloc::Global;
use std::thread::{Threads, join};

/// What is wrong with a type system or, where nothing is, what some of the rules tell.
#[derive(Drop)]
enum Wrong {
    TypeSystem(Vec<Fault>),
    Rules(Vec<Fault>),
}

/// What is wrong with a type system or, where nothing is, what the rules tell of the operations and fragments over it. It is
/// looked at in four threads from the start: for nothing, but for one of them, where something is wrong with the type system.
/// Fields each by itself wait for that one, since a literal can cost much where an input object has a field twice.
pub fn wrong_over_by_threads<R: Threads + Sync>(
    rt: &R,
    alloc: Global,
    executable: &Executable<'_>,
) -> Result<Vec<Fault>, NoMemory>
    ensures { IfOk result (λ faults. (fault : Fault) → Contains faults.items fault ↔ IsWrongOver (executable_view executable.now) fault) }
{
    let of_definitions = || -> Result<Vec<Fault>, NoMemory>
        requires { IsSync R.row }
        ensures { IfOk result (λ faults. AddsExactly (IsDefinitionOrMergingFault (executable_view executable.entry.now)) [] faults.items) }
    { definition_and_merging_faults(rt, alloc, executable) };
    let of_others = || -> Result<Wrong, NoMemory>
        ensures { IfOk result (IsWrong IsOtherFault (executable_view executable.entry.now)) }
    { wrong_fields_and_reach(rt, alloc, executable) };
    let (definitions, wrong) = join(rt, of_definitions, of_others);
    match wrong? {
        Wrong::TypeSystem(wrong) => Ok(wrong),
        Wrong::Rules(mut others) => {
            let mut faults = definitions?;
            faults.append(&mut others)?;
            Ok(faults)
        }
    }
}

/// What is wrong with operations and fragments as such, and the fields that do not merge, in two threads.
fn definition_and_merging_faults<R: Threads + Sync>(
    rt: &R,
    alloc: Global,
    executable: &Executable<'_>,
) -> Result<Vec<Fault>, NoMemory>
    ensures { IfOk result (λ faults. AddsExactly (IsDefinitionOrMergingFault (executable_view executable.now)) [] faults.items) }
{
    let of_definitions = || -> Result<Vec<Fault>, NoMemory>
        ensures { IfOk result (λ faults. AddsExactly (IsDefinitionFault (executable_view executable.entry.now)) [] faults.items) }
    { definition_faults(alloc, executable) };
    let of_merging = || -> Result<Vec<Fault>, NoMemory>
        requires { IsSync R.row }
        ensures { IfOk result (λ faults. AddsExactly (IsMergingFault (executable_view executable.entry.now)) [] faults.items) }
    { merging_faults(rt, alloc, executable) };
    let (definitions, merging) = join(rt, of_definitions, of_merging);
    let mut faults = definitions?;
    faults.append(&mut merging?)?;
    Ok(faults)
}

/// The fields that do not merge (section 5.3.2).
fn merging_faults<R: Threads + Sync>(
    rt: &R,
    alloc: Global,
    executable: &Executable<'_>,
) -> Result<Vec<Fault>, NoMemory>
    ensures { IfOk result (λ faults. AddsExactly (IsMergingFault (executable_view executable.now)) [] faults.items) }
{
    let mut faults = Vec::new(alloc);
    add_merging_faults_by_threads(rt, alloc, executable, &mut faults)?;
    Ok(faults)
}

/// What is wrong with the type system or, where nothing is, with fields, spreads and variables: these two are looked at in a
/// thread of their own.
fn wrong_fields_and_reach<R: Threads>(
    rt: &R,
    alloc: Global,
    executable: &Executable<'_>,
) -> Result<Wrong, NoMemory>
    ensures { IfOk result (IsWrong IsOtherFault (executable_view executable.now)) }
{
    let of_reach = || -> Result<Vec<Fault>, NoMemory>
        ensures { IfOk result (λ faults. AddsExactly (IsReachFault (executable_view executable.entry.now)) [] faults.items) }
    { reach_faults(alloc, executable) };
    let of_fields = || -> Result<Wrong, NoMemory>
        ensures { IfOk result (IsWrong IsFieldFault (executable_view executable.entry.now)) }
    { wrong_fields(rt, alloc, executable) };
    let (reach, wrong) = join(rt, of_reach, of_fields);
    match wrong? {
        Wrong::TypeSystem(wrong) => Ok(Wrong::TypeSystem(wrong)),
        Wrong::Rules(mut faults) => {
            faults.append(&mut reach?)?;
            Ok(Wrong::Rules(faults))
        }
    }
}

/// What is wrong with the type system or, where nothing is, with fields each by itself.
fn wrong_fields<R: Threads>(
    rt: &R,
    alloc: Global,
    executable: &Executable<'_>,
) -> Result<Wrong, NoMemory>
    ensures { IfOk result (IsWrong IsFieldFault (executable_view executable.now)) }
{
    let wrong = schema_faults(alloc, executable.types)?;
    if wrong.is_empty() {
        return Ok(Wrong::Rules(field_faults_by_threads(rt, alloc, executable)?));
    }
    Ok(Wrong::TypeSystem(wrong))
}
