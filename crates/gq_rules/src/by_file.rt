//! What the rules tell by files: what rests on one file and the type system alone, and what rests on several files.
ghost use Rattle.std.specs.Prelude.{◌≡◌, ◌↔◌, ◌⊎◌, ◌++◌, [], ◌∷◌, Contains, IfOk, OnOk, filter};
ghost use Rattle.std.specs.Bool.{beq};
ghost use Rattle.gq_tree.specs.Readings.{parsed_view, readings_view, unshared_view};
ghost use Rattle.gq_types.specs.Look.{types_view};
ghost use Rattle.gq_fault.specs.declared.fault.Fault.{Fault};
ghost use Rattle.gq_document.specs.Executable.{executable_view};
ghost use Rattle.gq_fault.specs.Adds.{AddsExactly};
ghost use Rattle.gq_known.specs.Known.{IsKnown};
ghost use Rattle.gq_rules.specs.Faults.{IsMixed, IsToldFirst};
ghost use Rattle.gq_rules.specs.Files.{alone, IsFaultAcross, IsLocalFault};
ghost use Rattle.gq_rules.specs.RestsOnFile.{rests_on_file};
ghost use Rattle.gq_rules.specs.Unread.{IsUnread};
ghost use Rattle.gq_rules.specs.Helping.RuleGroups.{IsAcrossGroup};

use crate::demands::{faults_of_known_texts, faults_of_texts};
use crate::rule_faults::{add_definition_faults, add_reach_faults, rule_faults};
use gq_document::{Definitions, Executable};
use gq_fault::{Code, Fault};
use gq_known::Known;
use gq_merging::add_merging_faults;
use gq_text::NoMemory;
use gq_tree::Parsed;
use gq_type_system::schema_faults;
use gq_types::Types;
use std::alloc::Global;
use std::slice;

/// Whether a fault of that rule rests on one file: over the same type system, no other file's operations and fragments
/// bring it or take it away.
pub fn rests_on_file(code: Code) -> bool
    ensures { result ≡ rests_on_file code }
{
    matches!(
        code,
        Code::SubscriptionOperation
            | Code::NoRootType
            | Code::UnknownField
            | Code::WrongSelections
            | Code::UnknownArgument
            | Code::ArgumentNotUnique
            | Code::ArgumentMissing
            | Code::UnknownTypeCondition
            | Code::ConditionNotComposite
            | Code::WrongValue
            | Code::UnknownInputField
            | Code::InputFieldNotUnique
            | Code::InputFieldMissing
            | Code::UnknownDirective
            | Code::DirectiveInWrongPlace
            | Code::DirectiveRepeated
            | Code::VariableNotUnique
            | Code::VariableNotOfInputType
    )
}

/// Those of these faults that rest on one file, or those that do not.
fn resting(alloc: Global, faults: &[Fault], on_file: bool) -> Result<Vec<Fault>, NoMemory>
    ensures { IfOk result (λ some. some.items ≡ filter (λ fault. beq (rests_on_file fault.code) on_file) faults.now) }
{
    let mut some = Vec::new(alloc);
    for fault in faults {
        if rests_on_file(fault.code) == on_file {
            some.push(*fault)?;
        }
    }
    Ok(some)
}

/// What is told of a project of which that is known whatever else is wrong with it: texts without a tree, documents with
/// definitions of both sorts, and what is wrong with the type system. No text is read.
pub fn first_faults(alloc: Global, known: Known<'_>) -> Result<Vec<Fault>, NoMemory>
    ensures { IfOk result (λ faults. IsKnown known.entry → (fault : Fault) → Contains faults.items fault ↔ IsToldFirst (readings_view known.entry.readings.now) fault) }
{
    let mut faults = faults_of_known_texts(alloc, known)?;
    if !known.has_schema {
        let mut wrong = schema_faults(alloc, known.types)?;
        faults.append(&mut wrong)?;
    }
    Ok(faults)
}

/// What is told of documents without a tree, and of those with definitions of both sorts, as they are read.
pub fn unread_and_mixed(alloc: Global, readings: &[Parsed]) -> Result<Vec<Fault>, NoMemory>
    ensures { IfOk result (λ faults. (fault : Fault) → Contains faults.items fault ↔ (IsUnread (unshared_view readings.now) fault ⊎ IsMixed (unshared_view readings.now) fault)) }
{
    let faults = faults_of_texts(alloc, readings)?;
    Ok(faults)
}

/// What the rules tell of the operations and fragments of a document that is read so, over a type system, and that rests on
/// this document alone. The document counts as the first: its number is 0.
pub fn found_in(alloc: Global, types: &Types, reading: &Parsed) -> Result<Vec<Fault>, NoMemory>
    ensures { IfOk result (λ faults. (fault : Fault) → Contains faults.items fault ↔ IsLocalFault (alone (types_view types.now) 0 (parsed_view reading.now)) fault) }
{
    let definitions = Definitions::of(alloc, slice::from_ref(reading))?;
    let executable = Executable {
        types,
        operations: &definitions.operations,
        fragments: &definitions.fragments,
    };
    let faults = rule_faults(alloc, &executable)?;
    let own = resting(alloc, &faults, true)?;
    Ok(own)
}

/// What the rules tell of operations and fragments, over a type system, that does not rest on one document alone.
pub fn found_across(alloc: Global, executable: &Executable<'_>) -> Result<Vec<Fault>, NoMemory>
    ensures { IfOk result (λ faults. (fault : Fault) → Contains faults.items fault ↔ IsFaultAcross (executable_view executable.now) fault) }
{
    let mut faults = Vec::new(alloc);
    add_across_groups(alloc, executable, &mut faults)?;
    let across = resting(alloc, &faults, false)?;
    Ok(across)
}

/// Puts what all rules tell but those of fields, each of which rests on its file.
fn add_across_groups(
    alloc: Global,
    executable: &Executable<'_>,
    faults: &mut Vec<Fault>,
) -> Result<(), NoMemory>
    ensures { OnOk result (AddsExactly (IsAcrossGroup (executable_view executable.now)) faults.old.items faults.new.items) }
{
    add_definition_faults(alloc, executable, faults)?;
    add_merging_faults(alloc, executable, faults)?;
    add_reach_faults(alloc, executable, faults)?;
    Ok(())
}
