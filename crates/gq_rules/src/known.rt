//! What is told of a project of which is known what its documents read as, and its type system. No text is read.
ghost use Rattle.std.specs.Prelude.{◌≡◌, ◌↔◌, true, Contains, IfOk, IfNone, IfSome, OnOk};
ghost use Rattle.gq_tree.specs.Readings.{readings_view};
ghost use Rattle.gq_types.specs.Look.{types_view};
ghost use Rattle.gq_fault.specs.declared.fault.Fault.{Fault};
ghost use Rattle.gq_type_system.specs.SchemaFaults.{IsSchemaFault};
ghost use Rattle.gq_document.specs.Executable.{executable_view};
ghost use Rattle.gq_known.specs.Known.{IsKnown};
ghost use Rattle.gq_rules.specs.Faults.{IsFaultOf};
ghost use Rattle.gq_rules.specs.Project.{executable_of};
ghost use Rattle.gq_rules.specs.Validity.{IsReportOf, IsValid, IsInvalid};
ghost use Rattle.gq_rules.specs.AllFaults.{AreFaultsOf};
ghost use Rattle.gq_rules.specs.Helping.Reported.{IsReported};
ghost use Rattle.gq_rules.specs.Helping.Wrongs.{PutsWrong};

use crate::demands::{faults_of_known_texts, in_order};
use crate::report::{Report, report_of};
use crate::rule_faults::rule_faults;
use crate::valid::report_if_any;
use crate::wrong::add_wrong_in;
use gq_document::{Definitions, Executable};
use gq_fault::Fault;
use gq_known::Known;
use gq_text::NoMemory;
use std::alloc::Global;

/// What is told of a project of which that is known, if something is told of it. No text is read.
pub fn why_not_known(alloc: Global, known: Known<'_>) -> Result<Option<Report>, NoMemory>
    ensures valid { IfOk result (λ report. IsKnown known.entry → IfNone report (IsValid known.entry.project.now)) }
    ensures invalid { IfOk result (λ report. IsKnown known.entry → IfSome report (λ r. IsReportOf known.entry.project.now r.found.items × IsInvalid known.entry.project.now)) }
{
    let report = reported(alloc, known)?;
    Ok(report)
}

/// All that is told of a project of which that is known. No text is read.
pub fn validate_known(alloc: Global, known: Known<'_>) -> Result<Report, NoMemory>
    ensures { IfOk result (λ report. IsKnown known.entry → IsReportOf known.entry.project.now report.found.items) }
{
    let faults = demanded_known(alloc, known)?;
    let report = report_of(alloc, known.project, &faults)?;
    Ok(report)
}

/// The report on a project, or none where nothing is told of it.
fn reported(alloc: Global, known: Known<'_>) -> Result<Option<Report>, NoMemory>
    ensures { IfOk result (λ report. IsKnown known.entry → IsReported known.entry.project.now report) }
{
    let faults = demanded_known(alloc, known)?;
    let report = report_if_any(alloc, known.project, &faults)?;
    Ok(report)
}

/// The faults of what is told of a project, in order, each once.
fn demanded_known(alloc: Global, known: Known<'_>) -> Result<Vec<Fault>, NoMemory>
    ensures { IfOk result (λ faults. IsKnown known.entry → AreFaultsOf known.entry.project.now faults.items) }
{
    let faults = all_faults_known(alloc, known)?;
    Ok(in_order(faults))
}

/// The same, in no order.
fn all_faults_known(alloc: Global, known: Known<'_>) -> Result<Vec<Fault>, NoMemory>
    ensures { IfOk result (λ faults. IsKnown known.entry → (fault : Fault) → Contains faults.items fault ↔ IsFaultOf (readings_view known.entry.readings.now) fault) }
{
    let mut faults = faults_of_known_texts(alloc, known)?;
    add_wrong_known(alloc, known, &mut faults)?;
    Ok(faults)
}

/// Puts what is wrong with the type system and, where nothing is told by then, what the rules tell of the operations and
/// fragments.
fn add_wrong_known(alloc: Global, known: Known<'_>, faults: &mut Vec<Fault>) -> Result<(), NoMemory>
    ensures { OnOk result (IsKnown known.entry → PutsWrong (executable_of (readings_view known.entry.readings.now)) faults.old.items faults.new.items) }
{
    let definitions = Definitions::of(alloc, known.readings)?;
    let executable = Executable {
        types: known.types,
        operations: &definitions.operations,
        fragments: &definitions.fragments,
    };
    add_wrong_over(alloc, &executable, known.has_schema, faults)?;
    Ok(())
}

/// The same over a type system of which is known whether something is wrong with it. What is wrong is told anew.
fn add_wrong_over(
    alloc: Global,
    executable: &Executable<'_>,
    has_schema: bool,
    faults: &mut Vec<Fault>,
) -> Result<(), NoMemory>
    ensures { OnOk result ((has_schema ≡ true → (fault : Fault) → IsSchemaFault (types_view executable.now.types.now) fault → ⊥)
        → PutsWrong (executable_view executable.now) faults.old.items faults.new.items) }
{
    if !has_schema {
        add_wrong_in(alloc, executable, faults)?;
        return Ok(());
    }
    if !faults.is_empty() {
        return Ok(());
    }
    let mut wrong = rule_faults(alloc, executable)?;
    faults.append(&mut wrong)?;
    Ok(())
}
