//! What is told of a project that is known, with what is known of its files each by itself.
ghost use Rattle.std.specs.Prelude.{◌≡◌, ◌↔◌, [], Contains, IfOk, IfNone, IfSome};
ghost use Rattle.gq_tree.specs.Readings.{readings_view};
ghost use Rattle.gq_fault.specs.declared.fault.Fault.{Fault};
ghost use Rattle.gq_known.specs.Known.{IsKnown};
ghost use Rattle.gq_rules.specs.Faults.{IsFaultOf, IsToldFirst};
ghost use Rattle.gq_rules.specs.Validity.{IsInvalid, IsReportOf, IsValid};
ghost use Rattle.gq_kept.specs.Helping.ByDocument.{AreByDocumentOver};

use crate::by_document::ByDocument;
use gq_by_file::laws::faults_are_told_by_files;
use gq_fault::{Fault, found_at, put_in_order};
use gq_known::Known;
use gq_rules::{Report, first_faults};
use gq_text::NoMemory;
use std::alloc::Global;

/// The faults of a project of which nothing is told first: those of each file by itself, and those that rest on several.
fn faults_by_files(
    alloc: Global,
    known: Known<'_>,
    found: &mut ByDocument,
) -> Result<Vec<Fault>, NoMemory>
    ensures kept { AreByDocumentOver known.entry.types.now known.entry.readings.now found.old → AreByDocumentOver known.entry.types.now known.entry.readings.now found.new }
    ensures faults { IfOk result (λ faults. IsKnown known.entry → AreByDocumentOver known.entry.types.now known.entry.readings.now found.old
        → ((fault : Fault) → IsToldFirst (readings_view known.entry.readings.now) fault → ⊥)
        → (fault : Fault) → Contains faults.items fault ↔ IsFaultOf (readings_view known.entry.readings.now) fault) }
{
    faults_are_told_by_files();
    let all = found.found(alloc, known.types, known.readings)?;
    Ok(all)
}

/// The faults of a project, in no order.
fn faults(alloc: Global, known: Known<'_>, found: &mut ByDocument) -> Result<Vec<Fault>, NoMemory>
    ensures kept { AreByDocumentOver known.entry.types.now known.entry.readings.now found.old → AreByDocumentOver known.entry.types.now known.entry.readings.now found.new }
    ensures faults { IfOk result (λ faults. IsKnown known.entry → AreByDocumentOver known.entry.types.now known.entry.readings.now found.old
        → (fault : Fault) → Contains faults.items fault ↔ IsFaultOf (readings_view known.entry.readings.now) fault) }
{
    let first = first_faults(alloc, known)?;
    if !first.is_empty() {
        return Ok(first);
    }
    faults_by_files(alloc, known, found)
}

/// What is told of the project, if something is. What rests on a file alone is only looked for where it is not known.
pub(crate) fn report_if_any(
    alloc: Global,
    known: Known<'_>,
    found: &mut ByDocument,
) -> Result<Option<Report>, NoMemory>
    ensures kept { AreByDocumentOver known.entry.types.now known.entry.readings.now found.old → AreByDocumentOver known.entry.types.now known.entry.readings.now found.new }
    ensures valid { IfOk result (λ report. IsKnown known.entry → AreByDocumentOver known.entry.types.now known.entry.readings.now found.old → IfNone report (IsValid known.entry.project.now)) }
    ensures invalid { IfOk result (λ report. IsKnown known.entry → AreByDocumentOver known.entry.types.now known.entry.readings.now found.old
        → IfSome report (λ r. IsReportOf known.entry.project.now r.found.items × IsInvalid known.entry.project.now)) }
{
    let mut faults = faults(alloc, known, found)?;
    if faults.is_empty() {
        return Ok(None);
    }
    put_in_order(&mut faults);
    let told = found_at(alloc, &faults, known.project.documents())?;
    Ok(Some(Report { found: told }))
}
