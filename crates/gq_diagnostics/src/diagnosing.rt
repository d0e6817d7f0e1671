//! The faults of a project, by its documents.
ghost use Rattle.std.specs.Prelude.{IfOk};
ghost use Rattle.gq_rules.specs.Validity.{IsReportOf};
ghost use Rattle.gq_diagnostics.specs.Diagnostics.{AreDiagnostics};

use crate::parting::parted;
use gq_fault::Found;
use gq_project::Project;
use gq_rules::{Report, validate};
use gq_text::{Items, NoMemory};
use std::alloc::Global;

/// For each document of the project, in order, all that is wrong with it, in the order of places and codes.
pub fn diagnostics(alloc: Global, project: &Project) -> Result<Vec<Items<Found>>, NoMemory>
    ensures { IfOk result (λ all. AreDiagnostics project.now all.items) }
{
    let report = validate(alloc, project)?;
    let all = diagnostics_of(alloc, project, report)?;
    Ok(all)
}

/// The same of a project on which that is the report.
pub fn diagnostics_of(
    alloc: Global,
    project: &Project,
    report: Report,
) -> Result<Vec<Items<Found>>, NoMemory>
    ensures { IfOk result (λ all. IsReportOf project.now report.found.items → AreDiagnostics project.now all.items) }
{
    let all = parted(alloc, project, report.found)?;
    Ok(all)
}
