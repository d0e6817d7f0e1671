//! What is told of a project.
ghost use Rattle.std.specs.Prelude.{IfOk};
ghost use Rattle.gq_rules.specs.AllFaults.{AreFaultsOf};
ghost use Rattle.gq_rules.specs.Validity.{IsReportOf};

use crate::demands::demanded;
use gq_fault::{Fault, Found, found_at};
use gq_project::Project;
use gq_text::NoMemory;
use std::alloc::Global;

/// What is told of a project, in the order of keys, places and codes, each place and code once. Of a project without
/// documents nothing is told, though it has no query root and so is not valid: there is no place.
#[derive(Debug, Drop)]
pub struct Report {
    pub found: Vec<Found>,
}

/// All faults of a project (section 5). Where a text has no tree, a document has both executable definitions and such of
/// the type system, or something is wrong with the type system, that alone is told.
pub fn validate(alloc: Global, project: &Project) -> Result<Report, NoMemory>
    ensures { IfOk result (λ report. IsReportOf project.now report.found.items) }
{
    let faults = demanded(alloc, project.documents())?;
    let report = report_of(alloc, project, &faults)?;
    Ok(report)
}

/// The report on a project, if these faults are what is told of it, in order and each once.
pub fn report_of(alloc: Global, project: &Project, faults: &[Fault]) -> Result<Report, NoMemory>
    ensures { IfOk result (λ report. AreFaultsOf project.now faults.now → IsReportOf project.now report.found.items) }
{
    let found = found_at(alloc, faults, project.documents())?;
    Ok(Report { found })
}
