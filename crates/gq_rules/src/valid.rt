//! Projects with which nothing is wrong.
ghost use Rattle.std.specs.Prelude.{◌≡◌, IfOk, IfErr};
ghost use Rattle.gq_rules.specs.AllFaults.{AreFaultsOf};
ghost use Rattle.gq_rules.specs.Helping.Reported.{IsReported};
ghost use Rattle.gq_rules.specs.Validity.{IsValid};

use crate::demands::demanded;
use crate::report::{Report, report_of};
use gq_fault::Fault;
use gq_project::Project;
use gq_text::NoMemory;
use std::alloc::Global;
use std::marker::Model;

/// A valid project (section 5): all its texts parse, and no rule is broken.
///
/// Contracts see it as the list of its documents.
#[derive(Drop)]
pub struct Valid {
    project: Project,
}

impl Model for Valid {
    ghost use Rattle.std.specs.Prelude.{List};
    ghost use Rattle.gq_project.specs.declared.document.Doc.{Doc};
    ghost use Rattle.gq_rules.specs.Validity.{IsValid};

    ghost Value = { List Doc };

    ghost view = { λ v. v.project };

    ghost invariant = { λ v. ∥ IsValid v.project ∥₁ };
}

/// Why a project is no valid one.
#[derive(Debug, Drop)]
pub enum Why {
    /// What is wrong with it.
    Report(Report),
    /// A growth was refused: nothing is said of the project.
    NoMemory,
}

/// A project that is handed back, and why.
#[derive(Debug, Drop)]
pub struct Invalid {
    pub project: Project,
    pub why: Why,
}

impl Valid {
    ghost use Rattle.gq_rules.specs.ValidityViews.{IsWhy};

    /// The project, if nothing is wrong with it; else it is handed back with all that is.
    pub fn new(alloc: Global, project: Project) -> Result<Valid, Invalid>
        ensures same { IfOk result (λ valid. valid ≡ project) }
        ensures valid { IfOk result (λ valid. ∥ IsValid valid ∥₁) }
        ensures handed_back { IfErr result (λ invalid. invalid.project ≡ project) }
        ensures why { IfErr result (λ invalid. IsWhy project invalid.why) }
    {
        let faults = demanded(alloc, project.documents());
        Valid::by_faults(alloc, project, faults)
    }

    /// The same where its faults, in order and each once, are found by now, or want of memory was.
    pub fn by_faults(
        alloc: Global,
        project: Project,
        faults: Result<Vec<Fault>, NoMemory>,
    ) -> Result<Valid, Invalid>
        requires { IfOk faults (λ faults. AreFaultsOf project faults.items) }
        ensures same { IfOk result (λ valid. valid ≡ project) }
        ensures valid { IfOk result (λ valid. ∥ IsValid valid ∥₁) }
        ensures handed_back { IfErr result (λ invalid. invalid.project ≡ project) }
        ensures why { IfErr result (λ invalid. IsWhy project invalid.why) }
    {
        let told = why_not(alloc, &project, faults);
        Valid::judged(project, told)
    }

    /// The project, of which it is known that nothing is wrong with it. It takes no memory.
    pub fn known(project: Project) -> Valid
        requires { ∥ IsValid project ∥₁ }
        ensures { result ≡ project }
    {
        Valid { project }
    }

    /// The project, if nothing is told of it.
    fn judged(project: Project, told: Result<Option<Report>, NoMemory>) -> Result<Valid, Invalid>
        requires { IfOk told (IsReported project) }
        ensures same { IfOk result (λ valid. valid ≡ project) }
        ensures valid { IfOk result (λ valid. ∥ IsValid valid ∥₁) }
        ensures handed_back { IfErr result (λ invalid. invalid.project ≡ project) }
        ensures why { IfErr result (λ invalid. IsWhy project invalid.why) }
    {
        match told {
            Ok(None) => Ok(Valid { project }),
            Ok(Some(report)) => Err(Invalid {
                project,
                why: Why::Report(report),
            }),
            Err(NoMemory) => Err(Invalid {
                project,
                why: Why::NoMemory,
            }),
        }
    }

    /// The project. It takes no memory.
    pub fn project(&self) -> &Project
        ensures same { result.now ≡ self.now }
        ensures valid { ∥ IsValid self.now ∥₁ }
    {
        &self.project
    }

    /// The project itself, which from then on nothing keeps valid. It takes no memory.
    pub fn into_project(self) -> Project
        ensures same { result ≡ self }
        ensures valid { ∥ IsValid self ∥₁ }
    {
        self.project
    }
}

/// The report on a project whose faults were found, if there are any.
fn why_not(
    alloc: Global,
    project: &Project,
    faults: Result<Vec<Fault>, NoMemory>,
) -> Result<Option<Report>, NoMemory>
    requires { IfOk faults (λ faults. AreFaultsOf project.now faults.items) }
    ensures { IfOk result (λ report. IsReported project.now report) }
{
    let faults = faults?;
    let report = report_if_any(alloc, project, &faults)?;
    Ok(report)
}

/// The report on a project, if these faults are what is told of it, and there are any.
pub(crate) fn report_if_any(
    alloc: Global,
    project: &Project,
    faults: &[Fault],
) -> Result<Option<Report>, NoMemory>
    ensures { IfOk result (λ report. AreFaultsOf project.now faults.now → IsReported project.now report) }
{
    if faults.is_empty() {
        return Ok(None);
    }
    let report = report_of(alloc, project, faults)?;
    Ok(Some(report))
}
