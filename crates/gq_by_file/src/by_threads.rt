//! What is told of a project, looked for in several threads.
ghost use Rattle.std.specs.Prelude.{◌≡◌, ◌↔◌, Contains, IfOk, IfErr, OnOk};
ghost use Rattle.gq_tree.specs.Readings.{unshared_view};
ghost use Rattle.gq_types.specs.Entries.{entries_view};
ghost use Rattle.gq_fault.specs.declared.fault.Fault.{Fault};
ghost use Rattle.gq_document.specs.Definitions.{entries_of};
ghost use Rattle.gq_document.specs.Executable.{executable_view};
ghost use Rattle.gq_rules.specs.AllFaults.{AreFaultsOf};
ghost use Rattle.gq_rules.specs.Faults.{IsFaultOf};
ghost use Rattle.gq_rules.specs.Project.{executable_of};
ghost use Rattle.gq_rules.specs.Validity.{IsReportOf, IsValid};
ghost use Rattle.gq_rules.specs.ValidityViews.{IsWhy};
ghost use Rattle.gq_by_file.specs.Helping.Told.{IsOver, PutsWrongOver};

use crate::apart::wrong_over;
use gq_document::{Definitions, Executable, type_system_entries};
use gq_fault::{Fault, put_in_order};
use gq_parse::read_by_threads;
use gq_project::{Doc, Project};
use gq_rules::{Invalid, Report, Valid, give_back, report_of, unread_and_mixed};
use gq_text::NoMemory;
use gq_tree::Parsed;
use gq_type_system::schema_faults;
use gq_types::{Entry, Types};
use std::alloc::Global;
use std::thread::Threads;

/// What `Valid::new` of gq_rules answers, looked at by several threads: the project, if nothing is wrong with it; else it is handed
/// back with all that is.
pub fn valid_by_threads<R: Threads + Sync>(
    rt: &R,
    alloc: Global,
    project: Project,
) -> Result<Valid, Invalid>
    ensures same { IfOk result (λ valid. valid ≡ project) }
    ensures valid { IfOk result (λ valid. ∥ IsValid valid ∥₁) }
    ensures handed_back { IfErr result (λ invalid. invalid.project ≡ project) }
    ensures why { IfErr result (λ invalid. IsWhy project invalid.why) }
{
    let faults = demanded(rt, alloc, project.documents());
    Valid::by_faults(alloc, project, faults)
}

/// What `validate` of gq_rules answers, looked for by several threads: all faults of a project (section 5).
pub fn validate_by_threads<R: Threads + Sync>(
    rt: &R,
    alloc: Global,
    project: &Project,
) -> Result<Report, NoMemory>
    ensures { IfOk result (λ report. IsReportOf project.now report.found.items) }
{
    let faults = demanded(rt, alloc, project.documents())?;
    let report = report_of(alloc, project, &faults)?;
    Ok(report)
}

/// The faults of what is told of documents, in order, each once.
fn demanded<R: Threads + Sync>(
    rt: &R,
    alloc: Global,
    documents: &[Doc],
) -> Result<Vec<Fault>, NoMemory>
    ensures { IfOk result (λ faults. AreFaultsOf documents.now faults.items) }
{
    let readings = read_by_threads(rt, alloc, documents)?;
    let mut faults = all_faults(rt, alloc, readings)?;
    put_in_order(&mut faults);
    Ok(faults)
}

/// The faults of what is told of documents that are read so, in no order. The memory of what they are read as is given back.
fn all_faults<R: Threads + Sync>(
    rt: &R,
    alloc: Global,
    readings: Vec<Parsed>,
) -> Result<Vec<Fault>, NoMemory>
    ensures { IfOk result (λ faults. (fault : Fault) → Contains faults.items fault ↔ IsFaultOf (unshared_view readings.items) fault) }
{
    let faults = faults_of(rt, alloc, &readings)?;
    give_back(rt, readings);
    Ok(faults)
}

/// The same, where they are kept.
fn faults_of<R: Threads + Sync>(
    rt: &R,
    alloc: Global,
    readings: &[Parsed],
) -> Result<Vec<Fault>, NoMemory>
    ensures { IfOk result (λ faults. (fault : Fault) → Contains faults.items fault ↔ IsFaultOf (unshared_view readings.now) fault) }
{
    let mut faults = unread_and_mixed(alloc, readings)?;
    let entries = type_system_entries(alloc, readings)?;
    add_wrong(rt, alloc, entries, readings, &mut faults)?;
    Ok(faults)
}

/// Puts what is wrong with the type system that is defined and, where nothing is told by then, what the rules tell of the
/// operations and fragments that documents are read as.
fn add_wrong<R: Threads + Sync>(
    rt: &R,
    alloc: Global,
    entries: Vec<Entry>,
    readings: &[Parsed],
    faults: &mut Vec<Fault>,
) -> Result<(), NoMemory>
    ensures { OnOk result (entries_view entries.items ≡ entries_of (unshared_view readings.now) → PutsWrongOver (executable_of (unshared_view readings.now)) faults.old.items faults.new.items) }
{
    let types = Types::of(alloc, entries)?;
    let definitions = Definitions::of(alloc, readings)?;
    let executable = Executable {
        types: &types,
        operations: &definitions.operations,
        fragments: &definitions.fragments,
    };
    add_wrong_over(rt, alloc, &executable, readings, faults)?;
    Ok(())
}

/// The same for the types that are looked up. Only where nothing is told by then is there work for threads.
fn add_wrong_over<R: Threads + Sync>(
    rt: &R,
    alloc: Global,
    executable: &Executable<'_>,
    readings: &[Parsed],
    faults: &mut Vec<Fault>,
) -> Result<(), NoMemory>
    ensures { OnOk result (IsOver (executable_view executable.now) (unshared_view readings.now) → PutsWrongOver (executable_view executable.now) faults.old.items faults.new.items) }
{
    if faults.is_empty() {
        let mut wrong = wrong_over(rt, alloc, executable, readings)?;
        faults.append(&mut wrong)?;
        return Ok(());
    }
    let mut wrong = schema_faults(alloc, executable.types)?;
    faults.append(&mut wrong)?;
    Ok(())
}
