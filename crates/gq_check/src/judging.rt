//! What files come to: the text that is told of them and the status, or the fault that refuses them.
ghost use Rattle.std.specs.Prelude.{◌≡◌, ◌≤◌, ◌^◌, All, List, None, IfOk, IfErr, length};
ghost use Rattle.gq_rules.specs.Validity.{IsValid};
ghost use Rattle.gq_rules.specs.ValidityViews.{IsWhy};
ghost use Rattle.gq_check.specs.declared.fault.CheckFault.TheVariants.{NoMemory};
ghost use Rattle.gq_check.specs.declared.files.File.{File};
ghost use Rattle.gq_check.specs.Faults.{IsFaultOr};
ghost use Rattle.gq_check.specs.Files.{files_fault, documents_of};
ghost use Rattle.gq_project.specs.declared.document.Doc.{Doc};
ghost use Rattle.gq_check.specs.Helping.Verdicts.{IsVerdict, IsTold};

use crate::fault::CheckFault;
use crate::files::{File, read_project};
use crate::formats::Format;
use crate::lines::print_all;
use gq_by_file::valid_by_threads;
use gq_project::Project;
use gq_rules::{Invalid, Valid, Why};
use std::alloc::Global;
use std::thread::Threads;

/// The status where the project is valid.
const VALID_STATUS: u8 = 0;

/// The status where it is not.
const INVALID_STATUS: u8 = 1;

/// What is told of files that are not refused, and the status.
#[derive(Debug, Drop)]
pub struct Verdict {
    pub text: Vec<u8>,
    pub status: u8,
}

/// Reads the files and validates their project.
pub(crate) fn judge(alloc: Global, format: Format, files: &[File]) -> Result<Verdict, CheckFault>
    ensures ok { IfOk result (IsVerdict format files.now) }
    ensures err { IfErr result (IsFaultOr (files_fault files.now)) }
{
    let project = read_project(alloc, files)?;
    verdict_on(alloc, format, Valid::new(alloc, project))
}

/// Validates a project of files, by threads. Nothing but want of memory refuses it.
pub(crate) fn judge_by_threads<R: Threads + Sync>(
    rt: &R,
    alloc: Global,
    format: Format,
    project: Project,
) -> Result<Verdict, CheckFault>
    requires { All (λ doc. length doc.text ≤ 2 ^ 22) project }
    ensures ok { (files : List File) → files_fault files ≡ None → project ≡ documents_of files → IfOk result (IsVerdict format files) }
    ensures err { IfErr result (λ fault. fault ≡ NoMemory) }
{
    verdict_on(alloc, format, valid_by_threads(rt, alloc, project))
}

/// What is told of files whose project was judged so. Nothing but want of memory refuses them.
fn verdict_on(
    alloc: Global,
    format: Format,
    judged: Result<Valid, Invalid>,
) -> Result<Verdict, CheckFault>
    requires { IfErr judged (λ invalid. All (λ doc. length doc.text ≤ 2 ^ 22) invalid.project) }
    ensures ok { (files : List File) → files_fault files ≡ None → IfOk judged (λ valid. ∥ IsValid (documents_of files) ∥₁)
        → IfErr judged (λ invalid. (invalid.project ≡ documents_of files) × IsWhy (documents_of files) invalid.why) → IfOk result (IsVerdict format files) }
    ensures err { IfErr result (λ fault. fault ≡ NoMemory) }
{
    match judged {
        Ok(_) => Ok(Verdict {
            text: format.valid_text(alloc)?,
            status: VALID_STATUS,
        }),
        Err(invalid) => verdict_against(alloc, format, &invalid),
    }
}

/// What is told of documents that are no valid project.
pub(crate) fn verdict_against(
    alloc: Global,
    format: Format,
    invalid: &Invalid,
) -> Result<Verdict, CheckFault>
    requires { All (λ doc. length doc.text ≤ 2 ^ 22) invalid.now.project }
    ensures ok { (documents : List Doc) → invalid.now.project ≡ documents → IsWhy documents invalid.now.why → IfOk result (IsTold format documents) }
    ensures err { IfErr result (λ fault. fault ≡ NoMemory) }
{
    match &invalid.why {
        Why::Report(report) => Ok(Verdict {
            text: print_all(alloc, format, &invalid.project, &report.found)?,
            status: INVALID_STATUS,
        }),
        Why::NoMemory => Err(CheckFault::NoMemory),
    }
}
