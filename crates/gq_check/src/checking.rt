//! A check: files in, lines and a status out.
ghost use Rattle.std.specs.Prelude.{◌≡◌, Bool, false, List, IfOk, IfErr};
ghost use Rattle.gq_check.specs.declared.files.File.{File};
ghost use Rattle.gq_check.specs.declared.formats.Format.{Format};
ghost use Rattle.gq_check.specs.Checks.{Checks, Refuses};
ghost use Rattle.gq_check.specs.Faults.{IsFaultOr};
ghost use Rattle.gq_check.specs.Files.{files_fault};
ghost use Rattle.gq_check.specs.Helping.Verdicts.{IsVerdict};

use crate::fault::CheckFault;
use crate::files::{File, read_project};
use crate::formats::Format;
use crate::judging::{Verdict, judge, judge_by_threads};
use crate::printing::{FAULT_STATUS, print};
use crate::reasons::explained;
use gq_rpc::Sink;
use gq_text::NoMemory;
use std::alloc::Global;
use std::thread::Threads;

/// Checks the project of these files: prints what was found in that form on `out` and what is at fault on `err`, with which file
/// it is and why where `is_verbose`, and answers the status of the process. All that goes to `out` is made before any of it is
/// written.
pub fn check<O: Sink, E: Sink>(
    alloc: Global,
    format: Format,
    is_verbose: bool,
    files: &[File],
    out: &mut O,
    err: &mut E,
) -> u8
    requires out_works { O.failed out.old ≡ false }
    requires err_works { E.failed err.old ≡ false }
    ensures { Checks format is_verbose files.now (O.held out.old) (record { held = O.held out.new; failed = O.failed out.new })
        (E.held err.old) (record { held = E.held err.new; failed = E.failed err.new }) result }
{
    let judged = judge(alloc, format, files);
    tell_all(alloc, is_verbose, files, judged, out, err)
}

/// The same, by four threads, of files that are handed over: their bytes are given back before their project is judged.
pub fn check_by_threads<R: Threads + Sync, O: Sink, E: Sink>(
    rt: &R,
    alloc: Global,
    format: Format,
    is_verbose: bool,
    files: Vec<File>,
    out: &mut O,
    err: &mut E,
) -> u8
    requires out_works { O.failed out.old ≡ false }
    requires err_works { E.failed err.old ≡ false }
    ensures { Checks format is_verbose files.items (O.held out.old) (record { held = O.held out.new; failed = O.failed out.new })
        (E.held err.old) (record { held = E.held err.new; failed = E.failed err.new }) result }
{
    let project = match read_project(alloc, &files) {
        Ok(project) => project,
        Err(fault) => return refuse(alloc, is_verbose, &files, fault, out, err),
    };
    drop(files);
    let judged = judge_by_threads(rt, alloc, format, project);
    tell_judged(judged, out, err)
}

/// Tells what a project of files comes to, and answers the status. Nothing but want of memory refuses it.
fn tell_judged<O: Sink, E: Sink>(
    judged: Result<Verdict, CheckFault>,
    out: &mut O,
    err: &mut E,
) -> u8
    requires out_works { O.failed out.old ≡ false }
    requires err_works { E.failed err.old ≡ false }
    ensures { (format : Format) (is_verbose : Bool) (files : List File) → IfOk judged (IsVerdict format files) → IfErr judged (λ fault. fault ≡ CheckFault.NoMemory)
        → Checks format is_verbose files (O.held out.old) (record { held = O.held out.new; failed = O.failed out.new })
        (E.held err.old) (record { held = E.held err.new; failed = E.failed err.new }) result }
{
    match judged {
        Ok(verdict) => print(&verdict.text, &[], verdict.status, out, err),
        Err(fault) => print(&[], fault.line().as_bytes(), FAULT_STATUS, out, err),
    }
}

/// Tells what files come to, and answers the status.
fn tell_all<O: Sink, E: Sink>(
    alloc: Global,
    is_verbose: bool,
    files: &[File],
    judged: Result<Verdict, CheckFault>,
    out: &mut O,
    err: &mut E,
) -> u8
    requires out_works { O.failed out.old ≡ false }
    requires err_works { E.failed err.old ≡ false }
    ensures { (format : Format) → IfOk judged (IsVerdict format files.now) → IfErr judged (IsFaultOr (files_fault files.now))
        → Checks format is_verbose files.now (O.held out.old) (record { held = O.held out.new; failed = O.failed out.new })
        (E.held err.old) (record { held = E.held err.new; failed = E.failed err.new }) result }
{
    match judged {
        Ok(verdict) => print(&verdict.text, &[], verdict.status, out, err),
        Err(fault) => refuse(alloc, is_verbose, files, fault, out, err),
    }
}

/// Tells the fault of files, and where `--verbose` asks for it first which of them is at fault and why, on `err`, and answers
/// the status. Where memory is refused for that, it is want of memory that is told.
pub fn refuse<O: Sink, E: Sink>(
    alloc: Global,
    is_verbose: bool,
    files: &[File],
    fault: CheckFault,
    out: &mut O,
    err: &mut E,
) -> u8
    requires out_works { O.failed out.old ≡ false }
    requires err_works { E.failed err.old ≡ false }
    ensures { IsFaultOr (files_fault files.now) fault → Refuses is_verbose files.now (O.held out.old) (record { held = O.held out.new; failed = O.failed out.new })
        (E.held err.old) (record { held = E.held err.new; failed = E.failed err.new }) result }
{
    if !is_verbose {
        return print(&[], fault.line().as_bytes(), FAULT_STATUS, out, err);
    }
    match explained(alloc, files, fault) {
        Ok(text) => print(&[], &text, FAULT_STATUS, out, err),
        Err(NoMemory) => {
            let line = CheckFault::NoMemory.line();
            print(&[], line.as_bytes(), FAULT_STATUS, out, err)
        }
    }
}
