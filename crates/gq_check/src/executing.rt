//! Execution of an operation of files over a table.
ghost use Rattle.std.specs.Prelude.{◌≡◌, ◌≤◌, ◌^◌, ℕ, Option, All, false, true, List, IfOk, IfErr, length};
ghost use Rattle.gq_rules.specs.ValidityViews.{IsWhy};
ghost use Rattle.gq_types.specs.Look.{text_of};
ghost use Rattle.gq_table.specs.Views.{entries_view, rows_view};
ghost use Rattle.gq_check.specs.Files.{content_of};
ghost use Rattle.gq_check.specs.Flaws.{inputs_reason, IsExecReason};
ghost use Rattle.gq_check.specs.declared.fault.CheckFault.TheVariants as check_fault;
ghost use Rattle.gq_check.specs.Execution.{Executes, IsExecFaultOr, exec_fault};
ghost use Rattle.gq_check.specs.Helping.ExecVerdicts.{IsExecVerdict, IsExplained, IsAnswered, IsResponded};
ghost use Rattle.gq_project.specs.declared.document.Doc.{Doc};

use crate::exec_fault::ExecFault;
use crate::fault::CheckFault;
use crate::files::{File, read_project};
use crate::flaws::{table_reason, variables_reason};
use crate::formats::Format;
use crate::inputs::{read_table, read_variables};
use crate::judging::{Verdict, verdict_against};
use crate::printing::{FAULT_STATUS, print};
use crate::reasons::{files_reason, reason_line};
use gq_exec::{Table, Variables, execute};
use gq_rpc::Sink;
use gq_rules::{Invalid, Valid};
use gq_text::NoMemory;
use std::alloc::Global;

/// The status where an operation is answered.
const ANSWERED_STATUS: u8 = 0;

/// Executes the operation of that name, or the only one, of the project of these files: over the table and for the values
/// of variables that these two files hold. Tells the response, or what is wrong with the project, on `out` and what is at fault
/// on `err`, with which file it is and why where `is_verbose`, and answers the status of the process. All that goes to `out` is
/// made before any of it is written.
pub fn exec<O: Sink, E: Sink>(
    alloc: Global,
    is_verbose: bool,
    name: Option<&str>,
    table: &File,
    variables: &File,
    files: &[File],
    out: &mut O,
    err: &mut E,
) -> u8
    requires out_works { O.failed out.old ≡ false }
    requires err_works { E.failed err.old ≡ false }
    ensures { Executes is_verbose (text_of name.entry) table.now variables.now files.now (O.held out.old) (record { held = O.held out.new; failed = O.failed out.new })
        (E.held err.old) (record { held = E.held err.new; failed = E.failed err.new }) result }
{
    match answered(alloc, name, table, variables, files) {
        Ok(verdict) => print(&verdict.text, &[], verdict.status, out, err),
        Err(fault) => refuse_exec(alloc, is_verbose, table, variables, files, fault, out, err),
    }
}

/// Tells why an operation is not executed, and where `--verbose` asks for it first which file is at fault and why, and answers
/// the status. Where memory is refused for that, it is want of memory that is told.
fn refuse_exec<O: Sink, E: Sink>(
    alloc: Global,
    is_verbose: bool,
    table: &File,
    variables: &File,
    files: &[File],
    fault: ExecFault,
    out: &mut O,
    err: &mut E,
) -> u8
    requires out_works { O.failed out.old ≡ false }
    requires err_works { E.failed err.old ≡ false }
    ensures { (name : Option (List ℕ)) → IsExecFaultOr (exec_fault (content_of table.now) (content_of variables.now) files.now) fault
        → Executes is_verbose name table.now variables.now files.now (O.held out.old) (record { held = O.held out.new; failed = O.failed out.new })
        (E.held err.old) (record { held = E.held err.new; failed = E.failed err.new }) result }
{
    if !is_verbose {
        return print(&[], fault.line().as_bytes(), fault.status(), out, err);
    }
    match explained(alloc, table, variables, files, fault) {
        Ok(text) => print(&[], &text, fault.status(), out, err),
        Err(NoMemory) => {
            let line = CheckFault::NoMemory.line();
            print(&[], line.as_bytes(), FAULT_STATUS, out, err)
        }
    }
}

/// Which file is at fault and why, and the line that tells the fault.
fn explained(
    alloc: Global,
    table: &File,
    variables: &File,
    files: &[File],
    fault: ExecFault,
) -> Result<Vec<u8>, NoMemory>
    ensures { IfOk result (λ text. IsExplained table.now variables.now files.now fault text.items) }
{
    let mut text = exec_reason(alloc, table, variables, files, fault)?;
    text.extend_from_slice(fault.line().as_bytes())?;
    Ok(text)
}

/// The line that says which file is at fault, and why, where this fault refuses an execution.
fn exec_reason(
    alloc: Global,
    table: &File,
    variables: &File,
    files: &[File],
    fault: ExecFault,
) -> Result<Vec<u8>, NoMemory>
    ensures { IfOk result (λ line. IsExecReason true table.now variables.now files.now fault line.items) }
{
    match fault {
        ExecFault::BadTable => table_reason(alloc, table),
        ExecFault::BadVariables => variables_reason(alloc, variables),
        ExecFault::Check(CheckFault::TooMany | CheckFault::TooLarge | CheckFault::Device) => {
            inputs_reason(alloc, table, variables, files)
        }
        ExecFault::Check(CheckFault::NoMemory) => Ok(Vec::new(alloc)),
    }
}

/// The line of the table where it could not be read, else of the variables, else of the first file at fault.
fn inputs_reason(
    alloc: Global,
    table: &File,
    variables: &File,
    files: &[File],
) -> Result<Vec<u8>, NoMemory>
    ensures { IfOk result (λ line. line.items ≡ inputs_reason table.now variables.now files.now) }
{
    if table.bytes.is_none() {
        return reason_line(alloc, table.name.as_str(), table.why.as_str());
    }
    if variables.bytes.is_none() {
        return reason_line(alloc, variables.name.as_str(), variables.why.as_str());
    }
    files_reason(alloc, files)
}

/// What an execution comes to.
fn answered(
    alloc: Global,
    name: Option<&str>,
    table: &File,
    variables: &File,
    files: &[File],
) -> Result<Verdict, ExecFault>
    ensures ok { IfOk result (IsExecVerdict (text_of name.entry) (content_of table.now) (content_of variables.now) files.now) }
    ensures err { IfErr result (IsExecFaultOr (exec_fault (content_of table.now) (content_of variables.now) files.now)) }
{
    let table = read_table(alloc, table)?;
    let variables = read_variables(alloc, variables)?;
    let project = read_project(alloc, files)?;
    let verdict = answer_in(alloc, name, &table, &variables, Valid::new(alloc, project))?;
    Ok(verdict)
}

/// What is answered of files whose project was judged so.
fn answer_in(
    alloc: Global,
    name: Option<&str>,
    table: &Table,
    variables: &Variables,
    judged: Result<Valid, Invalid>,
) -> Result<Verdict, CheckFault>
    requires { IfErr judged (λ invalid. All (λ doc. length doc.text ≤ 2 ^ 22) invalid.project) }
    ensures ok { (documents : List Doc) → IfOk judged (λ valid. valid ≡ documents) → IfErr judged (λ invalid. (invalid.project ≡ documents) × IsWhy documents invalid.why)
        → IfOk result (IsAnswered (text_of name.entry) (rows_view table.now) (entries_view variables.now.entries.items) documents) }
    ensures err { IfErr result (λ fault. fault ≡ check_fault.NoMemory) }
{
    match judged {
        Ok(valid) => Ok(response_of(alloc, name, table, variables, &valid)?),
        Err(invalid) => {
            let verdict = verdict_against(alloc, Format::Text, &invalid)?;
            Ok(verdict)
        }
    }
}

/// The response to an operation of a valid project, and a line end.
fn response_of(
    alloc: Global,
    name: Option<&str>,
    table: &Table,
    variables: &Variables,
    valid: &Valid,
) -> Result<Verdict, NoMemory>
    ensures { IfOk result (IsResponded (text_of name.entry) (rows_view table.now) (entries_view variables.now.entries.items) valid.now) }
{
    let _project = valid.project();
    let response = execute(alloc, valid, name, table, variables)?;
    let mut text = response.text(alloc)?;
    text.push_str("\n")?;
    Ok(Verdict {
        text: text.into_bytes(),
        status: ANSWERED_STATUS,
    })
}
