//! What `--verbose` says of files: which is at fault, and why.
ghost use Rattle.std.specs.Prelude.{◌≡◌, ◌++◌, true, map, IfOk};
ghost use Rattle.std.specs.Option.{option_map};
ghost use Rattle.gq_check.specs.Faults.{fault_line};
ghost use Rattle.gq_check.specs.Reasons.{reason_line, file_flaw, first_reason, files_reason, refusal_reason};

use crate::fault::CheckFault;
use crate::files::{FILES_MAX, File, first_files};
use gq_text::NoMemory;
use gq_text::text::TEXT_MAX;
use std::alloc::Global;
use std::str::from_utf8;

/// The line that says why a file of that name is at fault.
pub(crate) fn reason_line(alloc: Global, name: &str, why: &str) -> Result<Vec<u8>, NoMemory>
    ensures { IfOk result (λ line. line.items ≡ reason_line name.now why.now) }
{
    let line = format!(in alloc; "gqls: {name}: {why}\n")?;
    Ok(line.into_bytes())
}

/// Why a file is none of a project, if it is none.
pub(crate) fn flaw_of(file: &File) -> Option<&str>
    ensures { option_map (λ why. why.now) result ≡ file_flaw file.now }
{
    let Some(bytes) = &file.bytes else {
        return Some(file.why.as_str());
    };
    if bytes.len() > TEXT_MAX {
        return Some("more than 4 MiB");
    }
    let Ok(_) = from_utf8(bytes) else {
        return Some("not UTF-8");
    };
    None
}

/// The line of the first of these files that is at fault.
fn first_reason(alloc: Global, files: &[&File]) -> Result<Vec<u8>, NoMemory>
    ensures { IfOk result (λ line. line.items ≡ first_reason (map (λ file. file.now) files.now)) }
{
    for file in files {
        match flaw_of(file) {
            Some(why) => return reason_line(alloc, file.name.as_str(), why),
            None => {}
        }
    }
    Ok(Vec::new(alloc))
}

/// The line of the first file that is at fault, each looked at where its name first stands; none where there are too many.
pub(crate) fn files_reason(alloc: Global, files: &[File]) -> Result<Vec<u8>, NoMemory>
    ensures { IfOk result (λ line. line.items ≡ files_reason files.now) }
{
    let firsts = first_files(alloc, files)?;
    if firsts.len() > FILES_MAX {
        return Ok(Vec::new(alloc));
    }
    first_reason(alloc, &firsts)
}

/// The line that says why files are at fault that this fault refuses.
fn refusal_reason(alloc: Global, files: &[File], fault: CheckFault) -> Result<Vec<u8>, NoMemory>
    ensures { IfOk result (λ line. line.items ≡ refusal_reason true files.now fault) }
{
    match fault {
        CheckFault::TooMany | CheckFault::TooLarge | CheckFault::Device => {
            files_reason(alloc, files)
        }
        CheckFault::NoMemory => Ok(Vec::new(alloc)),
    }
}

/// That line, and the one that tells the fault.
pub(crate) fn explained(
    alloc: Global,
    files: &[File],
    fault: CheckFault,
) -> Result<Vec<u8>, NoMemory>
    ensures { IfOk result (λ text. text.items ≡ refusal_reason true files.now fault ++ fault_line fault) }
{
    let mut text = refusal_reason(alloc, files, fault)?;
    text.extend_from_slice(fault.line().as_bytes())?;
    Ok(text)
}
