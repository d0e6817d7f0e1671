//! What is printed of the faults that were found.
ghost use Rattle.std.specs.Prelude.{◌≡◌, ◌<◌, ◌≤◌, ◌^◌, ◌++◌, All, length, take, IfOk, OnOk};
ghost use Rattle.gq_check.specs.Lines.{text_at};
ghost use Rattle.gq_check.specs.Formats.{printed_all};
ghost use Rattle.gq_check.specs.Helping.Runs.{AreAllOf, first_key};

use crate::formats::{Format, print_found};
use crate::places::Places;
use gq_fault::Found;
use gq_project::Project;
use gq_text::NoMemory;
use std::alloc::Global;

/// Each of the faults, in order and in that form. The text of a document is gone over once for faults that stand one after the
/// other.
pub fn print_all(
    alloc: Global,
    format: Format,
    project: &Project,
    found: &[Found],
) -> Result<Vec<u8>, NoMemory>
    requires { All (λ doc. length doc.text ≤ 2 ^ 22) project.now }
    ensures { IfOk result (λ lines. lines.items ≡ printed_all format project.now found.now) }
{
    let mut lines = Vec::new(alloc);
    let mut rest = found;
    'runs: while !rest.is_empty() {
        let count = run_len(rest);
        let (run, others) = rest.split_at(count);
        print_run(
            alloc,
            format,
            project,
            rest[0].key.as_str(),
            run,
            &mut lines,
        )?;
        rest = others;
    }
    Ok(lines)
}

/// How many of the faults at the front are of the first one's document.
fn run_len(found: &[Found]) -> usize
    requires { 0 < length found.now }
    ensures some { 0 < result }
    ensures within { result ≤ length found.now }
    ensures same { AreAllOf (first_key found.now) (take result found.now) }
{
    let key = found[0].key.as_str();
    let mut count = 0;
    for item in found {
        if item.key.as_str() != key {
            return count;
        }
        count += 1;
    }
    count
}

/// The text of the document of that key. Where there is none, nothing.
pub fn text_of<'a>(project: &'a Project, key: &str) -> &'a str
    ensures { result.now ≡ text_at project.now key.now }
{
    project.text(key).unwrap_or("")
}

/// Puts faults of the document of that key, in order.
fn print_run(
    alloc: Global,
    format: Format,
    project: &Project,
    key: &str,
    found: &[Found],
    lines: &mut Vec<u8>,
) -> Result<(), NoMemory>
    requires texts { All (λ doc. length doc.text ≤ 2 ^ 22) project.now }
    requires same { AreAllOf key.now found.now }
    ensures { OnOk result (lines.new.items ≡ lines.old.items ++ printed_all format project.now found.now) }
{
    let text = text_of(project, key);
    let places = Places::of(alloc, text, found)?;
    for item in found {
        let in_units = places.in_units(text, item.span);
        let in_bytes = places.in_bytes(text, item.span);
        print_found(alloc, format, item, in_units, in_bytes, lines)?;
    }
    Ok(())
}
