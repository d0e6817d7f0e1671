//! What an offset in a document of a project means to a rename.
ghost use Rattle.std.specs.Prelude.{◌≡◌, ◌↔◌, ◌<◌, ◌^◌, Some, IfOk, length, slice_get, take};
ghost use Rattle.gq_tree.specs.Readings.{ParsedOf, definitions_read, parsed_view, readings_view};
ghost use Rattle.gq_parse.specs.Parsed.{AreParsed};
ghost use Rattle.gq_index.specs.Occurrences.{executables};
ghost use Rattle.gq_mentions.specs.declared.target.Target.{Target};
ghost use Rattle.gq_mentions.specs.Renameables.{renameables};
ghost use Rattle.gq_mentions.specs.Targets.{target};
ghost use Rattle.gq_rename.specs.Asks.{IsTarget, target_of};

use crate::laws::offsets_mean_one_target;
use gq_index::executables;
use gq_mentions::{Target, target_in};
use gq_parse::read_shared;
use gq_project::Project;
use gq_rules::Valid;
use gq_text::NoMemory;
use gq_tree::Parsed;
use std::alloc::Global;
use std::sync::Arc;

/// What a rename at the offset, in bytes, of the document of that key is of: the fragment's name or the variable whose
/// span holds the offset, else the one whose span ends there. There is none where the project has no such document.
pub fn target(
    alloc: Global,
    valid: &Valid,
    key: &str,
    offset: usize,
) -> Result<Option<Target>, NoMemory>
    ensures { IfOk result (λ found. (t : Target) → (found ≡ Some t) ↔ IsTarget valid.now key.now offset t) }
{
    offsets_mean_one_target();
    let project = valid.project();
    let readings = read_shared(alloc, project.documents())?;
    let found = target_by(alloc, project, &readings, key, offset)?;
    Ok(found)
}

/// The same of a project whose documents are read so.
pub(crate) fn target_by(
    alloc: Global,
    project: &Project,
    readings: &[Arc<Parsed>],
    key: &str,
    offset: usize,
) -> Result<Option<Target>, NoMemory>
    ensures { IfOk result (λ found. AreParsed project.now (readings_view readings.now) → found ≡ target_of project.now (readings_view readings.now) key.now offset) }
{
    let Some(file) = project.place(key) else {
        return Ok(None);
    };
    target_at(alloc, readings, file, offset)
}

/// The target of an offset in the document of that number.
fn target_at(
    alloc: Global,
    readings: &[Arc<Parsed>],
    file: usize,
    offset: usize,
) -> Result<Option<Target>, NoMemory>
    ensures { IfOk result (λ found. (r : ParsedOf) → slice_get (readings_view readings.now) file ≡ Some r →
        found ≡ target offset (renameables (length (executables (take file (readings_view readings.now)))) (definitions_read r))) }
{
    match readings.get(file) {
        Some(reading) => {
            let first = count_executables(alloc, &readings[..file])?;
            target_read(alloc, reading, first, offset)
        }
        None => Ok(None),
    }
}

/// The target of an offset in what is read, whose first executable definition has the number `first`.
fn target_read(
    alloc: Global,
    reading: &Parsed,
    first: usize,
    offset: usize,
) -> Result<Option<Target>, NoMemory>
    requires { first < 2 ^ 63 }
    ensures { IfOk result (λ found. found ≡ target offset (renameables first (definitions_read (parsed_view reading.now)))) }
{
    match reading {
        Parsed::Tree(document) => target_in(alloc, document, first, offset),
        Parsed::Syntax { .. } => Ok(None),
        Parsed::Limit { .. } => Ok(None),
    }
}

/// How many executable definitions these documents have.
fn count_executables(alloc: Global, readings: &[Arc<Parsed>]) -> Result<usize, NoMemory>
    ensures { IfOk result (λ count. (count ≡ length (executables (readings_view readings.now))) × (count < 2 ^ 63)) }
{
    let all = executables(alloc, readings)?;
    Ok(all.len())
}
