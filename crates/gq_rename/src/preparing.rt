//! What would be renamed at an offset (LSP 3.17, "Prepare Rename Request").
ghost use Rattle.std.specs.Prelude.{IfOk};
ghost use Rattle.gq_known.specs.Known.{IsKnown};
ghost use Rattle.gq_rename.specs.Prepare.{IsPrepared};

use crate::targets::target_by;
use gq_known::{Known, Learned};
use gq_project::Project;
use gq_text::{NoMemory, Span};
use std::alloc::Global;

/// The name token of what a rename at the offset, in bytes, of the document of that key is of. There is none where
/// nothing can be renamed, as in a text without a tree.
pub fn prepare(
    alloc: Global,
    project: &Project,
    key: &str,
    offset: usize,
) -> Result<Option<Span>, NoMemory>
    ensures { IfOk result (IsPrepared project.now key.now offset) }
{
    let learned = Learned::of(alloc, project)?;
    let found = prepare_by(alloc, learned.known(project), key, offset)?;
    Ok(found)
}

/// The same of a project that is known. No text is read.
pub fn prepare_by(
    alloc: Global,
    known: Known<'_>,
    key: &str,
    offset: usize,
) -> Result<Option<Span>, NoMemory>
    ensures { IfOk result (λ found. IsKnown known.entry → IsPrepared known.entry.project.now key.now offset found) }
{
    match target_by(alloc, known.project, known.readings, key, offset)? {
        Some(target) => Ok(Some(target.name.span)),
        None => Ok(None),
    }
}
