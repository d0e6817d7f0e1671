//! Closed sets of files whose numbers change, since another file is put in or taken out.
ghost use Rattle.std.specs.Prelude.{◌≡◌, ◌+◌, ◌<◌, ◌^◌, IfOk, IfSome, map};
ghost use Rattle.gq_document.specs.Executable.{ExecutableOf};
ghost use Rattle.gq_by_file.specs.Across.{AreCovers, IsCover};
ghost use Rattle.gq_by_file.specs.Helping.Moved.{AreUnmarked, GoOver, number_after};

use crate::covers::Cover;
use crate::marks::has_no_mark;
use gq_text::NoMemory;
use std::alloc::Global;

/// A file is put in at that place, or the one there is taken out.
#[derive(Clone, Copy)]
pub(crate) enum Change {
    PutIn(usize),
    TakenOut(usize),
}

/// The number that another file has then.
fn number_after(change: Change, file: usize) -> usize
    requires { file + 1 < 2 ^ 64 }
    ensures { result ≡ number_after change file }
{
    match change {
        Change::PutIn(at) => { if at <= file { file + 1 } else { file } }
        Change::TakenOut(at) => { if at < file { file - 1 } else { file } }
    }
}

/// The numbers that these files have then, where each has a place without a mark.
fn files_after(
    alloc: Global,
    change: Change,
    marks: &[bool],
    files: &[usize],
) -> Result<Option<Vec<usize>>, NoMemory>
    ensures { IfOk result (λ after. IfSome after (λ some. AreUnmarked marks.now files.now × (some.items ≡ map (number_after change) files.now))) }
{
    let mut after = Vec::with_capacity(alloc, files.len())?;
    for file in files {
        if !has_no_mark(marks, *file) {
            return Ok(None);
        }
        after.push(number_after(change, *file))?;
    }
    Ok(Some(after))
}

/// Puts the cover behind the others, under the numbers that its files have then, if nothing is told of it and none of its files has a mark.
fn put_after(
    alloc: Global,
    change: Change,
    marks: &[bool],
    cover: &Cover,
    after: &mut Vec<Cover>,
) -> Result<(), NoMemory>
    ensures { (x y : ExecutableOf) → GoOver (number_after change) marks.now x y → IsCover x cover.now → AreCovers y after.old.items → AreCovers y after.new.items }
{
    if !cover.faults.is_empty() {
        return Ok(());
    }
    if let Some(files) = files_after(alloc, change, marks, &cover.files)? {
        after.push(Cover {
            files,
            faults: Vec::new(alloc),
        })?;
    }
    Ok(())
}

/// The covers of which nothing is told and no file has a mark, under the numbers that their files have then.
pub(crate) fn covers_after(
    alloc: Global,
    change: Change,
    marks: &[bool],
    covers: &[Cover],
) -> Result<Vec<Cover>, NoMemory>
    ensures { IfOk result (λ after. (x y : ExecutableOf) → GoOver (number_after change) marks.now x y → AreCovers x covers.now → AreCovers y after.items) }
{
    let mut after = Vec::with_capacity(alloc, covers.len())?;
    for cover in covers {
        put_after(alloc, change, marks, cover, &mut after)?;
    }
    Ok(after)
}
