//! Sets of files as marks.
ghost use Rattle.std.specs.Prelude.{◌≡◌, ◌==◌, ◌+◌, ◌<◌, ◌^◌, ℕ, true, false, IfOk, Some, length, slice_get, slice_index_or};
ghost use Rattle.std.specs.List.{list_any};
ghost use Rattle.gq_by_file.specs.Closed.Closed.{is_among};
ghost use Rattle.gq_by_file.specs.Helping.Marks.{AreMarked};

use gq_text::NoMemory;
use std::alloc::Global;

/// Whether the file of that number is marked.
pub(crate) fn is_marked(marks: &[bool], file: usize) -> bool
    ensures { result ≡ slice_index_or marks.now file false }
{
    match marks.get(file) {
        Some(mark) => *mark,
        None => false,
    }
}

/// Marks these files, as far as there is a place for a mark.
pub(crate) fn mark(marks: &mut Vec<bool>, files: &[usize])
    ensures count { length marks.new.items ≡ length marks.old.items }
    ensures marked { AreMarked files.now marks.old.items marks.new.items }
{
    for file in files {
        if *file < marks.len() {
            marks[*file] = true;
        }
    }
}

/// Marks at these files alone.
pub(crate) fn marked(alloc: Global, count: usize, files: &[usize]) -> Result<Vec<bool>, NoMemory>
    ensures count { IfOk result (λ marks. length marks.items ≡ count) }
    ensures marked { IfOk result (λ marks. (n : ℕ) → n < count → slice_index_or marks.items n false ≡ is_among files.now n) }
{
    let mut marks = vec![in alloc; false; count]?;
    mark(&mut marks, files);
    Ok(marks)
}

/// Whether that file is one of these.
pub(crate) fn has_file(files: &[usize], file: usize) -> bool
    ensures { result ≡ list_any (λ n. n == file) files.now }
{
    files.contains(&file)
}

/// Whether one of these files is marked.
pub(crate) fn has_marked(marks: &[bool], files: &[usize]) -> bool
    ensures { result ≡ list_any (λ n. slice_index_or marks.now n false) files.now }
{
    files.iter().any(|file| is_marked(marks, *file))
}

/// Whether the file of that number has a place, and no mark there.
pub(crate) fn has_no_mark(marks: &[bool], file: usize) -> bool
    ensures mark { result ≡ true → slice_get marks.now file ≡ Some false }
    ensures place { result ≡ true → file + 1 < 2 ^ 64 }
{
    match marks.get(file) {
        Some(mark) => !*mark,
        None => false,
    }
}
