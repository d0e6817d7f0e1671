//! Marks of the entries of a set for which an identical one was found.
ghost use Rattle.std.specs.Prelude.{◌≡◌, ℕ, false, IfOk, length};
ghost use Rattle.std.specs.List.{list_all};
ghost use Rattle.gq_merging.specs.Helping.Marks.{is_marked};

use gq_text::NoMemory;
use std::alloc::Global;

/// As many marks, none of them set.
pub(crate) fn unmarked(alloc: Global, count: usize) -> Result<Vec<bool>, NoMemory>
    ensures count { IfOk result (λ marks. length marks.items ≡ count) }
    ensures none { IfOk result (λ marks. (j : ℕ) → is_marked marks.items j ≡ false) }
{
    let marks = vec![in alloc; false; count]?;
    Ok(marks)
}

/// Whether each mark is set.
pub(crate) fn are_all_marked(marks: &[bool]) -> bool
    ensures { result ≡ list_all (λ m. m) marks.now }
{
    for mark in marks {
        if !*mark {
            return false;
        }
    }
    true
}
