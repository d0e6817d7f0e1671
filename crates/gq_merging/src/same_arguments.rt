//! Identical sets of arguments (section 5.3.2).
ghost use Rattle.std.specs.Prelude.{◌≡◌, ◌↔◌, IsTrue, IfOk, map};
ghost use Rattle.gq_tree.specs.Views.{argument_view};
ghost use Rattle.gq_merging.specs.SameArguments.{SameArguments};

use crate::entries::Entries;
use crate::same_values::have_same_entries;
use gq_text::NoMemory;
use gq_tree::{Argument, are_same_arguments};
use std::alloc::Global;

/// Whether each name and value of the one is in the other. Arguments in one order take linear time, others time for
/// each pair of values of one name.
pub(crate) fn have_same_arguments(
    alloc: Global,
    left: &[Argument],
    right: &[Argument],
) -> Result<bool, NoMemory>
    ensures { IfOk result (λ same. IsTrue same ↔ SameArguments (map argument_view left.now) (map argument_view right.now)) }
{
    if are_same_arguments(left, right) {
        return Ok(true);
    }
    have_same_entries(alloc, Entries::Arguments(left), Entries::Arguments(right))
}
