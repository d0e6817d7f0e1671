//! Which entries belong to which.
ghost use Rattle.std.specs.Prelude.{◌≡◌, ◌++◌, ◌∷◌, ◌+◌, ◌<◌, [], ℕ, IfOk, OnOk, length, get_or, set};
ghost use Rattle.gq_types.specs.Entries.{entries_view};
ghost use Rattle.gq_types.specs.Helping.Tables.{lists_of, AreJoined};

use crate::definitions::Definitions;
use gq_text::NoMemory;
use std::alloc::Global;

/// For each number up to and including the number of entries, the numbers of the entries that belong to it, in order.
pub(crate) fn joined_numbers(
    alloc: Global,
    definitions: &Definitions,
) -> Result<Vec<Vec<usize>>, NoMemory>
    ensures { IfOk result (λ lists. AreJoined (entries_view definitions.now) (lists_of lists.items)) }
{
    let count = definitions.entries().len();
    let mut lists = empty_lists(alloc, count + 1)?;
    for number in 0..count {
        put(&mut lists, definitions.owner(number), number)?;
    }
    Ok(lists)
}

/// So many empty lists.
fn empty_lists(alloc: Global, count: usize) -> Result<Vec<Vec<usize>>, NoMemory>
    ensures count { IfOk result (λ lists. length lists.items ≡ count) }
    ensures empty { IfOk result (λ lists. (k : ℕ) → get_or (lists_of lists.items) k [] ≡ []) }
{
    let mut lists = Vec::new(alloc);
    for _number in 0..count {
        lists.push(Vec::new(alloc))?;
    }
    Ok(lists)
}

/// Puts the number at the end of the list at that place.
fn put(lists: &mut [Vec<usize>], place: usize, number: usize) -> Result<(), NoMemory>
    requires { place < length lists.old }
    ensures { OnOk result (lists_of lists.new ≡ set (lists_of lists.old) place (get_or (lists_of lists.old) place [] ++ number ∷ [])) }
{
    lists[place].push(number)?;
    Ok(())
}
