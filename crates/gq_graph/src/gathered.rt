//! Numbers that were found, each once, kept so that it costs time and memory for the found ones alone.
ghost use Rattle.std.specs.Prelude.{◌≡◌, IfOk, OnOk};
ghost use Rattle.gq_graph.specs.Reach.{NoneTwice};
ghost use Rattle.gq_graph.specs.Helping.Found.{Grown, Added};

use gq_text::NoMemory;
use indexmap::IndexSet;
use std::alloc::Global;

/// Takes the number in behind the others, if it is new.
pub fn put(found: &mut IndexSet<usize>, number: usize) -> Result<(), NoMemory>
    requires once { NoneTwice found.old.keys }
    ensures once { OnOk result (NoneTwice found.new.keys) }
    ensures added { OnOk result (Added number found.old.keys found.new.keys) }
{
    found.insert(number)?;
    Ok(())
}

/// Takes in those of the numbers that are new, in their order.
pub fn put_all(found: &mut IndexSet<usize>, numbers: &[usize]) -> Result<(), NoMemory>
    requires once { NoneTwice found.old.keys }
    ensures once { OnOk result (NoneTwice found.new.keys) }
    ensures grown { OnOk result (Grown numbers.now found.old.keys found.new.keys) }
{
    for number in numbers {
        put(found, *number)?;
    }
    Ok(())
}

/// The numbers as a list.
pub fn listed(alloc: Global, found: &IndexSet<usize>) -> Result<Vec<usize>, NoMemory>
    ensures { IfOk result (λ list. list.items ≡ found.now.keys) }
{
    let mut list = Vec::new(alloc);
    list.extend_from_slice(found.as_slice())?;
    Ok(list)
}
