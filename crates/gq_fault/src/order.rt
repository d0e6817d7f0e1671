//! Faults in order, each once.
ghost use Rattle.std.specs.Prelude.{◌↔◌, Contains};
ghost use Rattle.std.specs.List.Sorted.{IsStrictlySortedBy};
ghost use Rattle.gq_fault.specs.Order.{fault_cmp};

use crate::fault::Fault;

/// Puts the faults in order, each once. It takes no memory.
pub fn put_in_order(faults: &mut Vec<Fault>)
    ensures sorted { IsStrictlySortedBy fault_cmp faults.new.items }
    ensures same { (fault : _) → Contains faults.new.items fault ↔ Contains faults.old.items fault }
{
    faults.sort_unstable();
    faults.dedup();
}
