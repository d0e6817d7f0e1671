//! What is told of documents: first of their texts and of the type system, and where that is nothing, of the rules.
ghost use Rattle.std.specs.Prelude.{◌≡◌, ◌↔◌, ◌++◌, Contains, IfOk};
ghost use Rattle.std.specs.List.Sorted.{IsStrictlySortedBy};
ghost use Rattle.gq_tree.specs.Readings.{readings_view, unshared_view};
ghost use Rattle.gq_document.specs.ReadBy.{read_by};
ghost use Rattle.gq_fault.specs.declared.fault.Fault.{Fault};
ghost use Rattle.gq_fault.specs.Order.{fault_cmp};
ghost use Rattle.gq_known.specs.Known.{IsKnown};
ghost use Rattle.gq_rules.specs.AllFaults.{AreFaultsOf};
ghost use Rattle.gq_rules.specs.Faults.{IsFaultOf};
ghost use Rattle.gq_rules.specs.Helping.Places.{unread_at, mixed_at, each_from};

use crate::unread::add_unread;
use crate::wrong::add_wrong;
use gq_document::{AsParsed, type_system_entries};
use gq_fault::{Fault, put_in_order};
use gq_known::Known;
use gq_known::executable_definitions::{add_mixed, add_mixed_of};
use gq_parse::read;
use gq_project::Doc;
use gq_text::NoMemory;
use gq_tree::Parsed;
use std::alloc::Global;

/// The faults of what is told of documents, in order, each once.
pub(crate) fn demanded(alloc: Global, documents: &[Doc]) -> Result<Vec<Fault>, NoMemory>
    ensures { IfOk result (λ faults. AreFaultsOf documents.now faults.items) }
{
    let readings = read(alloc, documents)?;
    let faults = all_faults(alloc, readings)?;
    Ok(in_order(faults))
}

/// The faults of what is told of documents that are read so, in no order.
fn all_faults(alloc: Global, readings: Vec<Parsed>) -> Result<Vec<Fault>, NoMemory>
    ensures { IfOk result (λ faults. (fault : Fault) → Contains faults.items fault ↔ IsFaultOf (unshared_view readings.items) fault) }
{
    let mut faults = faults_of_texts(alloc, &readings)?;
    let entries = type_system_entries(alloc, &readings)?;
    add_wrong(alloc, entries, &readings, &mut faults)?;
    Ok(faults)
}

/// The faults of documents without a tree, and of those with definitions of both sorts.
pub(crate) fn faults_of_texts<R: AsParsed>(
    alloc: Global,
    readings: &[R],
) -> Result<Vec<Fault>, NoMemory>
    ensures { IfOk result (λ faults. faults.items ≡ each_from unread_at 0 (read_by R.as_parsed readings.now) ++ each_from mixed_at 0 (read_by R.as_parsed readings.now)) }
{
    let mut faults = Vec::new(alloc);
    add_unread(readings, &mut faults)?;
    add_mixed(readings, &mut faults)?;
    Ok(faults)
}

/// The same of what is known, where only documents that define types are looked at for both sorts.
pub(crate) fn faults_of_known_texts(alloc: Global, known: Known<'_>) -> Result<Vec<Fault>, NoMemory>
    ensures { IfOk result (λ faults. IsKnown known.entry →
        faults.items ≡ each_from unread_at 0 (readings_view known.entry.readings.now) ++ each_from mixed_at 0 (readings_view known.entry.readings.now)) }
{
    let mut faults = Vec::new(alloc);
    add_unread(known.readings, &mut faults)?;
    add_mixed_of(alloc, known.types.entries(), known.readings, &mut faults)?;
    Ok(faults)
}

/// The faults in their order, each once.
pub(crate) fn in_order(mut faults: Vec<Fault>) -> Vec<Fault>
    ensures sorted { IsStrictlySortedBy fault_cmp result.items }
    ensures same { (fault : Fault) → Contains result.items fault ↔ Contains faults.items fault }
{
    put_in_order(&mut faults);
    faults
}
