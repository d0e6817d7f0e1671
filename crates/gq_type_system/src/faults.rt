//! All that is wrong with a type system.
ghost use Rattle.std.specs.Prelude.{◌≡◌, ◌++◌, ◌↔◌, Contains, IfOk, OnOk};
ghost use Rattle.std.specs.List.Sorted.{IsStrictlySortedBy};
ghost use Rattle.gq_fault.specs.declared.fault.Fault.{Fault};
ghost use Rattle.gq_fault.specs.Order.{fault_cmp};
ghost use Rattle.gq_types.specs.Look.{types_view};
ghost use Rattle.gq_type_system.specs.SchemaFaults.{IsSchemaFault};
ghost use Rattle.gq_type_system.specs.Helping.EachEntry.{names_told, parts_told};

use crate::directives_and_defaults::add_bad_directives_and_defaults;
use crate::each_entry::{EntryFaults, GroupFaults, told_of_entries};
use crate::endless_inputs::add_endless_inputs;
use crate::query_root::add_no_query_root;
use crate::root_types::add_wrong_roots;
use gq_fault::{Fault, put_in_order};
use gq_text::NoMemory;
use gq_types::Types;
use std::alloc::Global;

/// What is wrong with a type system, in the order of documents, places and codes, each fault once.
pub fn schema_faults(alloc: Global, types: &Types) -> Result<Vec<Fault>, NoMemory>
    ensures sorted { IfOk result (λ faults. IsStrictlySortedBy fault_cmp faults.items) }
    ensures exact { IfOk result (λ faults. (fault : Fault) → Contains faults.items fault ↔ IsSchemaFault (types_view types.now) fault) }
{
    let mut faults = all_faults(alloc, types)?;
    put_in_order(&mut faults);
    Ok(faults)
}

/// The same in no order.
fn all_faults(alloc: Global, types: &Types) -> Result<Vec<Fault>, NoMemory>
    ensures { IfOk result (λ faults. (fault : Fault) → Contains faults.items fault ↔ IsSchemaFault (types_view types.now) fault) }
{
    let mut told = told_of_entries(alloc, types)?;
    let mut faults = Vec::new(alloc);
    add_name_faults(&mut told.entries, &mut faults)?;
    add_part_faults(
        alloc,
        types,
        &mut told.entries,
        &mut told.groups,
        &mut faults,
    )?;
    add_endless_inputs(alloc, types, &mut faults)?;
    Ok(faults)
}

/// What is wrong with names: those that are defined, and those of types that are used.
#[tactic(auto, using(gq_tree::proofs::Trees::gathers))]
fn add_name_faults(told: &mut EntryFaults, faults: &mut Vec<Fault>) -> Result<(), NoMemory>
    ensures faults { OnOk result (faults.new.items ≡ faults.old.items ++ names_told told.old) }
    ensures empty { OnOk result (told.new.empty.items ≡ told.old.empty.items) }
    ensures arguments { OnOk result (told.new.arguments.items ≡ told.old.arguments.items) }
    ensures inner { OnOk result (told.new.inner.items ≡ told.old.inner.items) }
{
    faults.append(&mut told.defined_twice)?;
    faults.append(&mut told.extensions)?;
    faults.append(&mut told.reserved)?;
    faults.append(&mut told.unknown)?;
    faults.append(&mut told.wrong)?;
    Ok(())
}

/// What is wrong with the parts of types and of the schema.
#[tactic(auto, using(gq_tree::proofs::Trees::gathers))]
fn add_part_faults(
    alloc: Global,
    types: &Types,
    told: &mut EntryFaults,
    groups: &mut GroupFaults,
    faults: &mut Vec<Fault>,
) -> Result<(), NoMemory>
    ensures { OnOk result (faults.new.items ≡ faults.old.items ++ parts_told (types_view types.now) told.old groups.old) }
{
    add_wrong_roots(alloc, types, faults)?;
    faults.append(&mut told.empty)?;
    faults.append(&mut groups.repeated)?;
    faults.append(&mut told.arguments)?;
    faults.append(&mut groups.implementations)?;
    add_no_query_root(alloc, types, faults)?;
    add_bad_directives_and_defaults(alloc, types, &told.inner, &mut groups.outer, faults)
}
