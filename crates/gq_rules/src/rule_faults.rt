//! The rules on executable definitions (GraphQL, October 2021, section 5), by groups.
ghost use Rattle.std.specs.Prelude.{[], IfOk, OnOk};
ghost use Rattle.gq_document.specs.Executable.{executable_view};
ghost use Rattle.gq_fields.specs.FieldFaults.{IsFieldFault};
ghost use Rattle.gq_fault.specs.Adds.{AddsExactly};
ghost use Rattle.gq_rules.specs.RuleFaults.{IsRuleFault};
ghost use Rattle.gq_rules.specs.Helping.RuleGroups.{IsDefinitionFault, IsReachFault};

use gq_document::Executable;
use gq_fault::Fault;
use gq_fields::add_field_faults;
use gq_fragments::{add_fragment_faults, add_operation_faults};
use gq_merging::add_merging_faults;
use gq_spreads::{Spreads, add_spread_faults};
use gq_text::NoMemory;
use gq_variables::add_variable_faults;
use std::alloc::Global;

/// What all rules tell, one group after the other.
pub fn rule_faults(alloc: Global, executable: &Executable<'_>) -> Result<Vec<Fault>, NoMemory>
    ensures { IfOk result (λ faults. AddsExactly (IsRuleFault (executable_view executable.now)) [] faults.items) }
{
    let mut faults = Vec::new(alloc);
    add_definition_faults(alloc, executable, &mut faults)?;
    add_merging_faults(alloc, executable, &mut faults)?;
    add_field_faults(alloc, executable, &mut faults)?;
    add_reach_faults(alloc, executable, &mut faults)?;
    Ok(faults)
}

/// What is wrong with fields, arguments, directives and values.
pub fn field_faults(alloc: Global, executable: &Executable<'_>) -> Result<Vec<Fault>, NoMemory>
    ensures { IfOk result (λ faults. AddsExactly (IsFieldFault (executable_view executable.now)) [] faults.items) }
{
    let mut faults = Vec::new(alloc);
    add_field_faults(alloc, executable, &mut faults)?;
    Ok(faults)
}

/// What is wrong with operations and fragments as such.
pub fn definition_faults(alloc: Global, executable: &Executable<'_>) -> Result<Vec<Fault>, NoMemory>
    ensures { IfOk result (λ faults. AddsExactly (IsDefinitionFault (executable_view executable.now)) [] faults.items) }
{
    let mut faults = Vec::new(alloc);
    add_definition_faults(alloc, executable, &mut faults)?;
    Ok(faults)
}

/// What is wrong with spreads, and with variables.
pub fn reach_faults(alloc: Global, executable: &Executable<'_>) -> Result<Vec<Fault>, NoMemory>
    ensures { IfOk result (λ faults. AddsExactly (IsReachFault (executable_view executable.now)) [] faults.items) }
{
    let mut faults = Vec::new(alloc);
    add_reach_faults(alloc, executable, &mut faults)?;
    Ok(faults)
}

/// Puts what is wrong with operations and fragments as such.
pub(crate) fn add_definition_faults(
    alloc: Global,
    executable: &Executable<'_>,
    faults: &mut Vec<Fault>,
) -> Result<(), NoMemory>
    ensures { OnOk result (AddsExactly (IsDefinitionFault (executable_view executable.now)) faults.old.items faults.new.items) }
{
    add_operation_faults(alloc, executable, faults)?;
    add_fragment_faults(alloc, executable, faults)?;
    Ok(())
}

/// Puts what is wrong with spreads, and with variables, whose uses stand in the fragments that an operation reaches by them.
pub(crate) fn add_reach_faults(
    alloc: Global,
    executable: &Executable<'_>,
    faults: &mut Vec<Fault>,
) -> Result<(), NoMemory>
    ensures { OnOk result (AddsExactly (IsReachFault (executable_view executable.now)) faults.old.items faults.new.items) }
{
    let spreads = Spreads::of(alloc, executable)?;
    add_spread_faults(alloc, executable, &spreads, faults)?;
    add_variable_faults(alloc, executable, &spreads, faults)?;
    Ok(())
}
