//! Variables that an operation does not use (GraphQL, October 2021, section 5.8.4).
ghost use Rattle.std.specs.Prelude.{◌≡◌, ◌++◌, IfOk, OnOk, map};
ghost use Rattle.std.specs.List.{list_any};
ghost use Rattle.std.specs.Str.{bytes_eq};
ghost use Rattle.gq_tree.specs.Views.{variable_view};
ghost use Rattle.gq_variables.specs.Helping.VariablePlaces.{use_texts, not_used_at, not_used};
ghost use Rattle.gq_variables.specs.Helping.Views.{uses_view};

use crate::uses::Use;
use gq_fault::{Code, Fault, add_fault_at};
use gq_names::NameList;
use gq_text::NoMemory;
use gq_tree::VariableDefinition;
use std::alloc::Global;

/// The names of uses.
#[tactic(auto, using(gq_tree::proofs::Trees::gathers))]
pub(crate) fn used_names(alloc: Global, uses: &[Use<'_>]) -> Result<NameList, NoMemory>
    ensures { IfOk result (λ names. names ≡ use_texts (uses_view uses.now)) }
{
    let mut names = NameList::new(alloc);
    for one in uses {
        names.push(one.name.text.as_str())?;
    }
    Ok(names)
}

/// Whether the name is one of the operation's own uses, or of those behind its spreads.
fn is_used(own: &NameList, behind: &NameList, name: &str) -> bool
    ensures { result ≡ list_any (bytes_eq name.now) (own.now ++ behind.now) }
{
    own.contains(name) || behind.contains(name)
}

fn add_if_not_used(
    file: usize,
    own: &NameList,
    behind: &NameList,
    one: &VariableDefinition,
    faults: &mut Vec<Fault>,
) -> Result<(), NoMemory>
    ensures { OnOk result (faults.new.items ≡ faults.old.items ++ not_used_at file (own.now ++ behind.now) (variable_view one.now)) }
{
    let name = &one.variable.name;
    if !is_used(own, behind, name.text.as_str()) {
        add_fault_at(file, Code::VariableNotUsed, name, faults)?;
    }
    Ok(())
}

#[tactic(auto, using(gq_tree::proofs::Trees::gathers))]
fn add_each_not_used(
    file: usize,
    own: &NameList,
    behind: &NameList,
    variables: &[VariableDefinition],
    faults: &mut Vec<Fault>,
) -> Result<(), NoMemory>
    ensures { OnOk result (faults.new.items ≡ faults.old.items ++ not_used file (own.now ++ behind.now) (map variable_view variables.now)) }
{
    for one in variables {
        add_if_not_used(file, own, behind, one, faults)?;
    }
    Ok(())
}

/// Adds a fault at the name of each variable whose name none of the uses has, those of the operation itself and those behind
/// its spreads, whose names are given.
pub(crate) fn add_not_used(
    alloc: Global,
    file: usize,
    variables: &[VariableDefinition],
    uses: &[Use<'_>],
    behind: &NameList,
    faults: &mut Vec<Fault>,
) -> Result<(), NoMemory>
    ensures { OnOk result (faults.new.items ≡ faults.old.items ++ not_used file (use_texts (uses_view uses.now) ++ behind.now) (map variable_view variables.now)) }
{
    let own = used_names(alloc, uses)?;
    add_each_not_used(file, &own, behind, variables, faults)
}
