//! Spreads where the type of the parent and the type condition have no possible object type in common (GraphQL, October
//! 2021, section 5.5.2.3).
ghost use Rattle.std.specs.Prelude.{◌≡◌, ◌++◌, IfOk, OnOk};
ghost use Rattle.std.specs.List.{list_any};
ghost use Rattle.gq_tree.specs.Views.{name_of};
ghost use Rattle.gq_types.specs.Look.{types_view};
ghost use Rattle.gq_types.specs.LookUps.{texts_of};
ghost use Rattle.gq_document.specs.Definitions.{fragments_view};
ghost use Rattle.gq_document.specs.Views.{selected_view, selections_view};
ghost use Rattle.gq_fragments.specs.Helping.ConditionsPlaces.{HoldConditions};
ghost use Rattle.gq_fragments.specs.Helping.FragmentPlaces.{is_impossible, impossible_in, impossible_spread, impossible_at, impossible_spreads};
ghost use Rattle.gq_fragments.specs.Helping.SharedObjectsPlaces.{AreAnswers};

use crate::shared_objects::SharedObjects;
use gq_document::{Executable, Selected};
use gq_fault::{Code, Fault, add_fault, fault_over, first_bytes};
use gq_names::ByName;
use gq_text::{NoMemory, Span};
use gq_tree::{Name, Selection};
use gq_types::Types;
use std::alloc::Global;

/// Whether both are names of types, and no object type is possible for both.
fn is_impossible(
    alloc: Global,
    types: &Types,
    shared: &mut SharedObjects,
    parent: &str,
    condition: &str,
) -> Result<bool, NoMemory>
    requires { AreAnswers (types_view types.now) shared.old.answers }
    ensures answers { AreAnswers (types_view types.now) shared.new.answers }
    ensures found { IfOk result (λ found. found ≡ is_impossible (types_view types.now) parent.now condition.now) }
{
    if types.kind(parent).is_none() || types.kind(condition).is_none() {
        return Ok(false);
    }
    let is_shared = shared.share_object(alloc, types, parent, condition)?;
    Ok(!is_shared)
}

/// The fault of a spread at that place, if its parent and its type condition have no object type in common.
fn add_if_impossible(
    alloc: Global,
    types: &Types,
    shared: &mut SharedObjects,
    selected: &Selected<'_>,
    place: Span,
    condition: &str,
    faults: &mut Vec<Fault>,
) -> Result<(), NoMemory>
    requires { AreAnswers (types_view types.now) shared.old.answers }
    ensures answers { AreAnswers (types_view types.now) shared.new.answers }
    ensures faults { OnOk result (faults.new.items ≡ faults.old.items ++ impossible_in (types_view types.now) (selected_view selected.now) place condition.now) }
{
    match selected.parent {
        Some(parent) => {
            if is_impossible(alloc, types, shared, parent, condition)? {
                add_fault(
                    fault_over(selected.file, Code::SpreadNotPossible, place),
                    faults,
                )?;
            }
            Ok(())
        }
        None => Ok(()),
    }
}

/// Whether one of the conditions is impossible below the parent.
fn is_one_impossible(
    alloc: Global,
    types: &Types,
    shared: &mut SharedObjects,
    parent: &str,
    conditions: &[&str],
) -> Result<bool, NoMemory>
    requires { AreAnswers (types_view types.now) shared.old.answers }
    ensures answers { AreAnswers (types_view types.now) shared.new.answers }
    ensures found { IfOk result (λ found. found ≡ list_any (is_impossible (types_view types.now) parent.now) (texts_of conditions.now)) }
{
    for condition in conditions {
        if is_impossible(alloc, types, shared, parent, condition)? {
            return Ok(true);
        }
    }
    Ok(false)
}

/// The fault of a spread of the fragments of that name, if one of their type conditions has no object type in common with
/// its parent. The type conditions are those of the fragments.
fn add_of_spread(
    alloc: Global,
    executable: &Executable<'_>,
    conditions: &ByName<&str>,
    shared: &mut SharedObjects,
    selected: &Selected<'_>,
    name: &Name,
    faults: &mut Vec<Fault>,
) -> Result<(), NoMemory>
    requires conditions { HoldConditions (fragments_view executable.now.fragments.now) conditions.now }
    requires answers { AreAnswers (types_view executable.now.types.now) shared.old.answers }
    ensures answers { AreAnswers (types_view executable.now.types.now) shared.new.answers }
    ensures faults { OnOk result (faults.new.items ≡ faults.old.items ++ impossible_spread (types_view executable.now.types.now)
        (fragments_view executable.now.fragments.now) (selected_view selected.now) (name_of name.now)) }
{
    match selected.parent {
        Some(parent) => {
            let of_name = conditions.get(name.text.as_str());
            if is_one_impossible(alloc, executable.types, shared, parent, of_name)? {
                add_fault(
                    fault_over(selected.file, Code::SpreadNotPossible, name.span),
                    faults,
                )?;
            }
            Ok(())
        }
        None => Ok(()),
    }
}

/// The faults of a selection, if it is a spread or an inline fragment.
#[tactic(auto, using(gq_tree::proofs::Trees::gathers))]
fn add_of_selected(
    alloc: Global,
    executable: &Executable<'_>,
    conditions: &ByName<&str>,
    shared: &mut SharedObjects,
    selected: &Selected<'_>,
    faults: &mut Vec<Fault>,
) -> Result<(), NoMemory>
    requires conditions { HoldConditions (fragments_view executable.now.fragments.now) conditions.now }
    requires answers { AreAnswers (types_view executable.now.types.now) shared.old.answers }
    ensures answers { AreAnswers (types_view executable.now.types.now) shared.new.answers }
    ensures faults { OnOk result (faults.new.items ≡ faults.old.items ++ impossible_at (types_view executable.now.types.now)
        (fragments_view executable.now.fragments.now) (selected_view selected.now)) }
{
    match selected.selection {
        Selection::Field(_) => Ok(()),
        Selection::Spread(spread) => {
            add_of_spread(
                alloc,
                executable,
                conditions,
                shared,
                selected,
                &spread.name,
                faults,
            )
        }
        Selection::Inline(inline) => match &inline.on {
            Some(on) => {
                let (dots, condition) = (first_bytes(3, inline.span), on.text.as_str());
                add_if_impossible(
                    alloc,
                    executable.types,
                    shared,
                    selected,
                    dots,
                    condition,
                    faults,
                )
            }
            None => Ok(()),
        },
    }
}

/// Each spread where the type of the parent and the type condition have no possible object type in common.
#[tactic(auto, using(gq_tree::proofs::Trees::gathers))]
pub(crate) fn add_impossible_spreads(
    alloc: Global,
    executable: &Executable<'_>,
    conditions: &ByName<&str>,
    selections: &[Selected<'_>],
    faults: &mut Vec<Fault>,
) -> Result<(), NoMemory>
    requires { HoldConditions (fragments_view executable.now.fragments.now) conditions.now }
    ensures { OnOk result (faults.new.items ≡ faults.old.items ++ impossible_spreads (types_view executable.now.types.now)
        (fragments_view executable.now.fragments.now) (selections_view selections.now)) }
{
    let mut shared = SharedObjects::new(alloc);
    for selected in selections {
        add_of_selected(alloc, executable, conditions, &mut shared, selected, faults)?;
    }
    Ok(())
}
