//! The selections of operations and fragments, each with the type of its parent (GraphQL, October 2021, section 5.3).
ghost use Rattle.std.specs.Prelude.{◌≡◌, ◌++◌, IfOk, OnOk};
ghost use Rattle.gq_tree.specs.Views.{sel_view, sels_view, def_view};
ghost use Rattle.gq_types.specs.Look.{types_view, text_of};
ghost use Rattle.gq_document.specs.Definitions.{operation_view, fragment_view};
ghost use Rattle.gq_document.specs.Selections.{selected_among, operation_selections, fragment_selections, selections_of};
ghost use Rattle.gq_document.specs.Helping.Trees.{selected_in};
ghost use Rattle.gq_document.specs.Views.{selections_view};

use crate::definitions::{FragmentEntry, OperationEntry};
use crate::fields::type_below;
use gq_text::NoMemory;
use gq_tree::{Definition, Selection};
use gq_types::Types;
use std::alloc::Global;

/// How many selections there is room for at first. Most operations and fragments have fewer.
const ROOM: usize = 16;

/// A selection, the number of its document, and the name of the type of its parent where that is known.
#[derive(Clone, Copy)]
pub struct Selected<'a> {
    pub file: usize,
    pub parent: Option<&'a str>,
    pub selection: &'a Selection,
}

#[cycle(selections)]
#[tactic(auto, using(gq_tree::proofs::Trees::gathers))]
fn put_selection<'a>(
    types: &'a Types,
    file: usize,
    parent: Option<&'a str>,
    selection: &'a Selection,
    selections: &mut Vec<Selected<'a>>,
) -> Result<(), NoMemory>
    ensures { OnOk result (selections_view selections.new.items ≡ selections_view selections.old.items ++ selected_in (types_view types.now) file (text_of parent.entry) (sel_view selection.now)) }
{
    selections.push(Selected {
        file,
        parent,
        selection,
    })?;
    match selection {
        Selection::Field(field) => match &field.set {
            Some(set) => {
                let inner = type_below(types, parent, field.name.text.as_str());
                put_selections(types, file, inner, &set.items, selections)
            }
            None => Ok(()),
        },
        Selection::Spread(_) => Ok(()),
        Selection::Inline(inline) => match &inline.on {
            Some(name) => {
                let inner = Some(name.text.as_str());
                put_selections(types, file, inner, &inline.set.items, selections)
            }
            None => put_selections(types, file, parent, &inline.set.items, selections),
        },
    }
}

#[cycle(selections)]
#[tactic(auto, using(gq_tree::proofs::Trees::gathers))]
fn put_selections<'a>(
    types: &'a Types,
    file: usize,
    parent: Option<&'a str>,
    all: &'a [Selection],
    selections: &mut Vec<Selected<'a>>,
) -> Result<(), NoMemory>
    ensures { OnOk result (selections_view selections.new.items ≡ selections_view selections.old.items ++ selected_among (types_view types.now) file (text_of parent.entry) (sels_view all.now)) }
{
    for selection in all {
        put_selection(types, file, parent, selection, selections)?;
    }
    Ok(())
}

/// The selections of an operation at any depth, in the order of the text.
pub fn operation_selections<'a>(
    alloc: Global,
    types: &'a Types,
    operation: &OperationEntry<'a>,
) -> Result<Vec<Selected<'a>>, NoMemory>
    ensures { IfOk result (λ all. selections_view all.items ≡ operation_selections (types_view types.now) (operation_view operation.now)) }
{
    let mut selections = Vec::with_capacity(alloc, ROOM)?;
    let parent = types.root(operation.definition.kind);
    let all = &operation.definition.set.items;
    put_selections(types, operation.file, parent, all, &mut selections)?;
    Ok(selections)
}

/// The selections of a fragment at any depth, in the order of the text.
pub fn fragment_selections<'a>(
    alloc: Global,
    types: &'a Types,
    fragment: &FragmentEntry<'a>,
) -> Result<Vec<Selected<'a>>, NoMemory>
    ensures { IfOk result (λ all. selections_view all.items ≡ fragment_selections (types_view types.now) (fragment_view fragment.now)) }
{
    let mut selections = Vec::with_capacity(alloc, ROOM)?;
    let parent = Some(fragment.definition.on.text.as_str());
    let all = &fragment.definition.set.items;
    put_selections(types, fragment.file, parent, all, &mut selections)?;
    Ok(selections)
}

/// The selections of a definition of that document at any depth, in the order of the text.
pub fn selections_of<'a>(
    alloc: Global,
    types: &'a Types,
    file: usize,
    definition: &'a Definition,
) -> Result<Vec<Selected<'a>>, NoMemory>
    ensures { IfOk result (λ all. selections_view all.items ≡ selections_of (types_view types.now) file (def_view definition.now)) }
{
    let mut all = Vec::new(alloc);
    match definition {
        Definition::Operation(operation) => {
            let parent = types.root(operation.kind);
            put_selections(types, file, parent, &operation.set.items, &mut all)?;
        }
        Definition::Fragment(fragment) => {
            let parent = Some(fragment.on.text.as_str());
            put_selections(types, file, parent, &fragment.set.items, &mut all)?;
        }
        Definition::TypeSystem(_) => {}
    }
    Ok(all)
}
