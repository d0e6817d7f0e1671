//! The selection sets of a document (GraphQL, October 2021, section 2.4), each with the type of its parent.
ghost use Rattle.std.specs.Prelude.{◌≡◌, ◌++◌, ◌∷◌, IfOk, OnOk, flat_map};
ghost use Rattle.gq_tree.specs.Views.{sel_view, sels_view, def_view, document_view};
ghost use Rattle.gq_types.specs.Look.{types_view, text_of};
ghost use Rattle.gq_document.specs.Sets.{sets_among, sets_of};
ghost use Rattle.gq_document.specs.SetViews.{sets_below, sets_view};

use crate::fields::type_below;
use gq_text::{NoMemory, Span};
use gq_tree::{Definition, Document, Selection, SelectionSet};
use gq_types::Types;
use std::alloc::Global;

/// A selection set, with the name of the type of its parent where that is known.
#[derive(Clone, Copy)]
pub struct SetIn<'a> {
    pub parent: Option<&'a str>,
    /// From the opening brace to the end of the closing one.
    pub braces: Span,
    pub selections: &'a [Selection],
}

/// Puts the sets of a selection.
#[cycle(sets)]
#[tactic(auto, using(gq_tree::proofs::Trees::gathers))]
fn put_sets_below<'a>(
    types: &'a Types,
    parent: Option<&'a str>,
    selection: &'a Selection,
    sets: &mut Vec<SetIn<'a>>,
) -> Result<(), NoMemory>
    ensures { OnOk result (sets_view sets.new.items ≡ sets_view sets.old.items ++ sets_below (types_view types.now) (text_of parent.entry) (sel_view selection.now)) }
{
    match selection {
        Selection::Field(field) => match &field.set {
            Some(set) => {
                let inner = type_below(types, parent, field.name.text.as_str());
                sets.push(SetIn {
                    parent: inner,
                    braces: set.span,
                    selections: &set.items,
                })?;
                put_sets_among(types, inner, &set.items, sets)
            }
            None => Ok(()),
        },
        Selection::Spread(_) => Ok(()),
        Selection::Inline(inline) => {
            let inner = match &inline.on {
                Some(name) => Some(name.text.as_str()),
                None => parent,
            };
            sets.push(SetIn {
                parent: inner,
                braces: inline.set.span,
                selections: &inline.set.items,
            })?;
            put_sets_among(types, inner, &inline.set.items, sets)
        }
    }
}

/// Puts the sets of selections.
#[cycle(sets)]
#[tactic(auto, using(gq_tree::proofs::Trees::gathers))]
fn put_sets_among<'a>(
    types: &'a Types,
    parent: Option<&'a str>,
    all: &'a [Selection],
    sets: &mut Vec<SetIn<'a>>,
) -> Result<(), NoMemory>
    ensures { OnOk result (sets_view sets.new.items ≡ sets_view sets.old.items ++ sets_among (types_view types.now) (text_of parent.entry) (sels_view all.now)) }
{
    for selection in all {
        put_sets_below(types, parent, selection, sets)?;
    }
    Ok(())
}

/// Puts a set of that parent, and those in it.
fn put_set<'a>(
    types: &'a Types,
    parent: Option<&'a str>,
    set: &'a SelectionSet,
    sets: &mut Vec<SetIn<'a>>,
) -> Result<(), NoMemory>
    ensures { OnOk result (sets_view sets.new.items ≡ sets_view sets.old.items
        ++ (record { parent = text_of parent.entry; braces = set.now.span; selections = sels_view set.now.items.items }
        ∷ sets_among (types_view types.now) (text_of parent.entry) (sels_view set.now.items.items))) }
{
    sets.push(SetIn {
        parent,
        braces: set.span,
        selections: &set.items,
    })?;
    put_sets_among(types, parent, &set.items, sets)
}

/// Puts the sets of a definition.
fn put_sets_of<'a>(
    types: &'a Types,
    definition: &'a Definition,
    sets: &mut Vec<SetIn<'a>>,
) -> Result<(), NoMemory>
    ensures { OnOk result (sets_view sets.new.items ≡ sets_view sets.old.items ++ sets_of (types_view types.now) (def_view definition.now)) }
{
    match definition {
        Definition::Operation(operation) => {
            put_set(types, types.root(operation.kind), &operation.set, sets)
        }
        Definition::Fragment(fragment) => {
            put_set(types, Some(fragment.on.text.as_str()), &fragment.set, sets)
        }
        Definition::TypeSystem(_) => Ok(()),
    }
}

/// The sets of a document at any depth, in the order of the text.
pub fn sets_in<'a>(
    alloc: Global,
    types: &'a Types,
    document: &'a Document,
) -> Result<Vec<SetIn<'a>>, NoMemory>
    ensures { IfOk result (λ sets. sets_view sets.items ≡ flat_map (sets_of (types_view types.now)) (document_view document.now)) }
{
    let mut sets = Vec::new(alloc);
    for definition in &document.definitions {
        put_sets_of(types, definition, &mut sets)?;
    }
    Ok(sets)
}
