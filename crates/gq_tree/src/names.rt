//! The names of fragments in a document.
ghost use Rattle.std.specs.Prelude.{◌≡◌, ◌++◌, ◌∷◌, [], IfOk, OnOk};
ghost use Rattle.gq_tree.specs.Names.{spread_name, spread_names, names_in, fragment_names, names_at};
ghost use Rattle.gq_tree.specs.Forest.{labels_in};
ghost use Rattle.std.specs.List.{flat_map};
ghost use Rattle.gq_tree.specs.Views.{name_of, sel_view, sels_view, def_view, document_view};

use crate::tree::{Definition, Document, Name, Selection};
use gq_text::NoMemory;
use std::alloc::Global;

/// The names of fragments in a document, at their definitions and their spreads, in the order of the text.
pub fn fragment_names<'a>(alloc: Global, document: &'a Document) -> Result<Vec<&'a Name>, NoMemory>
    ensures { IfOk result (λ names. names_at names.items ≡ fragment_names (document_view document.now)) }
{
    let mut names = Vec::new(alloc);
    for definition in &document.definitions {
        gather_definition(definition, &mut names)?;
    }
    Ok(names)
}

/// The names of the spreads that stand in the selections, at any depth, in the order of the text (section 2.8).
pub fn spread_names<'a>(
    alloc: Global,
    selections: &'a [Selection],
) -> Result<Vec<&'a Name>, NoMemory>
    ensures { IfOk result (λ names. names_at names.items ≡ spread_names (sels_view selections.now)) }
{
    let mut names = Vec::new(alloc);
    gather_selections(selections, &mut names)?;
    Ok(names)
}

fn gather_definition<'a>(
    definition: &'a Definition,
    names: &mut Vec<&'a Name>,
) -> Result<(), NoMemory>
    ensures { OnOk result (names_at names.new.items ≡ names_at names.old.items ++ names_in (def_view definition.now)) }
{
    match definition {
        Definition::Operation(operation) => gather_selections(&operation.set.items, names),
        Definition::Fragment(fragment) => {
            put(&fragment.name, names)?;
            gather_selections(&fragment.set.items, names)
        }
        Definition::TypeSystem(_) => Ok(()),
    }
}

#[cycle(gather)]
#[tactic(auto, using(crate::proofs::Trees::gathers))]
fn gather_selection<'a>(selection: &'a Selection, names: &mut Vec<&'a Name>) -> Result<(), NoMemory>
    ensures { OnOk result (names_at names.new.items ≡ names_at names.old.items ++ flat_map spread_name (labels_in (sel_view selection.now))) }
{
    match selection {
        Selection::Field(field) => match &field.set {
            Some(set) => gather_selections(&set.items, names),
            None => Ok(()),
        },
        Selection::Spread(spread) => put(&spread.name, names),
        Selection::Inline(inline) => gather_selections(&inline.set.items, names),
    }
}

#[cycle(gather)]
#[tactic(auto, using(crate::proofs::Trees::gathers))]
fn gather_selections<'a>(
    selections: &'a [Selection],
    names: &mut Vec<&'a Name>,
) -> Result<(), NoMemory>
    ensures { OnOk result (names_at names.new.items ≡ names_at names.old.items ++ spread_names (sels_view selections.now)) }
{
    for selection in selections {
        gather_selection(selection, names)?;
    }
    Ok(())
}

fn put<'a>(name: &'a Name, names: &mut Vec<&'a Name>) -> Result<(), NoMemory>
    ensures { OnOk result (names_at names.new.items ≡ names_at names.old.items ++ name_of name.now ∷ []) }
{
    match names.push(name) {
        Ok(()) => Ok(()),
        Err(_) => Err(NoMemory),
    }
}
