//! The selections of operations and fragments that are no fields.
ghost use Rattle.std.specs.Prelude.{◌≡◌, ◌++◌, ℕ, true, List, [], Option, IfOk, OnOk, flat_map};
ghost use Rattle.std.specs.Option.{option_map};
ghost use Rattle.gq_tree.specs.NamedTypes.{base_name};
ghost use Rattle.gq_tree.specs.Views.{sel_view, sels_view};
ghost use Rattle.gq_types.specs.Entries.{Text, EntryOf};
ghost use Rattle.gq_types.specs.Look.{types_view, text_of};
ghost use Rattle.gq_document.specs.Definitions.{operation_view, operations_view, fragment_view, fragments_view};
ghost use Rattle.gq_document.specs.Selections.{operation_selections, fragment_selections, selected_among, selected_field};
ghost use Rattle.gq_document.specs.Executable.{executable_view};
ghost use Rattle.gq_document.specs.Helping.Trees.{selected_in};
ghost use Rattle.gq_document.specs.Views.{selections_view};
ghost use Rattle.gq_fragments.specs.Helping.FragmentPlaces.{of_fragments, selections};

use gq_document::{Executable, FragmentEntry, OperationEntry, Selected, selected_field};
use gq_text::NoMemory;
use gq_tree::Selection;
use gq_types::Types;
use std::alloc::Global;

/// The name of the type of the field of that name, without lists and non-null, where the type of its parent is known and has it.
fn type_below<'a>(types: &'a Types, parent: Option<&str>, name: &str) -> Option<&'a str>
    ensures { text_of result ≡ option_map (λ f. base_name f.type_ref) (selected_field (types_view types.now) (text_of parent.entry) name.now) }
{
    match selected_field(types, parent, name) {
        Some(field) => Some(field.base_name()),
        None => None,
    }
}

/// So many sets, one in the other, are gone over before the type of a field is looked up.
const DEEP: usize = 4;

/// Whether this is a field, and all below it, in so many sets at most.
#[cycle(fields)]
#[tactic(auto, using(gq_tree::proofs::Trees::gathers))]
fn is_field(selection: &Selection, deep: usize) -> bool
    ensures { result ≡ true → (es : List EntryOf) (file : ℕ) (parent : Option Text) → of_fragments (selected_in es file parent (sel_view selection.now)) ≡ [] }
{
    match selection {
        Selection::Field(field) => match &field.set {
            Some(set) => are_fields(&set.items, deep),
            None => true,
        },
        Selection::Spread(_) | Selection::Inline(_) => false,
    }
}

/// Whether these are all fields, in so many sets at most, of which theirs is the first. None of them is put, whatever the type of their
/// parent is.
#[cycle(fields)]
#[tactic(auto, using(gq_tree::proofs::Trees::gathers))]
fn are_fields(all: &[Selection], deep: usize) -> bool
    ensures { result ≡ true → (es : List EntryOf) (file : ℕ) (parent : Option Text) → of_fragments (selected_among es file parent (sels_view all.now)) ≡ [] }
{
    if deep == 0 {
        return false;
    }
    for selection in all {
        if !is_field(selection, deep - 1) {
            return false;
        }
    }
    true
}

/// Puts a selection that is no field, and those below a selection, behind the others.
#[cycle(selections)]
#[tactic(auto, using(gq_tree::proofs::Trees::gathers))]
fn put_of_fragments_in<'a>(
    types: &'a Types,
    file: usize,
    parent: Option<&'a str>,
    selection: &'a Selection,
    all: &mut Vec<Selected<'a>>,
) -> Result<(), NoMemory>
    ensures { OnOk result (selections_view all.new.items ≡ selections_view all.old.items ++ of_fragments (selected_in (types_view types.now) file (text_of parent.entry) (sel_view selection.now))) }
{
    let selected = Selected {
        file,
        parent,
        selection,
    };
    match selection {
        Selection::Field(field) => match &field.set {
            Some(set) if are_fields(&set.items, DEEP) => Ok(()),
            Some(set) => {
                let below = type_below(types, parent, field.name.text.as_str());
                put_of_fragments_among(types, file, below, &set.items, all)
            }
            None => Ok(()),
        },
        Selection::Spread(_) => {
            all.push(selected)?;
            Ok(())
        }
        Selection::Inline(inline) => {
            all.push(selected)?;
            match &inline.on {
                Some(name) => {
                    let below = Some(name.text.as_str());
                    put_of_fragments_among(types, file, below, &inline.set.items, all)
                }
                None => put_of_fragments_among(types, file, parent, &inline.set.items, all),
            }
        }
    }
}

/// So of selections in a row.
#[cycle(selections)]
#[tactic(auto, using(gq_tree::proofs::Trees::gathers))]
fn put_of_fragments_among<'a>(
    types: &'a Types,
    file: usize,
    parent: Option<&'a str>,
    selections: &'a [Selection],
    all: &mut Vec<Selected<'a>>,
) -> Result<(), NoMemory>
    ensures { OnOk result (selections_view all.new.items ≡ selections_view all.old.items ++
        of_fragments (selected_among (types_view types.now) file (text_of parent.entry) (sels_view selections.now))) }
{
    for selection in selections {
        put_of_fragments_in(types, file, parent, selection, all)?;
    }
    Ok(())
}

fn put_of_operation<'a>(
    types: &'a Types,
    operation: &OperationEntry<'a>,
    all: &mut Vec<Selected<'a>>,
) -> Result<(), NoMemory>
    ensures { OnOk result (selections_view all.new.items ≡ selections_view all.old.items ++ of_fragments (operation_selections (types_view types.now) (operation_view operation.now))) }
{
    let parent = types.root(operation.definition.kind);
    let selections = &operation.definition.set.items;
    put_of_fragments_among(types, operation.file, parent, selections, all)
}

fn put_of_fragment<'a>(
    types: &'a Types,
    fragment: &FragmentEntry<'a>,
    all: &mut Vec<Selected<'a>>,
) -> Result<(), NoMemory>
    ensures { OnOk result (selections_view all.new.items ≡ selections_view all.old.items ++ of_fragments (fragment_selections (types_view types.now) (fragment_view fragment.now))) }
{
    let parent = Some(fragment.definition.on.text.as_str());
    let selections = &fragment.definition.set.items;
    put_of_fragments_among(types, fragment.file, parent, selections, all)
}

/// Puts the selections of all operations that are no fields behind the others.
fn put_of_operations<'a>(
    types: &'a Types,
    operations: &[OperationEntry<'a>],
    all: &mut Vec<Selected<'a>>,
) -> Result<(), NoMemory>
    ensures { OnOk result (selections_view all.new.items ≡ selections_view all.old.items ++ of_fragments (flat_map (operation_selections (types_view types.now)) (operations_view operations.now))) }
{
    for operation in operations {
        put_of_operation(types, operation, all)?;
    }
    Ok(())
}

/// Puts the selections of all fragments that are no fields behind the others.
fn put_of_fragments<'a>(
    types: &'a Types,
    fragments: &[FragmentEntry<'a>],
    all: &mut Vec<Selected<'a>>,
) -> Result<(), NoMemory>
    ensures { OnOk result (selections_view all.new.items ≡ selections_view all.old.items ++ of_fragments (flat_map (fragment_selections (types_view types.now)) (fragments_view fragments.now))) }
{
    for fragment in fragments {
        put_of_fragment(types, fragment, all)?;
    }
    Ok(())
}

/// The selections of all operations and fragments at any depth that are no fields.
pub(crate) fn fragment_selections_of<'a>(
    alloc: Global,
    executable: &Executable<'a>,
) -> Result<Vec<Selected<'a>>, NoMemory>
    ensures { IfOk result (λ all. selections_view all.items ≡ of_fragments (selections (executable_view executable.now))) }
{
    let mut all = Vec::new(alloc);
    put_of_operations(executable.types, executable.operations, &mut all)?;
    put_of_fragments(executable.types, executable.fragments, &mut all)?;
    Ok(all)
}
