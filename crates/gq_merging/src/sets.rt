//! Selection sets where they stand, and what stands in them at once.
ghost use Rattle.std.specs.Prelude.{◌≡◌, ◌++◌, OnOk};
ghost use Rattle.gq_tree.specs.Views.{below_of, sel_view, sels_view};
ghost use Rattle.gq_tree.specs.declared.tree.Selection.TheViews.{out-Field};
ghost use Rattle.gq_types.specs.Look.{types_view, text_of};
ghost use Rattle.gq_document.specs.Definitions.{operation_view, fragment_view};
ghost use Rattle.gq_document.specs.FieldSets.{operation_set, fragment_set, field_set};
ghost use Rattle.gq_merging.specs.Helping.HubTables.{spreads_in, spreads_of_one};
ghost use Rattle.gq_merging.specs.Helping.SetTables.{own_fields, own_fields_at};
ghost use Rattle.gq_merging.specs.Helping.Views.{all_spreads_at, field_at, fields_at, set_at};

use gq_document::{FragmentEntry, OperationEntry, selected_field};
use gq_text::NoMemory;
use gq_tree::{Field, Selection};
use gq_types::Types;
use std::slice::from_ref;

/// A field, the number of its document, and the name of the type of its parent where that is known.
#[derive(Clone, Copy)]
pub(crate) struct StandingField<'a> {
    pub(crate) file: usize,
    pub(crate) parent: Option<&'a str>,
    pub(crate) field: &'a Field,
}

/// The selections of a set, the number of their document, and the name of the type of their parent where that is known.
#[derive(Clone, Copy)]
pub(crate) struct StandingSet<'a> {
    pub(crate) file: usize,
    pub(crate) parent: Option<&'a str>,
    pub(crate) selections: &'a [Selection],
}

/// The name in a spread, and the spread alone.
#[derive(Clone, Copy)]
pub(crate) struct StandingSpread<'a> {
    pub(crate) name: &'a str,
    pub(crate) alone: &'a [Selection],
}

/// The selection set of an operation.
pub(crate) fn operation_set<'a>(
    types: &'a Types,
    operation: &'a OperationEntry<'a>,
) -> StandingSet<'a>
    ensures { set_at result ≡ operation_set (types_view types.now) (operation_view operation.now) }
{
    StandingSet {
        file: operation.file,
        parent: types.root(operation.definition.kind),
        selections: &operation.definition.set.items,
    }
}

/// The selection set of a fragment.
pub(crate) fn fragment_set<'a>(fragment: &'a FragmentEntry<'a>) -> StandingSet<'a>
    ensures { set_at result ≡ fragment_set (fragment_view fragment.now) }
{
    StandingSet {
        file: fragment.file,
        parent: Some(fragment.definition.on.text.as_str()),
        selections: &fragment.definition.set.items,
    }
}

/// The selections in the braces of a field, none where it has no braces.
pub(crate) fn selections_below(field: &Field) -> &[Selection]
    ensures { sels_view result.now ≡ below_of (out-Field field.now).set }
{
    match &field.set {
        Some(set) => &set.items,
        None => &[],
    }
}

/// What stands in the braces of a field.
pub(crate) fn field_set<'a>(types: &'a Types, one: StandingField<'a>) -> StandingSet<'a>
    ensures { set_at result ≡ field_set (types_view types.now) (field_at one.entry) }
{
    let parent = match selected_field(types, one.parent, one.field.name.text.as_str()) {
        Some(field) => Some(field.base_name()),
        None => None,
    };
    StandingSet {
        file: one.file,
        parent,
        selections: selections_below(one.field),
    }
}

#[cycle(fields)]
#[tactic(auto, using(gq_tree::proofs::Trees::gathers))]
fn put_field<'a>(
    file: usize,
    parent: Option<&'a str>,
    selection: &'a Selection,
    fields: &mut Vec<StandingField<'a>>,
) -> Result<(), NoMemory>
    ensures { OnOk result (fields_at fields.new.items ≡ fields_at fields.old.items ++ own_fields_at file (text_of parent.entry) (sel_view selection.now)) }
{
    match selection {
        Selection::Field(field) => {
            fields.push(StandingField {
                file,
                parent,
                field,
            })?;
            Ok(())
        }
        Selection::Spread(_) => Ok(()),
        Selection::Inline(inline) => match &inline.on {
            Some(name) => put_fields(file, Some(name.text.as_str()), &inline.set.items, fields),
            None => put_fields(file, parent, &inline.set.items, fields),
        },
    }
}

/// Puts the fields of selections and of the inline fragments among them behind the others.
#[cycle(fields)]
#[tactic(auto, using(gq_tree::proofs::Trees::gathers))]
pub(crate) fn put_fields<'a>(
    file: usize,
    parent: Option<&'a str>,
    selections: &'a [Selection],
    fields: &mut Vec<StandingField<'a>>,
) -> Result<(), NoMemory>
    ensures { OnOk result (fields_at fields.new.items ≡ fields_at fields.old.items ++ own_fields file (text_of parent.entry) (sels_view selections.now)) }
{
    for selection in selections {
        put_field(file, parent, selection, fields)?;
    }
    Ok(())
}

#[cycle(spreads)]
#[tactic(auto, using(gq_tree::proofs::Trees::gathers))]
fn put_spread<'a>(
    selection: &'a Selection,
    spreads: &mut Vec<StandingSpread<'a>>,
) -> Result<(), NoMemory>
    ensures { OnOk result (all_spreads_at spreads.new.items ≡ all_spreads_at spreads.old.items ++ spreads_of_one (sel_view selection.now)) }
{
    match selection {
        Selection::Field(_) => Ok(()),
        Selection::Spread(spread) => {
            spreads.push(StandingSpread {
                name: spread.name.text.as_str(),
                alone: from_ref(selection),
            })?;
            Ok(())
        }
        Selection::Inline(inline) => put_spreads(&inline.set.items, spreads),
    }
}

/// Puts the spreads in selections and in the inline fragments among them behind the others.
#[cycle(spreads)]
#[tactic(auto, using(gq_tree::proofs::Trees::gathers))]
pub(crate) fn put_spreads<'a>(
    selections: &'a [Selection],
    spreads: &mut Vec<StandingSpread<'a>>,
) -> Result<(), NoMemory>
    ensures { OnOk result (all_spreads_at spreads.new.items ≡ all_spreads_at spreads.old.items ++ spreads_in (sels_view selections.now)) }
{
    for selection in selections {
        put_spread(selection, spreads)?;
    }
    Ok(())
}
