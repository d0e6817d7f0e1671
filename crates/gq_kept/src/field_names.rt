//! The names of the fields that are selected in a document.
ghost use Rattle.std.specs.Prelude.{◌≡◌, ◌∷◌, [], true, IfOk, OnOk};
ghost use Rattle.std.specs.List.{list_any};
ghost use Rattle.std.specs.Str.{bytes_eq};
ghost use Rattle.gq_tree.specs.Forest.{labels, labels_in};
ghost use Rattle.gq_tree.specs.Readings.{parsed_view};
ghost use Rattle.gq_tree.specs.Views.{def_view, document_view, sel_view, sels_view};
ghost use Rattle.gq_kept.specs.Helping.Selected.{meets, Grows, HasNamesIn, HasNamesOf, HasNamesAmong};
ghost use Rattle.gq_kept.specs.Helping.Texts.{texts_at};

use gq_names::NameList;
use gq_text::NoMemory;
use gq_tree::{Definition, Document, Name, Parsed, Selection};
use std::alloc::Global;

/// The names of the fields that are selected in the operations and fragments of a document, at any depth, each once (section 2.5).
pub(crate) fn field_names(alloc: Global, reading: &Parsed) -> Result<NameList, NoMemory>
    ensures { IfOk result (HasNamesOf (parsed_view reading.now)) }
{
    match reading {
        Parsed::Tree(document) => names_selected(alloc, document),
        Parsed::Syntax { .. } => Ok(NameList::new(alloc)),
        Parsed::Limit { .. } => Ok(NameList::new(alloc)),
    }
}

/// The names of those that are selected in its definitions.
fn names_selected(alloc: Global, document: &Document) -> Result<NameList, NoMemory>
    ensures { IfOk result (HasNamesAmong (document_view document.now)) }
{
    let mut names = NameList::new(alloc);
    for definition in &document.definitions {
        put_definition(definition, &mut names)?;
    }
    Ok(names)
}

/// Puts the names of those that are selected in the definition.
fn put_definition(definition: &Definition, names: &mut NameList) -> Result<(), NoMemory>
    ensures grows { OnOk result (Grows names.old names.new) }
    ensures has { OnOk result (HasNamesAmong (def_view definition.now ∷ []) names.new) }
{
    match definition {
        Definition::Operation(operation) => put_selections(&operation.set.items, names),
        Definition::Fragment(fragment) => put_selections(&fragment.set.items, names),
        Definition::TypeSystem(_) => Ok(()),
    }
}

/// Puts the name of the field, if the selection is one, and the names of those that are selected below it.
#[cycle(put)]
fn put_selection(selection: &Selection, names: &mut NameList) -> Result<(), NoMemory>
    ensures grows { OnOk result (Grows names.old names.new) }
    ensures has { OnOk result (HasNamesIn (labels_in (sel_view selection.now)) names.new) }
{
    match selection {
        Selection::Field(field) => {
            put(&field.name, names)?;
            match &field.set {
                Some(set) => put_selections(&set.items, names),
                None => Ok(()),
            }
        }
        Selection::Spread(_) => Ok(()),
        Selection::Inline(inline) => put_selections(&inline.set.items, names),
    }
}

/// So of selections in a row.
#[cycle(put)]
fn put_selections(selections: &[Selection], names: &mut NameList) -> Result<(), NoMemory>
    ensures grows { OnOk result (Grows names.old names.new) }
    ensures has { OnOk result (HasNamesIn (labels (sels_view selections.now)) names.new) }
{
    for selection in selections {
        put_selection(selection, names)?;
    }
    Ok(())
}

/// Puts the name where it is not there yet.
fn put(name: &Name, names: &mut NameList) -> Result<(), NoMemory>
    ensures grows { OnOk result (Grows names.old names.new) }
    ensures has { OnOk result (list_any (bytes_eq name.now.text) names.new ≡ true) }
{
    if names.contains(name.text.as_str()) {
        return Ok(());
    }
    names.add(name.text.as_str())
}

/// Whether one of these names is among those.
pub(crate) fn has_one_of(names: &NameList, some: &[&Name]) -> bool
    ensures { result ≡ meets names.now (texts_at some.now) }
{
    for name in some {
        if names.contains(name.text.as_str()) {
            return true;
        }
    }
    false
}
