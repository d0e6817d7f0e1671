//! The uses of variables in selections, operations and fragments.
ghost use Rattle.std.specs.Prelude.{◌≡◌, ◌++◌, IfOk, OnOk, map, true, []};
ghost use Rattle.std.specs.Option.{option_map};
ghost use Rattle.gq_tree.specs.NamedTypes.{base_name};
ghost use Rattle.gq_tree.specs.Views.{argument_view, below_of, sel_view, sels_view, variable_view};
ghost use Rattle.gq_types.specs.Look.{types_view, text_of};
ghost use Rattle.gq_document.specs.Definitions.{operation_view, fragment_view};
ghost use Rattle.gq_document.specs.Helping.Trees.{selected_in};
ghost use Rattle.gq_document.specs.Selections.{selected_among};
ghost use Rattle.gq_document.specs.Views.{selected_field_view};
ghost use Rattle.gq_values.specs.ArgumentPlaces.{definitions_view};
ghost use Rattle.gq_variables.specs.Helping.UsesNothing.{ArgumentsUseNothing, UsesNothing, UseNothing};
ghost use Rattle.gq_variables.specs.Helping.UsesPlaces.{selection_uses, variable_uses, operation_uses, fragment_uses};
ghost use Rattle.gq_variables.specs.Helping.Views.{uses_view};

use crate::has_variable::has_variable_among;
use crate::uses::Use;
use crate::values::{put_uses_of_arguments, put_uses_of_directives};
use gq_document::{FragmentEntry, OperationEntry, SelectedField, selected_field};
use gq_text::NoMemory;
use gq_tree::{Argument, Directive, Selection, SelectionSet, VariableDefinition};
use gq_types::{Arguments, Types};
use std::alloc::Global;

/// The definitions of the arguments of a field, where it is known.
fn arguments_of<'a>(found: Option<SelectedField<'a>>) -> Option<Arguments<'a>>
    ensures { definitions_view result ≡ option_map (λ f. f.arguments) (selected_field_view found.entry) }
{
    match found {
        Some(field) => Some(field.arguments()),
        None => None,
    }
}

/// The name of the type of a field, without lists and non-null, where it is known.
fn name_below<'a>(found: Option<SelectedField<'a>>) -> Option<&'a str>
    ensures { text_of result ≡ option_map (λ f. base_name f.type_ref) (selected_field_view found.entry) }
{
    match found {
        Some(field) => Some(field.base_name()),
        None => None,
    }
}

fn are_none(arguments: &[Argument], directives: &[Directive]) -> bool
    ensures { result ≡ true → (arguments.now ≡ []) × (directives.now ≡ []) }
{
    arguments.is_empty() && directives.is_empty()
}

fn are_no_directives(directives: &[Directive]) -> bool
    ensures { result ≡ true → directives.now ≡ [] }
{
    directives.is_empty()
}

/// So many sets, one in the other, are gone over before the type of a field is looked up.
const DEEP: usize = 4;

/// Whether the selection has no arguments and no directives, nor those below it, in so many sets at most. No variable is used then.
#[cycle(silent)]
#[tactic(auto, using(gq_tree::proofs::Trees::gathers))]
fn uses_nothing(selection: &Selection, deep: usize) -> bool
    ensures { result ≡ true → UsesNothing (sel_view selection.now) }
{
    match selection {
        Selection::Field(field) => {
            if !are_none(&field.arguments, &field.directives) {
                return false;
            }
            match &field.set {
                Some(set) => use_nothing(&set.items, deep),
                None => true,
            }
        }
        Selection::Spread(spread) => are_no_directives(&spread.directives),
        Selection::Inline(inline) => {
            are_no_directives(&inline.directives) && use_nothing(&inline.set.items, deep)
        }
    }
}

/// Whether none of the selections has any, in so many sets at most, of which theirs is the first.
#[cycle(silent)]
#[tactic(auto, using(gq_tree::proofs::Trees::gathers))]
fn use_nothing(all: &[Selection], deep: usize) -> bool
    ensures { result ≡ true → UseNothing (sels_view all.now) }
{
    if deep == 0 {
        return false;
    }
    for selection in all {
        if !uses_nothing(selection, deep - 1) {
            return false;
        }
    }
    true
}

/// Whether no variable stands in the arguments of a field, and none is used in its selection set, in so many sets at most.
fn is_silent(arguments: &[Argument], set: &Option<Box<SelectionSet>>) -> bool
    ensures arguments { result ≡ true → ArgumentsUseNothing (map argument_view arguments.now) }
    ensures set { result ≡ true → UseNothing (below_of set.now) }
{
    if has_variable_among(arguments) {
        return false;
    }
    match set {
        Some(set) => use_nothing(&set.items, DEEP),
        None => true,
    }
}

/// Puts the uses in a selection, at any depth, behind the others. A field is looked up once, and not at all where no variable is used
/// in it but in its directives.
#[cycle(selections)]
#[tactic(auto, using(gq_tree::proofs::Trees::gathers))]
fn put_uses_in<'a>(
    types: &'a Types,
    file: usize,
    parent: Option<&'a str>,
    selection: &'a Selection,
    uses: &mut Vec<Use<'a>>,
) -> Result<(), NoMemory>
    ensures { OnOk result (uses_view uses.new.items ≡ uses_view uses.old.items ++
        selection_uses (types_view types.now) (selected_in (types_view types.now) file (text_of parent.entry) (sel_view selection.now))) }
{
    match selection {
        Selection::Field(field) => {
            let (arguments, directives) = (&field.arguments, &field.directives);
            if is_silent(arguments, &field.set) {
                return put_uses_of_directives(types, file, directives, uses);
            }
            let found = selected_field(types, parent, field.name.text.as_str());
            put_uses_of_arguments(types, file, arguments_of(found), arguments, uses)?;
            put_uses_of_directives(types, file, directives, uses)?;
            match &field.set {
                Some(set) => { put_uses_among(types, file, name_below(found), &set.items, uses) }
                None => Ok(()),
            }
        }
        Selection::Spread(spread) => {
            put_uses_of_directives(types, file, &spread.directives, uses)
        }
        Selection::Inline(inline) => {
            put_uses_of_directives(types, file, &inline.directives, uses)?;
            match &inline.on {
                Some(name) => {
                    let below = Some(name.text.as_str());
                    put_uses_among(types, file, below, &inline.set.items, uses)
                }
                None => put_uses_among(types, file, parent, &inline.set.items, uses),
            }
        }
    }
}

/// So of selections in a row.
#[cycle(selections)]
#[tactic(auto, using(gq_tree::proofs::Trees::gathers))]
fn put_uses_among<'a>(
    types: &'a Types,
    file: usize,
    parent: Option<&'a str>,
    all: &'a [Selection],
    uses: &mut Vec<Use<'a>>,
) -> Result<(), NoMemory>
    ensures { OnOk result (uses_view uses.new.items ≡ uses_view uses.old.items ++
        selection_uses (types_view types.now) (selected_among (types_view types.now) file (text_of parent.entry) (sels_view all.now))) }
{
    for selection in all {
        put_uses_in(types, file, parent, selection, uses)?;
    }
    Ok(())
}

#[tactic(auto, using(gq_tree::proofs::Trees::gathers))]
fn put_uses_of_variables<'a>(
    types: &'a Types,
    file: usize,
    variables: &'a [VariableDefinition],
    uses: &mut Vec<Use<'a>>,
) -> Result<(), NoMemory>
    ensures { OnOk result (uses_view uses.new.items ≡ uses_view uses.old.items ++ variable_uses (types_view types.now) file (map variable_view variables.now)) }
{
    for variable in variables {
        put_uses_of_directives(types, file, &variable.directives, uses)?;
    }
    Ok(())
}

/// Puts the uses that stand in an operation behind the others, in its selections, its directives and those of its variables.
#[tactic(auto, using(gq_tree::proofs::Trees::gathers))]
pub(crate) fn put_uses_of_operation<'a>(
    types: &'a Types,
    operation: &'a OperationEntry<'a>,
    uses: &mut Vec<Use<'a>>,
) -> Result<(), NoMemory>
    ensures { OnOk result (uses_view uses.new.items ≡ uses_view uses.old.items ++ operation_uses (types_view types.now) (operation_view operation.now)) }
{
    let (file, definition) = (operation.file, &operation.definition);
    let (parent, all) = (types.root(definition.kind), &definition.set.items);
    put_uses_among(types, file, parent, all, uses)?;
    put_uses_of_directives(types, file, &definition.directives, uses)?;
    put_uses_of_variables(types, file, &definition.variables, uses)
}

/// The uses that stand in a fragment, in its selections and its directives.
#[tactic(auto, using(gq_tree::proofs::Trees::gathers))]
pub(crate) fn fragment_uses<'a>(
    alloc: Global,
    types: &'a Types,
    fragment: &'a FragmentEntry<'a>,
) -> Result<Vec<Use<'a>>, NoMemory>
    ensures { IfOk result (λ uses. uses_view uses.items ≡ fragment_uses (types_view types.now) (fragment_view fragment.now)) }
{
    let mut uses = Vec::new(alloc);
    let parent = Some(fragment.definition.on.text.as_str());
    let all = &fragment.definition.set.items;
    put_uses_among(types, fragment.file, parent, all, &mut uses)?;
    let directives = &fragment.definition.directives;
    put_uses_of_directives(types, fragment.file, directives, &mut uses)?;
    Ok(uses)
}
