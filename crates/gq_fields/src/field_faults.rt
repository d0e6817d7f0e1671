//! All that is wrong with the fields, arguments, directives and default values of operations and fragments.
ghost use Rattle.std.specs.Prelude.{◌≡◌, ◌++◌, IfOk, OnOk, map};
ghost use Rattle.std.specs.Option.{option_map};
ghost use Rattle.gq_tree.specs.NamedTypes.{base_name};
ghost use Rattle.gq_fault.specs.Adds.{AddsExactly};
ghost use Rattle.gq_tree.specs.Views.{name_of, braces_of, argument_view, sel_view, sels_view, variable_view};
ghost use Rattle.gq_types.specs.Look.{types_view, text_of};
ghost use Rattle.gq_document.specs.Definitions.{operation_view, fragment_view, operations_view, fragments_view};
ghost use Rattle.gq_document.specs.Executable.{executable_view};
ghost use Rattle.gq_document.specs.Helping.Trees.{selected_in};
ghost use Rattle.gq_document.specs.Selections.{parent_below, selected_among, selected_field};
ghost use Rattle.gq_document.specs.Views.{selected_field_view, selected_view};
ghost use Rattle.gq_fields.specs.FieldFaults.{IsFieldFault};
ghost use Rattle.gq_fields.specs.Helping.FieldFaultsPlaces.{faults_of_field, faults_of_named, selection_faults, selections_faults, variable_faults};
ghost use Rattle.gq_fields.specs.Helping.FieldFaultsPlaces.{variables_faults, operation_faults, fragment_faults, operations_faults, fragments_faults, field_faults};

use crate::arguments::add_wrong_arguments;
use crate::directives::{
    add_wrong_directives, add_wrong_directives_of_selection, operation_location,
};
use crate::field_selections::add_unknown_field;
use crate::leaf_field_selections::add_wrong_selections;
use crate::values::add_wrong_default;
use gq_document::{
    Executable, FragmentEntry, OperationEntry, Selected, SelectedField, selected_field,
};
use gq_fault::Fault;
use gq_text::NoMemory;
use gq_tree::{Argument, DirectiveLocation, Name, Selection, SelectionSet, VariableDefinition};
use gq_types::Types;
use std::alloc::Global;

/// The name of the type of that field, without lists and non-null.
fn name_below<'a>(found: Option<SelectedField<'a>>) -> Option<&'a str>
    ensures { text_of result ≡ option_map (λ f. base_name f.type_ref) (selected_field_view found.entry) }
{
    match found {
        Some(field) => Some(field.base_name()),
        None => None,
    }
}

/// Puts what is wrong with the field that a selection names, which is looked up once, and answers the name of its type.
fn add_faults_of_field<'a>(
    alloc: Global,
    types: &'a Types,
    file: usize,
    parent: Option<&str>,
    name: &Name,
    set: &Option<Box<SelectionSet>>,
    arguments: &[Argument],
    faults: &mut Vec<Fault>,
) -> Result<Option<&'a str>, NoMemory>
    ensures faults { OnOk result (faults.new.items ≡ faults.old.items ++ faults_of_field (types_view types.now) file (text_of parent.entry)
        (name_of name.now) (braces_of set.now) (map argument_view arguments.now)) }
    ensures below { IfOk result (λ below. text_of below ≡ option_map (λ f. base_name f.type_ref) (selected_field (types_view types.now) (text_of parent.entry) name.now.text)) }
{
    let found = selected_field(types, parent, name.text.as_str());
    add_unknown_field(types, file, parent, found, name, faults)?;
    add_wrong_selections(types, file, found, name, set, faults)?;
    add_wrong_arguments(alloc, types, file, found, name, arguments, faults)?;
    Ok(name_below(found))
}

/// Puts what is wrong with the field that a selection names, if it is one, and answers the name of the type of the parent of the
/// selections in its braces.
#[tactic(auto, using(gq_tree::proofs::Trees::gathers))]
fn add_faults_of_named<'a>(
    alloc: Global,
    types: &'a Types,
    selected: Selected<'a>,
    faults: &mut Vec<Fault>,
) -> Result<Option<&'a str>, NoMemory>
    ensures faults { OnOk result (faults.new.items ≡ faults.old.items ++ faults_of_named (types_view types.now) (selected_view selected.entry)) }
    ensures below { IfOk result (λ below. text_of below ≡ parent_below (types_view types.now) (selected_view selected.entry).parent (selected_view selected.entry).selection.label) }
{
    let (file, parent) = (selected.file, selected.parent);
    match selected.selection {
        Selection::Field(field) => {
            let (name, set, arguments) = (&field.name, &field.set, &field.arguments);
            add_faults_of_field(alloc, types, file, parent, name, set, arguments, faults)
        }
        Selection::Spread(_) => Ok(parent),
        Selection::Inline(inline) => match &inline.on {
            Some(name) => Ok(Some(name.text.as_str())),
            None => Ok(parent),
        },
    }
}

/// Puts what is wrong at a selection by itself, and answers the same.
fn add_faults_at<'a>(
    alloc: Global,
    types: &'a Types,
    selected: Selected<'a>,
    faults: &mut Vec<Fault>,
) -> Result<Option<&'a str>, NoMemory>
    ensures faults { OnOk result (faults.new.items ≡ faults.old.items ++ selection_faults (types_view types.now) (selected_view selected.entry)) }
    ensures below { IfOk result (λ below. text_of below ≡ parent_below (types_view types.now) (selected_view selected.entry).parent (selected_view selected.entry).selection.label) }
{
    let below = add_faults_of_named(alloc, types, selected, faults)?;
    add_wrong_directives_of_selection(alloc, types, &selected, faults)?;
    Ok(below)
}

#[cycle(selections)]
#[tactic(auto, using(gq_tree::proofs::Trees::gathers))]
fn add_faults_in<'a>(
    alloc: Global,
    types: &'a Types,
    file: usize,
    parent: Option<&'a str>,
    selection: &'a Selection,
    faults: &mut Vec<Fault>,
) -> Result<(), NoMemory>
    ensures { OnOk result (faults.new.items ≡ faults.old.items ++
        selections_faults (types_view types.now) (selected_in (types_view types.now) file (text_of parent.entry) (sel_view selection.now))) }
{
    let selected = Selected {
        file,
        parent,
        selection,
    };
    let below = add_faults_at(alloc, types, selected, faults)?;
    match selection {
        Selection::Field(field) => match &field.set {
            Some(set) => add_faults_among(alloc, types, file, below, &set.items, faults),
            None => Ok(()),
        },
        Selection::Spread(_) => Ok(()),
        Selection::Inline(inline) => {
            add_faults_among(alloc, types, file, below, &inline.set.items, faults)
        }
    }
}

#[cycle(selections)]
#[tactic(auto, using(gq_tree::proofs::Trees::gathers))]
fn add_faults_among<'a>(
    alloc: Global,
    types: &'a Types,
    file: usize,
    parent: Option<&'a str>,
    all: &'a [Selection],
    faults: &mut Vec<Fault>,
) -> Result<(), NoMemory>
    ensures { OnOk result (faults.new.items ≡ faults.old.items ++ selections_faults (types_view types.now) (selected_among (types_view types.now) file (text_of parent.entry) (sels_view all.now))) }
{
    for selection in all {
        add_faults_in(alloc, types, file, parent, selection, faults)?;
    }
    Ok(())
}

fn add_faults_of_variable(
    alloc: Global,
    types: &Types,
    file: usize,
    variable: &VariableDefinition,
    faults: &mut Vec<Fault>,
) -> Result<(), NoMemory>
    ensures { OnOk result (faults.new.items ≡ faults.old.items ++ variable_faults (types_view types.now) file (variable_view variable.now)) }
{
    let location = DirectiveLocation::VariableDefinition;
    add_wrong_directives(alloc, types, file, location, &variable.directives, faults)?;
    add_wrong_default(alloc, types, file, variable, faults)
}

fn add_faults_of_variables(
    alloc: Global,
    types: &Types,
    file: usize,
    variables: &[VariableDefinition],
    faults: &mut Vec<Fault>,
) -> Result<(), NoMemory>
    ensures { OnOk result (faults.new.items ≡ faults.old.items ++ variables_faults (types_view types.now) file (map variable_view variables.now)) }
{
    for variable in variables {
        add_faults_of_variable(alloc, types, file, variable, faults)?;
    }
    Ok(())
}

fn add_faults_of_operation<'a>(
    alloc: Global,
    types: &'a Types,
    operation: &OperationEntry<'a>,
    faults: &mut Vec<Fault>,
) -> Result<(), NoMemory>
    ensures { OnOk result (faults.new.items ≡ faults.old.items ++ operation_faults (types_view types.now) (operation_view operation.now)) }
{
    let (file, definition) = (operation.file, &operation.definition);
    let location = operation_location(definition.kind);
    add_wrong_directives(alloc, types, file, location, &definition.directives, faults)?;
    add_faults_of_variables(alloc, types, file, &definition.variables, faults)?;
    let (parent, all) = (types.root(definition.kind), &definition.set.items);
    add_faults_among(alloc, types, file, parent, all, faults)
}

fn add_faults_of_fragment<'a>(
    alloc: Global,
    types: &'a Types,
    fragment: &FragmentEntry<'a>,
    faults: &mut Vec<Fault>,
) -> Result<(), NoMemory>
    ensures { OnOk result (faults.new.items ≡ faults.old.items ++ fragment_faults (types_view types.now) (fragment_view fragment.now)) }
{
    let (file, directives) = (fragment.file, &fragment.definition.directives);
    let location = DirectiveLocation::FragmentDefinition;
    add_wrong_directives(alloc, types, file, location, directives, faults)?;
    let parent = Some(fragment.definition.on.text.as_str());
    let all = &fragment.definition.set.items;
    add_faults_among(alloc, types, file, parent, all, faults)
}

fn add_faults_of_operations<'a>(
    alloc: Global,
    types: &'a Types,
    operations: &[OperationEntry<'a>],
    faults: &mut Vec<Fault>,
) -> Result<(), NoMemory>
    ensures { OnOk result (faults.new.items ≡ faults.old.items ++ operations_faults (types_view types.now) (operations_view operations.now)) }
{
    for operation in operations {
        add_faults_of_operation(alloc, types, operation, faults)?;
    }
    Ok(())
}

fn add_faults_of_fragments<'a>(
    alloc: Global,
    types: &'a Types,
    fragments: &[FragmentEntry<'a>],
    faults: &mut Vec<Fault>,
) -> Result<(), NoMemory>
    ensures { OnOk result (faults.new.items ≡ faults.old.items ++ fragments_faults (types_view types.now) (fragments_view fragments.now)) }
{
    for fragment in fragments {
        add_faults_of_fragment(alloc, types, fragment, faults)?;
    }
    Ok(())
}

fn add_all_faults(
    alloc: Global,
    executable: &Executable<'_>,
    faults: &mut Vec<Fault>,
) -> Result<(), NoMemory>
    ensures { OnOk result (faults.new.items ≡ faults.old.items ++ field_faults (executable_view executable.now)) }
{
    let types = executable.types;
    add_faults_of_operations(alloc, types, executable.operations, faults)?;
    add_faults_of_fragments(alloc, types, executable.fragments, faults)
}

/// Adds each fault of operations and fragments in a field that is selected (sections 5.3.1 and
/// 5.3.3), in arguments (section 5.4), in directives (section 5.7), and in the values of arguments and the default values of
/// variables (section 5.6). Places are in bytes. A rule that needs a type, a field or a directive which is not known is not
/// tested there.
pub fn add_field_faults(
    alloc: Global,
    executable: &Executable<'_>,
    faults: &mut Vec<Fault>,
) -> Result<(), NoMemory>
    ensures { OnOk result (AddsExactly (IsFieldFault (executable_view executable.now)) faults.old.items faults.new.items) }
{
    add_all_faults(alloc, executable, faults)
}
