//! The names of variables in a definition (GraphQL, October 2021, sections 2.10 and 5.8).
ghost use Rattle.std.specs.Prelude.{◌≡◌, ◌++◌, ◌∷◌, [], IfOk, OnOk, map};
ghost use Rattle.std.specs.List.{flat_map};
ghost use Rattle.gq_tree.specs.Forest.{labels, labels_in};
ghost use Rattle.gq_tree.specs.Names.{names_at};
ghost use Rattle.gq_tree.specs.Views.{name_of, value_view, values_view, entry_view, entries_view, argument_view, directive_view, variable_view, sel_view, sels_view, def_view};
ghost use Rattle.gq_index.specs.VariableNames.{part_variable, value_variables, argument_variables, directive_variables, head_variables, selection_variables, used_variables, defined_variables};

use gq_text::NoMemory;
use gq_tree::{
    Argument, Definition, Directive, Name, ObjectField, Selection, Value, VariableDefinition,
};
use std::alloc::Global;

fn put<'a>(name: &'a Name, names: &mut Vec<&'a Name>) -> Result<(), NoMemory>
    ensures { OnOk result (names_at names.new.items ≡ names_at names.old.items ++ name_of name.now ∷ []) }
{
    names.push(name)?;
    Ok(())
}

#[cycle(values)]
#[tactic(auto, using(gq_tree::proofs::Trees::gathers))]
fn put_value<'a>(value: &'a Value, names: &mut Vec<&'a Name>) -> Result<(), NoMemory>
    ensures { OnOk result (names_at names.new.items ≡ names_at names.old.items ++ value_variables (value_view value.now)) }
{
    match value {
        Value::Variable(variable) => put(&variable.name, names),
        Value::List { items, .. } => put_items(items, names),
        Value::Object { fields, .. } => put_fields(fields, names),
        Value::Int(_) => Ok(()),
        Value::Float(_) => Ok(()),
        Value::String(_) => Ok(()),
        Value::Boolean { .. } => Ok(()),
        Value::Null { .. } => Ok(()),
        Value::Enum(_) => Ok(()),
    }
}

#[cycle(values)]
#[tactic(auto, using(gq_tree::proofs::Trees::gathers))]
fn put_items<'a>(values: &'a [Value], names: &mut Vec<&'a Name>) -> Result<(), NoMemory>
    ensures { OnOk result (names_at names.new.items ≡ names_at names.old.items ++ flat_map part_variable (labels (values_view values.now))) }
{
    for value in values {
        put_value(value, names)?;
    }
    Ok(())
}

#[cycle(values)]
#[tactic(auto, using(gq_tree::proofs::Trees::gathers))]
fn put_fields<'a>(fields: &'a [ObjectField], names: &mut Vec<&'a Name>) -> Result<(), NoMemory>
    ensures { OnOk result (names_at names.new.items ≡ names_at names.old.items ++ flat_map part_variable (labels (entries_view fields.now))) }
{
    for field in fields {
        put_value(&field.value, names)?;
    }
    Ok(())
}

#[tactic(auto, using(gq_tree::proofs::Trees::gathers))]
fn put_arguments<'a>(arguments: &'a [Argument], names: &mut Vec<&'a Name>) -> Result<(), NoMemory>
    ensures { OnOk result (names_at names.new.items ≡ names_at names.old.items ++ argument_variables (map argument_view arguments.now)) }
{
    for argument in arguments {
        put_value(&argument.value, names)?;
    }
    Ok(())
}

#[tactic(auto, using(gq_tree::proofs::Trees::gathers))]
fn put_directives<'a>(
    directives: &'a [Directive],
    names: &mut Vec<&'a Name>,
) -> Result<(), NoMemory>
    ensures { OnOk result (names_at names.new.items ≡ names_at names.old.items ++ directive_variables (map directive_view directives.now)) }
{
    for directive in directives {
        put_arguments(&directive.arguments, names)?;
    }
    Ok(())
}

#[cycle(selections)]
#[tactic(auto, using(gq_tree::proofs::Trees::gathers))]
fn put_selection<'a>(selection: &'a Selection, names: &mut Vec<&'a Name>) -> Result<(), NoMemory>
    ensures { OnOk result (names_at names.new.items ≡ names_at names.old.items ++ flat_map head_variables (labels_in (sel_view selection.now))) }
{
    match selection {
        Selection::Field(field) => {
            put_arguments(&field.arguments, names)?;
            put_directives(&field.directives, names)?;
            match &field.set {
                Some(set) => put_selections(&set.items, names),
                None => Ok(()),
            }
        }
        Selection::Spread(spread) => put_directives(&spread.directives, names),
        Selection::Inline(inline) => {
            put_directives(&inline.directives, names)?;
            put_selections(&inline.set.items, names)
        }
    }
}

#[cycle(selections)]
#[tactic(auto, using(gq_tree::proofs::Trees::gathers))]
fn put_selections<'a>(
    selections: &'a [Selection],
    names: &mut Vec<&'a Name>,
) -> Result<(), NoMemory>
    ensures { OnOk result (names_at names.new.items ≡ names_at names.old.items ++ selection_variables (sels_view selections.now)) }
{
    for selection in selections {
        put_selection(selection, names)?;
    }
    Ok(())
}

#[tactic(auto, using(gq_tree::proofs::Trees::gathers))]
fn put_variable_directives<'a>(
    variables: &'a [VariableDefinition],
    names: &mut Vec<&'a Name>,
) -> Result<(), NoMemory>
    ensures { OnOk result (names_at names.new.items ≡ names_at names.old.items ++ flat_map (λ v. directive_variables v.directives) (map variable_view variables.now)) }
{
    for variable in variables {
        put_directives(&variable.directives, names)?;
    }
    Ok(())
}

/// The names of the variables that a definition uses, in the order of the text.
#[tactic(auto, using(gq_tree::proofs::Trees::gathers))]
pub(crate) fn used_variables<'a>(
    alloc: Global,
    definition: &'a Definition,
) -> Result<Vec<&'a Name>, NoMemory>
    ensures { IfOk result (λ names. names_at names.items ≡ used_variables (def_view definition.now)) }
{
    let mut names = Vec::new(alloc);
    match definition {
        Definition::Operation(operation) => {
            put_variable_directives(&operation.variables, &mut names)?;
            put_directives(&operation.directives, &mut names)?;
            put_selections(&operation.set.items, &mut names)?;
        }
        Definition::Fragment(fragment) => {
            put_directives(&fragment.directives, &mut names)?;
            put_selections(&fragment.set.items, &mut names)?;
        }
        Definition::TypeSystem(_) => {}
    }
    Ok(names)
}

/// The names of the variables that a definition defines, in the order of the text.
#[tactic(auto, using(gq_tree::proofs::Trees::gathers))]
pub(crate) fn defined_variables<'a>(
    alloc: Global,
    definition: &'a Definition,
) -> Result<Vec<&'a Name>, NoMemory>
    ensures { IfOk result (λ names. names_at names.items ≡ defined_variables (def_view definition.now)) }
{
    let mut names = Vec::new(alloc);
    if let Definition::Operation(operation) = definition {
        for variable in &operation.variables {
            put(&variable.variable.name, &mut names)?;
        }
    }
    Ok(names)
}
