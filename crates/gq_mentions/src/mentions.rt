//! What a query can be about in a document (GraphQL, October 2021, sections 2.5, 2.8 and 2.10).
ghost use Rattle.std.specs.Prelude.{◌≡◌, ◌++◌, ◌∷◌, [], OnOk, map};
ghost use Rattle.std.specs.List.{flat_map};
ghost use Rattle.std.specs.Option.{option_map};
ghost use Rattle.gq_tree.specs.Forest.{labels, labels_in};
ghost use Rattle.gq_tree.specs.Views.{name_of, value_view, values_view, entry_view, entries_view, argument_view, directive_view, variable_view, sel_view, sels_view, def_view};
ghost use Rattle.gq_mentions.specs.Mentions.{name_mention, condition_mentions, variable_mention, part_mentions, value_mentions, argument_mentions, directive_mentions, head_mentions, selection_mentions, defined_mentions, mentions_in};
ghost use Rattle.gq_mentions.specs.Views.{mentions_view};

use crate::mention::{Mention, MentionKind};
use gq_text::NoMemory;
use gq_tree::{
    Argument, Definition, Directive, Name, ObjectField, Selection, Value, Variable,
    VariableDefinition,
};

/// Puts a name of that kind in the definition of that number behind the others.
fn put_name<'a>(
    kind: MentionKind,
    number: usize,
    name: &'a Name,
    all: &mut Vec<Mention<'a>>,
) -> Result<(), NoMemory>
    ensures { OnOk result (mentions_view all.new.items ≡ mentions_view all.old.items ++ name_mention kind number (name_of name.now) ∷ []) }
{
    all.push(Mention {
        kind,
        span: name.span,
        name,
        definition: number,
    })?;
    Ok(())
}

/// Puts the type condition of an inline fragment, where it has one, behind the others.
fn put_condition<'a>(
    number: usize,
    condition: &'a Option<Name>,
    all: &mut Vec<Mention<'a>>,
) -> Result<(), NoMemory>
    ensures { OnOk result (mentions_view all.new.items ≡ mentions_view all.old.items ++ condition_mentions number (option_map name_of condition.now)) }
{
    match condition {
        Some(name) => put_name(MentionKind::Condition, number, name, all),
        None => Ok(()),
    }
}

/// Puts a variable behind the others.
fn put_variable<'a>(
    number: usize,
    variable: &'a Variable,
    all: &mut Vec<Mention<'a>>,
) -> Result<(), NoMemory>
    ensures { OnOk result (mentions_view all.new.items ≡ mentions_view all.old.items ++ variable_mention number (name_of variable.now.name) variable.now.span ∷ []) }
{
    all.push(Mention {
        kind: MentionKind::Variable,
        span: variable.span,
        name: &variable.name,
        definition: number,
    })?;
    Ok(())
}

#[cycle(values)]
#[tactic(auto, using(gq_tree::proofs::Trees::gathers))]
fn put_value<'a>(
    number: usize,
    value: &'a Value,
    all: &mut Vec<Mention<'a>>,
) -> Result<(), NoMemory>
    ensures { OnOk result (mentions_view all.new.items ≡ mentions_view all.old.items ++ value_mentions number (value_view value.now)) }
{
    match value {
        Value::Variable(variable) => put_variable(number, variable, all),
        Value::List { items, .. } => put_items(number, items, all),
        Value::Object { fields, .. } => put_fields(number, fields, all),
        Value::Int(_) => Ok(()),
        Value::Float(_) => Ok(()),
        Value::String(_) => Ok(()),
        Value::Boolean { .. } => Ok(()),
        Value::Null { .. } => Ok(()),
        Value::Enum(_) => Ok(()),
    }
}

#[cycle(values)]
#[tactic(auto, using(gq_tree::proofs::Trees::gathers))]
fn put_items<'a>(
    number: usize,
    values: &'a [Value],
    all: &mut Vec<Mention<'a>>,
) -> Result<(), NoMemory>
    ensures { OnOk result (mentions_view all.new.items ≡ mentions_view all.old.items ++ flat_map (part_mentions number) (labels (values_view values.now))) }
{
    for value in values {
        put_value(number, value, all)?;
    }
    Ok(())
}

#[cycle(values)]
#[tactic(auto, using(gq_tree::proofs::Trees::gathers))]
fn put_fields<'a>(
    number: usize,
    fields: &'a [ObjectField],
    all: &mut Vec<Mention<'a>>,
) -> Result<(), NoMemory>
    ensures { OnOk result (mentions_view all.new.items ≡ mentions_view all.old.items ++ flat_map (part_mentions number) (labels (entries_view fields.now))) }
{
    for field in fields {
        put_value(number, &field.value, all)?;
    }
    Ok(())
}

#[tactic(auto, using(gq_tree::proofs::Trees::gathers))]
fn put_arguments<'a>(
    number: usize,
    arguments: &'a [Argument],
    all: &mut Vec<Mention<'a>>,
) -> Result<(), NoMemory>
    ensures { OnOk result (mentions_view all.new.items ≡ mentions_view all.old.items ++ argument_mentions number (map argument_view arguments.now)) }
{
    for argument in arguments {
        put_value(number, &argument.value, all)?;
    }
    Ok(())
}

#[tactic(auto, using(gq_tree::proofs::Trees::gathers))]
fn put_directives<'a>(
    number: usize,
    directives: &'a [Directive],
    all: &mut Vec<Mention<'a>>,
) -> Result<(), NoMemory>
    ensures { OnOk result (mentions_view all.new.items ≡ mentions_view all.old.items ++ directive_mentions number (map directive_view directives.now)) }
{
    for directive in directives {
        put_arguments(number, &directive.arguments, all)?;
    }
    Ok(())
}

#[cycle(selections)]
#[tactic(auto, using(gq_tree::proofs::Trees::gathers))]
fn put_selection<'a>(
    number: usize,
    selection: &'a Selection,
    all: &mut Vec<Mention<'a>>,
) -> Result<(), NoMemory>
    ensures { OnOk result (mentions_view all.new.items ≡ mentions_view all.old.items ++ flat_map (head_mentions number) (labels_in (sel_view selection.now))) }
{
    match selection {
        Selection::Field(field) => {
            put_name(MentionKind::Field, number, &field.name, all)?;
            put_arguments(number, &field.arguments, all)?;
            put_directives(number, &field.directives, all)?;
            match &field.set {
                Some(set) => put_selections(number, &set.items, all),
                None => Ok(()),
            }
        }
        Selection::Spread(spread) => {
            put_name(MentionKind::Fragment, number, &spread.name, all)?;
            put_directives(number, &spread.directives, all)
        }
        Selection::Inline(inline) => {
            put_condition(number, &inline.on, all)?;
            put_directives(number, &inline.directives, all)?;
            put_selections(number, &inline.set.items, all)
        }
    }
}

#[cycle(selections)]
#[tactic(auto, using(gq_tree::proofs::Trees::gathers))]
fn put_selections<'a>(
    number: usize,
    selections: &'a [Selection],
    all: &mut Vec<Mention<'a>>,
) -> Result<(), NoMemory>
    ensures { OnOk result (mentions_view all.new.items ≡ mentions_view all.old.items ++ selection_mentions number (sels_view selections.now)) }
{
    for selection in selections {
        put_selection(number, selection, all)?;
    }
    Ok(())
}

/// The variable that is defined, and those in its directives.
#[tactic(auto, using(gq_tree::proofs::Trees::gathers))]
fn put_defined<'a>(
    number: usize,
    definition: &'a VariableDefinition,
    all: &mut Vec<Mention<'a>>,
) -> Result<(), NoMemory>
    ensures { OnOk result (mentions_view all.new.items ≡ mentions_view all.old.items ++ defined_mentions number (variable_view definition.now)) }
{
    put_variable(number, &definition.variable, all)?;
    put_directives(number, &definition.directives, all)
}

#[tactic(auto, using(gq_tree::proofs::Trees::gathers))]
fn put_all_defined<'a>(
    number: usize,
    definitions: &'a [VariableDefinition],
    all: &mut Vec<Mention<'a>>,
) -> Result<(), NoMemory>
    ensures { OnOk result (mentions_view all.new.items ≡ mentions_view all.old.items ++ flat_map (defined_mentions number) (map variable_view definitions.now)) }
{
    for definition in definitions {
        put_defined(number, definition, all)?;
    }
    Ok(())
}

/// Puts what is named in the definition of that number behind the others, in the order of the text. A type system
/// definition has nothing.
#[tactic(auto, using(gq_tree::proofs::Trees::gathers))]
pub fn put_mentions<'a>(
    number: usize,
    definition: &'a Definition,
    all: &mut Vec<Mention<'a>>,
) -> Result<(), NoMemory>
    ensures { OnOk result (mentions_view all.new.items ≡ mentions_view all.old.items ++ mentions_in number (def_view definition.now)) }
{
    match definition {
        Definition::Operation(operation) => {
            put_all_defined(number, &operation.variables, all)?;
            put_directives(number, &operation.directives, all)?;
            put_selections(number, &operation.set.items, all)
        }
        Definition::Fragment(fragment) => {
            put_name(MentionKind::Fragment, number, &fragment.name, all)?;
            put_name(MentionKind::Condition, number, &fragment.on, all)?;
            put_directives(number, &fragment.directives, all)?;
            put_selections(number, &fragment.set.items, all)
        }
        Definition::TypeSystem(_) => Ok(()),
    }
}
