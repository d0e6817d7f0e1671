//! The names of arguments, made once where a definition has many of them.
ghost use Rattle.std.specs.Prelude.{◌∷◌, [], IfOk, map};
ghost use Rattle.gq_tree.specs.Views.{input_view, field_definition_view, type_system_view};
ghost use Rattle.gq_types.specs.Helping.Index.{argument_lists, AreNamesOfEach};
ghost use Rattle.gq_types.specs.Helping.RequiredNames.{AreNamesOf};

use crate::entry_parts::fields_of;
use crate::required::put_required;
use gq_names::NameList;
use gq_text::NoMemory;
use gq_tree::{FieldDefinition, InputValueDefinition, TypeSystemDefinition};
use std::alloc::Global;

/// The most arguments of a definition whose names are not kept, or not looked at. To go over so few takes less time.
pub(crate) const FEW: usize = 16;

/// The names of the arguments of one definition, and of those which are required.
#[derive(Drop)]
pub(crate) struct ArgumentNames {
    pub(crate) all: NameList,
    pub(crate) required: NameList,
}

impl ArgumentNames {
    /// The names of these arguments.
    pub(crate) fn of(
        alloc: Global,
        arguments: &[InputValueDefinition],
    ) -> Result<ArgumentNames, NoMemory>
        ensures { IfOk result (AreNamesOf (map input_view arguments.now)) }
    {
        let mut all = NameList::new(alloc);
        let mut required = NameList::new(alloc);
        put_required(arguments, &mut all, &mut required)?;
        Ok(ArgumentNames { all, required })
    }
}

/// The names of the arguments of each field of a definition or extension, or of its directive; none where all are few.
pub(crate) fn names_in(
    alloc: Global,
    definition: &TypeSystemDefinition,
) -> Result<Vec<ArgumentNames>, NoMemory>
    ensures { IfOk result (λ names. AreNamesOfEach (argument_lists (type_system_view definition.now)) names.items) }
{
    match definition {
        TypeSystemDefinition::Schema(_) => Ok(Vec::new(alloc)),
        TypeSystemDefinition::Type(_) => names_of_fields(alloc, fields_of(definition)),
        TypeSystemDefinition::Directive(one) => names_of_directive(alloc, &one.arguments),
    }
}

fn names_of_fields(
    alloc: Global,
    fields: &[FieldDefinition],
) -> Result<Vec<ArgumentNames>, NoMemory>
    ensures { IfOk result (λ names. AreNamesOfEach (map (λ f. f.arguments) (map field_definition_view fields.now)) names.items) }
{
    let mut all = Vec::new(alloc);
    if !fields.iter().any(|field| field.arguments.len() > FEW) {
        return Ok(all);
    }
    for field in fields {
        let names = ArgumentNames::of(alloc, &field.arguments)?;
        all.push(names)?;
    }
    Ok(all)
}

fn names_of_directive(
    alloc: Global,
    arguments: &[InputValueDefinition],
) -> Result<Vec<ArgumentNames>, NoMemory>
    ensures { IfOk result (λ names. AreNamesOfEach (map input_view arguments.now ∷ []) names.items) }
{
    let mut all = Vec::new(alloc);
    if arguments.len() > FEW {
        let names = ArgumentNames::of(alloc, arguments)?;
        all.push(names)?;
    }
    Ok(all)
}
