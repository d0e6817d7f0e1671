//! Definitions of what an earlier entry defines.
ghost use Rattle.std.specs.Prelude.{◌≡◌, ◌++◌, OnOk};
ghost use Rattle.gq_tree.specs.Views.{type_system_view};
ghost use Rattle.gq_type_system.specs.DefinedTwice.{definition_place};
ghost use Rattle.gq_type_system.specs.Helping.DefinedTwicePlaces.{is_before, is_defined_before, defined_twice};
ghost use Rattle.gq_types.specs.Entries.{entry_view};
ghost use Rattle.gq_types.specs.Look.{types_view};

use gq_fault::{Code, Fault};
use gq_text::{NoMemory, Span};
use gq_tree::TypeSystemDefinition;
use gq_types::{Entry, Types};

/// Whether there is a first definition and it stands before that number.
fn is_before(first: Option<usize>, number: usize) -> bool
    ensures { result ≡ is_before first number }
{
    match first {
        Some(first) => first < number,
        None => false,
    }
}

/// Whether an entry before that number defines what this definition defines.
fn is_defined_before(types: &Types, number: usize, definition: &TypeSystemDefinition) -> bool
    ensures { result ≡ is_defined_before (types_view types.now) number (type_system_view definition.now) }
{
    match definition {
        TypeSystemDefinition::Schema(one) => !one.extends && types.schema_number() < number,
        TypeSystemDefinition::Type(one) => {
            !one.extends && is_before(types.type_number(one.name.text.as_str()), number)
        }
        TypeSystemDefinition::Directive(one) => {
            is_before(types.directive_number(one.name.text.as_str()), number)
        }
    }
}

/// The place of what is defined: its name or, for a schema, the first token, which is the description or the keyword
/// `schema`.
pub fn definition_place(definition: &TypeSystemDefinition) -> Span
    ensures { result ≡ definition_place (type_system_view definition.now) }
{
    match definition {
        TypeSystemDefinition::Schema(one) => match &one.description {
            Some(description) => description.span,
            None => Span {
                start: one.span.start,
                end: one.span.start.saturating_add(6).min(one.span.end),
            },
        },
        TypeSystemDefinition::Type(one) => one.name.span,
        TypeSystemDefinition::Directive(one) => one.name.span,
    }
}

/// The fault of the entry with that number, if an earlier entry defines the same (section 3.3).
pub(crate) fn add_if_defined_twice(
    types: &Types,
    number: usize,
    entry: &Entry,
    faults: &mut Vec<Fault>,
) -> Result<(), NoMemory>
    ensures { OnOk result (faults.new.items ≡ faults.old.items ++ defined_twice (types_view types.now) number (entry_view entry.now)) }
{
    if is_defined_before(types, number, &entry.definition) {
        let place = definition_place(&entry.definition);
        faults.push(Fault {
            file: entry.file,
            start: place.start,
            code: Code::DefinedTwice,
            end: place.end,
        })?;
    }
    Ok(())
}
