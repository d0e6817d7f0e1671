//! Arguments and input fields that must be given (GraphQL, October 2021, sections 3.6.1 and 3.10).
ghost use Rattle.std.specs.Prelude.{◌≡◌, ◌++◌, [], IfOk, OnOk, map, not};
ghost use Rattle.std.specs.List.{list_any};
ghost use Rattle.std.specs.Str.{bytes_eq};
ghost use Rattle.gq_tree.specs.Views.{input_view};
ghost use Rattle.gq_types.specs.Arguments.{argument_texts};
ghost use Rattle.gq_types.specs.Entries.{entries_view};
ghost use Rattle.gq_types.specs.Joined.{inputs_in_body};
ghost use Rattle.gq_types.specs.LookUps.{parts_of_entry};
ghost use Rattle.gq_types.specs.Required.{is_required};
ghost use Rattle.gq_types.specs.Helping.RequiredNames.{required_after, inputs_among};

use crate::entry::Entry;
use crate::places::inputs_in;
use gq_names::NameList;
use gq_text::NoMemory;
use gq_tree::InputValueDefinition;
use std::alloc::Global;

/// Whether the argument or input field must be given: its type has no null, and it has no default (sections 3.6.1 and 3.10).
pub fn is_required(input: &InputValueDefinition) -> bool
    ensures { result ≡ is_required (input_view input.now) }
{
    input.type_ref.is_non_null() && input.default.is_none()
}

/// Puts the names of these behind others, and the names of those that are required. Of doubles the first is meant.
pub(crate) fn put_required(
    inputs: &[InputValueDefinition],
    names: &mut NameList,
    required: &mut NameList,
) -> Result<(), NoMemory>
    ensures names { OnOk result (names.new ≡ names.old ++ argument_texts (map input_view inputs.now)) }
    ensures required { OnOk result (required.new ≡ required.old ++ required_after names.old (map input_view inputs.now)) }
{
    for input in inputs {
        let name = input.name.text.as_str();
        if names.push(name)? && is_required(input) {
            let _ = required.push(name)?;
        }
    }
    Ok(())
}

/// Whether one of the names is not among those that are given.
pub(crate) fn is_any_lacking(names: &NameList, given: &NameList) -> bool
    ensures { result ≡ list_any (λ text. not (list_any (bytes_eq text) given.now)) names.now }
{
    for place in 0..names.len() {
        if !given.contains(names.get(place)) {
            return true;
        }
    }
    false
}

/// The names of the required input fields of the entries with these numbers.
pub(crate) fn required_among(
    alloc: Global,
    entries: &[Entry],
    numbers: &[usize],
) -> Result<NameList, NoMemory>
    ensures { IfOk result (λ required. required ≡ required_after [] (inputs_among (entries_view entries.now) numbers.now)) }
{
    let mut names = NameList::new(alloc);
    let mut required = NameList::new(alloc);
    for number in numbers {
        put_required(inputs_at(entries, *number), &mut names, &mut required)?;
    }
    Ok(required)
}

/// The input fields of the entry with that number; none where it is no input object.
fn inputs_at(entries: &[Entry], number: usize) -> &[InputValueDefinition]
    ensures { map input_view result.now ≡ parts_of_entry inputs_in_body (entries_view entries.now) number }
{
    match entries.get(number) {
        Some(entry) => inputs_in(entry),
        None => &[],
    }
}
