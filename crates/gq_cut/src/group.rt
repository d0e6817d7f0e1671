//! Where a variable stands in the definitions of a group.
ghost use Rattle.std.specs.Prelude.{◌≡◌, ◌++◌, [], List, IfOk, OnOk, slice_get};
ghost use Rattle.std.specs.Option.{option_map_or};
ghost use Rattle.gq_index.specs.Indexed.{IsIndexOf};
ghost use Rattle.gq_index.specs.Occurrences.{DefinitionOf};
ghost use Rattle.gq_cut.specs.Helping.Runs.{variable_occurrences, group_occurrences};

use gq_index::{Index, Occurrence, put_spans};
use gq_text::NoMemory;
use std::alloc::Global;

/// Puts the places of the variable in the definition of that number behind the others.
fn put_variable(
    index: &Index,
    number: usize,
    name: &str,
    places: &mut Vec<Occurrence>,
) -> Result<(), NoMemory>
    ensures { OnOk result ((ds : List DefinitionOf) → IsIndexOf ds index.now →
        places.new.items ≡ places.old.items ++ option_map_or (λ d. variable_occurrences d name.now) (slice_get ds number) []) }
{
    let definitions = index.places();
    if number < definitions.len() {
        let file = definitions[number].file;
        put_spans(file, index.variable_definitions(number, name), places)?;
        put_spans(file, index.variable_uses(number, name), places)?;
    }
    Ok(())
}

/// The places of the variable of that name in the definitions of these numbers.
pub(crate) fn group_places(
    alloc: Global,
    index: &Index,
    group: &[usize],
    name: &str,
) -> Result<Vec<Occurrence>, NoMemory>
    ensures { IfOk result (λ places. (ds : List DefinitionOf) → IsIndexOf ds index.now → places.items ≡ group_occurrences ds group.now name.now) }
{
    let mut places = Vec::new(alloc);
    for number in group {
        put_variable(index, *number, name, &mut places)?;
    }
    Ok(places)
}
