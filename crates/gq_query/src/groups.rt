//! Where a variable stands in definitions of a project, by its index.
ghost use Rattle.std.specs.Prelude.{◌≡◌, ◌++◌, List, OnOk};
ghost use Rattle.gq_index.specs.Indexed.{IsIndexOf};
ghost use Rattle.gq_index.specs.Occurrences.{DefinitionOf, occurrences_in_file};
ghost use Rattle.gq_query.specs.Helping.Gathered.{if_wanted, wanted_at, wanted_among};

use crate::wanted::Wanted;
use gq_index::{Index, Occurrence, put_spans};
use gq_text::{NoMemory, Span};

/// Puts the wanted places of the variable in the definitions of these numbers behind the others.
pub(crate) fn put_wanted(
    index: &Index,
    numbers: &[usize],
    name: &str,
    wanted: Wanted,
    all: &mut Vec<Occurrence>,
) -> Result<(), NoMemory>
    ensures { OnOk result ((ds : List DefinitionOf) → IsIndexOf ds index.now
        → all.new.items ≡ all.old.items ++ wanted_among ds name.now wanted.uses wanted.declarations numbers.now) }
{
    for number in numbers {
        put_wanted_at(index, *number, name, wanted, all)?;
    }
    Ok(())
}

fn put_wanted_at(
    index: &Index,
    number: usize,
    name: &str,
    wanted: Wanted,
    all: &mut Vec<Occurrence>,
) -> Result<(), NoMemory>
    ensures { OnOk result ((ds : List DefinitionOf) → IsIndexOf ds index.now
        → all.new.items ≡ all.old.items ++ wanted_at ds name.now wanted.uses wanted.declarations number) }
{
    match index.places().get(number) {
        Some(place) => {
            let uses = index.variable_uses(number, name);
            put_spans_if(wanted.uses, place.file, uses, all)?;
            let definitions = index.variable_definitions(number, name);
            put_spans_if(wanted.declarations, place.file, definitions, all)
        }
        None => Ok(()),
    }
}

/// Puts these places of a document behind the others if they are wanted.
fn put_spans_if(
    wanted: bool,
    file: usize,
    spans: &[Span],
    all: &mut Vec<Occurrence>,
) -> Result<(), NoMemory>
    ensures { OnOk result (all.new.items ≡ all.old.items ++ if_wanted wanted (occurrences_in_file file spans.now)) }
{
    if wanted {
        put_spans(file, spans, all)
    } else {
        Ok(())
    }
}
