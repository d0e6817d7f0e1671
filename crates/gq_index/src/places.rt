//! Names by their text, with the places where they stand.
ghost use Rattle.std.specs.Prelude.{◌≡◌, IfOk};
ghost use Rattle.gq_names.specs.UnderNames.{items_under};
ghost use Rattle.gq_types.specs.Entries.{Text};
ghost use Rattle.gq_index.specs.Helping.PlacedParts.{placed_view, places_at};
ghost use Rattle.gq_index.specs.Occurrences.{places_called};
ghost use Rattle.gq_index.specs.Views.{names_view};

use crate::occurrence::Occurrence;
use crate::placed::Placed;
use gq_names::ByName;
use gq_text::{NoMemory, Span};
use gq_tree::Name;
use std::alloc::Global;

/// The places of these names, by their texts.
pub(crate) fn places_of(alloc: Global, names: &[Name]) -> Result<ByName<Span>, NoMemory>
    ensures { IfOk result (λ places. (text : Text) → items_under places text ≡ places_called text (names_view names.now)) }
{
    let mut places = ByName::new(alloc);
    for name in names {
        places.put(name.text.as_str(), name.span)?;
    }
    Ok(places)
}

/// Where each definition stands.
pub(crate) fn definition_places(
    alloc: Global,
    parts: &[Placed<'_>],
) -> Result<Vec<Occurrence>, NoMemory>
    ensures { IfOk result (λ all. all.items ≡ places_at (placed_view parts.now)) }
{
    let mut all = Vec::with_capacity(alloc, parts.len())?;
    for one in parts {
        all.push(Occurrence {
            file: one.file,
            span: one.place,
        })?;
    }
    Ok(all)
}
