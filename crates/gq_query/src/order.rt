//! Places in the order of documents and texts, each once.
ghost use Rattle.std.specs.Prelude.{◌≡◌, ◌↔◌, Contains, IfOk, map};
ghost use Rattle.std.specs.List.Sorted.{IsStrictlySortedBy};
ghost use Rattle.gq_query.specs.Order.{occurrence_cmp};
ghost use Rattle.gq_query.specs.Helping.Placed.{occurrence_view, place_view, place_cmp};

use gq_index::Occurrence;
use gq_text::{NoMemory, Span};
use std::alloc::Global;

/// Where a name token stands. Places are in the order of their documents, starts and ends.
#[derive(Clone, Copy, Debug, PartialEq, Eq, PartialOrd, Ord)]
struct Place {
    file: usize,
    span: Span,
}

/// The same places in order, each once.
pub(crate) fn in_order(alloc: Global, all: &[Occurrence]) -> Result<Vec<Occurrence>, NoMemory>
    ensures sorted { IfOk result (λ found. IsStrictlySortedBy occurrence_cmp found.items) }
    ensures same { IfOk result (λ found. (o : _) → Contains found.items o ↔ Contains all.now o) }
{
    let mut places = places_of(alloc, all)?;
    put_in_order(&mut places);
    let found = occurrences_of(alloc, &places)?;
    Ok(found)
}

/// Puts the places in order, each once.
fn put_in_order(places: &mut Vec<Place>)
    ensures sorted { IsStrictlySortedBy place_cmp places.new.items }
    ensures same { (place : _) → Contains places.new.items place ↔ Contains places.old.items place }
{
    places.sort_unstable();
    places.dedup();
}

fn places_of(alloc: Global, all: &[Occurrence]) -> Result<Vec<Place>, NoMemory>
    ensures { IfOk result (λ places. places.items ≡ map place_view all.now) }
{
    let mut places = Vec::new(alloc);
    for one in all {
        let Occurrence { file, span } = *one;
        places.push(Place { file, span })?;
    }
    Ok(places)
}

fn occurrences_of(alloc: Global, places: &[Place]) -> Result<Vec<Occurrence>, NoMemory>
    ensures { IfOk result (λ all. all.items ≡ map occurrence_view places.now) }
{
    let mut all = Vec::new(alloc);
    for place in places {
        let Place { file, span } = *place;
        all.push(Occurrence { file, span })?;
    }
    Ok(all)
}
