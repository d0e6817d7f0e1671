//! The operations and fragments of all documents, by what is kept of them.
ghost use Rattle.std.specs.Prelude.{◌≡◌, ◌++◌, List, Some, IfOk, OnOk, map, slice_get};
ghost use Rattle.gq_index.specs.Helping.PlacedParts.{placed_view, placed, placed_from};
ghost use Rattle.gq_index.specs.Helping.Seats.{AreFound, parts_of_files};
ghost use Rattle.gq_index.specs.Helping.SpreadPlaces.{AreStanding};
ghost use Rattle.gq_index.specs.declared.parts.Parts.{Parts};
ghost use Rattle.gq_index.specs.Views.{parts_view, parts_kept};

use crate::files::File;
use crate::fragments::Fragments;
use crate::part::Part;
use crate::placed::Placed;
use crate::standing::put_from;
use gq_text::NoMemory;
use std::alloc::Global;

/// The parts of documents, and where the names of fragments stand in them.
#[derive(Drop)]
pub(crate) struct Gathered<'a> {
    pub(crate) parts: Vec<Placed<'a>>,
    pub(crate) fragments: Fragments,
    /// The places of the names in spreads among the names of fragments, one part after the other.
    pub(crate) spread_places: Vec<usize>,
}

/// The parts of these documents, in their order. A document is gone over while what is kept of it is at hand.
pub(crate) fn gather<'a>(alloc: Global, files: &[&'a File]) -> Result<Gathered<'a>, NoMemory>
    ensures parts { IfOk result (λ all. placed_view all.parts.items ≡ placed_from 0 (map (λ f. parts_kept f.now) files.now)) }
    ensures found { IfOk result (λ all. AreFound (parts_of_files files.now) all.parts.items) }
    ensures stand { IfOk result (λ all. AreStanding (placed_view all.parts.items) all.fragments all.spread_places.items) }
{
    let mut all = Vec::with_capacity(alloc, part_count(files))?;
    let mut fragments = Fragments::new(alloc);
    let mut spread_places = Vec::new(alloc);
    for (number, file) in files.iter().enumerate() {
        let first = all.len();
        put_parts(number, &file.parts.parts, &mut all)?;
        put_from(first, &all, &mut fragments, &mut spread_places)?;
    }
    Ok(Gathered {
        parts: all,
        fragments,
        spread_places,
    })
}

/// How many parts these files have together, as far as a number goes.
fn part_count(files: &[&File]) -> usize {
    let mut count = 0usize;
    for file in files {
        count = count.saturating_add(file.parts.parts.len());
    }
    count
}

fn put_parts<'a>(file: usize, parts: &'a [Part], all: &mut Vec<Placed<'a>>) -> Result<(), NoMemory>
    ensures parts { OnOk result (placed_view all.new.items ≡ placed_view all.old.items ++ placed file (parts_view parts.now)) }
    ensures found { OnOk result ((kept : List Parts) (one : Parts) → slice_get kept file ≡ Some one → one.parts.items ≡ parts.now
        → AreFound kept all.old.items → AreFound kept all.new.items) }
{
    for (offset, part) in parts.iter().enumerate() {
        all.push(Placed {
            file,
            offset,
            is_operation: part.is_operation,
            place: part.place,
            spreads: &part.spreads,
            part,
        })?;
    }
    Ok(())
}
