//! The index of a project.
ghost use Rattle.std.specs.Arc.{arc_value};
ghost use Rattle.std.specs.Prelude.{◌≡◌, ◌++◌, IfOk, List, OnOk, map};
ghost use Rattle.gq_parse.specs.Parsed.{AreParsed};
ghost use Rattle.gq_tree.specs.Readings.{ParsedOf, readings_view};
ghost use Rattle.gq_index.specs.Helping.Made.{AreTablesFor};
ghost use Rattle.gq_index.specs.Helping.PlacedParts.{placed_view, parts_at};
ghost use Rattle.gq_index.specs.Helping.Seats.{AreFound, parts_of_files, seat_of};
ghost use Rattle.gq_index.specs.Helping.SpreadPlaces.{AreStanding};
ghost use Rattle.gq_index.specs.Indexed.{AreTablesOf, IsIndexOfProject};
ghost use Rattle.gq_index.specs.Occurrences.{DefinitionOf};
ghost use Rattle.gq_index.specs.Parts.{parts_in};
ghost use Rattle.gq_index.specs.Views.{parts_shared};

use crate::files::{File, Files};
use crate::index::{Index, Seat, Tables};
use crate::parts::{Parts, all_kept};
use crate::placed::Placed;
use crate::places::definition_places;
use crate::placing::{Gathered, gather};
use crate::spreads::{are_operations, spread_rows};
use gq_graph::transposed::transposed;
use gq_parse::read_shared;
use gq_project::{Doc, Project};
use gq_text::NoMemory;
use gq_tree::Parsed;
use std::alloc::Global;
use std::sync::Arc;

/// What is kept of each of these files.
fn kept_of(alloc: Global, files: &[&File]) -> Result<Vec<Arc<Parts>>, NoMemory>
    ensures { IfOk result (λ kept. map arc_value kept.items ≡ parts_of_files files.now) }
{
    let mut kept = Vec::with_capacity(alloc, files.len())?;
    for file in files {
        kept.push(Arc::try_clone(&file.parts)?)?;
    }
    Ok(kept)
}

/// Where each part is kept.
fn seats_of(alloc: Global, parts: &[Placed<'_>]) -> Result<Vec<Seat>, NoMemory>
    ensures { IfOk result (λ seats. seats.items ≡ map seat_of parts.now) }
{
    let mut seats = Vec::with_capacity(alloc, parts.len())?;
    for one in parts {
        seats.push(Seat {
            file: one.file,
            offset: one.offset,
        })?;
    }
    Ok(seats)
}

/// The tables that are made of the parts of these files.
#[tactic(auto, using(gq_graph::proofs::Turning::turned_in_range))]
fn made_of(alloc: Global, files: &[&File], gathered: Gathered<'_>) -> Result<Tables, NoMemory>
    requires found { AreFound (parts_of_files files.now) gathered.parts.items }
    requires stand { AreStanding (placed_view gathered.parts.items) gathered.fragments gathered.spread_places.items }
    ensures { IfOk result (λ tables. (ds : List DefinitionOf) → placed_view gathered.entry.parts.items ≡ parts_at ds → AreTablesOf ds tables) }
{
    let Gathered {
        parts,
        fragments,
        spread_places,
    } = gathered;
    let spread_in = spread_rows(alloc, &parts, &spread_places, &fragments)?;
    let spreading = transposed(alloc, &spread_in)?;
    Ok(Tables {
        fragments,
        places: definition_places(alloc, &parts)?,
        kept: kept_of(alloc, files)?,
        seats: seats_of(alloc, &parts)?,
        spread_in,
        spreading,
        operations: are_operations(alloc, &parts)?,
    })
}

/// Lends each of these files.
fn lend<'a>(files: &'a [File], lent: &mut Vec<&'a File>) -> Result<(), NoMemory>
    ensures { OnOk result (map (λ f. f.now) lent.new.items ≡ map (λ f. f.now) lent.old.items ++ files.now) }
{
    for file in files {
        lent.push(file)?;
    }
    Ok(())
}

/// The tables of documents of which these files are kept, the ones behind the others.
pub(crate) fn tables_of<'a>(
    alloc: Global,
    front: &'a [File],
    between: &'a [&'a File],
    back: &'a [File],
) -> Result<Tables, NoMemory>
    ensures { IfOk result (AreTablesFor (front.now ++ map (λ f. f.now) between.now ++ back.now)) }
{
    let mut files = Vec::new(alloc);
    lend(front, &mut files)?;
    files.extend_from_slice(between)?;
    lend(back, &mut files)?;
    let all = gather(alloc, &files)?;
    let tables = made_of(alloc, &files, all)?;
    Ok(tables)
}

impl Index {
    /// The index of a project's documents. One without a tree has no definition.
    pub fn of(alloc: Global, project: &Project) -> Result<Index, NoMemory>
        ensures { IfOk result (λ index. IsIndexOfProject project.now index) }
    {
        let documents = project.documents();
        let readings = read_shared(alloc, documents)?;
        let index = Index::of_readings(alloc, documents, &readings)?;
        Ok(index)
    }

    /// The index of documents that are read so.
    pub fn of_readings(
        alloc: Global,
        documents: &[Doc],
        readings: &[Arc<Parsed>],
    ) -> Result<Index, NoMemory>
        ensures { IfOk result (λ index. AreParsed documents.now (readings_view readings.now) → IsIndexOfProject documents.now index) }
    {
        let parts = all_kept(alloc, readings)?;
        let index = Index::of_parts(alloc, documents, &parts)?;
        Ok(index)
    }

    /// The index of documents of which this is kept, one for each. No tree is gone over.
    pub fn of_parts(
        alloc: Global,
        documents: &[Doc],
        parts: &[Arc<Parts>],
    ) -> Result<Index, NoMemory>
        ensures { IfOk result (λ index. (readings : List ParsedOf) → AreParsed documents.now readings → parts_shared parts.now ≡ map parts_in readings
            → IsIndexOfProject documents.now index) }
    {
        let files = Files::of(alloc, documents, parts)?;
        let tables = tables_of(alloc, files.as_slice(), &[], &[])?;
        Ok(Index { tables, files })
    }
}
