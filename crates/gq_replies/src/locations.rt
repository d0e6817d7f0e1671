//! Where something stands in a project, as locations (LSP 3.17, "Location").
ghost use Rattle.std.specs.Prelude.{◌≡◌, ◌<◌, ◌≤◌, ◌^◌, ◌++◌, length, map, take, All, IfOk, OnOk};
ghost use Rattle.gq_edit.specs.Workspace.{AreTexts};
ghost use Rattle.gq_replies.specs.Locations.{location_in, locations_of};
ghost use Rattle.gq_replies.specs.Helping.Rows.{first_file};

use crate::places::Places;
use gq_index::Occurrence;
use gq_project::Doc;
use gq_rpc::Location;
use gq_text::{Items, NoMemory, PositionEncoding, Span};
use std::alloc::Global;

/// Each occurrence in its own document, in order; one of no document is passed over. Of each row of occurrences in one
/// document the text is gone over once.
pub(crate) fn locations(
    alloc: Global,
    encoding: PositionEncoding,
    documents: &[Doc],
    occurrences: &[Occurrence],
) -> Result<Items<Location>, NoMemory>
    requires { AreTexts documents.now }
    ensures { IfOk result (λ locations. locations ≡ locations_of encoding documents.now occurrences.now) }
{
    let mut locations = Items::new(alloc);
    let mut rest = occurrences;
    'rows: while !rest.is_empty() {
        let file = rest[0].file;
        let (row, others) = rest.split_at(row_len(rest));
        put_row(alloc, encoding, documents, file, row, &mut locations)?;
        rest = others;
    }
    Ok(locations)
}

/// How many occurrences at the front are in the document of the first one.
fn row_len(occurrences: &[Occurrence]) -> usize
    requires { 0 < length occurrences.now }
    ensures some { 0 < result }
    ensures within { result ≤ length occurrences.now }
    ensures row { All (λ o. o.file ≡ first_file occurrences.now) (take result occurrences.now) }
{
    let file = occurrences[0].file;
    for (count, occurrence) in occurrences.iter().enumerate() {
        if occurrence.file != file {
            return count;
        }
    }
    occurrences.len()
}

/// Adds where the occurrences stand, all in the document of that number, if there is one.
fn put_row(
    alloc: Global,
    encoding: PositionEncoding,
    documents: &[Doc],
    file: usize,
    row: &[Occurrence],
    locations: &mut Items<Location>,
) -> Result<(), NoMemory>
    requires texts { AreTexts documents.now }
    requires row { All (λ o. o.file ≡ file) row.now }
    ensures { OnOk result (locations.new ≡ locations.old ++ locations_of encoding documents.now row.now) }
{
    match documents.get(file) {
        Some(document) => put_in_document(alloc, encoding, document, row, locations),
        None => Ok(()),
    }
}

/// Adds where the occurrences stand in the document.
fn put_in_document(
    alloc: Global,
    encoding: PositionEncoding,
    document: &Doc,
    occurrences: &[Occurrence],
    locations: &mut Items<Location>,
) -> Result<(), NoMemory>
    requires { length document.now.text ≤ 2 ^ 22 }
    ensures { OnOk result (locations.new ≡ locations.old ++ map (λ o. location_in encoding o document.now) occurrences.now) }
{
    let text = document.text.as_str();
    let spans: Vec<Span> = occurrences.iter().map(|one| one.span).collect(alloc)?;
    let places = Places::of(alloc, encoding, text, &spans)?;
    for occurrence in occurrences {
        locations.push(Location {
            uri: document.uri.copied(alloc)?,
            range: places.range(encoding, text, occurrence.span),
        })?;
    }
    Ok(())
}
