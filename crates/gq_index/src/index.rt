//! What is kept of where fragments and variables stand in a project.
ghost use Rattle.std.specs.Prelude.{◌≡◌, length};
ghost use Rattle.gq_graph.specs.Reach.{InRange};

use crate::files::Files;
use crate::fragments::Fragments;
use crate::occurrence::Occurrence;
use crate::parts::Parts;
use gq_names::ByName;
use gq_text::Span;
use std::sync::Arc;

/// The places of the variables of one definition, by their names.
#[derive(Drop)]
pub struct Variables {
    pub(crate) uses: ByName<Span>,
    pub(crate) definitions: ByName<Span>,
}

/// Where a definition is kept: the number of its document, and its number in what is kept of that, each from 0.
#[derive(Clone, Copy)]
pub struct Seat {
    pub(crate) file: usize,
    pub(crate) offset: usize,
}

/// Where fragments and variables stand in all documents.
///
/// An operation or fragment has a number: its place among all of them, in the order of documents and places, from 0.
#[derive(Drop)]
pub struct Tables {
    pub(crate) fragments: Fragments,
    /// Where each definition stands.
    pub(crate) places: Vec<Occurrence>,
    /// What is kept of each document, the variables of its definitions with it.
    pub(crate) kept: Vec<Arc<Parts>>,
    /// Where each definition is kept there.
    pub(crate) seats: Vec<Seat>,
    /// For each definition, the fragments that it spreads.
    pub(crate) spread_in: Vec<Vec<usize>>,
    /// For each definition, those that spread it.
    pub(crate) spreading: Vec<Vec<usize>>,
    /// Whether each definition is an operation.
    pub(crate) operations: Vec<bool>,
    ghost spread_in_range: { InRange spread_in.items },
    ghost spreading_in_range: { InRange spreading.items },
    ghost same_count: { length spreading.items ≡ length spread_in.items },
}

/// Where fragments and variables stand in a project.
pub struct Index {
    pub(crate) tables: Tables,
    /// What the tables are made of, document by document.
    pub(crate) files: Files,
}

impl Drop for Index {
    fn drop(self) {
        let Index {
            tables: _tables,
            files: _files,
        } = self;
    }
}
