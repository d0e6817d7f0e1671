//! Where the names of fragments stand in all documents.
ghost use Rattle.std.specs.Prelude.{◌≡◌, length};

use crate::occurrence::Occurrence;
use gq_names::NameList;
use std::alloc::Global;

/// Where the name of a fragment stands, and which fragments have it.
#[derive(Drop)]
pub struct Named {
    pub(crate) definitions: Vec<Occurrence>,
    pub(crate) spreads: Vec<Occurrence>,
    /// Both, in the order of the texts.
    pub(crate) occurrences: Vec<Occurrence>,
    /// The numbers of the fragments of that name.
    pub(crate) numbers: Vec<usize>,
}

/// The names of fragments, and where each of them stands. A name has one place among them.
#[derive(Drop)]
pub struct Fragments {
    pub(crate) alloc: Global,
    pub(crate) names: NameList,
    pub(crate) named: Vec<Named>,
    ghost same_count: { length named.items ≡ length names },
}
