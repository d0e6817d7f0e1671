//! What a document is read as.
ghost use Rattle.std.specs.Prelude.{◌≡◌, IfOk};
ghost use Rattle.gq_tree.specs.Readings.{parsed_view, shared_view, readings_view, unshared_view};

use crate::tree::Document;
use gq_text::NoMemory;
use std::alloc::Global;
use std::sync::Arc;

/// The tree of a text, or why it has none. Places are offsets in bytes.
#[derive(Drop)]
pub enum Parsed {
    Tree(Document),
    /// The text is no document, and this is the first place at which that shows.
    Syntax { place: usize },
    /// The text has too many tokens or nests too deep here.
    Limit { place: usize },
}

/// The reading, which may have several owners then. They have one tree.
pub fn share(alloc: Global, reading: Parsed) -> Result<Arc<Parsed>, NoMemory>
    ensures { IfOk result (λ shared. shared_view shared ≡ parsed_view reading) }
{
    Ok(Arc::new(alloc, reading)?)
}

/// The readings, each of which may have several owners then.
pub fn share_all(alloc: Global, readings: Vec<Parsed>) -> Result<Vec<Arc<Parsed>>, NoMemory>
    ensures { IfOk result (λ shared. readings_view shared.items ≡ unshared_view readings.items) }
{
    let mut shared = Vec::with_capacity(alloc, readings.len())?;
    for reading in readings {
        shared.push(share(alloc, reading)?)?;
    }
    Ok(shared)
}
