//! What an index keeps of each document, where it was made.
ghost use Rattle.std.specs.Prelude.{◌≡◌, ◌<◌, ◌≤◌, List, Some, IfOk, IfSome, OnOk, length, map, slice_get};
ghost use Rattle.gq_tree.specs.Readings.{ParsedOf, shared_view, readings_view};
ghost use Rattle.gq_index.specs.Parts.{parts_in};
ghost use Rattle.gq_index.specs.Views.{parts_shared};
ghost use Rattle.gq_kept.specs.Helping.Held.{AreHeld, ArePartsOf};

use crate::noted::Noted;
use gq_index::Parts;
use gq_text::NoMemory;
use gq_tree::Parsed;
use std::alloc::Global;
use std::sync::Arc;

/// What an index keeps of a document: what was made of it, or what is made now.
fn parts_of(
    alloc: Global,
    reading: &Arc<Parsed>,
    note: &mut Option<Arc<Parts>>,
) -> Result<Arc<Parts>, NoMemory>
    ensures kept { IfSome note.old (ArePartsOf (shared_view reading.now)) → IfSome note.new (ArePartsOf (shared_view reading.now)) }
    ensures parts { IfOk result (λ parts. IfSome note.old (ArePartsOf (shared_view reading.now)) → ArePartsOf (shared_view reading.now) parts) }
{
    if let Some(parts) = note {
        return Ok(Arc::try_clone(parts)?);
    }
    let made = Parts::shared_of(alloc, reading)?;
    let parts = Arc::try_clone(&made)?;
    *note = Some(made);
    Ok(parts)
}

/// That of the document of that number. Of the documents before it something is noted.
fn parts_at(
    alloc: Global,
    reading: &Arc<Parsed>,
    noted: &mut Noted<Arc<Parts>>,
    file: usize,
) -> Result<Arc<Parts>, NoMemory>
    requires { file ≤ length noted.old.notes.items }
    ensures kept { (rs : List ParsedOf) → slice_get rs file ≡ Some (shared_view reading.now) → AreHeld rs noted.old.notes.items → AreHeld rs noted.new.notes.items }
    ensures noted { OnOk result (file < length noted.new.notes.items) }
    ensures parts { IfOk result (λ parts. (rs : List ParsedOf) → slice_get rs file ≡ Some (shared_view reading.now) → AreHeld rs noted.old.notes.items
        → ArePartsOf (shared_view reading.now) parts) }
{
    noted.reach(file)?;
    parts_of(alloc, reading, &mut noted.notes[file])
}

/// What an index keeps of each of these documents. What was not made of one is made, and kept from then on.
pub(crate) fn all_parts(
    alloc: Global,
    readings: &[Arc<Parsed>],
    noted: &mut Noted<Arc<Parts>>,
) -> Result<Vec<Arc<Parts>>, NoMemory>
    ensures kept { AreHeld (readings_view readings.now) noted.old.notes.items → AreHeld (readings_view readings.now) noted.new.notes.items }
    ensures parts { IfOk result (λ all. AreHeld (readings_view readings.now) noted.old.notes.items → parts_shared all.items ≡ map parts_in (readings_view readings.now)) }
{
    let mut all = Vec::with_capacity(alloc, readings.len())?;
    for file in 0..readings.len() {
        let parts = parts_at(alloc, &readings[file], noted, file)?;
        all.push(parts)?;
    }
    Ok(all)
}
