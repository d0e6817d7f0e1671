//! What is told of a type system beside the one that was.
ghost use Rattle.std.specs.Prelude.{◌≡◌, true, List, IfOk, IfSome};
ghost use Rattle.gq_tree.specs.Readings.{readings_view};
ghost use Rattle.gq_types.specs.Entries.{EntryOf, entries_view};
ghost use Rattle.gq_types.specs.Look.{types_view};
ghost use Rattle.gq_types.specs.Outlines.{DiffersAt};
ghost use Rattle.gq_schema.specs.SchemaOf.{HasNoFault};
ghost use Rattle.gq_kept.specs.Helping.Compared.{DiffersFrom};
ghost use Rattle.gq_kept.specs.Helping.Selected.{AreSelected};
ghost use Rattle.gq_kept.specs.Helping.TypesOf.{Tells};
ghost use Rattle.gq_kept.specs.Helping.Unseen.{AreMarkedBy};

use crate::differing::{Differing, compare_types};
use crate::field_lists::FieldLists;
use gq_laws::places::other_objects_keep_types;
use gq_text::NoMemory;
use gq_tree::Parsed;
use gq_type_system::{are_faultless, schema_faults};
use gq_types::{Entry, Types};
use std::alloc::Global;
use std::sync::Arc;

/// What is told of definitions and extensions beside those that were, where they differ in fields alone.
#[derive(Drop)]
pub(crate) struct Beside {
    /// A mark at each document in which a field is selected in which they differ.
    pub(crate) marks: Vec<bool>,
    /// The numbers of the definitions that differ in more than places and documents, in ascending order, as long as all are definitions of object types.
    numbers: Vec<usize>,
    are_objects: bool,
}

impl Beside {
    /// The number of the definition that differs, where it is the only one, of an object type.
    pub(crate) fn only(&self) -> Option<usize>
        ensures { IfSome result (λ number. (es us : List EntryOf) → DiffersFrom es us self.now → DiffersAt number es us) }
    {
        if self.are_objects && self.numbers.len() == 1 {
            Some(self.numbers[0])
        } else {
            None
        }
    }
}

/// What is told of these definitions and extensions beside others, over documents that are read so: nothing, where they may differ in more than fields.
pub(crate) fn told_beside(
    alloc: Global,
    was: &[Entry],
    entries: &[Entry],
    readings: &[Arc<Parsed>],
    fields: &mut FieldLists,
) -> Result<Option<Beside>, NoMemory>
    ensures kept { AreSelected (readings_view readings.now) fields.old.lists.items → AreSelected (readings_view readings.now) fields.new.lists.items }
    ensures differ { IfOk result (λ told. IfSome told (DiffersFrom (entries_view was.now) (entries_view entries.now))) }
    ensures marks { IfOk result (λ told. IfSome told (λ some. AreSelected (readings_view readings.now) fields.old.lists.items
        → AreMarkedBy (entries_view was.now) (entries_view entries.now) (readings_view readings.now) some.marks.items)) }
{
    let Some(found) = compare_types(alloc, was, entries)? else {
        return Ok(None);
    };
    let marks = fields.marks(alloc, readings, &found.names)?;
    let Differing {
        names: _names,
        numbers,
        are_objects,
    } = found;
    Ok(Some(Beside {
        marks,
        numbers,
        are_objects,
    }))
}

/// Whether no rule of a type system is broken.
pub(crate) fn holds(alloc: Global, types: &Types) -> Result<bool, NoMemory>
    ensures { IfOk result (λ holds. Tells holds (types_view types.now)) }
{
    Ok(schema_faults(alloc, types)?.is_empty())
}

/// Whether a type system breaks no rule where another one breaks none, since it differs from it in fields of object types alone and breaks none at these; it may
/// where this answers false.
fn keeps_rules(alloc: Global, types: &Types, beside: &Beside) -> Result<bool, NoMemory>
    ensures { IfOk result (λ keeps. keeps ≡ true → (es : List EntryOf) → DiffersFrom es (types_view types.now) beside.now → HasNoFault es → HasNoFault (types_view types.now)) }
{
    other_objects_keep_types();
    if !beside.are_objects {
        return Ok(false);
    }
    are_faultless(alloc, types, &beside.numbers)
}

/// Whether no rule of a type system is broken, which differs so from one of which `held` tells it.
pub(crate) fn holds_beside(
    alloc: Global,
    held: bool,
    types: &Types,
    beside: &Beside,
) -> Result<bool, NoMemory>
    ensures { IfOk result (λ holds. (es : List EntryOf) → DiffersFrom es (types_view types.now) beside.now → (held ≡ true → HasNoFault es) → Tells holds (types_view types.now)) }
{
    if held && keeps_rules(alloc, types, beside)? {
        return Ok(true);
    }
    holds(alloc, types)
}
