//! The type system of documents, made anew where one of them changes.
ghost use Rattle.std.specs.Prelude.{◌≡◌, ◌<◌, ◌≤◌, ◌++◌, [], ◌∷◌, true, false, All, None, IfOk, IfSome, OnOk, OnErr, drop, length, map, remove, slice_index_or, slice_set, take};
ghost use Rattle.std.specs.Option.{unwrap_or};
ghost use Rattle.std.specs.List.{insert};
ghost use Rattle.gq_tree.specs.Readings.{shared_view, readings_view};
ghost use Rattle.gq_types.specs.BuiltIn.{built_in};
ghost use Rattle.gq_types.specs.Entries.{entries_view};
ghost use Rattle.gq_types.specs.Look.{types_view};
ghost use Rattle.gq_types.specs.Outlines.{DiffersAt};
ghost use Rattle.gq_document.specs.Definitions.{entries_of};
ghost use Rattle.gq_schema.specs.SchemaOf.{HasNoFault};
ghost use Rattle.gq_kept.specs.Helping.TypesOf.{AreTypesOf, Tells, TellsOf, IsSameOf, IsOneTypeSystem, types_defined};
ghost use Rattle.gq_kept.specs.Helping.Compared.{DiffersFrom};
ghost use Rattle.gq_kept.specs.Helping.Selected.{AreSelected};
ghost use Rattle.gq_kept.specs.Helping.Unseen.{AreMarkedBy};
ghost use Rattle.gq_kept.specs.declared.typed.Typed.{Typed};

use crate::beside::{Beside, holds, holds_beside, told_beside};
use crate::field_lists::FieldLists;
use gq_document::type_system_entries;
use gq_known::learned::{defines_types, type_system};
use gq_laws::places::documents_of_types_do_not_matter_to_types;
use gq_text::NoMemory;
use gq_tree::Parsed;
use gq_types::{Entry, Replacement, Types, with_built_in};
use std::alloc::Global;
use std::mem;
use std::sync::Arc;

/// A type system, and whether no rule of it is broken.
#[derive(Drop)]
pub(crate) struct Typed {
    pub(crate) types: Types,
    pub(crate) has_schema: bool,
}

/// What a type system was before a change, which takes a while to drop: all of it, its definitions and extensions, or these and what was kept of fields.
#[derive(Drop)]
pub(crate) enum Was {
    Typed(Typed),
    Entries(Vec<Entry>),
    Replaced(Replacement),
}

/// The type system of documents that are read so.
pub(crate) fn made_of(alloc: Global, readings: &[Arc<Parsed>]) -> Result<Typed, NoMemory>
    ensures { IfOk result (AreTypesOf (readings_view readings.now)) }
{
    let types = type_system(alloc, readings)?;
    let has_schema = holds(alloc, &types)?;
    Ok(Typed { types, has_schema })
}

/// The same, where it is known whether a rule of it is broken.
fn made_as(alloc: Global, readings: &[Arc<Parsed>], has_schema: bool) -> Result<Typed, NoMemory>
    ensures types { IfOk result (λ made. types_view made.types ≡ built_in ++ entries_of (readings_view readings.now)) }
    ensures flag { IfOk result (λ made. made.has_schema ≡ has_schema) }
{
    let types = type_system(alloc, readings)?;
    Ok(Typed { types, has_schema })
}

/// Whether a document that is read so has a definition or an extension of the type system.
pub(crate) fn has_types(reading: &Arc<Parsed>) -> bool
    ensures { result ≡ false → types_defined (shared_view reading.now) ≡ [] }
{
    defines_types(reading)
}

/// Whether the document at that place, or the one that it is replaced by, defines types.
pub(crate) fn is_retyped(readings: &[Arc<Parsed>], at: usize, reading: &Arc<Parsed>) -> bool
    requires { at < length readings.now }
    ensures types { result ≡ false → (typed : Typed) → AreTypesOf (readings_view readings.now) typed → AreTypesOf (slice_set (readings_view readings.now) at (shared_view reading.now)) typed }
    ensures stays { result ≡ false → IsOneTypeSystem (readings_view readings.now) (slice_set (readings_view readings.now) at (shared_view reading.now)) }
{
    has_types(reading) || has_types(&readings[at])
}

/// Whether the type system is that of before but for places, though it is made of other trees.
pub(crate) fn keeps_names(is_made: bool, changes: bool) -> bool
    ensures { result ≡ true → (is_made ≡ true) × (changes ≡ false) }
{
    is_made && !changes
}

/// What a type system was where it was made anew or exchanged, and the marks of documents that see where it differs, where these are known.
#[derive(Drop)]
pub(crate) struct Retyped {
    pub(crate) was: Option<Was>,
    pub(crate) marks: Option<Vec<bool>>,
}

impl Retyped {
    /// It was this, and no document is marked.
    fn unmarked(was: Option<Was>) -> Retyped
        ensures { result.marks ≡ None }
    {
        Retyped { was, marks: None }
    }
}

/// Makes the type system that of documents of which the one at that place is replaced by one that reads so, and
/// answers what it was. Where neither of the two defines types, it stays as it is, and nothing is answered. Where it is the same but for places,
/// no name and no rule is looked at.
pub(crate) fn retype(
    alloc: Global,
    readings: &[Arc<Parsed>],
    at: usize,
    reading: &Arc<Parsed>,
    keeps_names: bool,
    typed: &mut Typed,
    fields: &mut FieldLists,
) -> Result<Retyped, NoMemory>
    requires at { at < length readings.now }
    requires names { keeps_names ≡ true → ∥ IsSameOf typed.old (slice_set (readings_view readings.now) at (shared_view reading.now)) ∥₁ }
    ensures ok { IfOk result (λ made. (keeps_names ≡ true → TellsOf typed.old.has_schema (slice_set (readings_view readings.now) at (shared_view reading.now))) →
        AreTypesOf (readings_view readings.now) typed.old → AreTypesOf (slice_set (readings_view readings.now) at (shared_view reading.now)) typed.new) }
    ensures marks { IfOk result (λ made. IfSome made.marks (λ some. AreSelected (readings_view readings.now) fields.old.lists.items
        → AreMarkedBy (types_view typed.old.types) (types_view typed.new.types) (readings_view readings.now) some.items)) }
    ensures kept { AreSelected (readings_view readings.now) fields.old.lists.items → AreSelected (readings_view readings.now) fields.new.lists.items }
    ensures err { OnErr result (typed.new ≡ typed.old) }
{
    if !is_retyped(readings, at, reading) {
        return Ok(Retyped::unmarked(None));
    }
    let all = readings_around(alloc, readings, at, reading, at + 1)?;
    if keeps_names {
        let was = replace_entries(alloc, &all, typed)?;
        return Ok(Retyped::unmarked(Some(Was::Entries(was))));
    }
    let entries = with_built_in(alloc, type_system_entries(alloc, &all)?)?;
    retype_by(alloc, readings, entries, typed, fields)
}

/// Makes the type system that of these definitions and extensions, those that are built in among them, and answers what it was. The documents are read so.
fn retype_by(
    alloc: Global,
    readings: &[Arc<Parsed>],
    entries: Vec<Entry>,
    typed: &mut Typed,
    fields: &mut FieldLists,
) -> Result<Retyped, NoMemory>
    ensures types { OnOk result (types_view typed.new.types ≡ entries_view entries.items) }
    ensures tells { IfOk result (λ made. (typed.old.has_schema ≡ true → HasNoFault (types_view typed.old.types)) → Tells typed.new.has_schema (entries_view entries.items)) }
    ensures marks { IfOk result (λ made. IfSome made.marks (λ some. AreSelected (readings_view readings.now) fields.old.lists.items
        → AreMarkedBy (types_view typed.old.types) (types_view typed.new.types) (readings_view readings.now) some.items)) }
    ensures kept { AreSelected (readings_view readings.now) fields.old.lists.items → AreSelected (readings_view readings.now) fields.new.lists.items }
    ensures err { OnErr result (typed.new ≡ typed.old) }
{
    let Some(beside) = told_beside(alloc, typed.types.entries(), &entries, readings, fields)? else {
        let was = make(alloc, entries, typed)?;
        return Ok(Retyped::unmarked(Some(was)));
    };
    let was = retype_beside(alloc, entries, &beside, typed)?;
    let Beside { marks, .. } = beside;
    Ok(Retyped {
        was: Some(was),
        marks: Some(marks),
    })
}

/// The same, where this is told of them beside those of the type system.
fn retype_beside(
    alloc: Global,
    entries: Vec<Entry>,
    beside: &Beside,
    typed: &mut Typed,
) -> Result<Was, NoMemory>
    requires { ∥ DiffersFrom (types_view typed.old.types) (entries_view entries.items) beside.now ∥₁ }
    ensures types { OnOk result (types_view typed.new.types ≡ entries_view entries.items) }
    ensures tells { IfOk result (λ was. (typed.old.has_schema ≡ true → HasNoFault (types_view typed.old.types)) → Tells typed.new.has_schema (entries_view entries.items)) }
    ensures err { OnErr result (typed.new ≡ typed.old) }
{
    match beside.only() {
        Some(number) => exchange(alloc, entries, number, beside, typed),
        None => make_beside(alloc, entries, beside, typed),
    }
}

/// Makes it anew of these, and answers what it was.
fn make(alloc: Global, entries: Vec<Entry>, typed: &mut Typed) -> Result<Was, NoMemory>
    ensures types { OnOk result (types_view typed.new.types ≡ entries_view entries.items) }
    ensures tells { OnOk result (Tells typed.new.has_schema (entries_view entries.items)) }
    ensures err { OnErr result (typed.new ≡ typed.old) }
{
    let types = Types::of_entries(alloc, entries)?;
    let has_schema = holds(alloc, &types)?;
    let made = Typed { types, has_schema };
    Ok(Was::Typed(mem::replace(typed, made)))
}

/// The same, where this is told of them.
fn make_beside(
    alloc: Global,
    entries: Vec<Entry>,
    beside: &Beside,
    typed: &mut Typed,
) -> Result<Was, NoMemory>
    requires { ∥ DiffersFrom (types_view typed.old.types) (entries_view entries.items) beside.now ∥₁ }
    ensures types { OnOk result (types_view typed.new.types ≡ entries_view entries.items) }
    ensures tells { IfOk result (λ was. (typed.old.has_schema ≡ true → HasNoFault (types_view typed.old.types)) → Tells typed.new.has_schema (entries_view entries.items)) }
    ensures err { OnErr result (typed.new ≡ typed.old) }
{
    let types = Types::of_entries(alloc, entries)?;
    let has_schema = holds_beside(alloc, typed.has_schema, &types, beside)?;
    let made = Typed { types, has_schema };
    Ok(Was::Typed(mem::replace(typed, made)))
}

/// Exchanges its definitions and extensions for these, where the one of that number alone differs, and answers what they were.
fn exchange(
    alloc: Global,
    entries: Vec<Entry>,
    number: usize,
    beside: &Beside,
    typed: &mut Typed,
) -> Result<Was, NoMemory>
    requires at { ∥ DiffersAt number (types_view typed.old.types) (entries_view entries.items) ∥₁ }
    requires beside { ∥ DiffersFrom (types_view typed.old.types) (entries_view entries.items) beside.now ∥₁ }
    ensures types { OnOk result (types_view typed.new.types ≡ entries_view entries.items) }
    ensures tells { IfOk result (λ was. (typed.old.has_schema ≡ true → HasNoFault (types_view typed.old.types)) → Tells typed.new.has_schema (entries_view entries.items)) }
    ensures err { OnErr result (typed.new ≡ typed.old) }
{
    let replacement = Replacement::of(alloc, &typed.types, entries, number)?;
    let was = typed.types.exchange(replacement);
    match holds_beside(alloc, typed.has_schema, &typed.types, beside) {
        Ok(has_schema) => {
            typed.has_schema = has_schema;
            Ok(Was::Replaced(was))
        }
        Err(NoMemory) => {
            let _ = typed.types.exchange(was);
            Err(NoMemory)
        }
    }
}

/// Makes the type system that of these documents, which is the same but for places, and answers the definitions and extensions that it had.
fn replace_entries(
    alloc: Global,
    readings: &[Arc<Parsed>],
    typed: &mut Typed,
) -> Result<Vec<Entry>, NoMemory>
    requires { ∥ IsSameOf typed.old (readings_view readings.now) ∥₁ }
    ensures types { OnOk result (types_view typed.new.types ≡ built_in ++ entries_of (readings_view readings.now)) }
    ensures flag { typed.new.has_schema ≡ typed.old.has_schema }
    ensures err { OnErr result (typed.new ≡ typed.old) }
{
    let entries = type_system_entries(alloc, readings)?;
    typed.types.replace_entries(alloc, entries)
}

/// Puts the readings behind others. No tree is copied.
fn add_shared(readings: &[Arc<Parsed>], all: &mut Vec<Arc<Parsed>>) -> Result<(), NoMemory>
    ensures { OnOk result (readings_view all.new.items ≡ readings_view all.old.items ++ readings_view readings.now) }
{
    for reading in readings {
        all.push(Arc::try_clone(reading)?)?;
    }
    Ok(())
}

/// The readings before `end` and from `start` on, with one between them.
fn readings_around(
    alloc: Global,
    readings: &[Arc<Parsed>],
    end: usize,
    reading: &Arc<Parsed>,
    start: usize,
) -> Result<Vec<Arc<Parsed>>, NoMemory>
    requires end { end ≤ length readings.now }
    requires start { start ≤ length readings.now }
    ensures { IfOk result (λ all. readings_view all.items ≡ take end (readings_view readings.now) ++ (shared_view reading.now ∷ drop start (readings_view readings.now))) }
{
    let mut all = Vec::with_capacity(alloc, readings.len())?;
    add_shared(&readings[..end], &mut all)?;
    all.push(Arc::try_clone(reading)?)?;
    add_shared(&readings[start..], &mut all)?;
    Ok(all)
}

/// Whether all definitions and extensions of the type system stand in documents before that place.
fn stand_before(types: &Types, at: usize) -> bool
    ensures { result ≡ true → All (λ e. e.file < at) (types_view types.now) }
{
    types.entries().iter().all(|entry| entry.file < at)
}

/// The type system, where a document that reads so is put in at that place. None is made where it stays as it is: the document defines
/// no types, and neither do those behind it, whose numbers change. Where only numbers change, no rule is looked at.
pub(crate) fn typed_more(
    alloc: Global,
    readings: &[Arc<Parsed>],
    at: usize,
    reading: &Arc<Parsed>,
    typed: &Typed,
) -> Result<Option<Typed>, NoMemory>
    requires { at ≤ length readings.now }
    ensures { IfOk result (λ made. AreTypesOf (readings_view readings.now) typed.now → AreTypesOf (insert (readings_view readings.now) at (shared_view reading.now)) (unwrap_or made typed.now)) }
{
    documents_of_types_do_not_matter_to_types();
    let is_more = has_types(reading);
    if !is_more && stand_before(&typed.types, at) {
        return Ok(None);
    }
    let all = readings_around(alloc, readings, at, reading, at)?;
    if is_more {
        return Ok(Some(made_of(alloc, &all)?));
    }
    let made = made_as(alloc, &all, typed.has_schema)?;
    Ok(Some(made))
}

/// The type system, where the document at that place is taken out. Where that defines no types, no rule is looked at.
pub(crate) fn typed_less(
    alloc: Global,
    readings: &[Arc<Parsed>],
    at: usize,
    typed: &Typed,
) -> Result<Typed, NoMemory>
    requires { at < length readings.now }
    ensures { IfOk result (λ made. AreTypesOf (readings_view readings.now) typed.now → AreTypesOf (remove (readings_view readings.now) at) made) }
{
    documents_of_types_do_not_matter_to_types();
    let all = readings_without(alloc, readings, at)?;
    if has_types(&readings[at]) {
        return Ok(made_of(alloc, &all)?);
    }
    let made = made_as(alloc, &all, typed.has_schema)?;
    Ok(made)
}

/// The readings but for the one at that place.
fn readings_without(
    alloc: Global,
    readings: &[Arc<Parsed>],
    at: usize,
) -> Result<Vec<Arc<Parsed>>, NoMemory>
    requires { at < length readings.now }
    ensures { IfOk result (λ all. readings_view all.items ≡ remove (readings_view readings.now) at) }
{
    let mut all = Vec::with_capacity(alloc, readings.len())?;
    add_shared(&readings[..at], &mut all)?;
    add_shared(&readings[at + 1..], &mut all)?;
    Ok(all)
}

/// The number of the last document that defines types, or 0.
pub(crate) fn last_of_types(types: &Types) -> usize {
    let mut last = 0;
    for entry in types.entries() {
        last = entry.file.max(last);
    }
    last
}

/// Whether the document at that place defines types.
pub(crate) fn defines_types_at(readings: &[Arc<Parsed>], at: usize) -> bool
    requires { at < length readings.now }
    ensures { result ≡ false → slice_index_or (map types_defined (readings_view readings.now)) at [] ≡ [] }
{
    has_types(&readings[at])
}
