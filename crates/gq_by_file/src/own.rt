//! The faults of each file that rest on it and the type system alone, kept until one of these changes.
ghost use Rattle.std.specs.Prelude.{◌≡◌, ◌↔◌, ◌++◌, ◌<◌, ◌≤◌, Bool, false, Contains, List, Some, IfOk, OnOk, OnErr, length, remove, slice_get, slice_set};
ghost use Rattle.std.specs.List.{insert};
ghost use Rattle.gq_text.specs.declared.place.Span.{Span};
ghost use Rattle.gq_tree.specs.Plain.{Sels};
ghost use Rattle.gq_tree.specs.Readings.{ParsedOf, shared_view, readings_view};
ghost use Rattle.gq_types.specs.Entries.{EntryOf};
ghost use Rattle.gq_types.specs.Look.{types_view};
ghost use Rattle.gq_fault.specs.declared.fault.Fault.{Fault};
ghost use Rattle.gq_rules.specs.Files.{IsOfItsFile};
ghost use Rattle.gq_by_file.specs.OneFile.Laws.{AreAlikeToRules};
ghost use Rattle.gq_by_file.specs.Own.{AreOwn, AreOwnOver, IsFoundAt, IsFoundOwn, IsOwn, own_in};
ghost use Rattle.gq_by_file.specs.Unseen.{AreAlikeUnseen, SeeNothing};

use crate::alone::{found_alone, put_in_file};
use crate::laws::numbers_of_files_are_unseen;
use crate::marks::is_marked;
use gq_fault::Fault;
use gq_text::{Items, NoMemory};
use gq_tree::Parsed;
use gq_types::Types;
use std::alloc::Global;
use std::sync::Arc;

/// Finds the own faults of a file, where they are not known.
fn find_in(
    alloc: Global,
    types: &Types,
    reading: &Arc<Parsed>,
    own: &mut Option<Items<Fault>>,
) -> Result<(), NoMemory>
    ensures ok { OnOk result (IsOwn (types_view types.now) (shared_view reading.now) own.old → IsFoundOwn (types_view types.now) (shared_view reading.now) own.new) }
    ensures err { OnErr result (own.new ≡ own.old) }
{
    if own.is_some() {
        return Ok(());
    }
    let faults = found_alone(alloc, types, reading)?;
    *own = Some(Items::from_vec(faults));
    Ok(())
}

/// Puts the own faults of the file of that number behind the others, as far as they are known.
fn put_own(file: usize, own: &Option<Items<Fault>>, all: &mut Vec<Fault>) -> Result<(), NoMemory>
    ensures { OnOk result (all.new.items ≡ all.old.items ++ own_in file own.now) }
{
    match own {
        Some(faults) => put_in_file(file, faults.as_slice(), all),
        None => Ok(()),
    }
}

/// Notes of the file of that number that nothing is known of it, where nothing is noted of it. Of the files before it something
/// is.
fn note(own: &mut Vec<Option<Items<Fault>>>, file: usize) -> Result<(), NoMemory>
    requires { file ≤ length own.old.items }
    ensures own { (es : List EntryOf) (rs : List ParsedOf) (r : ParsedOf) → slice_get rs file ≡ Some r → AreOwn es rs own.old.items → AreOwn es rs own.new.items }
    ensures noted { OnOk result (file < length own.new.items) }
{
    if file < own.len() {
        return Ok(());
    }
    own.push(None)?;
    Ok(())
}

/// Finds the own faults of the file of that number, where they are not known. Of the files before it something is noted.
fn find_at(
    alloc: Global,
    types: &Types,
    reading: &Arc<Parsed>,
    own: &mut Vec<Option<Items<Fault>>>,
    file: usize,
) -> Result<(), NoMemory>
    requires { file ≤ length own.old.items }
    ensures own { (rs : List ParsedOf) → slice_get rs file ≡ Some (shared_view reading.now) → AreOwn (types_view types.now) rs own.old.items → AreOwn (types_view types.now) rs own.new.items }
    ensures found { OnOk result ((rs : List ParsedOf) → slice_get rs file ≡ Some (shared_view reading.now) → AreOwn (types_view types.now) rs own.old.items
        → IsFoundAt (types_view types.now) (shared_view reading.now) file own.new.items) }
    ensures noted { OnOk result (file < length own.new.items) }
{
    note(own, file)?;
    find_in(alloc, types, reading, &mut own[file])
}

/// Finds the own faults of the file of that number, where they are not known and something is noted of all files before it.
fn find_in_order(
    alloc: Global,
    types: &Types,
    readings: &[Arc<Parsed>],
    file: usize,
    own: &mut Vec<Option<Items<Fault>>>,
) -> Result<(), NoMemory>
    ensures { AreOwnOver types.now readings.now own.old.items → AreOwnOver types.now readings.now own.new.items }
{
    if file >= readings.len() || file > own.len() {
        return Ok(());
    }
    find_at(alloc, types, &readings[file], own, file)
}

/// So of each of these files.
pub(crate) fn find_own_of(
    alloc: Global,
    types: &Types,
    readings: &[Arc<Parsed>],
    files: &[usize],
    own: &mut Vec<Option<Items<Fault>>>,
) -> Result<(), NoMemory>
    ensures { AreOwnOver types.now readings.now own.old.items → AreOwnOver types.now readings.now own.new.items }
{
    for file in files {
        find_in_order(alloc, types, readings, *file, own)?;
    }
    Ok(())
}

/// The own faults of all files, each with the number of its file. Those that are not known are found, and known from then on.
pub(crate) fn own_faults(
    alloc: Global,
    types: &Types,
    readings: &[Arc<Parsed>],
    own: &mut Vec<Option<Items<Fault>>>,
) -> Result<Vec<Fault>, NoMemory>
    ensures own { AreOwnOver types.now readings.now own.old.items → AreOwnOver types.now readings.now own.new.items }
    ensures faults { IfOk result (λ faults. AreOwnOver types.now readings.now own.old.items
        → (fault : Fault) → Contains faults.items fault ↔ IsOfItsFile (types_view types.now) (readings_view readings.now) fault) }
{
    numbers_of_files_are_unseen();
    let mut all = Vec::new(alloc);
    for file in 0..readings.len() {
        find_at(alloc, types, &readings[file], own, file)?;
        put_own(file, &own[file], &mut all)?;
    }
    Ok(all)
}

/// What is known stays where the file at that place is another one from now on, but of this file; where that changes the
/// type system, nothing is known any more.
pub(crate) fn forget_at(own: &mut Vec<Option<Items<Fault>>>, at: usize, changes_types: bool)
    ensures { (es us : List EntryOf) (rs : List ParsedOf) (r : ParsedOf) → (changes_types ≡ false → AreAlikeToRules es us)
        → AreOwn es rs own.old.items → AreOwn us (slice_set rs at r) own.new.items }
{
    if changes_types {
        own.clear();
        return;
    }
    if at < own.len() {
        own[at] = None;
    }
}

/// The same where a file is put in at that place.
pub(crate) fn make_room(own: &mut Vec<Option<Items<Fault>>>, at: usize, changes_types: bool)
    ensures { (es us : List EntryOf) (rs : List ParsedOf) (r : ParsedOf) → (changes_types ≡ false → AreAlikeToRules es us)
        → AreOwn es rs own.old.items → AreOwn us (insert rs at r) own.new.items }
{
    if changes_types {
        own.clear();
        return;
    }
    if at >= own.len() {
        return;
    }
    if own.insert(at, None).is_err() {
        own.truncate(at);
    }
}

/// The same where the file at that place is taken out.
pub(crate) fn close_room(own: &mut Vec<Option<Items<Fault>>>, at: usize, changes_types: bool)
    ensures { (es us : List EntryOf) (rs : List ParsedOf) → (changes_types ≡ false → AreAlikeToRules es us)
        → AreOwn es rs own.old.items → AreOwn us (remove rs at) own.new.items }
{
    if changes_types {
        own.clear();
        return;
    }
    if at < own.len() {
        let _ = own.remove(at);
    }
}

/// What is known of the files without a mark stays, and of the others nothing is known any more.
pub(crate) fn keep_own(own: &mut Vec<Option<Items<Fault>>>, marks: &[bool])
    ensures { (sees : Sels Span → Bool) (es us : List EntryOf) (rs : List ParsedOf) → AreAlikeUnseen sees es us → SeeNothing sees rs marks.now
        → AreOwn es rs own.old.items → AreOwn us rs own.new.items }
{
    for file in 0..own.len() {
        if is_marked(marks, file) {
            own[file] = None;
        }
    }
}
