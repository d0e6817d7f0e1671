//! The names of the fields that are selected in each document, where they were looked for.
ghost use Rattle.std.specs.Prelude.{◌≡◌, ◌<◌, ◌≤◌, false, List, Some, IfOk, IfSome, OnOk, length, remove, slice_get, slice_set};
ghost use Rattle.std.specs.List.{insert, list_any};
ghost use Rattle.gq_tree.specs.Readings.{ParsedOf, definitions_read, shared_view, readings_view};
ghost use Rattle.gq_laws.specs.Placing.OtherFields.{has_selected};
ghost use Rattle.gq_kept.specs.Helping.Selected.{AreMarkedFor, AreSelected, HasNamesOf};
ghost use Rattle.gq_kept.specs.Helping.Texts.{texts_at};

use crate::field_names::{field_names, has_one_of};
use gq_names::NameList;
use gq_text::NoMemory;
use gq_tree::{Name, Parsed};
use std::alloc::Global;
use std::sync::Arc;

/// For each document the names of the fields that are selected in it, or nothing, where these are not known; behind the last one nothing is known.
#[derive(Drop)]
pub(crate) struct FieldLists {
    pub(crate) lists: Vec<Option<NameList>>,
}

/// Notes of the document of that number that its names are not known, where nothing is noted of it. Of the documents before it something is.
fn note(lists: &mut Vec<Option<NameList>>, file: usize) -> Result<(), NoMemory>
    requires { file ≤ length lists.old.items }
    ensures known { (rs : List ParsedOf) → AreSelected rs lists.old.items → AreSelected rs lists.new.items }
    ensures noted { OnOk result (file < length lists.new.items) }
{
    if file < lists.len() {
        return Ok(());
    }
    lists.push(None)?;
    Ok(())
}

/// Finds the names of a document, where they are not known.
fn find_in(
    alloc: Global,
    reading: &Arc<Parsed>,
    list: &mut Option<NameList>,
) -> Result<(), NoMemory>
    ensures { IfSome list.old (HasNamesOf (shared_view reading.now)) → IfSome list.new (HasNamesOf (shared_view reading.now)) }
{
    if list.is_some() {
        return Ok(());
    }
    let names = field_names(alloc, reading)?;
    *list = Some(names);
    Ok(())
}

/// Whether a document gets a mark of which this is known: where it may select a field of one of these names.
fn is_marked(list: &Option<NameList>, names: &[&Name]) -> bool
    ensures { (r : ParsedOf) → IfSome list.now (HasNamesOf r) → result ≡ false → list_any (has_selected (texts_at names.now)) (definitions_read r) ≡ false }
{
    match list {
        Some(known) => has_one_of(known, names),
        None => true,
    }
}

/// The mark of a document, whose names are found, where they are not known.
fn mark_of(
    alloc: Global,
    reading: &Arc<Parsed>,
    names: &[&Name],
    list: &mut Option<NameList>,
) -> Result<bool, NoMemory>
    ensures known { IfSome list.old (HasNamesOf (shared_view reading.now)) → IfSome list.new (HasNamesOf (shared_view reading.now)) }
    ensures mark { IfOk result (λ mark. IfSome list.old (HasNamesOf (shared_view reading.now)) → mark ≡ false
        → list_any (has_selected (texts_at names.now)) (definitions_read (shared_view reading.now)) ≡ false) }
{
    find_in(alloc, reading, list)?;
    Ok(is_marked(list, names))
}

/// The mark of the document of that number. Of the documents before it something is noted.
fn mark_at(
    alloc: Global,
    reading: &Arc<Parsed>,
    names: &[&Name],
    lists: &mut Vec<Option<NameList>>,
    file: usize,
) -> Result<bool, NoMemory>
    requires { file ≤ length lists.old.items }
    ensures known { (rs : List ParsedOf) → slice_get rs file ≡ Some (shared_view reading.now) → AreSelected rs lists.old.items → AreSelected rs lists.new.items }
    ensures noted { OnOk result (file < length lists.new.items) }
    ensures mark { IfOk result (λ mark. (rs : List ParsedOf) → slice_get rs file ≡ Some (shared_view reading.now) → AreSelected rs lists.old.items → mark ≡ false
        → list_any (has_selected (texts_at names.now)) (definitions_read (shared_view reading.now)) ≡ false) }
{
    note(lists, file)?;
    mark_of(alloc, reading, names, &mut lists[file])
}

impl FieldLists {
    /// Nothing is known.
    pub(crate) fn new(alloc: Global) -> FieldLists
        ensures { (rs : List ParsedOf) → AreSelected rs result.lists.items }
    {
        FieldLists {
            lists: Vec::new(alloc),
        }
    }

    /// What is known stays where the document at that place is replaced, but of that one.
    pub(crate) fn replace(&mut self, at: usize)
        ensures { (rs : List ParsedOf) (r : ParsedOf) → AreSelected rs self.old.lists.items → AreSelected (slice_set rs at r) self.new.lists.items }
    {
        if at < self.lists.len() {
            self.lists[at] = None;
        }
    }

    /// What is known of the documents before that place stays where one is put in there, or taken out.
    pub(crate) fn keep_before(&mut self, at: usize)
        ensures room { (rs : List ParsedOf) (r : ParsedOf) → at ≤ length rs → AreSelected rs self.old.lists.items → AreSelected (insert rs at r) self.new.lists.items }
        ensures taken { (rs : List ParsedOf) → AreSelected rs self.old.lists.items → AreSelected (remove rs at) self.new.lists.items }
    {
        self.lists.truncate(at);
    }

    /// A mark at each document in which a field of one of these names is selected. What is not known of a document is found, and known from then on.
    pub(crate) fn marks(
        &mut self,
        alloc: Global,
        readings: &[Arc<Parsed>],
        names: &[&Name],
    ) -> Result<Vec<bool>, NoMemory>
        ensures kept { AreSelected (readings_view readings.now) self.old.lists.items → AreSelected (readings_view readings.now) self.new.lists.items }
        ensures marks { IfOk result (λ marks. AreSelected (readings_view readings.now) self.old.lists.items
            → AreMarkedFor (texts_at names.now) (readings_view readings.now) marks.items) }
    {
        let mut marks = Vec::with_capacity(alloc, readings.len())?;
        for file in 0..readings.len() {
            let is_marked = mark_at(alloc, &readings[file], names, &mut self.lists, file)?;
            marks.push(is_marked)?;
        }
        Ok(marks)
    }
}
