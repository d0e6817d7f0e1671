//! What is known of the faults of documents, each by itself and together, and what else was made of each.
ghost use Rattle.std.specs.Prelude.{◌≡◌, ◌↔◌, ◌⊎◌, ◌≤◌, false, Contains, List, IfOk, length, remove, slice_set};
ghost use Rattle.std.specs.List.{insert};
ghost use Rattle.gq_tree.specs.Readings.{ParsedOf, readings_view, shared_view};
ghost use Rattle.gq_types.specs.Entries.{EntryOf};
ghost use Rattle.gq_types.specs.Look.{types_view};
ghost use Rattle.gq_fault.specs.declared.fault.Fault.{Fault};
ghost use Rattle.gq_rules.specs.Files.{IsFaultAcross, IsOfItsFile, together};
ghost use Rattle.gq_by_file.specs.OneFile.Laws.{AreAlikeToRules};
ghost use Rattle.gq_kept.specs.Helping.ByDocument.{AreByDocument, AreByDocumentOver};

use crate::field_lists::FieldLists;
use crate::noted::Noted;
use gq_by_file::ByFile;
use gq_fault::Fault;
use gq_index::Parts;
use gq_text::NoMemory;
use gq_tree::Parsed;
use gq_types::Types;
use std::alloc::Global;
use std::sync::Arc;

/// What is known of documents: their faults, the fields that are selected in each, and what an index keeps of each.
#[derive(Drop)]
pub(crate) struct ByDocument {
    pub(crate) faults: ByFile,
    pub(crate) fields: FieldLists,
    pub(crate) parts: Noted<Arc<Parts>>,
}

impl ByDocument {
    /// Nothing is known.
    pub(crate) fn new(alloc: Global) -> ByDocument
        ensures { (es : List EntryOf) (rs : List ParsedOf) → AreByDocument es rs result }
    {
        ByDocument {
            faults: ByFile::new(alloc),
            fields: FieldLists::new(alloc),
            parts: Noted::new(alloc),
        }
    }

    /// What is told of the documents each by itself, and of them together.
    pub(crate) fn found(
        &mut self,
        alloc: Global,
        types: &Types,
        readings: &[Arc<Parsed>],
    ) -> Result<Vec<Fault>, NoMemory>
        ensures kept { AreByDocumentOver types.now readings.now self.old → AreByDocumentOver types.now readings.now self.new }
        ensures faults { IfOk result (λ faults. AreByDocumentOver types.now readings.now self.old
            → (fault : Fault) → Contains faults.items fault ↔ (IsOfItsFile (types_view types.now) (readings_view readings.now) fault
            ⊎ IsFaultAcross (together (types_view types.now) (readings_view readings.now)) fault)) }
    {
        self.faults.found(alloc, types, readings)
    }

    /// What is known of the other documents stays where the one at that place is replaced; where that changes the type system, of faults nothing is
    /// known any more.
    pub(crate) fn replace(
        &mut self,
        alloc: Global,
        at: usize,
        reading: &Arc<Parsed>,
        changes_types: bool,
    )
        ensures { (es us : List EntryOf) (rs : List ParsedOf) → (changes_types ≡ false → AreAlikeToRules es us)
            → AreByDocument es rs self.old → AreByDocument us (slice_set rs at (shared_view reading.now)) self.new }
    {
        self.faults.replace(alloc, at, reading, changes_types);
        self.fields.replace(at);
        self.parts.forget(at);
    }

    /// The same where a document is put in at that place. Of fields, what is known of the documents before it stays.
    pub(crate) fn make_room(
        &mut self,
        alloc: Global,
        at: usize,
        reading: &Arc<Parsed>,
        changes_types: bool,
    )
        ensures { (es us : List EntryOf) (rs : List ParsedOf) → at ≤ length rs → (changes_types ≡ false → AreAlikeToRules es us)
            → AreByDocument es rs self.old → AreByDocument us (insert rs at (shared_view reading.now)) self.new }
    {
        self.faults.make_room(alloc, at, reading, changes_types);
        self.fields.keep_before(at);
        self.parts.make_room(at);
    }

    /// The same where the document at that place is taken out.
    pub(crate) fn close_room(&mut self, alloc: Global, at: usize, changes_types: bool)
        ensures { (es us : List EntryOf) (rs : List ParsedOf) → (changes_types ≡ false → AreAlikeToRules es us)
            → AreByDocument es rs self.old → AreByDocument us (remove rs at) self.new }
    {
        self.faults.close_room(alloc, at, changes_types);
        self.fields.keep_before(at);
        self.parts.close_room(at);
    }
}
