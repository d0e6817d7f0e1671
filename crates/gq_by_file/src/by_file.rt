//! The faults of files each by itself, and of files together, kept until one of them or the type system changes.
ghost use Rattle.std.specs.Prelude.{◌≡◌, ◌↔◌, ◌⊎◌, Bool, false, Contains, List, IfOk, remove, slice_set};
ghost use Rattle.std.specs.List.{insert};
ghost use Rattle.gq_text.specs.declared.place.Span.{Span};
ghost use Rattle.gq_tree.specs.Plain.{Sels};
ghost use Rattle.gq_tree.specs.Readings.{ParsedOf, shared_view, readings_view};
ghost use Rattle.gq_types.specs.Entries.{EntryOf};
ghost use Rattle.gq_types.specs.Look.{types_view};
ghost use Rattle.gq_fault.specs.declared.fault.Fault.{Fault};
ghost use Rattle.gq_rules.specs.Files.{together, IsFaultAcross, IsOfItsFile};
ghost use Rattle.gq_by_file.specs.OneFile.Laws.{AreAlikeToRules};
ghost use Rattle.gq_by_file.specs.ByFile.{AreByFile, AreByFileOver};
ghost use Rattle.gq_by_file.specs.Unseen.{AreAlikeUnseen, SeeNothing};

use crate::across::Across;
use crate::own::{close_room, forget_at, keep_own, make_room, own_faults};
use gq_fault::Fault;
use gq_text::{Items, NoMemory};
use gq_tree::Parsed;
use gq_types::Types;
use std::alloc::Global;
use std::sync::Arc;

/// What is known of the faults of files.
pub struct ByFile {
    /// What rests on each file and the type system alone, where it was looked for.
    pub own: Vec<Option<Items<Fault>>>,
    /// What rests on several files.
    pub across: Across,
}

impl Drop for ByFile {
    fn drop(self) {
        let ByFile {
            own: _own,
            across: _across,
        } = self;
    }
}

impl ByFile {
    /// Nothing is known.
    pub fn new(alloc: Global) -> ByFile
        ensures { (es : List EntryOf) (rs : List ParsedOf) → AreByFile es rs result }
    {
        ByFile {
            own: Vec::new(alloc),
            across: Across::new(alloc),
        }
    }

    /// What is told of the files each by itself, and of them together. What is not known is looked for, and known from then on: of
    /// each file by itself where its closed set is looked at, while its tree is in a processor's caches.
    pub fn found(
        &mut self,
        alloc: Global,
        types: &Types,
        readings: &[Arc<Parsed>],
    ) -> Result<Vec<Fault>, NoMemory>
        ensures kept { AreByFileOver types.now readings.now self.old → AreByFileOver types.now readings.now self.new }
        ensures faults { IfOk result (λ faults. AreByFileOver types.now readings.now self.old
            → (fault : Fault) → Contains faults.items fault ↔ (IsOfItsFile (types_view types.now) (readings_view readings.now) fault
            ⊎ IsFaultAcross (together (types_view types.now) (readings_view readings.now)) fault)) }
    {
        let mut across = self.across.found(alloc, types, readings, &mut self.own)?;
        let mut all = own_faults(alloc, types, readings, &mut self.own)?;
        all.append(&mut across)?;
        Ok(all)
    }

    /// What is known of the other files stays where the file at that place is replaced; where that changes the type system,
    /// nothing is known any more.
    pub fn replace(&mut self, alloc: Global, at: usize, reading: &Arc<Parsed>, changes_types: bool)
        ensures { (es us : List EntryOf) (rs : List ParsedOf) → (changes_types ≡ false → AreAlikeToRules es us)
            → AreByFile es rs self.old → AreByFile us (slice_set rs at (shared_view reading.now)) self.new }
    {
        forget_at(&mut self.own, at, changes_types);
        self.across.replace(alloc, at, reading, changes_types);
    }

    /// What is known of the other files stays where a file is put in at that place, each by itself and together, but of closed sets of which something
    /// is told, and of those that it belongs to.
    pub fn make_room(
        &mut self,
        alloc: Global,
        at: usize,
        reading: &Arc<Parsed>,
        changes_types: bool,
    )
        ensures { (es us : List EntryOf) (rs : List ParsedOf) → (changes_types ≡ false → AreAlikeToRules es us)
            → AreByFile es rs self.old → AreByFile us (insert rs at (shared_view reading.now)) self.new }
    {
        make_room(&mut self.own, at, changes_types);
        self.across.make_room(alloc, at, reading, changes_types);
    }

    /// The same where the file at that place is taken out.
    pub fn close_room(&mut self, alloc: Global, at: usize, changes_types: bool)
        ensures { (es us : List EntryOf) (rs : List ParsedOf) → (changes_types ≡ false → AreAlikeToRules es us)
            → AreByFile es rs self.old → AreByFile us (remove rs at) self.new }
    {
        close_room(&mut self.own, at, changes_types);
        self.across.close_room(alloc, at, changes_types);
    }

    /// What is known stays of files without a mark, each by itself and together, where the type system becomes another one in what no operation and
    /// no fragment of these sees.
    pub fn keep_unmarked(&mut self, marks: &[bool])
        ensures { (sees : Sels Span → Bool) (es us : List EntryOf) (rs : List ParsedOf) → AreAlikeUnseen sees es us → SeeNothing sees rs marks.now
            → AreByFile es rs self.old → AreByFile us rs self.new }
    {
        keep_own(&mut self.own, marks);
        self.across.keep_unseen(marks);
    }
}
