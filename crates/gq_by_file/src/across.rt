//! What rests on several files, kept by closed sets of them.
ghost use Rattle.std.specs.Prelude.{◌≡◌, ◌↔◌, ◌<◌, ◌≤◌, Bool, false, true, List, Contains, IfOk, OnOk, Some, length, map, remove, slice_get, slice_index_or, slice_set};
ghost use Rattle.std.specs.List.{insert};
ghost use Rattle.gq_fault.specs.declared.fault.Fault.{Fault};
ghost use Rattle.gq_text.specs.declared.place.Span.{Span};
ghost use Rattle.gq_tree.specs.Plain.{Sels};
ghost use Rattle.gq_tree.specs.Readings.{ParsedOf, parsed_view, readings_view};
ghost use Rattle.gq_types.specs.Entries.{EntryOf};
ghost use Rattle.gq_types.specs.Look.{types_view};
ghost use Rattle.gq_document.specs.Executable.{ExecutableOf, executable_view};
ghost use Rattle.gq_rules.specs.Files.{together, IsFaultAcross};
ghost use Rattle.gq_by_file.specs.OneFile.Laws.{AreAlikeToRules};
ghost use Rattle.gq_by_file.specs.Closed.RestsOnNames.{IsFaultByNames};
ghost use Rattle.gq_by_file.specs.Across.{AreAcross, AreClean, AreCovers, AreLinksOf};
ghost use Rattle.gq_by_file.specs.Names.{AreNames, AreNamesIn};
ghost use Rattle.gq_by_file.specs.declared.names.FileNames.{FileNames};
ghost use Rattle.gq_by_file.specs.Helping.Covers.{has_one_of};
ghost use Rattle.gq_by_file.specs.Helping.Learned.{AreLearned};
ghost use Rattle.gq_by_file.specs.Helping.Moved.{GoOver, number_after_remove};
ghost use Rattle.gq_by_file.specs.Own.{AreOwnOver};
ghost use Rattle.gq_by_file.specs.Unseen.{AreAlikeUnseen, SeeNothing};

use crate::by_names::{found_by_names, put_names};
use crate::closed_sets::{
    closed_sets_move, closed_sets_move_back, closed_sets_stay,
    faults_across_are_by_names_or_spreads, faults_are_of_closed_sets,
    faults_of_closed_sets_are_faults, numbers_of_sets_are_unseen, other_files_are_unseen,
};
use crate::covers::{Cover, SharedFiles, cover_rest, keep_unmarked, keep_without, put_faults};
use crate::links::{Links, links_of};
use crate::marks::marked;
use crate::moved::{Change, covers_after};
use crate::names::{FileNames, names_of_all};
use gq_document::{Definitions, Executable};
use gq_fault::Fault;
use gq_names::NameList;
use gq_text::{Items, NoMemory, SmallText};
use gq_tree::Parsed;
use gq_types::Types;
use std::alloc::Global;
use std::sync::Arc;

/// What is known of files together: the names in each and what these come to, and closed sets of them with what is told of each set by itself. It
/// grows where it is asked, and what a change of a file may touch is forgotten.
pub struct Across {
    /// The names in each file, or none at all.
    pub names: Vec<FileNames>,
    /// Whether it is known that nothing rests on these names.
    pub is_clean: bool,
    /// Where the spreads in each file lead, if that is known.
    pub links: Links,
    pub covers: Vec<Cover>,
}

impl Drop for Across {
    fn drop(self) {
        let Across {
            names: _names,
            is_clean: _,
            links: _links,
            covers: _covers,
        } = self;
    }
}

/// What rests on names, and whether nothing does, where that is known of these names if the flag stands.
fn found_named(
    alloc: Global,
    executable: &Executable<'_>,
    names: &[FileNames],
    is_clean: &mut bool,
) -> Result<Vec<Fault>, NoMemory>
    ensures kept { (es : List EntryOf) (rs : List ParsedOf) → executable_view executable.now ≡ together es rs → AreNames rs names.now
        → (is_clean.old ≡ true → AreClean names.now) → is_clean.new ≡ true → AreClean names.now }
    ensures faults { IfOk result (λ faults. (es : List EntryOf) (rs : List ParsedOf) → executable_view executable.now ≡ together es rs → AreNames rs names.now
        → (is_clean.old ≡ true → AreClean names.now) → (fault : Fault) → Contains faults.items fault ↔ IsFaultByNames (together es rs) fault) }
{
    if *is_clean {
        return Ok(Vec::new(alloc));
    }
    let faults = found_by_names(alloc, executable, names)?;
    *is_clean = faults.is_empty();
    Ok(faults)
}

/// Whether one of these names is one of those.
fn has_one_of(spreads: &[SmallText], defined: &NameList) -> bool
    ensures { result ≡ has_one_of defined.now spreads.now }
{
    spreads.iter().any(|name| defined.contains(name.as_str()))
}

/// A mark at each file in which one of these fragments is spread.
fn spreading_by(
    alloc: Global,
    names: &[FileNames],
    defined: &NameList,
) -> Result<Vec<bool>, NoMemory>
    ensures { IfOk result (λ marks. marks.items ≡ map (λ one. has_one_of defined.now one.spreads.items) names.now) }
{
    let mut marks = Vec::with_capacity(alloc, names.len())?;
    for one in names {
        marks.push(has_one_of(&one.spreads, defined))?;
    }
    Ok(marks)
}

/// The same where their names are given.
fn spreading(
    alloc: Global,
    names: &[FileNames],
    fragments: &[SmallText],
) -> Result<Vec<bool>, NoMemory>
    ensures { IfOk result (λ marks. marks.items ≡ map (λ one. has_one_of fragments.now one.spreads.items) names.now) }
{
    let mut defined = NameList::new(alloc);
    put_names(fragments, &mut defined)?;
    spreading_by(alloc, names, &defined)
}

impl Across {
    /// Nothing is known.
    pub fn new(alloc: Global) -> Across
        ensures { (es : List EntryOf) (rs : List ParsedOf) → AreAcross es rs result }
    {
        Across {
            names: Vec::new(alloc),
            is_clean: false,
            links: Links::none(alloc),
            covers: Vec::new(alloc),
        }
    }

    /// What the rules tell of operations and fragments, over a type system, that does not rest on one document alone. What is
    /// known is not looked for, and what is found is known from then on. `own` is what each document tells alone, as far as it is known: of
    /// those that are looked at it is found on the way, where something is noted of all before them.
    pub fn found(
        &mut self,
        alloc: Global,
        types: &Types,
        readings: &[Arc<Parsed>],
        own: &mut Vec<Option<Items<Fault>>>,
    ) -> Result<Vec<Fault>, NoMemory>
        ensures kept { AreAcross (types_view types.now) (readings_view readings.now) self.old → AreAcross (types_view types.now) (readings_view readings.now) self.new }
        ensures faults { IfOk result (λ faults. AreAcross (types_view types.now) (readings_view readings.now) self.old
            → (fault : Fault) → Contains faults.items fault ↔ IsFaultAcross (together (types_view types.now) (readings_view readings.now)) fault) }
        ensures own { AreOwnOver types.now readings.now own.old.items → AreOwnOver types.now readings.now own.new.items }
    {
        self.learn_names(alloc, readings)?;
        self.learn_links(alloc)?;
        self.found_in_readings(alloc, types, readings, own)
    }

    /// The names in all files are known.
    fn learn_names(&mut self, alloc: Global, readings: &[Arc<Parsed>]) -> Result<(), NoMemory>
        ensures kept { (es : List EntryOf) → AreAcross es (readings_view readings.now) self.old → AreAcross es (readings_view readings.now) self.new }
        ensures names { OnOk result ((es : List EntryOf) → AreAcross es (readings_view readings.now) self.old → AreNames (readings_view readings.now) self.new.names.items) }
    {
        if !self.names.is_empty() {
            return Ok(());
        }
        self.names = names_of_all(alloc, readings)?;
        self.is_clean = false;
        self.links.forget();
        Ok(())
    }

    /// It is known where the spreads in all files lead.
    fn learn_links(&mut self, alloc: Global) -> Result<(), NoMemory>
        ensures kept { (es : List EntryOf) (rs : List ParsedOf) → AreAcross es rs self.old → AreAcross es rs self.new }
        ensures names { self.new.names ≡ self.old.names }
        ensures links { OnOk result ((es : List EntryOf) (rs : List ParsedOf) → AreAcross es rs self.old → AreLinksOf self.new.names.items self.new.links.rows.items) }
    {
        if !self.links.rows.is_empty() {
            return Ok(());
        }
        self.links = links_of(alloc, &self.names)?;
        Ok(())
    }

    /// What rests on several files, of operations and fragments as they are read, where names and links are known.
    fn found_in_readings(
        &mut self,
        alloc: Global,
        types: &Types,
        readings: &[Arc<Parsed>],
        own: &mut Vec<Option<Items<Fault>>>,
    ) -> Result<Vec<Fault>, NoMemory>
        ensures kept { AreLearned (types_view types.now) (readings_view readings.now) self.old → AreAcross (types_view types.now) (readings_view readings.now) self.new }
        ensures faults { IfOk result (λ faults. AreLearned (types_view types.now) (readings_view readings.now) self.old
            → (fault : Fault) → Contains faults.items fault ↔ IsFaultAcross (together (types_view types.now) (readings_view readings.now)) fault) }
        ensures own { AreOwnOver types.now readings.now own.old.items → AreOwnOver types.now readings.now own.new.items }
    {
        let definitions = Definitions::of(alloc, readings)?;
        let executable = Executable {
            types,
            operations: &definitions.operations,
            fragments: &definitions.fragments,
        };
        let faults = self.found_over(alloc, &executable, readings, own)?;
        Ok(faults)
    }

    /// The same of operations and fragments as they are given.
    fn found_over<'a>(
        &mut self,
        alloc: Global,
        executable: &'a Executable<'a>,
        readings: &'a [Arc<Parsed>],
        own: &mut Vec<Option<Items<Fault>>>,
    ) -> Result<Vec<Fault>, NoMemory>
        ensures kept { (es : List EntryOf) (rs : List ParsedOf) → executable_view executable.now ≡ together es rs → AreLearned es rs self.old → AreAcross es rs self.new }
        ensures faults { IfOk result (λ faults. (es : List EntryOf) (rs : List ParsedOf) → executable_view executable.now ≡ together es rs → AreLearned es rs self.old
            → (fault : Fault) → Contains faults.items fault ↔ IsFaultAcross (together es rs) fault) }
        ensures own { AreOwnOver executable.now.types.now readings.now own.old.items → AreOwnOver executable.now.types.now readings.now own.new.items }
    {
        faults_across_are_by_names_or_spreads();
        faults_are_of_closed_sets();
        faults_of_closed_sets_are_faults();
        let links = &self.links;
        let files = SharedFiles {
            executable,
            part: executable,
            readings,
            rows: &links.rows,
        };
        cover_rest(alloc, files, &mut self.covers, own)?;
        let mut faults = found_named(alloc, executable, &self.names, &mut self.is_clean)?;
        put_faults(&self.covers, &mut faults)?;
        Ok(faults)
    }

    /// Nothing is known any more.
    pub fn forget(&mut self)
        ensures { (es : List EntryOf) (rs : List ParsedOf) → AreAcross es rs self.new }
    {
        self.names.clear();
        self.is_clean = false;
        self.links.forget();
        self.covers.clear();
    }

    /// What is known stays where the file at that place is replaced, but of the closed sets with this file, and of those in which
    /// a fragment of the new one is spread; where that changes the type system, of no closed set.
    pub fn replace(&mut self, alloc: Global, at: usize, reading: &Parsed, changes_types: bool)
        ensures { (es us : List EntryOf) (rs : List ParsedOf) → (changes_types ≡ false → AreAlikeToRules es us)
            → AreAcross es rs self.old → AreAcross us (slice_set rs at (parsed_view reading.now)) self.new }
    {
        if changes_types {
            self.covers.clear();
        }
        match FileNames::of(alloc, reading) {
            Ok(names) => self.replace_names(alloc, at, names),
            Err(NoMemory) => self.forget(),
        }
    }

    /// The same where the names in the new file are given.
    fn replace_names(&mut self, alloc: Global, at: usize, names: FileNames)
        ensures { (es : List EntryOf) (rs : List ParsedOf) (r : ParsedOf) → AreNamesIn r names → AreAcross es rs self.old → AreAcross es (slice_set rs at r) self.new }
    {
        if at >= self.names.len() {
            self.forget();
            return;
        }
        if self.names[at].are_same(&names) {
            self.keep_names(at);
        } else {
            self.change_names(alloc, at, names);
        }
    }

    /// The same where the file at that place has those names before and after.
    fn keep_names(&mut self, at: usize)
        ensures { (es : List EntryOf) (rs : List ParsedOf) (r : ParsedOf) (names : FileNames) → slice_get self.old.names.items at ≡ Some names → AreNamesIn r names
            → AreAcross es rs self.old → AreAcross es (slice_set rs at r) self.new }
    {
        closed_sets_stay();
        other_files_are_unseen();
        keep_without(&mut self.covers, at);
    }

    /// The same where other names stand in the new file.
    fn change_names(&mut self, alloc: Global, at: usize, names: FileNames)
        requires { at < length self.old.names.items }
        ensures { (es : List EntryOf) (rs : List ParsedOf) (r : ParsedOf) → AreNamesIn r names → AreAcross es rs self.old → AreAcross es (slice_set rs at r) self.new }
    {
        closed_sets_stay();
        other_files_are_unseen();
        match spreading(alloc, &self.names, &names.fragments) {
            Ok(mut marks) => {
                marks[at] = true;
                keep_unmarked(&mut self.covers, &marks);
                self.names[at] = names;
                self.is_clean = false;
                self.links.forget();
            }
            Err(NoMemory) => self.forget(),
        }
    }

    /// What is known stays where a file is put in at that place, but of the closed sets of which something is told, and of those in which a
    /// fragment of the new one is spread; where that changes the type system, of no closed set.
    pub fn make_room(&mut self, alloc: Global, at: usize, reading: &Parsed, changes_types: bool)
        ensures { (es us : List EntryOf) (rs : List ParsedOf) → (changes_types ≡ false → AreAlikeToRules es us)
            → AreAcross es rs self.old → AreAcross us (insert rs at (parsed_view reading.now)) self.new }
    {
        if self.names.is_empty() {
            self.forget();
            return;
        }
        if changes_types {
            self.covers.clear();
        }
        match FileNames::of(alloc, reading) {
            Ok(names) => self.put_names(alloc, at, names),
            Err(NoMemory) => self.forget(),
        }
    }

    /// The same where the names in the new file are given.
    fn put_names(&mut self, alloc: Global, at: usize, names: FileNames)
        ensures { (es : List EntryOf) (rs : List ParsedOf) (r : ParsedOf) → AreNamesIn r names → AreAcross es rs self.old → AreAcross es (insert rs at r) self.new }
    {
        if self.names.is_empty() || at > self.names.len() {
            self.forget();
            return;
        }
        match spreading(alloc, &self.names, &names.fragments) {
            Ok(marks) => self.put_marked(alloc, at, names, &marks),
            Err(NoMemory) => self.forget(),
        }
    }

    /// The same where the files are marked in which a fragment of the new one is spread.
    fn put_marked(&mut self, alloc: Global, at: usize, names: FileNames, marks: &[bool])
        requires some { 0 < length self.old.names.items }
        requires range { at ≤ length self.old.names.items }
        ensures { marks.now ≡ map (λ one. has_one_of names.fragments.items one.spreads.items) self.old.names.items
            → (es : List EntryOf) (rs : List ParsedOf) (r : ParsedOf) → AreNamesIn r names → AreAcross es rs self.old → AreAcross es (insert rs at r) self.new }
    {
        closed_sets_move();
        numbers_of_sets_are_unseen();
        let Ok(covers) = covers_after(alloc, Change::PutIn(at), marks, &self.covers) else {
            self.forget();
            return;
        };
        if self.names.insert(at, names).is_err() {
            self.forget();
            return;
        }
        self.covers = covers;
        self.is_clean = false;
        self.links.forget();
    }

    /// What is known stays where the file at that place is taken out, but of the closed sets of which something is told, and of those with this
    /// file; where that changes the type system, nothing is known any more.
    pub fn close_room(&mut self, alloc: Global, at: usize, changes_types: bool)
        ensures { (es us : List EntryOf) (rs : List ParsedOf) → (changes_types ≡ false → AreAlikeToRules es us)
            → AreAcross es rs self.old → AreAcross us (remove rs at) self.new }
    {
        if changes_types || at >= self.names.len() {
            self.forget();
            return;
        }
        self.take_names(alloc, at);
    }

    /// The same where the type system stays.
    fn take_names(&mut self, alloc: Global, at: usize)
        requires { at < length self.old.names.items }
        ensures { (es : List EntryOf) (rs : List ParsedOf) → AreAcross es rs self.old → AreAcross es (remove rs at) self.new }
    {
        closed_sets_move_back();
        numbers_of_sets_are_unseen();
        match self.covers_without(alloc, at) {
            Ok(covers) => {
                let _ = self.names.remove(at);
                self.covers = covers;
                self.is_clean = false;
                self.links.forget();
            }
            Err(NoMemory) => self.forget(),
        }
    }

    /// The covers without the file at that place of which nothing is told, under the numbers that their files have once it is taken out.
    fn covers_without(&self, alloc: Global, at: usize) -> Result<Vec<Cover>, NoMemory>
        requires { at < length self.now.names.items }
        ensures { IfOk result (λ covers. (x y : ExecutableOf) → ((marks : List Bool) → slice_index_or marks at false ≡ true → GoOver (number_after_remove at) marks x y)
            → AreCovers x self.now.covers.items → AreCovers y covers.items) }
    {
        let marks = marked(alloc, self.names.len(), &[at])?;
        covers_after(alloc, Change::TakenOut(at), &marks, &self.covers)
    }

    /// What is known stays of closed sets in which no file has a mark, where the type system becomes another one in what no
    /// operation and no fragment of the files without a mark sees.
    pub fn keep_unseen(&mut self, marks: &[bool])
        ensures { (sees : Sels Span → Bool) (es us : List EntryOf) (rs : List ParsedOf) → AreAlikeUnseen sees es us → SeeNothing sees rs marks.now
            → AreAcross es rs self.old → AreAcross us rs self.new }
    {
        keep_unmarked(&mut self.covers, marks);
    }
}
