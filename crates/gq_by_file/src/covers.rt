//! Closed sets of files, each with what is told of it by itself.
ghost use Rattle.std.specs.Prelude.{◌≡◌, ◌==◌, ◌<◌, ◌++◌, ◌∷◌, [], ◌||◌, ℕ, true, false, List, All, Contains, IfOk, OnOk, filter, flat_map, length, not, slice_index_or};
ghost use Rattle.std.specs.List.{list_any};
ghost use Rattle.gq_fault.specs.declared.fault.Fault.{Fault};
ghost use Rattle.gq_graph.specs.Reach.{InRange};
ghost use Rattle.gq_document.specs.Executable.{ExecutableOf, executable_view};
ghost use Rattle.gq_by_file.specs.Closed.Closed.{is_among};
ghost use Rattle.gq_by_file.specs.Across.{AreCovers};
ghost use Rattle.gq_by_file.specs.Helping.Covers.{AreFaulty, HoldsAll, IsCovered, LeadsInto, unmarked_from};
ghost use Rattle.gq_by_file.specs.Own.{AreOwnOver};
ghost use Rattle.gq_by_file.specs.Links.{AreLinks};

use crate::closed_sets::{faults_of_closed_sets_are_faults, faults_stay_in_larger_sets};
use crate::marks::{has_file, has_marked, is_marked, mark, marked};
use crate::own::find_own_of;
use crate::part::{found_within, fragments_in, operations_in};
use gq_document::Executable;
use gq_fault::Fault;
use gq_graph::reach_rows;
use gq_text::{Items, NoMemory};
use gq_tree::Parsed;
use std::alloc::Global;
use std::sync::Arc;

/// A set of files that no spread leads out of, and all that is told of these by themselves and rests on spreads.
#[derive(Drop)]
pub struct Cover {
    /// The numbers of the files.
    pub files: Vec<usize>,
    pub faults: Vec<Fault>,
}

/// Marks the files that stand in one of the covers.
fn mark_covers(marks: &mut Vec<bool>, covers: &[Cover])
    ensures count { length marks.new.items ≡ length marks.old.items }
    ensures marked { (n : ℕ) → n < length marks.old.items →
        slice_index_or marks.new.items n false ≡ (slice_index_or marks.old.items n false || list_any (λ c. is_among c.files.items n) covers.now) }
{
    for cover in covers {
        mark(marks, &cover.files);
    }
}

/// The places without a mark.
pub(crate) fn unmarked(alloc: Global, marks: &[bool]) -> Result<Vec<usize>, NoMemory>
    ensures { IfOk result (λ places. places.items ≡ unmarked_from 0 marks.now) }
{
    let mut places = Vec::new(alloc);
    for (place, mark) in marks.iter().enumerate() {
        if !*mark {
            places.push(place)?;
        }
    }
    Ok(places)
}

/// Marks at the files in which these faults stand.
fn faulty_files(alloc: Global, count: usize, faults: &[Fault]) -> Result<Vec<bool>, NoMemory>
    ensures { IfOk result (λ marks. (fault : Fault) → Contains faults.now fault → fault.file < count → slice_index_or marks.items fault.file false ≡ true) }
{
    let mut files = Vec::with_capacity(alloc, faults.len())?;
    for fault in faults {
        files.push(fault.file)?;
    }
    marked(alloc, count, &files)
}

/// Adds the closed set of what the file leads to, if the file is not marked and in none of those stands a fault; its files
/// are marked then. The marks of files with faults are those of a larger set.
fn cover_if_clean(
    alloc: Global,
    rows: &[Vec<usize>],
    file: usize,
    faulty: &[bool],
    marks: &mut Vec<bool>,
    covers: &mut Vec<Cover>,
) -> Result<(), NoMemory>
    requires rows { InRange rows.now }
    requires range { file < length rows.now }
    ensures kept { (x : ExecutableOf) (all : List ℕ) → AreLinks x rows.now → AreFaulty x all faulty.now
        → LeadsInto rows.now (file ∷ []) all → AreCovers x covers.old.items → AreCovers x covers.new.items }
    ensures old { (n : ℕ) → IsCovered covers.old.items n → IsCovered covers.new.items n }
{
    faults_stay_in_larger_sets();
    if is_marked(marks, file) {
        return Ok(());
    }
    let files = reach_rows(alloc, rows, &[file])?;
    if has_marked(faulty, &files) {
        return Ok(());
    }
    mark(marks, &files);
    covers.push(Cover {
        files,
        faults: Vec::new(alloc),
    })?;
    Ok(())
}

/// So of each of these files.
fn cover_clean(
    alloc: Global,
    rows: &[Vec<usize>],
    rest: &[usize],
    faulty: &[bool],
    marks: &mut Vec<bool>,
    covers: &mut Vec<Cover>,
) -> Result<(), NoMemory>
    requires rows { InRange rows.now }
    requires range { All (λ n. n < length rows.now) rest.now }
    ensures kept { (x : ExecutableOf) (all : List ℕ) → AreLinks x rows.now → AreFaulty x all faulty.now
        → LeadsInto rows.now rest.now all → AreCovers x covers.old.items → AreCovers x covers.new.items }
    ensures old { (n : ℕ) → IsCovered covers.old.items n → IsCovered covers.new.items n }
{
    for file in rest {
        cover_if_clean(alloc, rows, *file, faulty, marks, covers)?;
    }
    Ok(())
}

/// So few files are looked at together, whatever they lead to, and as many more as one of so many parts of all has: each look has a mark for
/// each file, and the tree of one file is about as large as a processor's nearest cache but one.
pub(crate) const FEW: usize = 1;

pub(crate) const PARTS: usize = 256;

/// Whether the two halves of these files lead to little that both lead to.
pub(crate) fn lead_apart(
    alloc: Global,
    rows: &[Vec<usize>],
    rest: &[usize],
) -> Result<bool, NoMemory>
    requires rows { InRange rows.now }
    requires range { All (λ n. n < length rows.now) rest.now }
{
    let (front, back) = rest.split_at(rest.len() / 2);
    let whole = reach_rows(alloc, rows, rest)?.len();
    let halves = reach_rows(alloc, rows, front)?.len() + reach_rows(alloc, rows, back)?.len();
    Ok(halves <= whole + rest.len() / 8)
}

/// What is looked at: the operations and fragments in all files, as these are read, and where their spreads lead.
#[derive(Clone, Copy)]
pub(crate) struct SharedFiles<'a, 'p, 'r> {
    pub(crate) executable: &'a Executable<'a>,
    /// Those of the operations and fragments that are left to look at.
    pub(crate) part: &'p Executable<'p>,
    pub(crate) readings: &'a [Arc<Parsed>],
    pub(crate) rows: &'r [Vec<usize>],
}

/// Adds covers of the files that stand in none, which are these: one of all that they lead to, and one of each of them where
/// nothing is told.
fn cover_these(
    alloc: Global,
    files: SharedFiles<'_, '_, '_>,
    rest: &[usize],
    marks: &mut Vec<bool>,
    covers: &mut Vec<Cover>,
) -> Result<(), NoMemory>
    requires rows { InRange files.rows.now }
    requires range { All (λ n. n < length files.rows.now) rest.now }
    ensures kept { HoldsAll (executable_view files.entry.executable.now) (executable_view files.entry.part.now) files.entry.rows.now rest.now
        → AreLinks (executable_view files.entry.executable.now) files.entry.rows.now
        → AreCovers (executable_view files.entry.executable.now) covers.old.items → AreCovers (executable_view files.entry.executable.now) covers.new.items }
    ensures old { (n : ℕ) → IsCovered covers.old.items n → IsCovered covers.new.items n }
    ensures rest { OnOk result ((n : ℕ) → Contains rest.now n → IsCovered covers.new.items n) }
{
    faults_of_closed_sets_are_faults();
    let rows = files.rows;
    let led = reach_rows(alloc, rows, rest)?;
    let faults = found_within(alloc, files.part, rows.len(), &led)?;
    let faulty = faulty_files(alloc, rows.len(), &faults)?;
    cover_clean(alloc, rows, rest, &faulty, marks, covers)?;
    covers.push(Cover { files: led, faults })?;
    Ok(())
}

/// The same by halves, as long as these lead to little that both lead to: files that have nothing to do with each other are not
/// looked at together, since their trees do not fit into a processor's caches. What each of the files tells alone is found on the way.
#[cycle(halves)]
fn cover_by_halves(
    alloc: Global,
    files: SharedFiles<'_, '_, '_>,
    rest: &[usize],
    marks: &mut Vec<bool>,
    covers: &mut Vec<Cover>,
    own: &mut Vec<Option<Items<Fault>>>,
) -> Result<(), NoMemory>
    requires rows { InRange files.rows.now }
    requires range { All (λ n. n < length files.rows.now) rest.now }
    ensures kept { HoldsAll (executable_view files.entry.executable.now) (executable_view files.entry.part.now) files.entry.rows.now rest.now
        → AreLinks (executable_view files.entry.executable.now) files.entry.rows.now
        → AreCovers (executable_view files.entry.executable.now) covers.old.items → AreCovers (executable_view files.entry.executable.now) covers.new.items }
    ensures old { (n : ℕ) → IsCovered covers.old.items n → IsCovered covers.new.items n }
    ensures rest { OnOk result ((n : ℕ) → Contains rest.now n → IsCovered covers.new.items n) }
    ensures own { AreOwnOver files.entry.executable.now.types.now files.entry.readings.now own.old.items
        → AreOwnOver files.entry.executable.now.types.now files.entry.readings.now own.new.items }
{
    let rows = files.rows;
    if rest.len() <= FEW + rows.len() / PARTS || !lead_apart(alloc, rows, rest)? {
        find_own_of(alloc, files.executable.types, files.readings, rest, own)?;
        return cover_these(alloc, files, rest, marks, covers);
    }
    let (front, back) = rest.split_at(rest.len() / 2);
    cover_half(alloc, files, front, marks, covers, own)?;
    cover_half(alloc, files, back, marks, covers, own)
}

/// The same of a half, for which those operations and fragments alone are left that stand in files to which it leads.
#[cycle(halves)]
fn cover_half(
    alloc: Global,
    files: SharedFiles<'_, '_, '_>,
    half: &[usize],
    marks: &mut Vec<bool>,
    covers: &mut Vec<Cover>,
    own: &mut Vec<Option<Items<Fault>>>,
) -> Result<(), NoMemory>
    requires rows { InRange files.rows.now }
    requires range { All (λ n. n < length files.rows.now) half.now }
    ensures kept { HoldsAll (executable_view files.entry.executable.now) (executable_view files.entry.part.now) files.entry.rows.now half.now
        → AreLinks (executable_view files.entry.executable.now) files.entry.rows.now
        → AreCovers (executable_view files.entry.executable.now) covers.old.items → AreCovers (executable_view files.entry.executable.now) covers.new.items }
    ensures old { (n : ℕ) → IsCovered covers.old.items n → IsCovered covers.new.items n }
    ensures rest { OnOk result ((n : ℕ) → Contains half.now n → IsCovered covers.new.items n) }
    ensures own { AreOwnOver files.entry.executable.now.types.now files.entry.readings.now own.old.items
        → AreOwnOver files.entry.executable.now.types.now files.entry.readings.now own.new.items }
{
    let led = reach_rows(alloc, files.rows, half)?;
    let led = marked(alloc, files.rows.len(), &led)?;
    let operations = operations_in(alloc, files.part.operations, &led)?;
    let fragments = fragments_in(alloc, files.part.fragments, &led)?;
    let part = Executable {
        types: files.part.types,
        operations: &operations,
        fragments: &fragments,
    };
    let files = SharedFiles {
        executable: files.executable,
        part: &part,
        readings: files.readings,
        rows: files.rows,
    };
    cover_by_halves(alloc, files, half, marks, covers, own)
}

/// Adds covers until each file stands in one. What each of the files in none tells alone is found on the way.
pub(crate) fn cover_rest(
    alloc: Global,
    files: SharedFiles<'_, '_, '_>,
    covers: &mut Vec<Cover>,
    own: &mut Vec<Option<Items<Fault>>>,
) -> Result<(), NoMemory>
    requires rows { InRange files.rows.now }
    requires part { executable_view files.part.now ≡ executable_view files.executable.now }
    ensures kept { AreLinks (executable_view files.entry.executable.now) files.entry.rows.now
        → AreCovers (executable_view files.entry.executable.now) covers.old.items → AreCovers (executable_view files.entry.executable.now) covers.new.items }
    ensures all { OnOk result ((n : ℕ) → n < length files.entry.rows.now → IsCovered covers.new.items n) }
    ensures own { AreOwnOver files.entry.executable.now.types.now files.entry.readings.now own.old.items
        → AreOwnOver files.entry.executable.now.types.now files.entry.readings.now own.new.items }
{
    let mut marks = vec![in alloc; false; files.rows.len()]?;
    mark_covers(&mut marks, covers);
    let rest = unmarked(alloc, &marks)?;
    if rest.is_empty() {
        return Ok(());
    }
    cover_by_halves(alloc, files, &rest, &mut marks, covers, own)
}

/// Puts what is told of the covers behind the others.
pub(crate) fn put_faults(covers: &[Cover], all: &mut Vec<Fault>) -> Result<(), NoMemory>
    ensures { OnOk result (all.new.items ≡ all.old.items ++ flat_map (λ c. c.faults.items) covers.now) }
{
    for cover in covers {
        all.extend_from_slice(&cover.faults)?;
    }
    Ok(())
}

/// Keeps the covers in which that file is not.
pub(crate) fn keep_without(covers: &mut Vec<Cover>, file: usize)
    ensures { covers.new.items ≡ filter (λ c. not (list_any (λ n. n == file) c.files.items)) covers.old.items }
{
    covers.retain(|cover| !has_file(&cover.files, file));
}

/// Keeps the covers of which no file is marked.
pub(crate) fn keep_unmarked(covers: &mut Vec<Cover>, marks: &[bool])
    ensures { covers.new.items ≡ filter (λ c. not (list_any (λ n. slice_index_or marks.now n false) c.files.items)) covers.old.items }
{
    covers.retain(|cover| !has_marked(marks, &cover.files));
}
