//! What is told of files by halves of them: those that have nothing to do with each other are looked at apart, each while its tree
//! is in a processor's caches, and in several threads.
ghost use Rattle.std.specs.Prelude.{◌≡◌, ◌<◌, ◌∷◌, [], All, IfOk, OnOk, length};
ghost use Rattle.std.specs.Thread.{IsSync};
ghost use Rattle.gq_tree.specs.Readings.{unshared_view};
ghost use Rattle.gq_types.specs.Look.{types_view};
ghost use Rattle.gq_fault.specs.Adds.{AddsExactly};
ghost use Rattle.gq_graph.specs.Reach.{InRange};
ghost use Rattle.gq_document.specs.Executable.{executable_view};
ghost use Rattle.gq_by_file.specs.Links.{AreLinks};
ghost use Rattle.gq_by_file.specs.Helping.Covers.{HoldsAll};
ghost use Rattle.gq_by_file.specs.Helping.Told.{AreToldOf, IsOwnOf};

use crate::alone::{found_alone, put_in_file};
use crate::closed_sets::faults_of_closed_sets_are_faults;
use crate::covers::{FEW, PARTS, lead_apart};
use crate::laws::numbers_of_files_are_unseen;
use crate::marks::marked;
use crate::part::{found_within, fragments_in, operations_in};
use gq_document::Executable;
use gq_fault::Fault;
use gq_graph::reach_rows;
use gq_text::NoMemory;
use gq_tree::Parsed;
use gq_types::Types;
use std::alloc::Global;
use std::thread::{Threads, join};

/// Puts what the file of that number tells alone behind other faults; nothing, where there is no such file.
fn add_own(
    alloc: Global,
    types: &Types,
    readings: &[Parsed],
    file: usize,
    all: &mut Vec<Fault>,
) -> Result<(), NoMemory>
    ensures { OnOk result (AddsExactly (IsOwnOf (types_view types.now) (unshared_view readings.now) (file ∷ [])) all.old.items all.new.items) }
{
    numbers_of_files_are_unseen();
    if file >= readings.len() {
        return Ok(());
    }
    let own = found_alone(alloc, types, &readings[file])?;
    put_in_file(file, &own, all)
}

/// So of each of these files.
fn add_own_of_all(
    alloc: Global,
    types: &Types,
    readings: &[Parsed],
    files: &[usize],
    all: &mut Vec<Fault>,
) -> Result<(), NoMemory>
    ensures { OnOk result (AddsExactly (IsOwnOf (types_view types.now) (unshared_view readings.now) files.now) all.old.items all.new.items) }
{
    for file in files {
        add_own(alloc, types, readings, *file, all)?;
    }
    Ok(())
}

/// What is looked at: the operations and fragments in all files, as these are read, and where their spreads lead.
#[derive(Clone, Copy)]
pub(crate) struct Files<'a> {
    pub(crate) executable: &'a Executable<'a>,
    pub(crate) readings: &'a [Parsed],
    pub(crate) rows: &'a [Vec<usize>],
}

/// What is told of all that these files lead to, which are looked at together, and of each of these alone. Of the operations and fragments a
/// part is left that has all that is looked at.
fn found_together(
    alloc: Global,
    files: Files<'_>,
    part: &Executable<'_>,
    rest: &[usize],
) -> Result<Vec<Fault>, NoMemory>
    requires rows { InRange files.rows.now }
    requires range { All (λ n. n < length files.rows.now) rest.now }
    ensures { IfOk result (λ faults. HoldsAll (executable_view files.entry.executable.now) (executable_view part.now) files.entry.rows.now rest.now
        → AreLinks (executable_view files.entry.executable.now) files.entry.rows.now
        → AreToldOf (executable_view files.entry.executable.now) (unshared_view files.entry.readings.now) rest.now faults.items) }
{
    faults_of_closed_sets_are_faults();
    let led = reach_rows(alloc, files.rows, rest)?;
    let mut faults = found_within(alloc, part, files.rows.len(), &led)?;
    let types = files.executable.types;
    add_own_of_all(alloc, types, files.readings, rest, &mut faults)?;
    Ok(faults)
}

/// The same by halves, as long as these lead to little that both lead to.
#[cycle(halves)]
fn found_by_halves(
    alloc: Global,
    files: Files<'_>,
    part: &Executable<'_>,
    rest: &[usize],
) -> Result<Vec<Fault>, NoMemory>
    requires rows { InRange files.rows.now }
    requires range { All (λ n. n < length files.rows.now) rest.now }
    ensures { IfOk result (λ faults. HoldsAll (executable_view files.entry.executable.now) (executable_view part.now) files.entry.rows.now rest.now
        → AreLinks (executable_view files.entry.executable.now) files.entry.rows.now
        → AreToldOf (executable_view files.entry.executable.now) (unshared_view files.entry.readings.now) rest.now faults.items) }
{
    let rows = files.rows;
    if rest.len() <= FEW + rows.len() / PARTS || !lead_apart(alloc, rows, rest)? {
        return found_together(alloc, files, part, rest);
    }
    let (front, back) = rest.split_at(rest.len() / 2);
    let mut faults = found_of_half(alloc, files, part, front)?;
    let mut others = found_of_half(alloc, files, part, back)?;
    faults.append(&mut others)?;
    Ok(faults)
}

/// The same of a half, for which those operations and fragments alone are left that stand in files to which it leads.
#[cycle(halves)]
fn found_of_half(
    alloc: Global,
    files: Files<'_>,
    part: &Executable<'_>,
    half: &[usize],
) -> Result<Vec<Fault>, NoMemory>
    requires rows { InRange files.rows.now }
    requires range { All (λ n. n < length files.rows.now) half.now }
    ensures { IfOk result (λ faults. HoldsAll (executable_view files.entry.executable.now) (executable_view part.now) files.entry.rows.now half.now
        → AreLinks (executable_view files.entry.executable.now) files.entry.rows.now
        → AreToldOf (executable_view files.entry.executable.now) (unshared_view files.entry.readings.now) half.now faults.items) }
{
    let led = reach_rows(alloc, files.rows, half)?;
    let led = marked(alloc, files.rows.len(), &led)?;
    let operations = operations_in(alloc, part.operations, &led)?;
    let fragments = fragments_in(alloc, part.fragments, &led)?;
    let part = Executable {
        types: part.types,
        operations: &operations,
        fragments: &fragments,
    };
    found_by_halves(alloc, files, &part, half)
}

/// The same, where the first halves are looked at in threads: they are halved that often.
#[cycle(threads)]
pub(crate) fn found_by_threads<R: Threads + Sync>(
    rt: &R,
    alloc: Global,
    files: Files<'_>,
    rest: &[usize],
    halvings: usize,
) -> Result<Vec<Fault>, NoMemory>
    requires rows { InRange files.rows.now }
    requires range { All (λ n. n < length files.rows.now) rest.now }
    ensures { IfOk result (λ faults. AreLinks (executable_view files.entry.executable.now) files.entry.rows.now
        → AreToldOf (executable_view files.entry.executable.now) (unshared_view files.entry.readings.now) rest.now faults.items) }
{
    if halvings == 0 || !lead_apart(alloc, files.rows, rest)? {
        return found_by_halves(alloc, files, files.executable, rest);
    }
    let left = halvings - 1;
    let (front, back) = rest.split_at(rest.len() / 2);
    let find_front = || -> Result<Vec<Fault>, NoMemory>
        requires threads { IsSync R.row }
        requires rows { InRange files.rows.now }
        requires range { All (λ n. n < length files.rows.now) front.now }
        ensures { IfOk result (λ faults. AreLinks (executable_view files.entry.executable.now) files.entry.rows.now
            → AreToldOf (executable_view files.entry.executable.now) (unshared_view files.entry.readings.now) front.entry.now faults.items) }
    { found_by_threads(rt, alloc, files, front, left) };
    let find_back = || -> Result<Vec<Fault>, NoMemory>
        requires threads { IsSync R.row }
        requires rows { InRange files.rows.now }
        requires range { All (λ n. n < length files.rows.now) back.now }
        ensures { IfOk result (λ faults. AreLinks (executable_view files.entry.executable.now) files.entry.rows.now
            → AreToldOf (executable_view files.entry.executable.now) (unshared_view files.entry.readings.now) back.entry.now faults.items) }
    { found_by_threads(rt, alloc, files, back, left) };
    let (front, back) = join(rt, find_front, find_back);
    let mut faults = front?;
    faults.append(&mut back?)?;
    Ok(faults)
}
