//! What the rules tell of operations and fragments in many files, looked at apart where their spreads lead to little in common.
ghost use Rattle.std.specs.Prelude.{◌≡◌, ◌↔◌, ◌<◌, false, All, Contains, IfOk, length, replicate};
ghost use Rattle.std.specs.Thread.{IsSync};
ghost use Rattle.gq_tree.specs.Readings.{unshared_view};
ghost use Rattle.gq_fault.specs.declared.fault.Fault.{Fault};
ghost use Rattle.gq_types.specs.Look.{types_view};
ghost use Rattle.gq_graph.specs.Reach.{InRange};
ghost use Rattle.gq_spreads.specs.Helping.Rows.{row_items};
ghost use Rattle.gq_type_system.specs.SchemaFaults.{IsSchemaFault};
ghost use Rattle.gq_document.specs.Executable.{executable_view};
ghost use Rattle.gq_rules.specs.RuleFaults.{IsRuleFault};
ghost use Rattle.gq_rules.specs.WrongOver.{IsWrongOver};
ghost use Rattle.gq_by_file.specs.Closed.RestsOnNames.{IsFaultByNames};
ghost use Rattle.gq_by_file.specs.Links.{AreLinks};
ghost use Rattle.gq_by_file.specs.Names.{AreNames};
ghost use Rattle.gq_by_file.specs.Helping.ByNames.{AreSpreadsOf, all_spreads};
ghost use Rattle.gq_by_file.specs.Helping.Covers.{unmarked_from};
ghost use Rattle.gq_by_file.specs.Helping.Links.{links_among};
ghost use Rattle.gq_by_file.specs.Helping.Told.{AreLearnedOf, AreToldOf, IsOver};

use crate::by_names::found_by_names;
use crate::closed_sets::{faults_across_are_by_names_or_spreads, faults_are_of_closed_sets};
use crate::covers::{lead_apart, unmarked};
use crate::halves::{Files, found_by_threads};
use crate::laws::local_faults_are_of_their_file;
use crate::links::{Links, links_of};
use crate::names::{FileNames, names_of_all};
use gq_document::Executable;
use gq_fault::Fault;
use gq_rules::wrong_over_by_threads;
use gq_text::NoMemory;
use gq_tree::Parsed;
use gq_type_system::schema_faults;
use std::alloc::Global;
use std::thread::{Threads, join};

/// So many files are looked at apart: with fewer there is no work for four threads.
const MANY: usize = 16;

/// How often the files are halved for threads: twice, for four of them.
const HALVINGS: usize = 2;

/// The names in each file, and where the spreads in each lead.
#[derive(Drop)]
struct Learned {
    names: Vec<FileNames>,
    links: Links,
}

/// What is known of the files of these documents by their names.
fn learn(alloc: Global, readings: &[Parsed]) -> Result<Learned, NoMemory>
    ensures { IfOk result (AreLearnedOf (unshared_view readings.now)) }
{
    let names = names_of_all(alloc, readings)?;
    let links = links_of(alloc, &names)?;
    Ok(Learned { names, links })
}

/// What is wrong with a type system or, where nothing is, what the rules tell of the operations and fragments over it, which are
/// those of the documents that are read so.
pub(crate) fn wrong_over<R: Threads + Sync>(
    rt: &R,
    alloc: Global,
    executable: &Executable<'_>,
    readings: &[Parsed],
) -> Result<Vec<Fault>, NoMemory>
    ensures { IfOk result (λ faults. IsOver (executable_view executable.now) (unshared_view readings.now)
        → (fault : Fault) → Contains faults.items fault ↔ IsWrongOver (executable_view executable.now) fault) }
{
    if readings.len() < MANY {
        return Ok(wrong_over_by_threads(rt, alloc, executable)?);
    }
    wrong_over_many(rt, alloc, executable, readings)
}

/// The same, where the names in all files are learned beside.
fn wrong_over_many<R: Threads + Sync>(
    rt: &R,
    alloc: Global,
    executable: &Executable<'_>,
    readings: &[Parsed],
) -> Result<Vec<Fault>, NoMemory>
    ensures { IfOk result (λ faults. IsOver (executable_view executable.now) (unshared_view readings.now)
        → (fault : Fault) → Contains faults.items fault ↔ IsWrongOver (executable_view executable.now) fault) }
{
    let types = executable.types;
    let of_types = || -> Result<Vec<Fault>, NoMemory>
        ensures { IfOk result (λ faults. (fault : Fault) → Contains faults.items fault ↔ IsSchemaFault (types_view types.entry.now) fault) }
    { schema_faults(alloc, types) };
    let of_names = || -> Result<Learned, NoMemory>
        ensures { IfOk result (AreLearnedOf (unshared_view readings.entry.now)) }
    { learn(alloc, readings) };
    let (wrong, known) = join(rt, of_types, of_names);
    let wrong = wrong?;
    if !wrong.is_empty() {
        return Ok(wrong);
    }
    let known = known?;
    let faults = rules_over(rt, alloc, executable, readings, &known)?;
    Ok(faults)
}

/// The same where nothing is wrong with the type system.
fn rules_over<R: Threads + Sync>(
    rt: &R,
    alloc: Global,
    executable: &Executable<'_>,
    readings: &[Parsed],
    known: &Learned,
) -> Result<Vec<Fault>, NoMemory>
    ensures { IfOk result (λ faults. IsOver (executable_view executable.now) (unshared_view readings.now) → AreLearnedOf (unshared_view readings.now) known.now
        → ((fault : Fault) → IsSchemaFault (executable_view executable.now).entries fault → ⊥)
        → (fault : Fault) → Contains faults.items fault ↔ IsWrongOver (executable_view executable.now) fault) }
{
    let rows: &[Vec<usize>] = &known.links.rows;
    let all = numbers_below(alloc, rows.len())?;
    if !lead_apart(alloc, rows, &all)? {
        return Ok(wrong_over_by_threads(rt, alloc, executable)?);
    }
    let faults = found_apart(rt, alloc, executable, readings, &known.names, rows, &all)?;
    Ok(faults)
}

/// All numbers below that one.
fn numbers_below(alloc: Global, count: usize) -> Result<Vec<usize>, NoMemory>
    ensures { IfOk result (λ all. all.items ≡ unmarked_from 0 (replicate count false)) }
{
    let marks = vec![in alloc; false; count]?;
    let all = unmarked(alloc, &marks)?;
    Ok(all)
}

/// What rests on names, and what is told of all files by halves of them, in several threads.
fn found_apart<R: Threads + Sync>(
    rt: &R,
    alloc: Global,
    executable: &Executable<'_>,
    readings: &[Parsed],
    names: &[FileNames],
    rows: &[Vec<usize>],
    all: &[usize],
) -> Result<Vec<Fault>, NoMemory>
    requires rows { InRange rows.now }
    requires range { All (λ n. n < length rows.now) all.now }
    ensures { IfOk result (λ faults. IsOver (executable_view executable.now) (unshared_view readings.now) → AreNames (unshared_view readings.now) names.now
        → row_items rows.now ≡ links_among names.now → all.now ≡ unmarked_from 0 (replicate (length rows.now) false)
        → (fault : Fault) → Contains faults.items fault ↔ IsRuleFault (executable_view executable.now) fault) }
{
    faults_across_are_by_names_or_spreads();
    faults_are_of_closed_sets();
    local_faults_are_of_their_file();
    let find_names = || -> Result<Vec<Fault>, NoMemory>
        ensures { IfOk result (λ faults. AreSpreadsOf (executable_view executable.entry.now) (all_spreads names.entry.now)
            → (fault : Fault) → Contains faults.items fault ↔ IsFaultByNames (executable_view executable.entry.now) fault) }
    { found_by_names(alloc, executable, names) };
    let find_files = || -> Result<Vec<Fault>, NoMemory>
        requires threads { IsSync R.row }
        requires rows { InRange rows.now }
        requires range { All (λ n. n < length rows.now) all.now }
        ensures { IfOk result (λ faults. AreLinks (executable_view executable.entry.now) rows.entry.now
            → AreToldOf (executable_view executable.entry.now) (unshared_view readings.entry.now) all.entry.now faults.items) }
    {
        let files = Files {
            executable,
            readings,
            rows,
        };
        found_by_threads(rt, alloc, files, all, HALVINGS)
    };
    let (named, found) = join(rt, find_names, find_files);
    let mut faults = named?;
    faults.append(&mut found?)?;
    Ok(faults)
}
