//! What is told of some of the files by themselves, as far as it rests on spreads.
ghost use Rattle.std.specs.Prelude.{◌≡◌, ◌↔◌, ◌<◌, ℕ, false, All, Contains, IfOk, List, filter, slice_index_or};
ghost use Rattle.std.specs.Bool.{beq};
ghost use Rattle.gq_fault.specs.declared.fault.Fault.{Fault};
ghost use Rattle.gq_document.specs.Definitions.{fragments_view, operations_view};
ghost use Rattle.std.specs.declared.alloc.Global.{Global};
ghost use Rattle.std.specs.declared.vec.Vec.{Vec};
ghost use Rattle.gq_document.specs.Executable.{ExecutableOf, executable_view};
ghost use Rattle.gq_graph.specs.Reach.{Reach, row};
ghost use Rattle.gq_by_file.specs.Helping.Covers.{HoldsAll};
ghost use Rattle.gq_by_file.specs.Closed.Closed.{StandsInFile, within};
ghost use Rattle.gq_by_file.specs.Closed.RestsOnNames.{IsFaultBySpreads, rests_on_names};

use crate::marks::{is_marked, marked};
use gq_document::{Executable, FragmentEntry, OperationEntry};
use gq_fault::{Code, Fault};
use gq_rules::found_across;
use gq_text::NoMemory;
use std::alloc::Global;

/// The operations in marked files.
pub(crate) fn operations_in<'a>(
    alloc: Global,
    operations: &[OperationEntry<'a>],
    marks: &[bool],
) -> Result<Vec<OperationEntry<'a>>, NoMemory>
    ensures { IfOk result (λ some. operations_view some.items ≡ filter (λ o. slice_index_or marks.now o.file false) (operations_view operations.now)) }
{
    let mut some = Vec::new(alloc);
    for operation in operations {
        if is_marked(marks, operation.file) {
            some.push(*operation)?;
        }
    }
    Ok(some)
}

/// The fragments in marked files.
pub(crate) fn fragments_in<'a>(
    alloc: Global,
    fragments: &[FragmentEntry<'a>],
    marks: &[bool],
) -> Result<Vec<FragmentEntry<'a>>, NoMemory>
    ensures { IfOk result (λ some. fragments_view some.items ≡ filter (λ f. slice_index_or marks.now f.file false) (fragments_view fragments.now)) }
{
    let mut some = Vec::new(alloc);
    for fragment in fragments {
        if is_marked(marks, fragment.file) {
            some.push(*fragment)?;
        }
    }
    Ok(some)
}

/// Whether a fault of that rule rests on the names of operations, fragments and spreads in all files.
pub(crate) fn rests_on_names(code: Code) -> bool
    ensures { result ≡ rests_on_names code }
{
    matches!(
        code,
        Code::OperationNameNotUnique
            | Code::AnonymousOperationNotAlone
            | Code::FragmentNameNotUnique
            | Code::FragmentNotUsed
    )
}

/// Those of these faults that rest on names, or those that do not.
pub(crate) fn resting(
    alloc: Global,
    faults: &[Fault],
    on_names: bool,
) -> Result<Vec<Fault>, NoMemory>
    ensures { IfOk result (λ some. some.items ≡ filter (λ fault. beq (rests_on_names fault.code) on_names) faults.now) }
{
    let mut some = Vec::new(alloc);
    for fault in faults {
        if rests_on_names(fault.code) == on_names {
            some.push(*fault)?;
        }
    }
    Ok(some)
}

/// What is told of operations and fragments and rests on spreads.
fn found_by_spreads(alloc: Global, executable: &Executable<'_>) -> Result<Vec<Fault>, NoMemory>
    ensures { IfOk result (λ faults. (fault : Fault) → Contains faults.items fault ↔ IsFaultBySpreads (executable_view executable.now) fault) }
{
    let faults = found_across(alloc, executable)?;
    let some = resting(alloc, &faults, false)?;
    Ok(some)
}

/// The same of those in these files, where no file has that number or a higher one, and a part is given of all operations and fragments that
/// has those in these files.
pub(crate) fn found_within(
    alloc: Global,
    part: &Executable<'_>,
    count: usize,
    files: &[usize],
) -> Result<Vec<Fault>, NoMemory>
    ensures { IfOk result (λ faults. (x : ExecutableOf) (rows : List (Vec ℕ Global)) (starts : List ℕ) → HoldsAll x (executable_view part.now) rows starts
        → ((n : ℕ) → StandsInFile x n → n < count) → All (λ n. Reach starts (row rows) n) files.now
        → (fault : Fault) → Contains faults.items fault ↔ IsFaultBySpreads (within files.now x) fault) }
{
    let marks = marked(alloc, count, files)?;
    let operations = operations_in(alloc, part.operations, &marks)?;
    let fragments = fragments_in(alloc, part.fragments, &marks)?;
    let these = Executable {
        types: part.types,
        operations: &operations,
        fragments: &fragments,
    };
    let faults = found_by_spreads(alloc, &these)?;
    Ok(faults)
}
