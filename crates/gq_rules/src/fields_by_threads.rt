//! What is wrong with fields each by itself, looked for by two threads.
ghost use Rattle.std.specs.Prelude.{◌≡◌, ◌⊎◌, [], IfOk};
ghost use Rattle.gq_document.specs.Executable.{executable_view};
ghost use Rattle.gq_fields.specs.FieldFaults.{IsFieldFault};
ghost use Rattle.gq_fault.specs.Adds.{AddsExactly};
ghost use Rattle.gq_rules.specs.Helping.Halves.{joined};

use crate::rule_faults::field_faults;
use gq_document::Executable;
use gq_fault::Fault;
use gq_text::NoMemory;
use std::alloc::Global;
use std::thread::{Threads, join};

/// What is wrong with fields, arguments, directives and values: in a half of the operations and fragments a thread.
pub(crate) fn field_faults_by_threads<R: Threads>(
    rt: &R,
    alloc: Global,
    executable: &Executable<'_>,
) -> Result<Vec<Fault>, NoMemory>
    ensures { IfOk result (λ faults. AddsExactly (IsFieldFault (executable_view executable.now)) [] faults.items) }
{
    let (first, other) = halves(executable);
    let faults = faults_of_both(rt, alloc, &first, &other)?;
    Ok(faults)
}

/// A half of the operations and of the fragments, and the others, over the same types.
fn halves<'a>(executable: &Executable<'a>) -> (Executable<'a>, Executable<'a>)
    ensures all { executable_view executable.now ≡ joined (executable_view result.0) (executable_view result.1) }
    ensures types { result.1.types ≡ result.0.types }
{
    let Executable {
        types,
        operations,
        fragments,
    } = *executable;
    let (first_operations, other_operations) = operations.split_at(operations.len() / 2);
    let (first_fragments, other_fragments) = fragments.split_at(fragments.len() / 2);
    let first = Executable {
        types,
        operations: first_operations,
        fragments: first_fragments,
    };
    let other = Executable {
        types,
        operations: other_operations,
        fragments: other_fragments,
    };
    (first, other)
}

/// What is wrong with the fields of the one and of the other, which are looked at in a thread each.
fn faults_of_both<R: Threads>(
    rt: &R,
    alloc: Global,
    first: &Executable<'_>,
    other: &Executable<'_>,
) -> Result<Vec<Fault>, NoMemory>
    ensures { IfOk result (λ faults. AddsExactly (λ fault. IsFieldFault (executable_view first.now) fault ⊎ IsFieldFault (executable_view other.now) fault)
        [] faults.items) }
{
    let of_first = || -> Result<Vec<Fault>, NoMemory>
        ensures { IfOk result (λ faults. AddsExactly (IsFieldFault (executable_view first.entry.now)) [] faults.items) }
    { field_faults(alloc, first) };
    let of_other = || -> Result<Vec<Fault>, NoMemory>
        ensures { IfOk result (λ faults. AddsExactly (IsFieldFault (executable_view other.entry.now)) [] faults.items) }
    { field_faults(alloc, other) };
    let (found, others) = join(rt, of_first, of_other);
    let mut faults = found?;
    faults.append(&mut others?)?;
    Ok(faults)
}
