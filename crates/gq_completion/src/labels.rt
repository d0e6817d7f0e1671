//! Names in the order of their bytes, each once.
ghost use Rattle.std.specs.Prelude.{◌≡◌, ◌↔◌, ℕ, List, IfOk, Contains, map};
ghost use Rattle.std.specs.Cmp.Lexicographic.{slice_cmp};
ghost use Rattle.std.specs.List.Sorted.{IsStrictlySortedBy};
ghost use Rattle.std.specs.Ordering.{nat_cmp};
ghost use Rattle.gq_completion.specs.Helping.Labels.{labelled};

use crate::completion::{Completion, CompletionKind};
use gq_text::{NoMemory, OwnedText};
use std::alloc::Global;

/// The names in their order, each once. It takes no memory.
fn in_order(mut names: Vec<OwnedText>) -> Vec<OwnedText>
    ensures sorted { IsStrictlySortedBy (slice_cmp nat_cmp) result.items }
    ensures same { (name : List ℕ) → Contains result.items name ↔ Contains names.items name }
{
    names.sort_unstable();
    names.dedup();
    names
}

/// Completions of that kind with these names.
fn labelled(
    alloc: Global,
    kind: CompletionKind,
    names: Vec<OwnedText>,
) -> Result<Vec<Completion>, NoMemory>
    ensures { IfOk result (λ all. all.items ≡ map (labelled kind) names.items) }
{
    let mut all = Vec::new(alloc);
    for label in names {
        all.push(Completion { kind, label })?;
    }
    Ok(all)
}

/// Completions of that kind with these names, in the order of their bytes, each once.
pub(crate) fn completions_of(
    alloc: Global,
    kind: CompletionKind,
    names: Vec<OwnedText>,
) -> Result<Vec<Completion>, NoMemory>
    ensures sorted { IfOk result (λ all. IsStrictlySortedBy (λ a b. slice_cmp nat_cmp a.label b.label) all.items) }
    ensures exact { IfOk result (λ all. (item : Completion) → Contains all.items item ↔ ((item.kind ≡ kind) × Contains names.items item.label)) }
{
    let ordered = in_order(names);
    labelled(alloc, kind, ordered)
}
