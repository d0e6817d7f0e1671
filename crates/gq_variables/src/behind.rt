//! The uses of variables behind the spreads of an operation: those in the fragments that it reaches.
ghost use Rattle.std.specs.Prelude.{◌≡◌, ◌<◌, ◌+◌, ℕ, All, IfOk, OnOk, length, true};
ghost use Rattle.gq_graph.specs.Reach.{row, InRange};
ghost use Rattle.gq_variables.specs.Helping.Behind.{AreBehind, AreBehindStarts};
ghost use Rattle.gq_variables.specs.Helping.VariablePlaces.{use_texts};
ghost use Rattle.gq_variables.specs.Helping.Views.{uses_view, rows_view};

use crate::all_variables_used::used_names;
use crate::reached::put_rows;
use crate::uses::Use;
use gq_graph::reach_rows;
use gq_names::NameList;
use gq_spreads::Spreads;
use gq_text::NoMemory;
use std::alloc::Global;

/// The uses behind the spreads of an operation, and their names.
#[derive(Drop)]
pub struct Behind<'a> {
    pub uses: Vec<Use<'a>>,
    pub names: NameList,
    ghost are_named: { names ≡ use_texts (uses_view uses.items) },
}

/// Whether the operations of these numbers spread the same.
pub(crate) fn spread_the_same(spreads: &Spreads, before: usize, number: usize) -> bool
    requires before { before < length spreads.now.of_operations.items }
    requires number { number < length spreads.now.of_operations.items }
    ensures { result ≡ true → row spreads.now.of_operations.items before ≡ row spreads.now.of_operations.items number }
{
    spreads.of_operations[before] == spreads.of_operations[number]
}

/// Whether there is an operation before the one of that number, which spreads the same.
fn goes_on(spreads: &Spreads, number: usize) -> bool
    requires { number < length spreads.now.of_operations.items }
    ensures { result ≡ true → (before : ℕ) × (before + 1 ≡ number) × (row spreads.now.of_operations.items before ≡ row spreads.now.of_operations.items number) }
{
    if number == 0 {
        return false;
    }
    spread_the_same(spreads, number - 1, number)
}

/// The uses in the fragments to which the starts lead. For each fragment there are rows of what it spreads and of its uses.
pub(crate) fn uses_behind<'a>(
    alloc: Global,
    of_fragments: &[Vec<usize>],
    starts: &[usize],
    rows: &[Vec<Use<'a>>],
) -> Result<Vec<Use<'a>>, NoMemory>
    requires range { InRange of_fragments.now }
    requires starts { All (λ k. k < length of_fragments.now) starts.now }
    ensures { IfOk result (λ uses. AreBehindStarts (rows_view rows.now) of_fragments.now starts.now (uses_view uses.items)) }
{
    let numbers = reach_rows(alloc, of_fragments, starts)?;
    let mut uses = Vec::new(alloc);
    put_rows(rows, &numbers, &mut uses)?;
    Ok(uses)
}

impl<'a> Behind<'a> {
    /// No uses. It takes no memory.
    pub fn none(alloc: Global) -> Behind<'a> {
        Behind {
            uses: Vec::new(alloc),
            names: NameList::new(alloc),
        }
    }

    /// Those of the operation of that number. For each fragment there is a row of its uses.
    fn of(
        alloc: Global,
        spreads: &Spreads,
        rows: &[Vec<Use<'a>>],
        number: usize,
    ) -> Result<Behind<'a>, NoMemory>
        requires range { InRange spreads.now.of_fragments.items }
        requires starts { All (λ k. k < length spreads.now.of_fragments.items) (row spreads.now.of_operations.items number) }
        requires number { number < length spreads.now.of_operations.items }
        ensures { IfOk result (λ behind. AreBehind (rows_view rows.now) spreads.now number (uses_view behind.uses.items)) }
    {
        let starts = &spreads.of_operations[number];
        let uses = uses_behind(alloc, &spreads.of_fragments, starts, rows)?;
        let names = used_names(alloc, &uses)?;
        Ok(Behind { uses, names })
    }

    /// Makes those of the operation before the ones of the operation of that number. For each fragment there is a row of its
    /// uses.
    pub fn go_on(
        &mut self,
        alloc: Global,
        spreads: &Spreads,
        rows: &[Vec<Use<'a>>],
        number: usize,
    ) -> Result<(), NoMemory>
        requires range { InRange spreads.now.of_fragments.items }
        requires starts { All (λ k. k < length spreads.now.of_fragments.items) (row spreads.now.of_operations.items number) }
        requires number { number < length spreads.now.of_operations.items }
        requires before { (before : ℕ) → before + 1 ≡ number → AreBehind (rows_view rows.now) spreads.now before (uses_view self.now.uses.items) }
        ensures { OnOk result (AreBehind (rows_view rows.now) spreads.now number (uses_view self.new.uses.items)) }
    {
        if goes_on(spreads, number) {
            return Ok(());
        }
        *self = Behind::of(alloc, spreads, rows, number)?;
        Ok(())
    }
}
