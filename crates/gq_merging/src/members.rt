//! The fields of a selection set, those of the fragments that it reaches by spreads among them.
ghost use Rattle.std.specs.Prelude.{◌≡◌, ℕ, ◌++◌, ◌<◌, All, IfOk, OnOk, length, map, Contains};
ghost use Rattle.std.specs.List.{flat_map};
ghost use Rattle.gq_graph.specs.Reach.{Reach, InRange, row};
ghost use Rattle.gq_merging.specs.Helping.SetTables.{members_at, spreads_at};
ghost use Rattle.gq_merging.specs.Helping.Views.{members_view, rows_view};

use crate::rows::{Member, Row};
use gq_graph::reach_rows;
use gq_text::NoMemory;
use std::alloc::Global;

/// A copy of the numbers.
pub(crate) fn copied(alloc: Global, numbers: &[usize]) -> Result<Vec<usize>, NoMemory>
    ensures { IfOk result (λ copy. copy.items ≡ numbers.now) }
{
    let mut copy = Vec::new(alloc);
    copy.extend_from_slice(numbers)?;
    Ok(copy)
}

/// The sets that a group reaches by spreads, each once: the group's own, and the fragments'. Where the group is one set
/// without spreads, that is the one.
pub(crate) fn reached_sets(
    alloc: Global,
    spreads: &[Vec<usize>],
    group: &[usize],
) -> Result<Vec<usize>, NoMemory>
    requires starts { All (λ n. n < length spreads.now) group.now }
    requires range { InRange spreads.now }
    ensures sound { IfOk result (λ found. All (λ n. Reach group.now (row spreads.now) n) found.items) }
    ensures complete { IfOk result (λ found. (n : ℕ) → Reach group.now (row spreads.now) n → Contains found.items n) }
    ensures within { IfOk result (λ found. All (λ n. n < length spreads.now) found.items) }
{
    match group {
        [one] if spreads[*one].is_empty() => copied(alloc, group),
        _ => reach_rows(alloc, spreads, group),
    }
}

/// The numbers of the fragments spread in each set.
pub(crate) fn all_spreads(alloc: Global, rows: &[Row<'_>]) -> Result<Vec<Vec<usize>>, NoMemory>
    ensures { IfOk result (λ table. map (λ v. v.items) table.items ≡ map (λ r. r.spreads.items) rows.now) }
{
    let mut table = Vec::new(alloc);
    for row in rows {
        table.push(copied(alloc, &row.spreads)?)?;
    }
    Ok(table)
}

/// The fields of the sets with these numbers.
pub(crate) fn gathered<'a>(
    alloc: Global,
    rows: &[Row<'a>],
    numbers: &[usize],
) -> Result<Vec<Member<'a>>, NoMemory>
    ensures { IfOk result (λ members. members_view members.items ≡ flat_map (members_at (rows_view rows.now)) numbers.now) }
{
    let mut members = Vec::new(alloc);
    for number in numbers {
        put_members(rows, *number, &mut members)?;
    }
    Ok(members)
}

/// The fields that stand in the set with that number itself.
pub(crate) fn own_members<'r, 'a>(rows: &'r [Row<'a>], number: usize) -> &'r [Member<'a>]
    requires { number < length rows.now }
    ensures { members_view result.now ≡ members_at (rows_view rows.now) number }
{
    rows[number].members.as_slice()
}

/// The numbers of the fragments that are spread in the set with that number.
pub(crate) fn own_spreads<'r>(rows: &'r [Row<'_>], number: usize) -> &'r [usize]
    requires { number < length rows.now }
    ensures { result.now ≡ spreads_at (rows_view rows.now) number }
{
    rows[number].spreads.as_slice()
}

fn put_members<'a>(
    rows: &[Row<'a>],
    number: usize,
    members: &mut Vec<Member<'a>>,
) -> Result<(), NoMemory>
    ensures { OnOk result (members_view members.new.items ≡ members_view members.old.items ++ members_at (rows_view rows.now) number) }
{
    if number < rows.len() {
        members.extend_from_slice(&rows[number].members)?;
    }
    Ok(())
}
