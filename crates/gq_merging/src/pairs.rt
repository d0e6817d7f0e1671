//! Pairs of selection sets whose fields meet. Of `count` sets, the pair of the sets `i` and `j` has the number
//! `i * count + j`, which 128 bits hold.
ghost use Rattle.std.specs.Prelude.{[], Contains, IfOk, OnOk, length};
ghost use Rattle.gq_merging.specs.Helping.PairTables.{IsNumber, IsStart, IsBelow, IsGiven, Gains};
ghost use Rattle.gq_merging.specs.Helping.Views.{met_view, look_view};

use crate::comparing::leads_on;
use crate::purpose::Purpose;
use crate::rows::{Member, Row};
use gq_text::NoMemory;
use gq_types::Types;
use indexmap::IndexSet;
use std::alloc::Global;

/// What is looked at for one purpose.
#[derive(Clone, Copy)]
pub(crate) struct Look<'a> {
    pub(crate) alloc: Global,
    pub(crate) types: &'a Types,
    pub(crate) purpose: Purpose,
    pub(crate) rows: &'a [Row<'a>],
    pub(crate) spreads: &'a [Vec<usize>],
    /// How many pairs of sets there are.
    pub(crate) size: u128,
}

/// Two fields of one response key.
#[derive(Clone, Copy)]
pub(crate) struct Met<'a> {
    pub(crate) left: Member<'a>,
    pub(crate) right: Member<'a>,
}

/// Puts the number of a pair of sets among the others, where it is below the size.
fn put_number(
    count: usize,
    size: u128,
    left: usize,
    right: usize,
    found: &mut IndexSet<u128>,
) -> Result<(), NoMemory>
    ensures { OnOk result (Gains (IsNumber count size left right) found.old.keys found.new.keys) }
{
    let Some(first) = (left as u128).checked_mul(count as u128) else {
        return Ok(());
    };
    let Some(number) = first.checked_add(right as u128) else {
        return Ok(());
    };
    if number < size {
        found.insert(number)?;
    }
    Ok(())
}

/// The pairs of each set with itself that is not passed over.
pub(crate) fn starts(alloc: Global, passed: &[bool], size: u128) -> Result<IndexSet<u128>, NoMemory>
    ensures { IfOk result (λ found. Gains (IsStart passed.now (length passed.now) size (length passed.now)) [] found.keys) }
{
    let mut found = IndexSet::new(alloc);
    for number in 0..passed.len() {
        let is_passed = passed[number];
        if !is_passed {
            put_number(passed.len(), size, number, number, &mut found)?;
        }
    }
    Ok(found)
}

/// The pair of the sets in the braces of two fields that meet, where what stands in them meets too.
pub(crate) fn put_below(
    look: Look<'_>,
    one: &Met<'_>,
    found: &mut IndexSet<u128>,
) -> Result<(), NoMemory>
    ensures { OnOk result (Gains (IsBelow (look_view look.entry) (met_view one.now)) found.old.keys found.new.keys) }
{
    if leads_on(look.types, look.purpose, &one.left.it, &one.right.it) {
        put_number(
            look.rows.len(),
            look.size,
            one.left.below,
            one.right.below,
            found,
        )?;
    }
    Ok(())
}

/// The pairs of each of these sets with that one.
pub(crate) fn put_lefts(
    look: Look<'_>,
    lefts: &[usize],
    right: usize,
    found: &mut IndexSet<u128>,
) -> Result<(), NoMemory>
    ensures { OnOk result (Gains (IsGiven (Contains lefts.now) (λ left. IsNumber (length look.entry.rows.now) look.entry.size left right)) found.old.keys found.new.keys) }
{
    for left in lefts {
        put_number(look.rows.len(), look.size, *left, right, found)?;
    }
    Ok(())
}

/// The pairs of that set with each of these.
pub(crate) fn put_rights(
    look: Look<'_>,
    left: usize,
    rights: &[usize],
    found: &mut IndexSet<u128>,
) -> Result<(), NoMemory>
    ensures { OnOk result (Gains (IsGiven (Contains rights.now) (λ right. IsNumber (length look.entry.rows.now) look.entry.size left right)) found.old.keys found.new.keys) }
{
    for right in rights {
        put_number(look.rows.len(), look.size, left, *right, found)?;
    }
    Ok(())
}
