//! Fields that do not merge.
ghost use Rattle.std.specs.Prelude.{◌≡◌, ◌*◌, ◌<◌, ◌++◌, ◌∷◌, [], OnOk, length, map};
ghost use Rattle.gq_fault.specs.declared.code.Code.TheVariants.{FieldsDoNotMerge};
ghost use Rattle.gq_fault.specs.Adds.{AddsExactly};
ghost use Rattle.gq_graph.specs.Reach.{InRange};
ghost use Rattle.gq_document.specs.Executable.{executable_view};
ghost use Rattle.gq_merging.specs.FieldsMerge.{IsMergingFault};
ghost use Rattle.gq_merging.specs.Helping.Groups.{AreMerged};
ghost use Rattle.gq_merging.specs.Helping.NameTables.{AreMetByKey, by_name_view};
ghost use Rattle.gq_merging.specs.Helping.PairTables.{AreMet, IsMetIn, IsAfter, IsMetReached, IsGiven, IsFaultOf, Gains, Looked};
ghost use Rattle.gq_merging.specs.Helping.SearchTables.{HaveSets};
ghost use Rattle.gq_merging.specs.Helping.SetTables.{AreRows, members_at};
ghost use Rattle.gq_merging.specs.Helping.Views.{member_view, members_view, rows_view, met_view, look_view};

use crate::by_name::FieldsByName;
use crate::comparing::{differ, is_no_later, key};
use crate::groups::{merged_rows, merged_rows_by_threads};
use crate::members::{all_spreads, own_members, own_spreads};
use crate::pairs::{Look, Met, put_below, put_lefts, put_rights, starts};
use crate::passed::passed_rows;
use crate::purpose::Purpose;
use crate::rows::{Member, Row, all_rows};
use crate::search::search_groups;
use gq_document::Executable;
use gq_fault::{Code, Fault};
use gq_text::{NoMemory, Span};
use indexmap::IndexSet;
use std::alloc::Global;
use std::thread::Threads;

/// The most fields that are not put into a table by their keys: to go over so few takes less time than to make one.
const FEW: usize = 16;

/// The fault of the second of two fields that meet, if they differ and the first one stands no later.
pub(crate) fn add_fault_of(
    look: Look<'_>,
    one: &Met<'_>,
    faults: &mut Vec<Fault>,
) -> Result<(), NoMemory>
    ensures { OnOk result (AddsExactly (IsFaultOf (look_view look.entry) (met_view one.now)) faults.old.items faults.new.items) }
{
    let left = one.left.it;
    let right = one.right.it;
    if !is_no_later(&left, &right) {
        return Ok(());
    }
    let breaks = differ(look.alloc, look.types, look.purpose, &left, &right)?;
    if breaks {
        add_fault_over(right.file, right.field.name.span, faults)?;
    }
    Ok(())
}

/// The fault of a field with that name's place.
fn add_fault_over(file: usize, span: Span, faults: &mut Vec<Fault>) -> Result<(), NoMemory>
    ensures { OnOk result (faults.new.items ≡ faults.old.items ++ record { file = file; start = span.start; code = FieldsDoNotMerge; end = span.end } ∷ []) }
{
    faults.push(Fault {
        file,
        start: span.start,
        code: Code::FieldsDoNotMerge,
        end: span.end,
    })?;
    Ok(())
}

/// Looks at two fields, if they have one key: adds their fault, and the pair of sets in their braces.
fn look_at(
    look: Look<'_>,
    left: &Member<'_>,
    right: &Member<'_>,
    faults: &mut Vec<Fault>,
    found: &mut IndexSet<u128>,
) -> Result<(), NoMemory>
    ensures { OnOk result (Looked (look_view look.entry) (AreMet (member_view left.now ∷ []) (member_view right.now ∷ [])) faults.old.items faults.new.items found.old.keys found.new.keys) }
{
    if key(&left.it) == key(&right.it) {
        let one = Met {
            left: *left,
            right: *right,
        };
        add_fault_of(look, &one, faults)?;
        put_below(look, &one, found)?;
    }
    Ok(())
}

fn look_with(
    look: Look<'_>,
    left: &Member<'_>,
    right: &[Member<'_>],
    faults: &mut Vec<Fault>,
    found: &mut IndexSet<u128>,
) -> Result<(), NoMemory>
    ensures { OnOk result (Looked (look_view look.entry) (AreMet (member_view left.now ∷ []) (members_view right.now)) faults.old.items faults.new.items found.old.keys found.new.keys) }
{
    for member in right {
        look_at(look, left, member, faults, found)?;
    }
    Ok(())
}

/// Looks at each field of the one list with each of the other.
fn look_among(
    look: Look<'_>,
    left: &[Member<'_>],
    right: &[Member<'_>],
    faults: &mut Vec<Fault>,
    found: &mut IndexSet<u128>,
) -> Result<(), NoMemory>
    ensures { OnOk result (Looked (look_view look.entry) (AreMet (members_view left.now) (members_view right.now)) faults.old.items faults.new.items found.old.keys found.new.keys) }
{
    for member in left {
        look_with(look, member, right, faults, found)?;
    }
    Ok(())
}

/// Looks at a field with those of the table that have its key.
fn look_by_key(
    look: Look<'_>,
    left: &Member<'_>,
    right: &FieldsByName<'_>,
    faults: &mut Vec<Fault>,
    found: &mut IndexSet<u128>,
) -> Result<(), NoMemory>
    ensures { OnOk result (Looked (look_view look.entry) (AreMetByKey (member_view left.now ∷ []) (by_name_view right.now)) faults.old.items faults.new.items found.old.keys found.new.keys) }
{
    if let Some(those) = right.with_name(key(&left.it)) {
        look_with(look, left, those, faults, found)?;
    }
    Ok(())
}

/// Looks at each field of the list with those of the table that have its key.
fn look_among_keyed(
    look: Look<'_>,
    left: &[Member<'_>],
    right: &FieldsByName<'_>,
    faults: &mut Vec<Fault>,
    found: &mut IndexSet<u128>,
) -> Result<(), NoMemory>
    ensures { OnOk result (Looked (look_view look.entry) (AreMetByKey (members_view left.now) (by_name_view right.now)) faults.old.items faults.new.items found.old.keys found.new.keys) }
{
    for member in left {
        look_by_key(look, member, right, faults, found)?;
    }
    Ok(())
}

/// Looks at the fields that stand in the one set with those that stand in the other.
fn look_at_sets(
    look: Look<'_>,
    left: usize,
    right: usize,
    faults: &mut Vec<Fault>,
    found: &mut IndexSet<u128>,
) -> Result<(), NoMemory>
    requires left { left < length look.rows.now }
    requires right { right < length look.rows.now }
    ensures { OnOk result (Looked (look_view look.entry)
        (AreMet (members_at (rows_view look.entry.rows.now) left) (members_at (rows_view look.entry.rows.now) right))
        faults.old.items faults.new.items found.old.keys found.new.keys) }
{
    let left = own_members(look.rows, left);
    let right = own_members(look.rows, right);
    if right.len() <= FEW {
        return look_among(look, left, right, faults, found);
    }
    let by_key = FieldsByName::by_key(look.alloc, right)?;
    look_among_keyed(look, left, &by_key, faults, found)
}

/// Looks at the pair of sets with that number: at the fields that stand in them, and puts the pairs of the fragments that are
/// spread in the one with the other.
fn look_at_pair(
    look: Look<'_>,
    number: u128,
    faults: &mut Vec<Fault>,
    found: &mut IndexSet<u128>,
) -> Result<(), NoMemory>
    requires number { number < length look.rows.now * length look.rows.now }
    ensures puts { OnOk result (AddsExactly (IsGiven (IsMetIn (look_view look.entry) number) (IsFaultOf (look_view look.entry))) faults.old.items faults.new.items) }
    ensures gains { OnOk result (Gains (IsAfter (look_view look.entry) number) found.old.keys found.new.keys) }
{
    let count = look.rows.len() as u128;
    let left = (number / count) as usize;
    let right = (number % count) as usize;
    look_at_sets(look, left, right, faults, found)?;
    put_lefts(look, own_spreads(look.rows, left), right, found)?;
    put_rights(look, left, own_spreads(look.rows, right), found)?;
    Ok(())
}

/// The faults of all fields that meet in a set that is not passed over, or under it, pair by pair. A pair of sets is looked at once.
fn add_faults_by_pairs(
    look: Look<'_>,
    passed: &[bool],
    faults: &mut Vec<Fault>,
) -> Result<(), NoMemory>
    requires range { InRange look.spreads.now }
    requires spreads { map (λ v. v.items) look.spreads.now ≡ map (λ r. r.spreads.items) look.rows.now }
    requires size { look.size ≡ length look.rows.now * length look.rows.now }
    requires passed { length passed.now ≡ length look.rows.now }
    ensures { OnOk result (AddsExactly (IsGiven (IsMetReached (look_view look.entry) passed.now) (IsFaultOf (look_view look.entry))) faults.old.items faults.new.items) }
{
    let mut found = starts(look.alloc, passed, look.size)?;
    let mut done = 0;
    while done < found.len() {
        let number = found.as_slice()[done];
        look_at_pair(look, number, faults, &mut found)?;
        done += 1;
    }
    Ok(())
}

/// The same by groups, or where they would be too many, pair by pair.
fn add_faults_for(look: Look<'_>, passed: &[bool], faults: &mut Vec<Fault>) -> Result<(), NoMemory>
    requires range { InRange look.spreads.now }
    requires spreads { map (λ v. v.items) look.spreads.now ≡ map (λ r. r.spreads.items) look.rows.now }
    requires sets { HaveSets (rows_view look.rows.now) }
    requires size { look.size ≡ length look.rows.now * length look.rows.now }
    requires passed { length passed.now ≡ length look.rows.now }
    ensures { OnOk result (AddsExactly (IsGiven (IsMetReached (look_view look.entry) passed.now) (IsFaultOf (look_view look.entry))) faults.old.items faults.new.items) }
{
    match search_groups(look, passed)? {
        Some(mut found) => {
            faults.append(&mut found)?;
            Ok(())
        }
        None => add_faults_by_pairs(look, passed, faults),
    }
}

/// The faults of all fields that do not merge, where it is known of the marked sets that the fields under them do.
fn add_unmarked_faults(
    alloc: Global,
    executable: &Executable<'_>,
    rows: &[Row<'_>],
    spreads: &[Vec<usize>],
    marks: &[bool],
    faults: &mut Vec<Fault>,
) -> Result<(), NoMemory>
    requires rows { AreRows (executable_view executable.now) (rows_view rows.now) }
    requires range { InRange spreads.now }
    requires spreads { map (λ v. v.items) spreads.now ≡ map (λ r. r.spreads.items) rows.now }
    requires merged { AreMerged (executable_view executable.now) (rows_view rows.now) marks.now }
    ensures { OnOk result (AddsExactly (IsMergingFault (executable_view executable.now)) faults.old.items faults.new.items) }
{
    let passed = passed_rows(alloc, spreads, marks)?;
    let count = rows.len() as u128;
    let shapes = Look {
        alloc,
        types: executable.types,
        purpose: Purpose::Shapes,
        rows,
        spreads,
        size: count * count,
    };
    add_faults_for(shapes, &passed, faults)?;
    let names = Look {
        purpose: Purpose::Names,
        ..shapes
    };
    add_faults_for(names, &passed, faults)?;
    Ok(())
}

/// Each field that does not merge with one that stands no later, in any selection set of the project, at its name.
///
/// Selection sets of which it is known that all fields under them merge are passed over. Under the others fields are looked at in
/// groups, which takes time for the fields that each operation reaches. Only where the groups would be too many are pairs of
/// fields looked at, each pair of sets once: that takes time for the pairs of fields that stand in them, and memory for the pairs
/// of sets. Identical arguments in one order take linear time, others time for each pair of values of one name.
pub fn add_merging_faults(
    alloc: Global,
    executable: &Executable<'_>,
    faults: &mut Vec<Fault>,
) -> Result<(), NoMemory>
    ensures { OnOk result (AddsExactly (IsMergingFault (executable_view executable.now)) faults.old.items faults.new.items) }
{
    let rows = all_rows(alloc, executable)?;
    let spreads = all_spreads(alloc, &rows)?;
    let marks = merged_rows(alloc, executable, &rows, &spreads)?;
    add_unmarked_faults(alloc, executable, &rows, &spreads, &marks, faults)?;
    Ok(())
}

/// The same, where two threads find of which sets it is known that the fields under them merge.
pub fn add_merging_faults_by_threads<R: Threads + Sync>(
    rt: &R,
    alloc: Global,
    executable: &Executable<'_>,
    faults: &mut Vec<Fault>,
) -> Result<(), NoMemory>
    ensures { OnOk result (AddsExactly (IsMergingFault (executable_view executable.now)) faults.old.items faults.new.items) }
{
    let rows = all_rows(alloc, executable)?;
    let spreads = all_spreads(alloc, &rows)?;
    let marks = merged_rows_by_threads(rt, alloc, executable, &rows, &spreads)?;
    add_unmarked_faults(alloc, executable, &rows, &spreads, &marks, faults)?;
    Ok(())
}
