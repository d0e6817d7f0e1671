//! A quick test for selection sets under which all fields merge. It goes over groups of sets whose fields stand together,
//! and takes time in proportion to their fields, where a look at all pairs of fields would not.
//!
//! A group is a list of sets. Its fields are those of the sets, and of the fragments that they reach by spreads. The fields
//! of one key have to say the same, and the sets in their braces are a group again. A test begins with one set alone. Where
//! all groups pass, the fields under each set that one of them reaches merge, so a chain of fragments is tested once. A group
//! is passed over if it was there already, or if it is one set of which this is known. A set in which one spread stands alone
//! has the fields of that fragment, and is known with it.
//!
//! Where a test fails, the fragments that are spread in its set are tested, and no other set that spreads one that fails.
//!
//! Where many sets reach the same fragments, each with fields of its own, their tests take more steps than they have. Then all
//! are tested as one group, and where that fails, by classes (`unions`), and one by one in more steps, if these can be enough. After a
//! number of steps in proportion to the project the tests end.
ghost use Rattle.std.specs.Prelude.{◌≡◌, ◌<◌, ◌+◌, ◌⊎◌, ℕ, List, All, Some, IsTrue, IfOk, OnOk, true, false, length, map, slice_get, slice_index_or};
ghost use Rattle.std.specs.List.{flat_map};
ghost use Rattle.gq_graph.specs.Reach.{InRange, row};
ghost use Rattle.gq_types.specs.Entries.{EntryOf};
ghost use Rattle.gq_types.specs.Look.{types_view};
ghost use Rattle.gq_document.specs.Executable.{executable_view};
ghost use Rattle.gq_merging.specs.Helping.SetTables.{RowOf, AreRows, members_at};
ghost use Rattle.gq_merging.specs.Helping.Groups.{AreMerged};
ghost use Rattle.gq_merging.specs.Helping.GroupTables.{AreReached, IsTest, IsTested, ArePassed, AreTested, IsKnown, IsMarkedOne};
ghost use Rattle.gq_merging.specs.Helping.Views.{members_view, rows_view};
ghost use Rattle.gq_merging.specs.Helping.GroupViews.{groups_view};

use crate::classes::{Tables, groups_below, has_selections, is_through};
use crate::cliques::take_steps;
use crate::joined::joined_sets;
use crate::members::{gathered, own_members, reached_sets};
use crate::passed::named_rows;
use crate::rows::{Member, Row};
use crate::unions::tested_by_classes;
use gq_document::Executable;
use gq_graph::mark_all;
use gq_text::NoMemory;
use std::alloc::Global;
use std::thread::{Threads, join};

/// So many sets have to be marked in few steps, that by them it can be told how many would be in more.
const SOME: usize = 8;

/// How many steps are left for all tests, and how many more groups and numbers in them may be kept.
#[derive(Clone, Copy)]
struct Budget {
    steps: usize,
    room: usize,
}

/// What the tests keep for each other, that they take few steps: the place of the last group that began with each set, a mark
/// at each set of which the test failed, and what is left of their budget. Where no group is kept, there is all the room.
#[derive(Drop)]
struct Notes {
    places: Vec<usize>,
    failed: Vec<bool>,
    left: Budget,
    room: usize,
}

/// Keeps no group.
fn forget(groups: &mut Vec<Vec<usize>>, notes: &mut Notes)
    ensures { (es : List EntryOf) (rows : List RowOf) → ArePassed es rows (groups_view groups.new.items) }
{
    groups.clear();
    notes.left.room = notes.room;
}

/// Keeps no group, where less than half of the room is left.
fn make_room(groups: &mut Vec<Vec<usize>>, notes: &mut Notes)
    ensures { (es : List EntryOf) (rows : List RowOf) → ArePassed es rows (groups_view groups.old.items) → ArePassed es rows (groups_view groups.new.items) }
{
    if notes.left.room < notes.room / 2 {
        forget(groups, notes);
    }
}

/// Takes this many steps, and one more, from what is left. Where there are not so many, nothing is left and it is false.
fn spend(left: &mut usize, rows: usize, fields: usize) -> bool
    ensures { IsTrue result → left.new < left.old }
{
    if take_steps(left, rows.saturating_add(fields)) {
        return true;
    }
    *left = 0;
    false
}

/// Whether the group is one set that is marked.
fn is_marked_one(group: &[usize], marks: &[bool]) -> bool
    ensures { IsTrue result → IsMarkedOne group.now marks.now }
{
    if group.len() != 1 {
        return false;
    }
    let number = group[0];
    number < marks.len() && marks[number]
}

/// Whether an earlier group is the same as the one at that place.
pub(crate) fn is_as_before(groups: &[Vec<usize>], earlier: usize, place: usize) -> bool
    requires { place < length groups.now }
    ensures before { IsTrue result → earlier < place }
    ensures same { IsTrue result → slice_get (groups_view groups.now) earlier ≡ slice_get (groups_view groups.now) place }
{
    earlier < place && groups[earlier] == groups[place]
}

/// Whether the group at that place need not be looked at. Its place is noted.
fn is_known(groups: &[Vec<usize>], marks: &[bool], place: usize, places: &mut Vec<usize>) -> bool
    requires { place < length groups.now }
    ensures { IsTrue result → IsKnown (groups_view groups.now) marks.now place }
{
    let group = &groups[place];
    if group.is_empty() {
        return true;
    }
    if is_marked_one(group, marks) {
        return true;
    }
    let first = group[0];
    if first >= places.len() {
        return false;
    }
    let earlier = places[first];
    places[first] = place;
    is_as_before(groups, earlier, place)
}

/// How many numbers stand in the groups.
fn size_of(groups: &[Vec<usize>]) -> usize {
    let mut size: usize = 0;
    for group in groups {
        size = size.saturating_add(group.len());
    }
    size
}

/// What one group of a test has: its place, the sets that it reaches, and the fields that stand in them.
#[derive(Clone, Copy)]
struct Reached<'a> {
    place: usize,
    sets: &'a [usize],
    members: &'a [Member<'a>],
}

/// Looks at the fields of one group of a test.
fn look_at_members(
    tables: Tables<'_>,
    group: Reached<'_>,
    groups: &mut Vec<Vec<usize>>,
    reached: &mut Vec<usize>,
    left: &mut Budget,
) -> Result<bool, NoMemory>
    requires spreads { map (λ v. v.items) tables.spreads.now ≡ map (λ r. r.spreads.items) tables.rows.now }
    requires place { group.place < length groups.old.items }
    requires reached { (starts : List ℕ) → slice_get (groups_view groups.old.items) group.place ≡ Some starts → AreReached (row tables.spreads.now) starts group.sets.now }
    requires within { All (λ n. n < length tables.spreads.now) group.sets.now }
    requires members { members_view group.members.now ≡ flat_map (members_at (rows_view tables.rows.now)) group.sets.now }
    requires test { IsTest (types_view tables.types.now) (rows_view tables.rows.now) (groups_view groups.old.items) group.place reached.old.items }
    ensures test { IfOk result (λ passed. IsTrue passed →
        IsTest (types_view tables.entry.types.now) (rows_view tables.entry.rows.now) (groups_view groups.new.items) (group.entry.place + 1) reached.new.items) }
    ensures left { IfOk result (λ passed. IsTrue passed → left.new.steps < left.old.steps) }
{
    if !spend(&mut left.steps, group.sets.len(), group.members.len()) {
        return Ok(false);
    }
    let Some(mut below) = groups_below(tables, group.members)? else {
        return Ok(false);
    };
    if !spend(&mut left.room, below.len(), size_of(&below)) {
        return Ok(false);
    }
    groups.append(&mut below)?;
    reached.extend_from_slice(group.sets)?;
    Ok(true)
}

/// Looks at one group of a test: puts the groups below it behind the others, and the sets that it reaches. False where
/// fields of one key do not say the same, or the steps are used up.
fn look_at(
    tables: Tables<'_>,
    place: usize,
    groups: &mut Vec<Vec<usize>>,
    reached: &mut Vec<usize>,
    left: &mut Budget,
) -> Result<bool, NoMemory>
    requires range { InRange tables.spreads.now }
    requires spreads { map (λ v. v.items) tables.spreads.now ≡ map (λ r. r.spreads.items) tables.rows.now }
    requires place { place < length groups.old.items }
    requires test { IsTest (types_view tables.types.now) (rows_view tables.rows.now) (groups_view groups.old.items) place reached.old.items }
    ensures test { IfOk result (λ passed. IsTrue passed →
        IsTest (types_view tables.entry.types.now) (rows_view tables.entry.rows.now) (groups_view groups.new.items) (place + 1) reached.new.items) }
    ensures left { IfOk result (λ passed. IsTrue passed → left.new.steps < left.old.steps) }
{
    let found = reached_sets(tables.alloc, tables.spreads, &groups[place])?;
    match found.as_slice() {
        [one] => {
            let members = own_members(tables.rows, *one);
            let group = Reached {
                place,
                sets: &found,
                members,
            };
            look_at_members(tables, group, groups, reached, left)
        }
        _ => {
            let members = gathered(tables.alloc, tables.rows, &found)?;
            let group = Reached {
                place,
                sets: &found,
                members: &members,
            };
            look_at_members(tables, group, groups, reached, left)
        }
    }
}

/// The same, but passes over a group that is known.
fn pass(
    tables: Tables<'_>,
    marks: &[bool],
    place: usize,
    groups: &mut Vec<Vec<usize>>,
    reached: &mut Vec<usize>,
    notes: &mut Notes,
) -> Result<bool, NoMemory>
    requires range { InRange tables.spreads.now }
    requires spreads { map (λ v. v.items) tables.spreads.now ≡ map (λ r. r.spreads.items) tables.rows.now }
    requires tested { AreTested (types_view tables.types.now) (rows_view tables.rows.now) marks.now }
    requires place { place < length groups.old.items }
    requires test { IsTest (types_view tables.types.now) (rows_view tables.rows.now) (groups_view groups.old.items) place reached.old.items }
    ensures test { IfOk result (λ passed. IsTrue passed →
        IsTest (types_view tables.entry.types.now) (rows_view tables.entry.rows.now) (groups_view groups.new.items) (place + 1) reached.new.items) }
    ensures left { IfOk result (λ passed. IsTrue passed → notes.new.left.steps < notes.old.left.steps) }
{
    if is_known(groups, marks, place, &mut notes.places) {
        return Ok(spend(&mut notes.left.steps, 0, 0));
    }
    look_at(tables, place, groups, reached, &mut notes.left)
}

/// All sets that a test reaches which begins with these together, where it passes; otherwise none. The groups of the tests
/// that passed since one failed are kept.
fn tested_from(
    tables: Tables<'_>,
    marks: &[bool],
    starts: &[usize],
    groups: &mut Vec<Vec<usize>>,
    notes: &mut Notes,
) -> Result<Vec<usize>, NoMemory>
    requires range { InRange tables.spreads.now }
    requires spreads { map (λ v. v.items) tables.spreads.now ≡ map (λ r. r.spreads.items) tables.rows.now }
    requires tested { AreTested (types_view tables.types.now) (rows_view tables.rows.now) marks.now }
    requires starts { All (λ n. n < length tables.rows.now) starts.now }
    requires groups { ArePassed (types_view tables.types.now) (rows_view tables.rows.now) (groups_view groups.old.items) }
    ensures groups { OnOk result (ArePassed (types_view tables.entry.types.now) (rows_view tables.entry.rows.now) (groups_view groups.new.items)) }
    ensures within { IfOk result (λ numbers. All (λ n. n < length tables.entry.rows.now) numbers.items) }
    ensures tested { IfOk result (λ numbers. All (IsTested (types_view tables.entry.types.now) (rows_view tables.entry.rows.now)) numbers.items) }
{
    make_room(groups, notes);
    let mut done = groups.len();
    groups.push(Vec::from_slice(tables.alloc, starts)?)?;
    let mut reached = Vec::new(tables.alloc);
    while done < groups.len() {
        if !pass(tables, marks, done, groups, &mut reached, notes)? {
            forget(groups, notes);
            return Ok(Vec::new(tables.alloc));
        }
        done += 1;
    }
    Ok(reached)
}

/// Whether a mark is set at one of the numbers.
fn is_one_marked(marks: &[bool], numbers: &[usize]) -> bool {
    for number in numbers {
        if *number < marks.len() && marks[*number] {
            return true;
        }
    }
    false
}

/// Whether a test of the set would fail: no steps are left, or it failed, or that of a fragment did which is spread there.
fn is_in_vain(rows: &[Row<'_>], number: usize, notes: &Notes) -> bool
    requires { number < length rows.now }
{
    notes.left.steps == 0
        || is_one_marked(&notes.failed, &[number])
        || is_one_marked(&notes.failed, &rows[number].spreads)
}

/// Notes that the test of the set failed, where it found no sets.
fn note_failure(tested: &[usize], number: usize, failed: &mut Vec<bool>) {
    if tested.is_empty() && number < failed.len() {
        failed[number] = true;
    }
}

/// Tests the set with that number, if it is not marked and the test can pass, and marks what the test finds. Where nothing
/// stands in the set there is nothing to test.
fn mark_from(
    tables: Tables<'_>,
    number: usize,
    marks: &mut Vec<bool>,
    groups: &mut Vec<Vec<usize>>,
    notes: &mut Notes,
) -> Result<(), NoMemory>
    requires range { InRange tables.spreads.now }
    requires spreads { map (λ v. v.items) tables.spreads.now ≡ map (λ r. r.spreads.items) tables.rows.now }
    requires number { number < length tables.rows.now }
    requires tested { AreTested (types_view tables.types.now) (rows_view tables.rows.now) marks.old.items }
    requires groups { ArePassed (types_view tables.types.now) (rows_view tables.rows.now) (groups_view groups.old.items) }
    ensures tested { OnOk result (AreTested (types_view tables.entry.types.now) (rows_view tables.entry.rows.now) marks.new.items) }
    ensures groups { OnOk result (ArePassed (types_view tables.entry.types.now) (rows_view tables.entry.rows.now) (groups_view groups.new.items)) }
{
    if marks[number] || is_in_vain(tables.rows, number, notes) {
        return Ok(());
    }
    if !has_selections(tables.rows, number) {
        mark_all(marks, &[number]);
        return Ok(());
    }
    if is_through(tables.rows, number, marks) {
        mark_all(marks, &[number]);
        return Ok(());
    }
    let tested = tested_from(tables, marks, &[number], groups, notes)?;
    note_failure(&tested, number, &mut notes.failed);
    mark_all(marks, &tested);
    Ok(())
}

/// The same, and where the test fails, tests the fragments that are spread in the set, since other sets that spread one which
/// fails need no test.
fn mark_with_spreads(
    tables: Tables<'_>,
    number: usize,
    marks: &mut Vec<bool>,
    groups: &mut Vec<Vec<usize>>,
    notes: &mut Notes,
) -> Result<(), NoMemory>
    requires range { InRange tables.spreads.now }
    requires spreads { map (λ v. v.items) tables.spreads.now ≡ map (λ r. r.spreads.items) tables.rows.now }
    requires number { number < length tables.rows.now }
    requires tested { AreTested (types_view tables.types.now) (rows_view tables.rows.now) marks.old.items }
    requires groups { ArePassed (types_view tables.types.now) (rows_view tables.rows.now) (groups_view groups.old.items) }
    ensures tested { OnOk result (AreTested (types_view tables.entry.types.now) (rows_view tables.entry.rows.now) marks.new.items) }
    ensures groups { OnOk result (ArePassed (types_view tables.entry.types.now) (rows_view tables.entry.rows.now) (groups_view groups.new.items)) }
{
    mark_from(tables, number, marks, groups, notes)?;
    if marks[number] {
        return Ok(());
    }
    for fragment in &tables.rows[number].spreads {
        if *fragment < tables.rows.len() {
            mark_from(tables, *fragment, marks, groups, notes)?;
        }
    }
    Ok(())
}

/// Tests these sets one by one, in order.
fn mark_each(
    tables: Tables<'_>,
    starts: &[usize],
    marks: &mut Vec<bool>,
    groups: &mut Vec<Vec<usize>>,
    notes: &mut Notes,
) -> Result<(), NoMemory>
    requires range { InRange tables.spreads.now }
    requires spreads { map (λ v. v.items) tables.spreads.now ≡ map (λ r. r.spreads.items) tables.rows.now }
    requires starts { All (λ n. n < length tables.rows.now) starts.now }
    requires tested { AreTested (types_view tables.types.now) (rows_view tables.rows.now) marks.old.items }
    requires groups { ArePassed (types_view tables.types.now) (rows_view tables.rows.now) (groups_view groups.old.items) }
    ensures tested { OnOk result (AreTested (types_view tables.entry.types.now) (rows_view tables.entry.rows.now) marks.new.items) }
    ensures groups { OnOk result (ArePassed (types_view tables.entry.types.now) (rows_view tables.entry.rows.now) (groups_view groups.new.items)) }
{
    for number in starts {
        mark_with_spreads(tables, *number, marks, groups, notes)?;
    }
    Ok(())
}

/// How many groups and numbers in them may be kept: some for each set, field and spread. Fields that double at each level of
/// fragments would have many more.
pub(crate) fn all_room(rows: &[Row<'_>]) -> usize {
    let mut room: usize = 1000;
    for row in rows {
        let size = row.members.len().saturating_add(row.spreads.len());
        let share = size.saturating_add(1).saturating_mul(16);
        room = room.saturating_add(share);
    }
    room
}

/// The numbers below the count that are not marked.
fn unmarked_below(alloc: Global, marks: &[bool], count: usize) -> Result<Vec<usize>, NoMemory>
    ensures { IfOk result (λ numbers. All (λ n. n < length marks.now) numbers.items) }
{
    let mut numbers = Vec::new(alloc);
    for number in 0..marks.len().min(count) {
        if !marks[number] {
            numbers.push(number)?;
        }
    }
    Ok(numbers)
}

/// Notes of no test. The tests may take so many steps.
fn no_notes(alloc: Global, rows: &[Row<'_>], steps: usize) -> Result<Notes, NoMemory> {
    let room = all_room(rows);
    Ok(Notes {
        places: vec![in alloc; 0; rows.len()]?,
        failed: vec![in alloc; false; rows.len()]?,
        left: Budget { steps, room },
        room,
    })
}

/// The numbers of the sets that are tested: those of operations, and of fragments that no spread names, since they reach the
/// others.
fn tested_numbers(
    alloc: Global,
    executable: &Executable<'_>,
    spreads: &[Vec<usize>],
) -> Result<Vec<usize>, NoMemory>
    requires { InRange spreads.now }
    ensures { IfOk result (λ numbers. All (λ n. n < length spreads.now) numbers.items) }
{
    let named = named_rows(alloc, spreads)?;
    let firsts = executable
        .fragments
        .len()
        .saturating_add(executable.operations.len());
    let numbers = unmarked_below(alloc, &named, firsts)?;
    Ok(numbers)
}

/// Tests these sets one by one, in order, and tells whether so many steps are enough.
fn mark_in_steps(
    tables: Tables<'_>,
    starts: &[usize],
    marks: &mut Vec<bool>,
    steps: usize,
) -> Result<bool, NoMemory>
    requires range { InRange tables.spreads.now }
    requires spreads { map (λ v. v.items) tables.spreads.now ≡ map (λ r. r.spreads.items) tables.rows.now }
    requires starts { All (λ n. n < length tables.rows.now) starts.now }
    requires tested { AreTested (types_view tables.types.now) (rows_view tables.rows.now) marks.old.items }
    ensures tested { OnOk result (AreTested (types_view tables.entry.types.now) (rows_view tables.entry.rows.now) marks.new.items) }
{
    let mut notes = no_notes(tables.alloc, tables.rows, steps)?;
    let mut groups = Vec::new(tables.alloc);
    mark_each(tables, starts, marks, &mut groups, &mut notes)?;
    Ok(notes.left.steps > 0)
}

/// Tests these sets together.
fn mark_together(
    tables: Tables<'_>,
    starts: &[usize],
    marks: &mut Vec<bool>,
    steps: usize,
) -> Result<(), NoMemory>
    requires range { InRange tables.spreads.now }
    requires spreads { map (λ v. v.items) tables.spreads.now ≡ map (λ r. r.spreads.items) tables.rows.now }
    requires starts { All (λ n. n < length tables.rows.now) starts.now }
    requires tested { AreTested (types_view tables.types.now) (rows_view tables.rows.now) marks.old.items }
    ensures tested { OnOk result (AreTested (types_view tables.entry.types.now) (rows_view tables.entry.rows.now) marks.new.items) }
{
    let mut notes = no_notes(tables.alloc, tables.rows, steps)?;
    let mut groups = Vec::new(tables.alloc);
    let tested = tested_from(tables, marks, starts, &mut groups, &mut notes)?;
    mark_all(marks, &tested);
    Ok(())
}

/// Tests all sets at once, by classes, and marks them where that passes.
fn mark_by_classes(tables: Tables<'_>, marks: &mut Vec<bool>) -> Result<(), NoMemory>
    requires range { InRange tables.spreads.now }
    requires spreads { map (λ v. v.items) tables.spreads.now ≡ map (λ r. r.spreads.items) tables.rows.now }
    requires tested { AreTested (types_view tables.types.now) (rows_view tables.rows.now) marks.old.items }
    ensures tested { OnOk result (AreTested (types_view tables.entry.types.now) (rows_view tables.entry.rows.now) marks.new.items) }
{
    let numbers = joined_sets(tables)?;
    let tested = tested_by_classes(tables, &numbers)?;
    mark_all(marks, &tested);
    Ok(())
}

/// Whether all of these are marked.
fn are_marked(marks: &[bool], numbers: &[usize]) -> bool {
    for number in numbers {
        if !is_one_marked(marks, &[*number]) {
            return false;
        }
    }
    true
}

/// Tests these sets together, by classes, and one by one in more steps, as long as one of them is not marked.
fn mark_otherwise(
    tables: Tables<'_>,
    starts: &[usize],
    marks: &mut Vec<bool>,
    steps: usize,
    more: usize,
) -> Result<(), NoMemory>
    requires range { InRange tables.spreads.now }
    requires spreads { map (λ v. v.items) tables.spreads.now ≡ map (λ r. r.spreads.items) tables.rows.now }
    requires starts { All (λ n. n < length tables.rows.now) starts.now }
    requires tested { AreTested (types_view tables.types.now) (rows_view tables.rows.now) marks.old.items }
    ensures tested { OnOk result (AreTested (types_view tables.entry.types.now) (rows_view tables.entry.rows.now) marks.new.items) }
{
    mark_together(tables, starts, marks, steps)?;
    if are_marked(marks, starts) {
        return Ok(());
    }
    mark_by_classes(tables, marks)?;
    mark_in_steps(tables, starts, marks, more)?;
    Ok(())
}

/// How many of the numbers are marked.
fn count_marked(marks: &[bool], numbers: &[usize]) -> usize {
    let mut count: usize = 0;
    for number in numbers {
        if is_one_marked(marks, &[*number]) {
            count = count.saturating_add(1);
        }
    }
    count
}

/// How many steps tests of these sets one by one may take once more, behind those in a quarter of the room: four times the room. None
/// where some were marked, and so few that sixteen times as many are not all.
fn more_steps(marks: &[bool], starts: &[usize], room: usize) -> usize {
    let marked = count_marked(marks, starts);
    if marked >= SOME && marked.saturating_mul(16) < starts.len() {
        return 0;
    }
    room.saturating_mul(4)
}

/// The marks that tests leave which begin with these sets: one by one in few steps, and where these are used up, otherwise.
fn marks_from(tables: Tables<'_>, starts: &[usize]) -> Result<Vec<bool>, NoMemory>
    requires range { InRange tables.spreads.now }
    requires spreads { map (λ v. v.items) tables.spreads.now ≡ map (λ r. r.spreads.items) tables.rows.now }
    requires starts { All (λ n. n < length tables.rows.now) starts.now }
    ensures { IfOk result (λ marks. AreTested (types_view tables.entry.types.now) (rows_view tables.entry.rows.now) marks.items) }
{
    let mut marks = vec![in tables.alloc; false; tables.rows.len()]?;
    let room = all_room(tables.rows);
    if !mark_in_steps(tables, starts, &mut marks, room / 4)? {
        let more = more_steps(&marks, starts, room);
        mark_otherwise(tables, starts, &mut marks, room, more)?;
    }
    Ok(marks)
}

/// Sets each mark that is set among the others.
fn put_marks(marks: &mut Vec<bool>, others: &[bool])
    requires { length others.now ≡ length marks.old.items }
    ensures count { length marks.new.items ≡ length marks.old.items }
    ensures marked { (n : ℕ) → slice_index_or marks.new.items n false ≡ true → (slice_index_or marks.old.items n false ≡ true) ⊎ (slice_index_or others.now n false ≡ true) }
    ensures kept { (n : ℕ) → slice_index_or marks.old.items n false ≡ true → slice_index_or marks.new.items n false ≡ true }
    ensures put { (n : ℕ) → slice_index_or others.now n false ≡ true → slice_index_or marks.new.items n false ≡ true }
{
    for number in 0..others.len() {
        if others[number] {
            marks[number] = true;
        }
    }
}

/// The same, by two threads: each tests half of the sets.
fn marks_by_threads<R: Threads + Sync>(
    rt: &R,
    tables: Tables<'_>,
    starts: &[usize],
) -> Result<Vec<bool>, NoMemory>
    requires range { InRange tables.spreads.now }
    requires spreads { map (λ v. v.items) tables.spreads.now ≡ map (λ r. r.spreads.items) tables.rows.now }
    requires starts { All (λ n. n < length tables.rows.now) starts.now }
    ensures { IfOk result (λ marks. AreTested (types_view tables.entry.types.now) (rows_view tables.entry.rows.now) marks.items) }
{
    let (front, back) = starts.split_at(starts.len() / 2);
    let of_front = || -> Result<Vec<bool>, NoMemory>
        requires range { InRange tables.spreads.now }
        requires spreads { map (λ v. v.items) tables.spreads.now ≡ map (λ r. r.spreads.items) tables.rows.now }
        requires starts { All (λ n. n < length tables.rows.now) front.now }
        ensures { IfOk result (λ marks. AreTested (types_view tables.entry.types.now) (rows_view tables.entry.rows.now) marks.items) }
    { marks_from(tables, front) };
    let of_back = || -> Result<Vec<bool>, NoMemory>
        requires range { InRange tables.spreads.now }
        requires spreads { map (λ v. v.items) tables.spreads.now ≡ map (λ r. r.spreads.items) tables.rows.now }
        requires starts { All (λ n. n < length tables.rows.now) back.now }
        ensures { IfOk result (λ marks. AreTested (types_view tables.entry.types.now) (rows_view tables.entry.rows.now) marks.items) }
    { marks_from(tables, back) };
    let (front, back) = join(rt, of_front, of_back);
    let mut marks = front?;
    put_marks(&mut marks, &back?);
    Ok(marks)
}

/// A mark at each row of whose set it is known that the fields under it merge. What is not marked may merge as well: the test
/// asks for more than the rule, and it takes no more steps than in proportion to the rows and what stands in them.
pub(crate) fn merged_rows(
    alloc: Global,
    executable: &Executable<'_>,
    rows: &[Row<'_>],
    spreads: &[Vec<usize>],
) -> Result<Vec<bool>, NoMemory>
    requires rows { AreRows (executable_view executable.now) (rows_view rows.now) }
    requires range { InRange spreads.now }
    requires spreads { map (λ v. v.items) spreads.now ≡ map (λ r. r.spreads.items) rows.now }
    ensures { IfOk result (λ marks. AreMerged (executable_view executable.now) (rows_view rows.now) marks.items) }
{
    let tables = Tables {
        alloc,
        types: executable.types,
        rows,
        spreads,
    };
    let starts = tested_numbers(alloc, executable, spreads)?;
    let marks = marks_from(tables, &starts)?;
    Ok(marks)
}

/// The same, by two threads.
pub(crate) fn merged_rows_by_threads<R: Threads + Sync>(
    rt: &R,
    alloc: Global,
    executable: &Executable<'_>,
    rows: &[Row<'_>],
    spreads: &[Vec<usize>],
) -> Result<Vec<bool>, NoMemory>
    requires rows { AreRows (executable_view executable.now) (rows_view rows.now) }
    requires range { InRange spreads.now }
    requires spreads { map (λ v. v.items) spreads.now ≡ map (λ r. r.spreads.items) rows.now }
    ensures { IfOk result (λ marks. AreMerged (executable_view executable.now) (rows_view rows.now) marks.items) }
{
    let tables = Tables {
        alloc,
        types: executable.types,
        rows,
        spreads,
    };
    let starts = tested_numbers(alloc, executable, spreads)?;
    let marks = marks_by_threads(rt, tables, &starts)?;
    Ok(marks)
}
