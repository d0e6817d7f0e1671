//! Fields that do not merge, found by a search over groups of sets whose fields stand together.
//!
//! It begins with each set that is not passed over alone. The fields of a group are those of its sets, and of the fragments that they
//! reach by spreads. Among those of one key the faults are put, and the sets in the braces of those of which what stands there
//! meets are a group again. Any two fields that meet stand together in a group, and two of one key in a group meet, so these are
//! all faults. A group that was there already is passed over. The number of groups can double at each level of
//! fragments, and in a cycle they can grow without end: after a number of steps the search gives up.
ghost use Rattle.std.specs.Prelude.{◌≡◌, ◌↔◌, ◌<◌, ◌+◌, ◌*◌, ℕ, Bool, List, [], All, Some, Contains, IsTrue, IfSome, IfOk, OnOk, length, map, slice_get};
ghost use Rattle.gq_fault.specs.declared.fault.Fault.{Fault};
ghost use Rattle.gq_graph.specs.Reach.{InRange};
ghost use Rattle.gq_merging.specs.Helping.PairTables.{IsGiven, IsMetReached, IsFaultOf};
ghost use Rattle.gq_merging.specs.Helping.SearchTables.{AreFirst, AreInGroup, HaveSets, Search, Searched, WasThere};
ghost use Rattle.gq_merging.specs.Helping.KeptTables.{AreKept, tables_view};
ghost use Rattle.gq_merging.specs.Helping.PartTables.{AreParts};
ghost use Rattle.gq_merging.specs.Helping.GroupViews.{groups_view};
ghost use Rattle.gq_merging.specs.Helping.Views.{rows_view, look_view};

use crate::by_name::FieldsByName;
use crate::classes::number_of_same;
use crate::cliques::take_steps;
use crate::groups::{all_room, is_as_before};
use crate::kept::{Kept, look_at_besides, no_tables, slot_of, table_of};
use crate::members::gathered;
use crate::pairs::Look;
use crate::parts::{Parts, in_rows, parts_of, with_near};
use crate::rows::Row;
use gq_fault::{Fault, put_in_order};
use gq_text::NoMemory;
use std::alloc::Global;

/// What keeps the search short: the place of the last group that has each number, tables of what fragments reach, how many steps are
/// left, and how many faults may stand there before they are put in order, each once.
#[derive(Drop)]
struct Notes<'a> {
    places: Vec<usize>,
    kept: Kept<'a>,
    steps: usize,
    most_faults: usize,
}

/// A project with no more room than this has some millions of pairs of sets at most. There the search takes no more steps than in
/// proportion to the project, and then pairs are looked at.
const SMALL_ROOM: usize = 33_000;

/// How many times more steps it may take where the pairs could be more.
const MORE_STEPS: usize = 128;

/// How many faults may be put before repeated ones among them are dropped, beyond as many again as stand there.
const MORE_ITEMS: usize = 1000;

/// How many steps the search may take.
fn all_steps(rows: &[Row<'_>]) -> usize {
    let room = all_room(rows);
    if room <= SMALL_ROOM {
        return room;
    }
    room.saturating_mul(MORE_STEPS)
}

/// Notes of no group.
fn no_notes<'a>(look: Look<'a>) -> Result<Notes<'a>, NoMemory>
    ensures { IfOk result (λ notes. notes.kept.tables.items ≡ []) }
{
    Ok(Notes {
        places: vec![in look.alloc; 0; look.rows.len().saturating_mul(2)]?,
        kept: no_tables(look.alloc, look.rows)?,
        steps: all_steps(look.rows),
        most_faults: MORE_ITEMS,
    })
}

/// A number for the group, by which one that is the same is looked for. Below the count it is that of the one set of a group, and past
/// it a group of several sets has one by all of them.
fn place_for(group: &[usize], count: usize) -> usize {
    if let [one] = group {
        return *one;
    }
    slot_of(group, count).saturating_add(count)
}

/// Whether the group at that place was there already. Its place is noted.
fn was_there(groups: &[Vec<usize>], place: usize, places: &mut Vec<usize>) -> bool
    requires { place < length groups.now }
    ensures { IsTrue result → WasThere (groups_view groups.now) place }
{
    let slot = place_for(&groups[place], places.len() / 2);
    if slot >= places.len() {
        return false;
    }
    let earlier = places[slot];
    places[slot] = place;
    is_as_before(groups, earlier, place)
}

/// The groups of one set each, those that are not passed over. A set in which the spread of a fragment stands alone has that
/// fragment's fields, and so the same group.
fn first_groups(
    alloc: Global,
    rows: &[Row<'_>],
    passed: &[bool],
) -> Result<Vec<Vec<usize>>, NoMemory>
    requires { length passed.now ≡ length rows.now }
    ensures { IfOk result (λ groups. AreFirst (rows_view rows.now) passed.now (length passed.now) (groups_view groups.items)) }
{
    let mut groups = Vec::new(alloc);
    for number in 0..passed.len() {
        if !passed[number] {
            let same = number_of_same(rows, number);
            groups.push(vec![in alloc; same; 1]?)?;
        }
    }
    Ok(groups)
}

/// Looks at the fields of the group at that place: those of its sets and of the near fragments that are spread in them, and those that
/// the far ones reach.
fn look_at_group<'a>(
    look: Look<'a>,
    parts: &Parts,
    place: usize,
    faults: &mut Vec<Fault>,
    groups: &mut Vec<Vec<usize>>,
    kept: &mut Kept<'a>,
    steps: &mut usize,
) -> Result<bool, NoMemory>
    requires reach { InRange look.spreads.now }
    requires spreads { map (λ v. v.items) look.spreads.now ≡ map (λ r. r.spreads.items) look.rows.now }
    requires parts { AreParts look.spreads.now parts.now.near.items parts.now.far.items }
    requires place { place < length groups.old.items }
    requires kept { AreKept (look_view look) faults.old.items (groups_view groups.old.items) (tables_view kept.old.tables.items) }
    ensures kept { IfOk result (λ done. IsTrue done → AreKept (look_view look.entry) faults.new.items (groups_view groups.new.items) (tables_view kept.new.tables.items)) }
    ensures searched { (group : List ℕ) → slice_get (groups_view groups.old.items) place ≡ Some group →
        IfOk result (λ done. IsTrue done → Searched (look_view look.entry) (AreInGroup (rows_view look.entry.rows.now) group)
        faults.old.items faults.new.items (groups_view groups.old.items) (groups_view groups.new.items)) }
{
    let sets = with_near(look.alloc, &parts.near, &groups[place])?;
    let own = gathered(look.alloc, look.rows, &sets)?;
    let fragments = in_rows(look.alloc, &parts.far, &sets)?;
    if !take_steps(steps, own.len()) || !take_steps(steps, fragments.len()) {
        return Ok(false);
    }
    let by_key = FieldsByName::by_key(look.alloc, &own)?;
    let Some(place) = table_of(look, fragments, faults, groups, kept, steps)? else {
        return Ok(false);
    };
    let table = &kept.tables[place];
    let done = look_at_besides(look, &by_key.lists, &table.fields, faults, groups, steps)?;
    Ok(done)
}

/// Drops faults that are repeated, once so many were put. A field that many groups hold is a fault in each.
fn drop_repeated(faults: &mut Vec<Fault>, most: &mut usize)
    ensures { (fault : Fault) → Contains faults.new.items fault ↔ Contains faults.old.items fault }
{
    if faults.len() > *most {
        put_in_order(faults);
        *most = faults.len().saturating_mul(2).saturating_add(MORE_ITEMS);
    }
}

/// The same, but passes over a group that was there already.
fn search_on<'a>(
    look: Look<'a>,
    parts: &Parts,
    place: usize,
    faults: &mut Vec<Fault>,
    groups: &mut Vec<Vec<usize>>,
    notes: &mut Notes<'a>,
) -> Result<bool, NoMemory>
    requires reach { InRange look.spreads.now }
    requires spreads { map (λ v. v.items) look.spreads.now ≡ map (λ r. r.spreads.items) look.rows.now }
    requires sets { HaveSets (rows_view look.rows.now) }
    requires size { look.size ≡ length look.rows.now * length look.rows.now }
    requires parts { AreParts look.spreads.now parts.now.near.items parts.now.far.items }
    requires place { place < length groups.old.items }
    requires kept { AreKept (look_view look) faults.old.items (groups_view groups.old.items) (tables_view notes.old.kept.tables.items) }
    ensures kept { IfOk result (λ done. IsTrue done → AreKept (look_view look.entry) faults.new.items (groups_view groups.new.items) (tables_view notes.new.kept.tables.items)) }
    ensures search { IfOk result (λ done. IsTrue done → (passed : List Bool) (first : List (List ℕ)) →
        Search (look_view look.entry) passed first faults.old.items (groups_view groups.old.items) place →
        Search (look_view look.entry) passed first faults.new.items (groups_view groups.new.items) (place + 1)) }
{
    if was_there(groups, place, &mut notes.places) {
        return Ok(true);
    }
    let done = look_at_group(
        look,
        parts,
        place,
        faults,
        groups,
        &mut notes.kept,
        &mut notes.steps,
    )?;
    drop_repeated(faults, &mut notes.most_faults);
    Ok(done)
}

/// The faults of all fields that meet in a set that is not passed over, or under it, and differ from one that stands no later; none
/// where the search takes too many steps.
pub(crate) fn search_groups(look: Look<'_>, passed: &[bool]) -> Result<Option<Vec<Fault>>, NoMemory>
    requires reach { InRange look.spreads.now }
    requires spreads { map (λ v. v.items) look.spreads.now ≡ map (λ r. r.spreads.items) look.rows.now }
    requires sets { HaveSets (rows_view look.rows.now) }
    requires size { look.size ≡ length look.rows.now * length look.rows.now }
    requires passed { length passed.now ≡ length look.rows.now }
    ensures { IfOk result (λ found. IfSome found (λ faults.
        (fault : Fault) → Contains faults.items fault ↔ IsGiven (IsMetReached (look_view look.entry) passed.now) (IsFaultOf (look_view look.entry)) fault)) }
{
    let mut groups = first_groups(look.alloc, look.rows, passed)?;
    if groups.is_empty() {
        return Ok(Some(Vec::new(look.alloc)));
    }
    let parts = parts_of(look.alloc, look.rows, look.spreads)?;
    let mut notes = no_notes(look)?;
    let mut faults = Vec::new(look.alloc);
    let mut turns = notes.steps;
    let mut done = 0;
    while done < groups.len() {
        if turns == 0 {
            return Ok(None);
        }
        if !search_on(look, &parts, done, &mut faults, &mut groups, &mut notes)? {
            return Ok(None);
        }
        turns -= 1;
        done += 1;
    }
    Ok(Some(faults))
}
