//! What the search keeps of fragments that are spread together: the fields that they reach, by their keys. Many sets spread the same
//! fragments, each beside fields of its own.
//!
//! In such a set two fields of one key are both among those that the fragments reach, or one of them stands in the set itself. The
//! first are looked at once, as the table is made. Then it is enough to look at the fields of the set itself, each key's together
//! with those that the table has for it.
ghost use Rattle.std.specs.Prelude.{◌≡◌, ◌<◌, [], All, Contains, IsTrue, IfSome, IfOk, length, map};
ghost use Rattle.std.specs.declared.vec.Vec.{Vec};
ghost use Rattle.std.specs.declared.alloc.Global.{Global};
ghost use Rattle.gq_graph.specs.Reach.{InRange};
ghost use Rattle.gq_merging.specs.Helping.NameTables.{by_name_view};
ghost use Rattle.gq_merging.specs.Helping.SearchTables.{AreInGroup, AreOfOneKey, Searched};
ghost use Rattle.gq_merging.specs.Helping.KeptTables.{KeptOf, AreByTheirKeys, AreKept, AreMetBeside, AreMetBesideOne, ArePut, IsTableAt, IsTableOf, table_view, tables_view};
ghost use Rattle.gq_merging.specs.Helping.GroupViews.{groups_view};
ghost use Rattle.gq_merging.specs.Helping.Views.{members_view, rows_view, look_view};

use crate::by_name::FieldsByName;
use crate::cliques::{look_at_class, look_at_classes, take_steps};
use crate::comparing::key;
use crate::members::{gathered, reached_sets};
use crate::pairs::Look;
use crate::rows::{Member, Row};
use gq_fault::Fault;
use gq_text::NoMemory;
use std::alloc::Global;

/// The fields that these fragments reach, by their keys.
#[derive(Drop)]
pub(crate) struct Table<'a> {
    fragments: Vec<usize>,
    pub(crate) fields: FieldsByName<'a>,
}

/// Tables, the place of the last one with each number, how many more fields may stand in them, and how many may in all.
#[derive(Drop)]
pub(crate) struct Kept<'a> {
    pub(crate) tables: Vec<Table<'a>>,
    places: Vec<usize>,
    room: usize,
    most: usize,
}

/// How many fields may stand in all tables: four times those of the project, and some more.
fn most_fields(rows: &[Row<'_>]) -> usize {
    let mut most: usize = 1000;
    for row in rows {
        most = most.saturating_add(row.members.len().saturating_mul(4));
    }
    most
}

/// No tables.
pub(crate) fn no_tables<'a>(alloc: Global, rows: &[Row<'_>]) -> Result<Kept<'a>, NoMemory>
    ensures { IfOk result (λ kept. kept.tables.items ≡ []) }
{
    let most = most_fields(rows);
    Ok(Kept {
        tables: Vec::new(alloc),
        places: vec![in alloc; 0; rows.len()]?,
        room: most,
        most,
    })
}

/// A number below the count by which the fragments are looked for.
pub(crate) fn slot_of(numbers: &[usize], count: usize) -> usize {
    let mut slot: usize = 0;
    for number in numbers {
        slot = slot.wrapping_mul(31).wrapping_add(*number);
    }
    slot.checked_rem(count).unwrap_or(0)
}

/// The place of the table of these fragments, if it is kept.
fn place_of(kept: &Kept<'_>, fragments: &[usize]) -> Option<usize>
    ensures { IfSome result (λ place. IsTableAt (tables_view kept.now.tables.items) place fragments.now) }
{
    let slot = slot_of(fragments, kept.places.len());
    let place = *kept.places.get(slot)?;
    let table = kept.tables.get(place)?;
    if table.fragments.as_slice() == fragments {
        return Some(place);
    }
    None
}

/// Drops all tables where there is no room for so many fields more, and takes the room for these.
fn make_room(kept: &mut Kept<'_>, fields: usize)
    ensures { (k : KeptOf) → Contains (tables_view kept.new.tables.items) k → Contains (tables_view kept.old.tables.items) k }
{
    if kept.room < fields {
        kept.tables.clear();
        kept.room = kept.most;
    }
    kept.room = kept.room.saturating_sub(fields);
}

/// Notes where the table of these fragments is.
fn note_place(places: &mut Vec<usize>, fragments: &[usize], place: usize) {
    let slot = slot_of(fragments, places.len());
    if slot < places.len() {
        places[slot] = place;
    }
}

/// Puts a table of so many fields behind the others, and answers its place.
fn put_table<'a>(kept: &mut Kept<'a>, table: Table<'a>, fields: usize) -> Result<usize, NoMemory>
    ensures { IfOk result (λ place. ArePut (tables_view kept.old.tables.items) (tables_view kept.new.tables.items) place (table_view table.entry)) }
{
    make_room(kept, fields);
    let place = kept.tables.len();
    note_place(&mut kept.places, &table.fragments, place);
    kept.tables.push(table)?;
    Ok(place)
}

/// Looks at the fields that these fragments reach, and answers them by their keys; none where the steps are used up.
fn look_at_reached<'a>(
    look: Look<'a>,
    fragments: &[usize],
    faults: &mut Vec<Fault>,
    groups: &mut Vec<Vec<usize>>,
    steps: &mut usize,
) -> Result<Option<FieldsByName<'a>>, NoMemory>
    requires reach { InRange look.spreads.now }
    requires spreads { map (λ v. v.items) look.spreads.now ≡ map (λ r. r.spreads.items) look.rows.now }
    requires fragments { All (λ n. n < length look.spreads.now) fragments.now }
    ensures table { IfOk result (λ found. IfSome found (λ table. IsTableOf (rows_view look.entry.rows.now) fragments.now (by_name_view table))) }
    ensures searched { IfOk result (λ found. IfSome found (λ table.
        Searched (look_view look.entry) (AreInGroup (rows_view look.entry.rows.now) fragments.now)
        faults.old.items faults.new.items (groups_view groups.old.items) (groups_view groups.new.items))) }
{
    let found = reached_sets(look.alloc, look.spreads, fragments)?;
    let members = gathered(look.alloc, look.rows, &found)?;
    if !take_steps(steps, found.len()) || !take_steps(steps, members.len()) {
        return Ok(None);
    }
    let table = FieldsByName::by_key(look.alloc, &members)?;
    if !look_at_classes(look, &table.lists, faults, groups, steps)? {
        return Ok(None);
    }
    Ok(Some(table))
}

/// The place of the table of what these fragments reach. Where it is not kept, it is made, and the fields in it are looked at; none
/// where the steps are used up.
pub(crate) fn table_of<'a>(
    look: Look<'a>,
    fragments: Vec<usize>,
    faults: &mut Vec<Fault>,
    groups: &mut Vec<Vec<usize>>,
    kept: &mut Kept<'a>,
    steps: &mut usize,
) -> Result<Option<usize>, NoMemory>
    requires reach { InRange look.spreads.now }
    requires spreads { map (λ v. v.items) look.spreads.now ≡ map (λ r. r.spreads.items) look.rows.now }
    requires fragments { All (λ n. n < length look.spreads.now) fragments.items }
    requires kept { AreKept (look_view look) faults.old.items (groups_view groups.old.items) (tables_view kept.old.tables.items) }
    ensures kept { IfOk result (λ found. IfSome found (λ place. AreKept (look_view look.entry) faults.new.items (groups_view groups.new.items) (tables_view kept.new.tables.items))) }
    ensures table { IfOk result (λ found. IfSome found (λ place. IsTableAt (tables_view kept.new.tables.items) place fragments.items)) }
    ensures searched { IfOk result (λ found. IfSome found (λ place.
        Searched (look_view look.entry) (AreInGroup (rows_view look.entry.rows.now) fragments.items)
        faults.old.items faults.new.items (groups_view groups.old.items) (groups_view groups.new.items))) }
{
    if let Some(place) = place_of(kept, &fragments) {
        return Ok(Some(place));
    }
    let Some(fields) = look_at_reached(look, &fragments, faults, groups, steps)? else {
        return Ok(None);
    };
    let size = size_of(&fields.lists);
    let place = put_table(kept, Table { fragments, fields }, size)?;
    Ok(Some(place))
}

/// How many fields stand in the lists.
fn size_of(lists: &[Vec<Member<'_>>]) -> usize {
    let mut size: usize = 0;
    for list in lists {
        size = size.saturating_add(list.len());
    }
    size
}

/// Looks at fields of one key together with those that a table has for it.
fn look_at_beside<'a>(
    look: Look<'_>,
    list: &[Member<'a>],
    table: &FieldsByName<'a>,
    faults: &mut Vec<Fault>,
    groups: &mut Vec<Vec<usize>>,
    steps: &mut usize,
) -> Result<bool, NoMemory>
    requires one_key { AreOfOneKey (members_view list.now) }
    requires table { AreByTheirKeys (by_name_view table.now) }
    ensures { IfOk result (λ done. IsTrue done →
        Searched (look_view look.entry) (AreMetBeside (members_view list.now) (by_name_view table.now))
        faults.old.items faults.new.items (groups_view groups.old.items) (groups_view groups.new.items)) }
{
    let Some(first) = list.first() else {
        return Ok(true);
    };
    let Some(others) = table.with_name(key(&first.it)) else {
        return look_at_class(look, list, faults, groups, steps);
    };
    let mut members = Vec::from_slice(look.alloc, list)?;
    members.extend_from_slice(others)?;
    let done = look_at_class(look, &members, faults, groups, steps)?;
    Ok(done)
}

/// The same for each of the lists.
pub(crate) fn look_at_besides<'a>(
    look: Look<'_>,
    lists: &[Vec<Member<'a>>],
    table: &FieldsByName<'a>,
    faults: &mut Vec<Fault>,
    groups: &mut Vec<Vec<usize>>,
    steps: &mut usize,
) -> Result<bool, NoMemory>
    requires one_key { (list : Vec Member Global) → Contains lists.now list → AreOfOneKey (members_view list.items) }
    requires table { AreByTheirKeys (by_name_view table.now) }
    ensures { IfOk result (λ done. IsTrue done →
        Searched (look_view look.entry) (AreMetBesideOne (map (λ list. members_view list.items) lists.now) (by_name_view table.now))
        faults.old.items faults.new.items (groups_view groups.old.items) (groups_view groups.new.items)) }
{
    for list in lists {
        if !look_at_beside(look, list, table, faults, groups, steps)? {
            return Ok(false);
        }
    }
    Ok(true)
}
