//! A row for each selection set that stands in the project.
ghost use Rattle.std.specs.Prelude.{◌≡◌, ◌<◌, ◌++◌, ◌∷◌, [], ℕ, All, Some, None, IfSome, IfOk, OnOk, length, set, slice_get, slice_index_or};
ghost use Rattle.gq_tree.specs.Views.{sels_view};
ghost use Rattle.gq_types.specs.Look.{types_view, text_of};
ghost use Rattle.gq_document.specs.Executable.{executable_view};
ghost use Rattle.gq_merging.specs.Helping.HubTables.{AreHubs, AreLed, AreMade, IsAlone, IsFirstOf, PutsLed};
ghost use Rattle.gq_merging.specs.Helping.SetTables.{AreRows, AreNumbered, IsEmptyAt, IsPut, first_sets};
ghost use Rattle.gq_merging.specs.Helping.Views.{all_spreads_at, field_at, fields_at, set_at, sets_at, spread_at, members_view, row_view, rows_view};

use crate::sets::{
    StandingField, StandingSet, StandingSpread, field_set, fragment_set, operation_set, put_fields,
    put_spreads, selections_below,
};
use gq_document::Executable;
use gq_spreads::FragmentNames;
use gq_text::NoMemory;
use gq_types::Types;
use std::alloc::Global;

/// A field, and the number of the selection set in its braces.
#[derive(Clone, Copy)]
pub(crate) struct Member<'a> {
    pub(crate) it: StandingField<'a>,
    pub(crate) below: usize,
}

/// A selection set, its fields with those of its inline fragments, and the numbers that the spreads among them lead to: those of
/// fragments and of hubs. A fragment's number is its place among all fragments, and the number of its set too.
#[derive(Drop)]
pub(crate) struct Row<'a> {
    pub(crate) set: StandingSet<'a>,
    pub(crate) members: Vec<Member<'a>>,
    pub(crate) spreads: Vec<usize>,
}

/// The selection sets of the fragments, then those of the operations. There is room for as many more: room that is not used is not touched.
fn first_sets<'a>(
    alloc: Global,
    executable: &Executable<'a>,
) -> Result<Vec<StandingSet<'a>>, NoMemory>
    ensures { IfOk result (λ sets. sets_at sets.items ≡ first_sets (executable_view executable.now)) }
{
    let count = executable
        .fragments
        .len()
        .saturating_add(executable.operations.len());
    let mut sets = Vec::with_capacity(alloc, count.saturating_mul(2))?;
    for fragment in executable.fragments {
        sets.push(fragment_set(fragment))?;
    }
    for operation in executable.operations {
        sets.push(operation_set(executable.types, operation))?;
    }
    Ok(sets)
}

/// Puts the selection set of a field behind the others, and answers its number. Fields without selections share one, whose
/// number is noted.
fn put_set<'a>(
    types: &'a Types,
    field: StandingField<'a>,
    empty: &mut Option<usize>,
    sets: &mut Vec<StandingSet<'a>>,
) -> Result<usize, NoMemory>
    requires empty { IsEmptyAt (sets_at sets.old.items) empty.old }
    ensures empty { OnOk result (IsEmptyAt (sets_at sets.new.items) empty.new) }
    ensures put { IfOk result (λ number. IsPut (types_view types.now) (field_at field.entry) (sets_at sets.old.items) (sets_at sets.new.items) number) }
{
    let number = sets.len();
    if selections_below(field.field).is_empty() {
        if let Some(shared) = *empty {
            return Ok(shared);
        }
        *empty = Some(number);
    }
    sets.push(field_set(types, field))?;
    Ok(number)
}

/// The fields with the numbers of their selection sets, which are put behind the others.
fn numbered<'a>(
    alloc: Global,
    types: &'a Types,
    fields: &[StandingField<'a>],
    empty: &mut Option<usize>,
    sets: &mut Vec<StandingSet<'a>>,
) -> Result<Vec<Member<'a>>, NoMemory>
    requires empty { IsEmptyAt (sets_at sets.old.items) empty.old }
    ensures empty { OnOk result (IsEmptyAt (sets_at sets.new.items) empty.new) }
    ensures members { IfOk result (λ members. AreNumbered (types_view types.now) (fields_at fields.now) (sets_at sets.old.items) (sets_at sets.new.items) (members_view members.items)) }
{
    let mut members = Vec::with_capacity(alloc, fields.len())?;
    for field in fields {
        let below = put_set(types, *field, empty, sets)?;
        members.push(Member { it: *field, below })?;
    }
    Ok(members)
}

/// A place for the hub of each name, at the number of its first fragment. None is noted.
fn no_hubs(alloc: Global, count: usize) -> Result<Vec<Option<usize>>, NoMemory>
    ensures { IfOk result (λ hubs. (i : ℕ) → slice_index_or hubs.items i None ≡ None) }
{
    let hubs = vec![in alloc; None; count]?;
    Ok(hubs)
}

/// A selection set, its number, and the names by which the fragments are found that are spread in it.
#[derive(Clone, Copy)]
struct Spreading<'n, 'a> {
    names: &'n FragmentNames,
    set: StandingSet<'a>,
    number: usize,
}

/// The first of these numbers, where they are several and it is below the count.
fn first_of_several(numbers: &[usize], count: usize) -> Option<usize>
    ensures { IfSome result (λ first. IsFirstOf numbers.now count first) }
{
    if numbers.len() < 2 {
        return None;
    }
    let first = numbers[0];
    if first >= count {
        return None;
    }
    Some(first)
}

/// Puts a set in which the spread stands alone behind the others, and its number behind the numbers. It is the hub of the fragments of
/// that name, noted at the first of them.
fn put_hub<'a>(
    from: Spreading<'_, 'a>,
    spread: StandingSpread<'a>,
    first: usize,
    hubs: &mut Vec<Option<usize>>,
    sets: &mut Vec<StandingSet<'a>>,
    numbers: &mut Vec<usize>,
) -> Result<(), NoMemory>
    requires { first < length hubs.old.items }
    ensures hubs { OnOk result (hubs.new.items ≡ set hubs.old.items first (Some (length sets.old.items))) }
    ensures sets { OnOk result (sets_at sets.new.items ≡ sets_at sets.old.items
        ++ record { file = from.entry.set.file; parent = text_of from.entry.set.parent; selections = sels_view spread.entry.alone.now } ∷ []) }
    ensures numbers { OnOk result (numbers.new.items ≡ numbers.old.items ++ length sets.old.items ∷ []) }
{
    let hub = sets.len();
    sets.push(StandingSet {
        file: from.set.file,
        parent: from.set.parent,
        selections: spread.alone,
    })?;
    numbers.push(hub)?;
    hubs[first] = Some(hub);
    Ok(())
}

/// Puts the numbers that a spread leads to behind the others: that of the fragment of its name, or of the hub where several have that
/// name. The hub itself leads to all of these.
fn put_led<'a>(
    from: Spreading<'_, 'a>,
    spread: StandingSpread<'a>,
    hubs: &mut Vec<Option<usize>>,
    sets: &mut Vec<StandingSet<'a>>,
    numbers: &mut Vec<usize>,
) -> Result<(), NoMemory>
    requires hubs { AreHubs from.names.now.names.items (sets_at sets.old.items) hubs.old.items }
    requires alone { IsAlone spread.name.now (sels_view spread.alone.now) }
    requires number { from.number < length sets.old.items }
    ensures { OnOk result (PutsLed from.entry.names.now.names.items from.entry.number (spread_at spread.entry ∷ []) (sets_at sets.old.items) (sets_at sets.new.items)
        hubs.old.items hubs.new.items numbers.old.items numbers.new.items) }
{
    let fragments = from.names.numbers(spread.name);
    let Some(first) = first_of_several(fragments, hubs.len()) else {
        numbers.extend_from_slice(fragments)?;
        return Ok(());
    };
    let Some(hub) = hubs[first] else {
        put_hub(from, spread, first, hubs, sets, numbers)?;
        return Ok(());
    };
    if hub == from.number {
        numbers.extend_from_slice(fragments)?;
        return Ok(());
    }
    numbers.push(hub)?;
    Ok(())
}

/// The numbers that these spreads lead to. Hubs are put behind the other sets.
fn all_led<'a>(
    alloc: Global,
    from: Spreading<'_, 'a>,
    spreads: &[StandingSpread<'a>],
    hubs: &mut Vec<Option<usize>>,
    sets: &mut Vec<StandingSet<'a>>,
) -> Result<Vec<usize>, NoMemory>
    requires hubs { AreHubs from.names.now.names.items (sets_at sets.old.items) hubs.old.items }
    requires alone { All (λ s. IsAlone s.text s.alone) (all_spreads_at spreads.now) }
    requires number { from.number < length sets.old.items }
    ensures { IfOk result (λ numbers. AreLed from.entry.names.now.names.items from.entry.number (all_spreads_at spreads.now) (sets_at sets.old.items) (sets_at sets.new.items)
        hubs.old.items hubs.new.items numbers.items) }
{
    let mut numbers = Vec::new(alloc);
    for spread in spreads {
        put_led(from, *spread, hubs, sets, &mut numbers)?;
    }
    Ok(numbers)
}

/// What the rows of a project are made by: its types, and the names of its fragments.
#[derive(Clone, Copy)]
struct Project<'n, 'a> {
    alloc: Global,
    types: &'a Types,
    names: &'n FragmentNames,
}

/// The row of the selection set with that number. Hubs and the sets of its fields are put behind the others. The fields are gathered in
/// a list whose room is used again.
fn row_of<'a>(
    project: Project<'_, 'a>,
    number: usize,
    fields: &mut Vec<StandingField<'a>>,
    empty: &mut Option<usize>,
    hubs: &mut Vec<Option<usize>>,
    sets: &mut Vec<StandingSet<'a>>,
) -> Result<Row<'a>, NoMemory>
    requires number { number < length sets.old.items }
    requires empty { IsEmptyAt (sets_at sets.old.items) empty.old }
    requires hubs { AreHubs project.names.now.names.items (sets_at sets.old.items) hubs.old.items }
    ensures empty { OnOk result (IsEmptyAt (sets_at sets.new.items) empty.new) }
    ensures set { IfOk result (λ row. slice_get sets.old.items number ≡ Some row.set) }
    ensures made { IfOk result (λ row. AreMade (types_view project.entry.types.now) project.entry.names.now.names.items number (set_at row.set)
        (sets_at sets.old.items) (sets_at sets.new.items) hubs.old.items hubs.new.items (row_view row)) }
{
    let set = sets[number];
    let from = Spreading {
        names: project.names,
        set,
        number,
    };
    let mut alone = Vec::new(project.alloc);
    put_spreads(set.selections, &mut alone)?;
    let spreads = all_led(project.alloc, from, &alone, hubs, sets)?;
    fields.clear();
    put_fields(set.file, set.parent, set.selections, fields)?;
    let members = numbered(project.alloc, project.types, fields, empty, sets)?;
    Ok(Row {
        set,
        members,
        spreads,
    })
}

/// A row for each selection set that stands in the project, those of fragments and of operations first. Where several fragments have a
/// name that is spread, they have a hub: a row for a spread of that name alone, which leads to all of them. So a set that spreads the name
/// leads to one number, and not to as many as there are fragments.
pub(crate) fn all_rows<'a>(
    alloc: Global,
    executable: &Executable<'a>,
) -> Result<Vec<Row<'a>>, NoMemory>
    ensures { IfOk result (λ rows. AreRows (executable_view executable.now) (rows_view rows.items)) }
{
    let names = FragmentNames::of(alloc, executable.fragments)?;
    let project = Project {
        alloc,
        types: executable.types,
        names: &names,
    };
    let mut sets = first_sets(alloc, executable)?;
    let mut rows = Vec::with_capacity(alloc, sets.len().saturating_mul(2))?;
    let mut fields = Vec::new(alloc);
    let mut empty = None;
    let mut hubs = no_hubs(alloc, executable.fragments.len())?;
    while rows.len() < sets.len() {
        let number = rows.len();
        let row = row_of(
            project,
            number,
            &mut fields,
            &mut empty,
            &mut hubs,
            &mut sets,
        )?;
        rows.push(row)?;
    }
    Ok(rows)
}
