//! Fields of one key of which what stands in their braces meets: the faults of those that do not merge, and the group of the sets in
//! their braces.
//!
//! To differ is to be apart in an equivalence, among fields of which the types are known where shapes are compared. So a field does not
//! merge with one that stands no later exactly if it differs from the earliest one, or from the earliest one that differs from that
//! and stands no later. No pairs are looked at.
ghost use Rattle.std.specs.Prelude.{◌≡◌, ◌↔◌, ◌<◌, ◌++◌, ◌∷◌, [], ℕ, List, All, Contains, IsTrue, IfOk, OnOk, length, map, true};
ghost use Rattle.std.specs.declared.vec.Vec.{Vec};
ghost use Rattle.std.specs.declared.alloc.Global.{Global};
ghost use Rattle.gq_fault.specs.Adds.{AddsExactly};
ghost use Rattle.gq_types.specs.Look.{types_view};
ghost use Rattle.gq_merging.specs.FieldsMerge.{can_coincide};
ghost use Rattle.gq_merging.specs.declared.purpose.Purpose.TheVariants.{Names};
ghost use Rattle.gq_merging.specs.Helping.PairTables.{AreMet, IsGiven, IsFaultOf};
ghost use Rattle.gq_merging.specs.Helping.SearchTables.{AreOfOneKey, IsClique, IsWith, IsBelowOne, AreBelowThese, AreMetInOne, Grows, Searched};
ghost use Rattle.gq_merging.specs.Helping.GroupTables.{IsOfGroup};
ghost use Rattle.gq_merging.specs.Helping.SetTables.{MemberOf};
ghost use Rattle.gq_merging.specs.Helping.GroupViews.{groups_view};
ghost use Rattle.gq_merging.specs.Helping.SearchViews.{list_with, AreCliquesWith, AreMetWith};
ghost use Rattle.gq_merging.specs.Helping.Views.{member_view, members_view, rows_view, look_view};

use crate::by_name::FieldsByName;
use crate::by_parent::FieldsByParent;
use crate::classes::{has_selections, have_one_parent};
use crate::comparing::can_coincide;
use crate::earliest::{earliest_of, earliest_other};
use crate::faults::add_fault_of;
use crate::pairs::{Look, Met};
use crate::purpose::Purpose;
use crate::rows::{Member, Row};
use gq_fault::Fault;
use gq_text::NoMemory;
use gq_types::Types;
use std::alloc::Global;

/// Takes as many steps as there are fields, and one more, from those that are left. It is false where there are not so many.
pub(crate) fn take_steps(steps: &mut usize, fields: usize) -> bool
    ensures { IsTrue result → steps.new < steps.old }
{
    if *steps <= fields {
        return false;
    }
    *steps -= fields;
    *steps -= 1;
    true
}

/// The faults of the fields that differ from this one, where that stands no later.
fn add_faults_with(
    look: Look<'_>,
    one: &Member<'_>,
    members: &[Member<'_>],
    faults: &mut Vec<Fault>,
) -> Result<(), NoMemory>
    ensures { OnOk result (AddsExactly (IsGiven (IsWith (member_view one.now) (members_view members.now)) (IsFaultOf (look_view look.entry))) faults.old.items faults.new.items) }
{
    for member in members {
        let met = Met {
            left: *one,
            right: *member,
        };
        add_fault_of(look, &met, faults)?;
    }
    Ok(())
}

/// The faults of all fields that do not merge with one of the others that stands no later.
fn add_faults_among(
    look: Look<'_>,
    members: &[Member<'_>],
    faults: &mut Vec<Fault>,
) -> Result<(), NoMemory>
    requires clique { IsClique (look_view look) (members_view members.now) }
    ensures { OnOk result (AddsExactly (IsGiven (AreMet (members_view members.now) (members_view members.now)) (IsFaultOf (look_view look.entry))) faults.old.items faults.new.items) }
{
    if members.len() == 1 {
        return Ok(());
    }
    let Some(first) = earliest_of(look, members) else {
        return Ok(());
    };
    let Some(second) = earliest_other(look, &first, members)? else {
        return Ok(());
    };
    add_faults_with(look, &first, members, faults)?;
    add_faults_with(look, &second, members, faults)
}

/// Puts the number of the set in the field's braces into a group, if something stands there.
fn put_below(rows: &[Row<'_>], member: &Member<'_>, group: &mut Vec<usize>) -> Result<(), NoMemory>
    ensures { OnOk result ((ms : List MemberOf) →
        ((m : MemberOf) → IsOfGroup (rows_view rows.now) group.old.items m ↔ IsBelowOne (rows_view rows.now) ms m) →
        (m : MemberOf) → IsOfGroup (rows_view rows.now) group.new.items m ↔ IsBelowOne (rows_view rows.now) (ms ++ member_view member.now ∷ []) m) }
{
    if has_selections(rows, member.below) {
        group.push(member.below)?;
    }
    Ok(())
}

/// The numbers of the sets in the braces of the fields, those aside in which nothing stands.
fn sets_below(
    alloc: Global,
    rows: &[Row<'_>],
    members: &[Member<'_>],
) -> Result<Vec<usize>, NoMemory>
    ensures { IfOk result (λ group. (m : MemberOf) → IsOfGroup (rows_view rows.now) group.items m ↔ IsBelowOne (rows_view rows.now) (members_view members.now) m) }
{
    let mut group = Vec::new(alloc);
    for member in members {
        put_below(rows, member, &mut group)?;
    }
    Ok(group)
}

/// Puts the group of the sets in the braces of the fields behind the others, if something stands in them.
fn put_group(
    alloc: Global,
    rows: &[Row<'_>],
    members: &[Member<'_>],
    groups: &mut Vec<Vec<usize>>,
) -> Result<(), NoMemory>
    ensures { OnOk result (Grows (rows_view rows.now) (AreBelowThese (rows_view rows.now) (members_view members.now)) (groups_view groups.old.items) (groups_view groups.new.items)) }
{
    let group = sets_below(alloc, rows, members)?;
    if !group.is_empty() {
        groups.push(group)?;
    }
    Ok(())
}

/// Looks at fields of one key of which what stands in their braces meets. False where the steps are used up.
fn look_at_clique(
    look: Look<'_>,
    members: &[Member<'_>],
    faults: &mut Vec<Fault>,
    groups: &mut Vec<Vec<usize>>,
    steps: &mut usize,
) -> Result<bool, NoMemory>
    requires clique { IsClique (look_view look) (members_view members.now) }
    ensures { IfOk result (λ done. IsTrue done →
        Searched (look_view look.entry) (AreMet (members_view members.now) (members_view members.now))
        faults.old.items faults.new.items (groups_view groups.old.items) (groups_view groups.new.items)) }
{
    if !take_steps(steps, members.len()) {
        return Ok(false);
    }
    add_faults_among(look, members, faults)?;
    put_group(look.alloc, look.rows, members, groups)?;
    Ok(true)
}

/// Whether the parents of all these fields are of one type, and that is known.
fn have_one_known_parent(types: &Types, members: &[Member<'_>]) -> bool
    ensures { IsTrue result → (a b : MemberOf) → Contains (members_view members.now) a → Contains (members_view members.now) b →
        can_coincide (types_view types.now) a.field_at.parent b.field_at.parent ≡ true }
{
    let Some(first) = members.first() else {
        return false;
    };
    if !can_coincide(types, first.it.parent, first.it.parent) {
        return false;
    }
    for member in members {
        if !have_one_parent(&first.it, &member.it) {
            return false;
        }
    }
    true
}

/// Looks at the fields of a list together with the others.
fn look_at_list<'a>(
    look: Look<'_>,
    list: &[Member<'a>],
    others: &[Member<'a>],
    faults: &mut Vec<Fault>,
    groups: &mut Vec<Vec<usize>>,
    steps: &mut usize,
) -> Result<bool, NoMemory>
    requires clique { IsClique (look_view look) (members_view list.now ++ members_view others.now) }
    ensures { IfOk result (λ done. IsTrue done →
        Searched (look_view look.entry) (AreMet (members_view list.now ++ members_view others.now) (members_view list.now ++ members_view others.now))
        faults.old.items faults.new.items (groups_view groups.old.items) (groups_view groups.new.items)) }
{
    let mut members = Vec::from_slice(look.alloc, list)?;
    members.extend_from_slice(others)?;
    let done = look_at_clique(look, &members, faults, groups, steps)?;
    Ok(done)
}

/// Looks at each list together with the others.
fn look_at_lists<'a>(
    look: Look<'_>,
    lists: &[Vec<Member<'a>>],
    others: &[Member<'a>],
    faults: &mut Vec<Fault>,
    groups: &mut Vec<Vec<usize>>,
    steps: &mut usize,
) -> Result<bool, NoMemory>
    requires cliques { AreCliquesWith (look_view look) lists.now others.now }
    ensures { IfOk result (λ done. IsTrue done →
        Searched (look_view look.entry) (AreMetInOne (map (list_with others.now) lists.now))
        faults.old.items faults.new.items (groups_view groups.old.items) (groups_view groups.new.items)) }
{
    for list in lists {
        if !look_at_list(look, list, others, faults, groups, steps)? {
            return Ok(false);
        }
    }
    Ok(true)
}

/// Looks at the others, and at each list together with them.
fn look_at_others<'a>(
    look: Look<'_>,
    lists: &[Vec<Member<'a>>],
    others: &[Member<'a>],
    faults: &mut Vec<Fault>,
    groups: &mut Vec<Vec<usize>>,
    steps: &mut usize,
) -> Result<bool, NoMemory>
    requires clique { IsClique (look_view look) (members_view others.now) }
    requires cliques { AreCliquesWith (look_view look) lists.now others.now }
    ensures { IfOk result (λ done. IsTrue done →
        Searched (look_view look.entry) (AreMetWith lists.now others.now)
        faults.old.items faults.new.items (groups_view groups.old.items) (groups_view groups.new.items)) }
{
    if !look_at_clique(look, others, faults, groups, steps)? {
        return Ok(false);
    }
    let done = look_at_lists(look, lists, others, faults, groups, steps)?;
    Ok(done)
}

/// Looks at fields of one key by the types of their parents: those of an object type together with those of interfaces and unions.
fn look_by_parents(
    look: Look<'_>,
    members: &[Member<'_>],
    faults: &mut Vec<Fault>,
    groups: &mut Vec<Vec<usize>>,
    steps: &mut usize,
) -> Result<bool, NoMemory>
    requires purpose { look.purpose ≡ Names }
    requires one_key { AreOfOneKey (members_view members.now) }
    ensures { IfOk result (λ done. IsTrue done →
        Searched (look_view look.entry) (AreMet (members_view members.now) (members_view members.now))
        faults.old.items faults.new.items (groups_view groups.old.items) (groups_view groups.new.items)) }
{
    let by_parent = FieldsByParent::of(look.alloc, look.types, members)?;
    let done = look_at_others(
        look,
        &by_parent.of_objects.lists,
        &by_parent.of_others,
        faults,
        groups,
        steps,
    )?;
    Ok(done)
}

/// Looks at fields of one key.
pub(crate) fn look_at_class(
    look: Look<'_>,
    members: &[Member<'_>],
    faults: &mut Vec<Fault>,
    groups: &mut Vec<Vec<usize>>,
    steps: &mut usize,
) -> Result<bool, NoMemory>
    requires one_key { AreOfOneKey (members_view members.now) }
    ensures { IfOk result (λ done. IsTrue done →
        Searched (look_view look.entry) (AreMet (members_view members.now) (members_view members.now))
        faults.old.items faults.new.items (groups_view groups.old.items) (groups_view groups.new.items)) }
{
    match look.purpose {
        Purpose::Shapes => look_at_clique(look, members, faults, groups, steps),
        Purpose::Names => {
            if have_one_known_parent(look.types, members) {
                return look_at_clique(look, members, faults, groups, steps);
            }
            look_by_parents(look, members, faults, groups, steps)
        }
    }
}

/// Looks at lists of fields, each of one key.
pub(crate) fn look_at_classes(
    look: Look<'_>,
    lists: &[Vec<Member<'_>>],
    faults: &mut Vec<Fault>,
    groups: &mut Vec<Vec<usize>>,
    steps: &mut usize,
) -> Result<bool, NoMemory>
    requires one_key { (list : Vec Member Global) → Contains lists.now list → AreOfOneKey (members_view list.items) }
    ensures { IfOk result (λ done. IsTrue done →
        Searched (look_view look.entry) (AreMetInOne (map (λ list. members_view list.items) lists.now))
        faults.old.items faults.new.items (groups_view groups.old.items) (groups_view groups.new.items)) }
{
    for list in lists {
        if !look_at_class(look, list, faults, groups, steps)? {
            return Ok(false);
        }
    }
    Ok(true)
}
