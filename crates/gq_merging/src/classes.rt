//! Fields of selection sets that stand together, put into classes by their response keys.
ghost use Rattle.std.specs.Prelude.{◌≡◌, ◌↔◌, ◌<◌, ◌++◌, ◌∷◌, [], ℕ, Some, None, All, Contains, IsTrue, IfSome, IfOk, OnOk, length, option_map, position, false};
ghost use Rattle.std.specs.Str.{bytes_eq};
ghost use Rattle.gq_types.specs.Look.{types_view, text_of};
ghost use Rattle.gq_merging.specs.Helping.SetTables.{MemberOf, IsMember};
ghost use Rattle.gq_document.specs.FieldSets.{key};
ghost use Rattle.gq_merging.specs.Helping.GroupTables.{known_shape, SayTheSame, IsUnder, IsThrough, IsThroughMarked, AreBelow, AreClasses, Takes, AreSettled};
ghost use Rattle.gq_merging.specs.Helping.Views.{field_at, member_view, members_view, rows_view};
ghost use Rattle.gq_merging.specs.Helping.GroupViews.{groups_view, classes_view, AreKeyed};

use crate::comparing::{have_same_shape, key, known_type};
use crate::rows::{Member, Row};
use crate::sets::StandingField;
use gq_names::NameList;
use gq_text::NoMemory;
use gq_tree::are_same_arguments;
use gq_types::Types;
use std::alloc::Global;

/// The rows, the numbers of the fragments spread in each, and what the types of fields are found by.
#[derive(Clone, Copy)]
pub(crate) struct Tables<'a> {
    pub(crate) alloc: Global,
    pub(crate) types: &'a Types,
    pub(crate) rows: &'a [Row<'a>],
    pub(crate) spreads: &'a [Vec<usize>],
}

/// Whether both fields have one shape, or the type of neither is known.
fn have_one_shape(tables: Tables<'_>, left: &StandingField<'_>, right: &StandingField<'_>) -> bool
    ensures { IsTrue result ↔ (known_shape (types_view tables.entry.types.now) (field_at left.now) ≡ known_shape (types_view tables.entry.types.now) (field_at right.now)) }
{
    match known_type(tables.types, left) {
        Some(left) => match known_type(tables.types, right) {
            Some(right) => have_same_shape(tables.types, left, right),
            None => false,
        },
        None => known_type(tables.types, right).is_none(),
    }
}

/// Whether the parents of both fields are of one type, or the types of neither are known.
pub(crate) fn have_one_parent(left: &StandingField<'_>, right: &StandingField<'_>) -> bool
    ensures { IsTrue result → text_of left.now.parent ≡ text_of right.now.parent }
{
    match (left.parent, right.parent) {
        (Some(left), Some(right)) => left == right,
        (Some(_), None) => false,
        (None, Some(_)) => false,
        (None, None) => true,
    }
}

/// Whether the two say the same: one name, the same arguments in one order, and one shape. Of parents of one type no shapes
/// are looked up, since the fields are one.
fn say_the_same(tables: Tables<'_>, left: &StandingField<'_>, right: &StandingField<'_>) -> bool
    ensures { IsTrue result ↔ SayTheSame (types_view tables.entry.types.now) (field_at left.now) (field_at right.now) }
{
    if left.field.name.text.as_str() != right.field.name.text.as_str() {
        return false;
    }
    if !are_same_arguments(&left.field.arguments, &right.field.arguments) {
        return false;
    }
    have_one_parent(left, right) || have_one_shape(tables, left, right)
}

/// Whether fields or spreads stand in the set with that number; not past the end.
pub(crate) fn has_selections(rows: &[Row<'_>], number: usize) -> bool
    ensures range { IsTrue result → number < length rows.now }
    ensures none { result ≡ false → (m : MemberOf) → IsMember (rows_view rows.now) number m → ⊥ }
{
    if number >= rows.len() {
        return false;
    }
    let row = &rows[number];
    !row.members.is_empty() || !row.spreads.is_empty()
}

/// The fragment of the one spread in the set with that number, where nothing else stands in it.
fn lone_spread(rows: &[Row<'_>], number: usize) -> Option<usize>
    ensures { IfSome result (λ fragment. IsThrough (rows_view rows.now) number fragment) }
{
    if number >= rows.len() {
        return None;
    }
    let row = &rows[number];
    if !row.members.is_empty() || row.spreads.len() != 1 {
        return None;
    }
    Some(row.spreads[0])
}

/// Whether one spread stands alone in the set with that number, and its fragment is marked.
pub(crate) fn is_through(rows: &[Row<'_>], number: usize, marks: &[bool]) -> bool
    ensures { IsTrue result → IsThroughMarked (rows_view rows.now) number marks.now }
{
    match lone_spread(rows, number) {
        Some(fragment) => fragment < marks.len() && marks[fragment],
        None => false,
    }
}

/// The number of a set with the same fields: that of a fragment, where its spread stands alone in the set.
pub(crate) fn number_of_same(rows: &[Row<'_>], number: usize) -> usize
    requires { number < length rows.now }
    ensures range { result < length rows.now }
    ensures under { IsUnder (rows_view rows.now) number (result ∷ []) }
    ensures over { (m : MemberOf) → IsMember (rows_view rows.now) result m → IsMember (rows_view rows.now) number m }
{
    match lone_spread(rows, number) {
        Some(fragment) if fragment < rows.len() => fragment,
        _ => number,
    }
}

/// Puts the number of a set into a group, if something stands in the set.
fn put_number(rows: &[Row<'_>], number: usize, group: &mut Vec<usize>) -> Result<(), NoMemory>
    requires range { All (λ n. n < length (rows_view rows.now)) group.old.items }
    ensures range { OnOk result (All (λ n. n < length (rows_view rows.now)) group.new.items) }
    ensures kept { OnOk result ((n : ℕ) → Contains group.old.items n → Contains group.new.items n) }
    ensures under { OnOk result (IsUnder (rows_view rows.now) number group.new.items) }
{
    if has_selections(rows, number) {
        group.push(number_of_same(rows, number))?;
    }
    Ok(())
}

/// The most fields that get no table of their keys. To go over so few takes less time than to make one.
const FEW: usize = 16;

/// Fields by their keys: the keys in a table, where there are many fields, the first field of each key, and the sets in the
/// braces of all that have it.
#[derive(Drop)]
struct Classes<'a> {
    table: Option<NameList>,
    firsts: Vec<Member<'a>>,
    groups: Vec<Vec<usize>>,
}

/// The place of the first of these fields that has that response key.
fn find_first(firsts: &[Member<'_>], text: &str) -> Option<usize>
    ensures { result ≡ position (λ m. bytes_eq text.now (key (field_at m.it))) firsts.now }
{
    firsts.iter().position(|first| text == key(&first.it))
}

/// The place of the class of the fields with that response key, if there is one.
fn find_class(classes: &Classes<'_>, text: &str) -> Option<usize>
    requires keyed { AreKeyed classes.now }
    ensures { result ≡ position (bytes_eq text.now) (classes_view classes.now).keys }
{
    match &classes.table {
        Some(names) => names.place(text),
        None => find_first(&classes.firsts, text),
    }
}

/// Puts a key into the table, if there is one.
fn put_key(table: &mut Option<NameList>, text: &str) -> Result<(), NoMemory>
    ensures { OnOk result (table.new ≡ option_map (λ names. names ++ text.now ∷ []) table.old) }
{
    if let Some(names) = table {
        names.push(text)?;
    }
    Ok(())
}

/// A class for a field whose key no class has yet.
fn put_first<'a>(
    tables: Tables<'_>,
    member: &Member<'a>,
    classes: &mut Classes<'a>,
) -> Result<(), NoMemory>
    requires absent { position (bytes_eq (key (field_at member.now.it))) (classes_view classes.old).keys ≡ None }
    requires keyed { AreKeyed classes.old }
    requires classes { AreClasses (rows_view tables.rows.now) (classes_view classes.old) }
    ensures keyed { OnOk result (AreKeyed classes.new) }
    ensures classes { OnOk result (AreClasses (rows_view tables.entry.rows.now) (classes_view classes.new)) }
    ensures takes { OnOk result (Takes (types_view tables.entry.types.now) (rows_view tables.entry.rows.now) (member_view member.now) (classes_view classes.old) (classes_view classes.new)) }
{
    let mut group = Vec::new(tables.alloc);
    put_number(tables.rows, member.below, &mut group)?;
    put_key(&mut classes.table, key(&member.it))?;
    classes.firsts.push(*member)?;
    classes.groups.push(group)?;
    Ok(())
}

/// Puts a field into the class at that place, if it says the same as the first one there.
fn put_other<'a>(
    tables: Tables<'_>,
    member: &Member<'a>,
    place: usize,
    classes: &mut Classes<'a>,
) -> Result<bool, NoMemory>
    requires place { position (bytes_eq (key (field_at member.now.it))) (classes_view classes.old).keys ≡ Some place }
    requires keyed { AreKeyed classes.old }
    requires classes { AreClasses (rows_view tables.rows.now) (classes_view classes.old) }
    ensures keyed { OnOk result (AreKeyed classes.new) }
    ensures classes { OnOk result (AreClasses (rows_view tables.entry.rows.now) (classes_view classes.new)) }
    ensures takes { IfOk result (λ put. IsTrue put →
        Takes (types_view tables.entry.types.now) (rows_view tables.entry.rows.now) (member_view member.now) (classes_view classes.old) (classes_view classes.new)) }
{
    let first = classes.firsts[place];
    if !say_the_same(tables, &first.it, &member.it) {
        return Ok(false);
    }
    put_number(tables.rows, member.below, &mut classes.groups[place])?;
    Ok(true)
}

/// Puts a field into the class of its key, if it says the same as the first one there.
fn put_member<'a>(
    tables: Tables<'_>,
    member: &Member<'a>,
    classes: &mut Classes<'a>,
) -> Result<bool, NoMemory>
    requires keyed { AreKeyed classes.old }
    requires classes { AreClasses (rows_view tables.rows.now) (classes_view classes.old) }
    ensures keyed { OnOk result (AreKeyed classes.new) }
    ensures classes { OnOk result (AreClasses (rows_view tables.entry.rows.now) (classes_view classes.new)) }
    ensures takes { IfOk result (λ put. IsTrue put →
        Takes (types_view tables.entry.types.now) (rows_view tables.entry.rows.now) (member_view member.now) (classes_view classes.old) (classes_view classes.new)) }
{
    match find_class(classes, key(&member.it)) {
        Some(place) => put_other(tables, member, place, classes),
        None => {
            put_first(tables, member, classes)?;
            Ok(true)
        }
    }
}

/// For each key the group of the sets in the braces of its fields, if all fields of one key say the same.
pub(crate) fn groups_below(
    tables: Tables<'_>,
    members: &[Member<'_>],
) -> Result<Option<Vec<Vec<usize>>>, NoMemory>
    ensures range { IfOk result (λ found. IfSome found (λ groups. AreBelow (rows_view tables.entry.rows.now) (groups_view groups.items))) }
    ensures settled { IfOk result (λ found. IfSome found (λ groups.
        AreSettled (types_view tables.entry.types.now) (rows_view tables.entry.rows.now) (groups_view groups.items) (members_view members.now))) }
{
    let room = members.len();
    let table = if room > FEW {
        Some(NameList::with_capacity(tables.alloc, room)?)
    } else {
        None
    };
    let mut classes = Classes {
        table,
        firsts: Vec::with_capacity(tables.alloc, room)?,
        groups: Vec::with_capacity(tables.alloc, room)?,
    };
    for member in members {
        if !put_member(tables, member, &mut classes)? {
            return Ok(None);
        }
    }
    Ok(Some(classes.groups))
}
