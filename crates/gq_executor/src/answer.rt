//! The data of operations (section 6.4).
ghost use Rattle.std.specs.Prelude.{◌≡◌, if◌then◌else◌, ◌<◌, ◌++◌, ◌∷◌, [], IfOk, IfSome, OnOk, Some, None, true, false, is_some, length, map};
ghost use Rattle.std.specs.Option.{option_map};
ghost use Rattle.gq_tree.specs.Views.{type_view};
ghost use Rattle.gq_table.specs.Views.{leaf_view, answer_view, answers_view};
ghost use Rattle.gq_tree.specs.Forest.{none};
ghost use Rattle.gq_meaning.specs.Acyclic.{Rankable};
ghost use Rattle.gq_meaning.specs.Expand.{sets_of};
ghost use Rattle.gq_meaning.specs.Results as result_of;
ghost use Rattle.gq_meaning.specs.Response.{fits as fits_type, fits_composite, fits_leaf, is_nothing, is_list, is_unfit, is_non_null, item_type, written, leaf_in};
ghost use Rattle.gq_meaning.specs.Answered.{is_null};
ghost use Rattle.gq_collect.specs.World.{given_by, definitions_in};
ghost use Rattle.gq_response.specs.Views.{step_view, path_view, errors_view, data_view};
ghost use Rattle.gq_collect.specs.Views.{asked_all, type_seen, found_seen};
ghost use Rattle.gq_executor.specs.Answers.{IsAnswer, IsFieldAnswer, IsItemAnswer};
ghost use Rattle.gq_executor.specs.Helping.Plans.{IsPrepared, IsPlan};

use crate::plans::{Plan, Prepared, plan_for};
use gq_collect::collect::Taken;
use gq_collect::world::{World, applies, is_composite, is_leaf_of, leaf_at, look_with};
use gq_names::NameList;
use gq_response::{Data, Member, Step};
use gq_table::{Leaf, Outcome};
use gq_text::{NoMemory, SmallText};
use gq_tree::TypeRef;
use std::alloc::Global;

#[tactic(auto, using(gq_table::proofs::Trees::results))]
fn is_nothing(outcome: &Outcome) -> bool
    ensures { result ≡ is_nothing (answer_view outcome.now).label }
{
    match outcome {
        Outcome::Nothing => true,
        Outcome::Failed => false,
        Outcome::Leaf(_) => false,
        Outcome::Object { .. } => false,
        Outcome::List(_) => false,
    }
}

// Whether a result fits a type by its outermost form.
#[tactic(auto, using(gq_tree::proofs::Trees::types))]
fn fits(world: World, type_ref: &TypeRef, outcome: &Outcome) -> bool
    ensures { result ≡ fits_type (given_by world.entry) (type_view type_ref.now) (answer_view outcome.now).label }
{
    match type_ref {
        TypeRef::Named(name) => is_nothing(outcome)
            || fits_named(world, name.text.as_str(), outcome),
        TypeRef::List(_) => is_nothing(outcome) || is_list(outcome),
        TypeRef::NonNull(inner) => !is_nothing(outcome) && fits(world, inner, outcome),
    }
}

#[tactic(auto, using(gq_table::proofs::Trees::results))]
fn is_list(outcome: &Outcome) -> bool
    ensures { result ≡ is_list (answer_view outcome.now).label }
{
    match outcome {
        Outcome::Nothing => false,
        Outcome::Failed => false,
        Outcome::Leaf(_) => false,
        Outcome::Object { .. } => false,
        Outcome::List(_) => true,
    }
}

fn fits_named(world: World, name: &str, outcome: &Outcome) -> bool
    ensures { result ≡ (if (given_by world.entry).is_composite name.now then fits_composite (given_by world.entry) name.now
        (answer_view outcome.now).label else fits_leaf (given_by world.entry) name.now (answer_view outcome.now).label) }
{
    if is_composite(world, name) {
        fits_composite(world, name, outcome)
    } else {
        fits_leaf(world, name, outcome)
    }
}

#[tactic(auto, using(gq_table::proofs::Trees::results))]
fn fits_composite(world: World, name: &str, outcome: &Outcome) -> bool
    ensures { result ≡ fits_composite (given_by world.entry) name.now (answer_view outcome.now).label }
{
    match outcome {
        Outcome::Nothing => false,
        Outcome::Failed => false,
        Outcome::Leaf(_) => false,
        Outcome::Object { type_name, .. } => applies(world, name, type_name.as_str()),
        Outcome::List(_) => false,
    }
}

#[tactic(auto, using(gq_table::proofs::Trees::results))]
fn fits_leaf(world: World, name: &str, outcome: &Outcome) -> bool
    ensures { result ≡ fits_leaf (given_by world.entry) name.now (answer_view outcome.now).label }
{
    match outcome {
        Outcome::Nothing => false,
        Outcome::Failed => false,
        Outcome::Leaf(leaf) => is_leaf_of(world, name, leaf),
        Outcome::Object { .. } => false,
        Outcome::List(_) => false,
    }
}

// Whether what was found, if anything, does not fit the type of a field.
fn is_unfit(world: World, type_ref: Option<&TypeRef>, found: Option<&Outcome>) -> bool
    ensures { result ≡ is_unfit (given_by world.entry) (type_seen type_ref.entry) (found_seen found.entry) }
{
    match type_ref {
        None => true,
        Some(type_ref) => match found {
            None => true,
            Some(outcome) => !fits(world, type_ref, outcome),
        },
    }
}

#[tactic(auto, using(gq_response::proofs::Trees::answers))]
fn is_null(data: &Data) -> bool
    ensures { result ≡ is_null (data_view data.now) }
{
    match data {
        Data::Null => true,
        Data::Leaf(_) => false,
        Data::List(_) => false,
        Data::Object(_) => false,
    }
}

fn is_non_null(type_ref: Option<&TypeRef>) -> bool
    ensures { result ≡ is_non_null (type_seen type_ref.entry) }
{
    match type_ref {
        None => false,
        Some(type_ref) => type_ref.is_non_null(),
    }
}

fn item_type<'a>(type_ref: Option<&'a TypeRef>) -> Option<&'a TypeRef>
    ensures { type_seen result ≡ item_type (type_seen type_ref.entry) }
{
    match type_ref {
        None => None,
        Some(type_ref) => type_ref.item_type(),
    }
}

// What a leaf is written as at a type.
fn written(
    alloc: Global,
    world: World,
    type_ref: Option<&TypeRef>,
    leaf: &Leaf,
) -> Result<Option<Leaf>, NoMemory>
    ensures { IfOk result (λ o. option_map leaf_view o ≡ leaf_in (given_by world.entry) (type_seen type_ref.entry) (Some (record { label = result_of.leaf (leaf_view leaf.now); below = none }))) }
{
    match type_ref {
        None => Ok(None),
        Some(type_ref) => written_at(alloc, world, type_ref, leaf),
    }
}

#[tactic(auto, using(gq_tree::proofs::Trees::types))]
fn written_at(
    alloc: Global,
    world: World,
    type_ref: &TypeRef,
    leaf: &Leaf,
) -> Result<Option<Leaf>, NoMemory>
    ensures { IfOk result (λ o. option_map leaf_view o ≡ written (given_by world.entry) (type_view type_ref.now) (result_of.leaf (leaf_view leaf.now))) }
{
    match type_ref {
        TypeRef::Named(name) => leaf_at(alloc, world, name.text.as_str(), leaf),
        TypeRef::List(_) => Ok(None),
        TypeRef::NonNull(inner) => written_at(alloc, world, inner, leaf),
    }
}

// A copy of a step.
fn copied_step(alloc: Global, step: &Step) -> Result<Step, NoMemory>
    ensures { IfOk result (λ s. step_view s ≡ step_view step.now) }
{
    match step {
        Step::Key(key) => Ok(Step::Key(key.copied(alloc)?)),
        Step::Index(index) => Ok(Step::Index(*index)),
    }
}

// A copy of a path.
#[tactic(auto, using(gq_tree::proofs::Trees::gathers))]
fn copied_path(alloc: Global, path: &[Step]) -> Result<Vec<Step>, NoMemory>
    ensures { IfOk result (λ p. path_view p.items ≡ path_view path.now) }
{
    let mut copy = Vec::new(alloc);
    for step in path {
        copy.push(copied_step(alloc, step)?)?;
    }
    Ok(copy)
}

// Puts the path behind the errors.
fn put_error(alloc: Global, path: &[Step], errors: &mut Vec<Vec<Step>>) -> Result<(), NoMemory>
    ensures { OnOk result (errors_view errors.new.items ≡ errors_view errors.old.items ++ path_view path.now ∷ []) }
{
    let path = copied_path(alloc, path)?;
    errors.push(path)?;
    Ok(())
}

/// The data of a place: what was found for a group of fields, and all below it. The errors at it and below it are put
/// behind those before, each with its path.
#[cycle(answer)]
fn answer<'a>(
    alloc: Global,
    world: World<'a>,
    type_ref: Option<&'a TypeRef>,
    found: Option<&'a Outcome>,
    group: &[Taken<'a>],
    plan: Option<&Plan<'a>>,
    path: &mut Vec<Step>,
    errors: &mut Vec<Vec<Step>>,
    visited: &mut NameList,
) -> Result<Data, NoMemory>
    requires ranked { Rankable (definitions_in world) (sets_of (asked_all group.now)) }
    requires plan { IfSome plan (λ p. IsPlan world p.now.object.now (asked_all group.now) p.now) }
    ensures path { OnOk result (path.new.items ≡ path.old.items) }
    ensures answer { IfOk result (λ d. IsAnswer world.entry (type_seen type_ref.entry) (found_seen found.entry) (asked_all group.now)
        (path_view path.old.items) (errors_view errors.old.items) (errors_view errors.new.items) (data_view d)) }
{
    if is_unfit(world, type_ref, found) {
        put_error(alloc, path, errors)?;
        return Ok(Data::Null);
    }
    match found {
        None => Ok(Data::Null),
        Some(outcome) => answer_outcome(
            alloc, world, type_ref, outcome, group, plan, path, errors, visited,
        ),
    }
}

// The same of a result that fits.
#[cycle(answer)]
fn answer_outcome<'a>(
    alloc: Global,
    world: World<'a>,
    type_ref: Option<&'a TypeRef>,
    outcome: &'a Outcome,
    group: &[Taken<'a>],
    plan: Option<&Plan<'a>>,
    path: &mut Vec<Step>,
    errors: &mut Vec<Vec<Step>>,
    visited: &mut NameList,
) -> Result<Data, NoMemory>
    requires ranked { Rankable (definitions_in world) (sets_of (asked_all group.now)) }
    requires fits { is_unfit (given_by world) (type_seen type_ref) (Some (answer_view outcome.now)) ≡ false }
    requires plan { IfSome plan (λ p. IsPlan world p.now.object.now (asked_all group.now) p.now) }
    ensures path { OnOk result (path.new.items ≡ path.old.items) }
    ensures answer { IfOk result (λ d. IsAnswer world.entry (type_seen type_ref.entry) (Some (answer_view outcome.now)) (asked_all group.now)
        (path_view path.old.items) (errors_view errors.old.items) (errors_view errors.new.items) (data_view d)) }
{
    match outcome {
        Outcome::Nothing => Ok(Data::Null),
        Outcome::Failed => Ok(Data::Null),
        Outcome::Leaf(leaf) => match written(alloc, world, type_ref, leaf)? {
            None => Ok(Data::Null),
            Some(leaf) => Ok(Data::Leaf(leaf)),
        },
        Outcome::Object { type_name, number } => {
            let object = type_name.as_str();
            match plan_for(plan, object) {
                Some(plan) => answer_members(
                    alloc, world, type_ref, object, *number, group, plan, path, errors, visited,
                ),
                None => answer_object(
                    alloc, world, type_ref, object, *number, group, path, errors, visited,
                ),
            }
        }
        Outcome::List(items) => answer_list(
            alloc, world, type_ref, items, group, path, errors, visited,
        ),
    }
}

/// An object that fits. One list `visited` serves all levels of the response: it may hold anything, and is emptied
/// wherever the fields of an object are collected.
#[cycle(answer)]
pub fn answer_object<'a>(
    alloc: Global,
    world: World<'a>,
    type_ref: Option<&'a TypeRef>,
    object: &'a str,
    number: u64,
    group: &[Taken<'a>],
    path: &mut Vec<Step>,
    errors: &mut Vec<Vec<Step>>,
    visited: &mut NameList,
) -> Result<Data, NoMemory>
    requires ranked { Rankable (definitions_in world) (sets_of (asked_all group.now)) }
    requires fits { is_unfit (given_by world) (type_seen type_ref) (Some (record { label = result_of.object object.now number; below = none })) ≡ false }
    ensures path { OnOk result (path.new.items ≡ path.old.items) }
    ensures answer { IfOk result
        (λ d. IsAnswer world.entry (type_seen type_ref.entry) (Some (record { label = result_of.object object.now number; below = none }))
        (asked_all group.now) (path_view path.old.items) (errors_view errors.old.items) (errors_view errors.new.items) (data_view d)) }
{
    let plan = Plan::of(alloc, world, object, group, visited)?;
    let data = answer_members(
        alloc, world, type_ref, object, number, group, &plan, path, errors, visited,
    )?;
    Ok(data)
}

// The same by the plan of what the group asks of such objects.
#[cycle(answer)]
fn answer_members<'a>(
    alloc: Global,
    world: World<'a>,
    type_ref: Option<&'a TypeRef>,
    object: &'a str,
    number: u64,
    group: &[Taken<'a>],
    plan: &Plan<'a>,
    path: &mut Vec<Step>,
    errors: &mut Vec<Vec<Step>>,
    visited: &mut NameList,
) -> Result<Data, NoMemory>
    requires ranked { Rankable (definitions_in world) (sets_of (asked_all group.now)) }
    requires fits { is_unfit (given_by world) (type_seen type_ref) (Some (record { label = result_of.object object.now number; below = none })) ≡ false }
    requires plan { IsPlan world object.now (asked_all group.now) plan.now }
    ensures path { OnOk result (path.new.items ≡ path.old.items) }
    ensures answer { IfOk result
        (λ d. IsAnswer world.entry (type_seen type_ref.entry) (Some (record { label = result_of.object object.now number; below = none }))
        (asked_all group.now) (path_view path.old.items) (errors_view errors.old.items) (errors_view errors.new.items) (data_view d)) }
{
    let _ = group;
    let mut members = Vec::new(alloc);
    let mut blocked = false;
    for (place, one) in plan.groups.groups.iter().enumerate() {
        let key = plan.groups.keys.get(place);
        let call = &plan.calls[place];
        let (stops, value) = answer_key(
            alloc, world, object, number, key, one, call, path, errors, visited,
        )?;
        let key = SmallText::from_str(alloc, key)?;
        members.push(Member { key, value })?;
        blocked = blocked | stops;
    }
    if blocked {
        return Ok(Data::Null);
    }
    Ok(Data::Object(members))
}

// The fields of one key: whether they leave the object null, and their data.
#[cycle(answer)]
fn answer_key<'a>(
    alloc: Global,
    world: World<'a>,
    object: &'a str,
    number: u64,
    key: &str,
    group: &[Taken<'a>],
    call: &Prepared<'a>,
    path: &mut Vec<Step>,
    errors: &mut Vec<Vec<Step>>,
    visited: &mut NameList,
) -> Result<(bool, Data), NoMemory>
    requires ranked { Rankable (definitions_in world) (sets_of (asked_all group.now)) }
    requires there { 0 < length group.now }
    requires call { IsPrepared world object.now group.now call.now }
    ensures path { OnOk result (path.new.items ≡ path.old.items) }
    ensures answer { IfOk result (λ r. IsFieldAnswer world.entry object.now number (asked_all group.now)
        (path_view path.old.items ++ result_of.key key.now ∷ []) (errors_view errors.old.items) (errors_view errors.new.items) r.0 (data_view r.1)) }
{
    let step = Step::Key(SmallText::from_str(alloc, key)?);
    path.push(step)?;
    let answered = answer_field(
        alloc, world, object, number, group, call, path, errors, visited,
    )?;
    let _ = path.pop();
    Ok(answered)
}

// The same, at the path that leads to them.
#[cycle(answer)]
fn answer_field<'a>(
    alloc: Global,
    world: World<'a>,
    object: &'a str,
    number: u64,
    group: &[Taken<'a>],
    call: &Prepared<'a>,
    path: &mut Vec<Step>,
    errors: &mut Vec<Vec<Step>>,
    visited: &mut NameList,
) -> Result<(bool, Data), NoMemory>
    requires ranked { Rankable (definitions_in world) (sets_of (asked_all group.now)) }
    requires there { 0 < length group.now }
    requires call { IsPrepared world object.now group.now call.now }
    ensures path { OnOk result (path.new.items ≡ path.old.items) }
    ensures answer { IfOk result (λ r. IsFieldAnswer world.entry object.now number (asked_all group.now) (path_view path.old.items)
        (errors_view errors.old.items) (errors_view errors.new.items) r.0 (data_view r.1)) }
{
    let first = group[0];
    if first.name == "__typename" {
        let text = SmallText::from_str(alloc, object)?;
        return Ok((false, Data::Leaf(Leaf::Text(text))));
    }
    let type_ref = call.type_ref;
    let found = look_with(alloc, world, object, number, first.name, &call.arguments)?;
    let value = answer(
        alloc, world, type_ref, found, group, None, path, errors, visited,
    )?;
    let stops = is_non_null(type_ref) & is_null(&value);
    Ok((stops, value))
}

// A list that fits.
#[cycle(answer)]
fn answer_list<'a>(
    alloc: Global,
    world: World<'a>,
    type_ref: Option<&'a TypeRef>,
    items: &'a [Outcome],
    group: &[Taken<'a>],
    path: &mut Vec<Step>,
    errors: &mut Vec<Vec<Step>>,
    visited: &mut NameList,
) -> Result<Data, NoMemory>
    requires ranked { Rankable (definitions_in world) (sets_of (asked_all group.now)) }
    requires fits { is_unfit (given_by world) (type_seen type_ref) (Some (record { label = result_of.list; below = answers_view items.now })) ≡ false }
    ensures path { OnOk result (path.new.items ≡ path.old.items) }
    ensures answer { IfOk result
        (λ d. IsAnswer world.entry (type_seen type_ref.entry) (Some (record { label = result_of.list; below = answers_view items.now }))
        (asked_all group.now) (path_view path.old.items) (errors_view errors.old.items) (errors_view errors.new.items) (data_view d)) }
{
    let own = Plan::of_items(alloc, world, items, group, visited)?;
    let plan = own.as_ref();
    let mut values = Vec::new(alloc);
    let mut blocked = false;
    for (index, item) in items.iter().enumerate() {
        let (stops, value) = answer_item(
            alloc, world, type_ref, index, item, group, plan, path, errors, visited,
        )?;
        values.push(value)?;
        blocked = blocked | stops;
    }
    if blocked {
        return Ok(Data::Null);
    }
    Ok(Data::List(values))
}

// An item of a list: whether it leaves the list null, and its data.
#[cycle(answer)]
fn answer_item<'a>(
    alloc: Global,
    world: World<'a>,
    type_ref: Option<&'a TypeRef>,
    index: usize,
    item: &'a Outcome,
    group: &[Taken<'a>],
    plan: Option<&Plan<'a>>,
    path: &mut Vec<Step>,
    errors: &mut Vec<Vec<Step>>,
    visited: &mut NameList,
) -> Result<(bool, Data), NoMemory>
    requires ranked { Rankable (definitions_in world) (sets_of (asked_all group.now)) }
    requires plan { IfSome plan (λ p. IsPlan world p.now.object.now (asked_all group.now) p.now) }
    ensures path { OnOk result (path.new.items ≡ path.old.items) }
    ensures answer { IfOk result (λ r. IsItemAnswer world.entry (type_seen type_ref.entry) (answer_view item.now) (asked_all group.now)
        (path_view path.old.items ++ result_of.index index ∷ []) (errors_view errors.old.items) (errors_view errors.new.items) r.0 (data_view r.1)) }
{
    let item_type = item_type(type_ref);
    path.push(Step::Index(index))?;
    let value = answer(
        alloc,
        world,
        item_type,
        Some(item),
        group,
        plan,
        path,
        errors,
        visited,
    )?;
    let _ = path.pop();
    let stops = is_non_null(item_type) & is_null(&value);
    Ok((stops, value))
}
