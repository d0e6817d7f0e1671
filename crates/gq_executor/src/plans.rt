//! What a group of fields asks of the objects of one type: the fields by their keys, with their types and arguments, which are the
//! same for all these objects (sections 6.3.2 and 6.4.1).
ghost use Rattle.std.specs.Prelude.{◌≡◌, Some, IfOk, IfSome};
ghost use Rattle.std.specs.List.{AllZip};
ghost use Rattle.gq_collect.specs.Views.{asked_all};
ghost use Rattle.gq_executor.specs.Helping.Plans.{IsPreparedFor, IsPrepared, IsPlan};

use gq_collect::collect::{Taken, collect};
use gq_collect::groups::{Groups, grouped};
use gq_collect::world::{World, arguments_of, type_of};
use gq_names::NameList;
use gq_table::{Entry, Outcome};
use gq_text::NoMemory;
use gq_tree::TypeRef;
use std::alloc::Global;

/// The type of the fields of one key, and their arguments, if these are not at fault.
#[derive(Drop)]
pub(crate) struct Prepared<'a> {
    pub(crate) type_ref: Option<&'a TypeRef>,
    pub(crate) arguments: Option<Vec<Entry>>,
}

/// What a group of fields asks of the objects of one type.
#[derive(Drop)]
pub(crate) struct Plan<'a> {
    pub(crate) object: &'a str,
    pub(crate) groups: Groups<'a>,
    pub(crate) calls: Vec<Prepared<'a>>,
}

/// The type and the arguments of a field of objects of that type.
fn prepared_call<'a>(
    alloc: Global,
    world: World<'a>,
    object: &str,
    first: Taken<'a>,
) -> Result<Prepared<'a>, NoMemory>
    ensures { IfOk result (λ call. IsPreparedFor world.entry object.now first.entry call) }
{
    Ok(Prepared {
        type_ref: type_of(world, object, first.name),
        arguments: arguments_of(alloc, world, object, first.name, first.arguments)?,
    })
}

/// The same of the first of the fields of one key.
fn call_of_group<'a>(
    alloc: Global,
    world: World<'a>,
    object: &str,
    group: &[Taken<'a>],
) -> Result<Prepared<'a>, NoMemory>
    ensures { IfOk result (λ call. IsPrepared world.entry object.now group.now call) }
{
    match group {
        [] => Ok(Prepared {
            type_ref: None,
            arguments: None,
        }),
        [first, ..] => prepared_call(alloc, world, object, *first),
    }
}

/// The same of each of these groups.
fn calls_of_groups<'a>(
    alloc: Global,
    world: World<'a>,
    object: &str,
    groups: &[Vec<Taken<'a>>],
) -> Result<Vec<Prepared<'a>>, NoMemory>
    ensures { IfOk result (λ calls. AllZip (λ g call. IsPrepared world.entry object.now g.items call) groups.now calls.items) }
{
    let mut calls = Vec::new(alloc);
    for group in groups {
        calls.push(call_of_group(alloc, world, object, group)?)?;
    }
    Ok(calls)
}

impl<'a> Plan<'a> {
    /// What the group asks of objects of that type.
    pub(crate) fn of(
        alloc: Global,
        world: World<'a>,
        object: &'a str,
        group: &[Taken<'a>],
        visited: &mut NameList,
    ) -> Result<Plan<'a>, NoMemory>
        ensures object { IfOk result (λ plan. plan.object.now ≡ object.now) }
        ensures plan { IfOk result (λ plan. IsPlan world.entry object.now (asked_all group.now) plan) }
    {
        let fields = collect(alloc, world, object, group, visited)?;
        let groups = grouped(alloc, &fields)?;
        let calls = calls_of_groups(alloc, world, object, &groups.groups)?;
        Ok(Plan {
            object,
            groups,
            calls,
        })
    }

    /// What the group asks of the objects in a list, where it begins with one of several items.
    pub(crate) fn of_items(
        alloc: Global,
        world: World<'a>,
        items: &'a [Outcome],
        group: &[Taken<'a>],
        visited: &mut NameList,
    ) -> Result<Option<Plan<'a>>, NoMemory>
        ensures { IfOk result (λ o. IfSome o (λ plan. IsPlan world.entry plan.object.now (asked_all group.now) plan)) }
    {
        match items {
            [Outcome::Object { type_name, .. }, _, ..] => {
                let plan = Plan::of(alloc, world, type_name.as_str(), group, visited)?;
                Ok(Some(plan))
            }
            _ => Ok(None),
        }
    }
}

/// The plan, if it is for objects of that type.
pub(crate) fn plan_for<'p, 'a>(plan: Option<&'p Plan<'a>>, object: &str) -> Option<&'p Plan<'a>>
    ensures plan { IfSome result (λ p. plan.entry ≡ Some p) }
    ensures object { IfSome result (λ p. p.now.object.now ≡ object.now) }
{
    let plan = plan?;
    if plan.object == object {
        Some(plan)
    } else {
        None
    }
}
