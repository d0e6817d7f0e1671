//! The fields of selection sets (section 6.3.2).
ghost use Rattle.std.specs.Prelude.{◌≡◌, ℕ, List, [], IfOk, OnOk, length, map};
ghost use Rattle.std.specs.Option.{option_map};
ghost use Rattle.gq_tree.specs.Views.{name_of, alias_of, below_of};
ghost use Rattle.gq_meaning.specs.Values.{Text};
ghost use Rattle.gq_meaning.specs.Selected.{Set, set_of, key_of as response_key};
ghost use Rattle.gq_tree.specs.declared.tree.Selection.TheViews.{out-Field};
ghost use Rattle.gq_meaning.specs.Views.{before, set_in};
ghost use Rattle.gq_meaning.specs.Expand.{fits_condition, expand, sets_of};
ghost use Rattle.gq_meaning.specs.Acyclic.{IsRanked, SpreadsBelow};
ghost use Rattle.gq_meaning.specs.Thin.{Thin};
ghost use Rattle.gq_meaning.specs.Helping.Gathers.{Gathers, Continues};
ghost use Rattle.gq_collect.specs.World.{definitions_in};
ghost use Rattle.gq_collect.specs.Views.{asked_of, asked_in, asked_all, setting_in};

use crate::directives::takes;
use crate::world::{World, applies, fragment};
use gq_names::NameList;
use gq_text::NoMemory;
use gq_tree::{Argument, Field, Name, Selection, SelectionSet};
use std::alloc::Global;

/// A field that was taken.
#[derive(Clone, Copy)]
pub struct Taken<'a> {
    pub key: &'a str,
    pub name: &'a str,
    pub arguments: &'a [Argument],
    pub set: &'a [Selection],
}

/// The selections in the braces of a field.
fn selections_below(set: &Option<Box<SelectionSet>>) -> &[Selection]
    ensures { set_in result.now ≡ set_of (below_of set.now) }
{
    match set {
        Some(set) => &set.items,
        None => &[],
    }
}

fn is_applicable(world: World, on: &Option<Name>, object: &str) -> bool
    ensures { result ≡ fits_condition (setting_in world.entry object.now) (option_map (λ n. n.text) (option_map name_of on.now)) }
{
    match on {
        Some(on) => applies(world, on.text.as_str(), object),
        None => true,
    }
}

/// The response key of a field.
fn key_of(field: &Field) -> &str
    ensures { result.now ≡ response_key (alias_of (out-Field field.now).alias) (name_of (out-Field field.now).name) }
{
    match &field.alias {
        Some(alias) => alias.text.as_str(),
        None => field.name.text.as_str(),
    }
}

/// The fields that the joined sets of the group give for an object of this type: those of the expansion in their
/// order, some repeats left out. The list `visited` may hold anything: it is emptied first, and then takes the names of
/// the fragments that are entered.
pub fn collect<'a>(
    alloc: Global,
    world: World<'a>,
    object: &str,
    group: &[Taken<'a>],
    visited: &mut NameList,
) -> Result<Vec<Taken<'a>>, NoMemory>
    ensures { IfOk result (λ out. (rank : Text → ℕ) → IsRanked rank (definitions_in world.entry) →
        SpreadsBelow rank (length (definitions_in world.entry)) (sets_of (asked_all group.now)) →
        Thin [] (expand (setting_in world.entry object.now) (definitions_in world.entry) (sets_of (asked_all group.now))) (asked_all out.items)) }
{
    *visited = NameList::new(alloc);
    let mut out = Vec::new(alloc);
    for taken in group {
        collect_set(world, object, taken.set, visited, &mut out)?;
    }
    Ok(out)
}

#[cycle(collect)]
fn collect_set<'a>(
    world: World<'a>,
    object: &str,
    set: &'a [Selection],
    visited: &mut NameList,
    out: &mut Vec<Taken<'a>>,
) -> Result<(), NoMemory>
    ensures { OnOk result (Gathers (setting_in world.entry object.now) (definitions_in world.entry)
        (set_in set.now) visited.old (asked_all out.old.items) visited.new (asked_all out.new.items)) }
{
    for selection in set {
        collect_one(world, object, selection, visited, out)?;
    }
    Ok(())
}

#[cycle(collect)]
fn collect_one<'a>(
    world: World<'a>,
    object: &str,
    selection: &'a Selection,
    visited: &mut NameList,
    out: &mut Vec<Taken<'a>>,
) -> Result<(), NoMemory>
    ensures { OnOk result ((rest : Set) → Continues (setting_in world.entry object.now) (definitions_in world.entry)
        (before selection.now rest) rest visited.old (asked_all out.old.items) visited.new (asked_all out.new.items)) }
{
    match selection {
        Selection::Field(field) => {
            if !takes(world.variables, &field.directives) {
                return Ok(());
            }
            out.push(taken_of(field))?;
            Ok(())
        }
        Selection::Spread(spread) => {
            if !takes(world.variables, &spread.directives) {
                return Ok(());
            }
            let name = spread.name.text.as_str();
            if visited.contains(name) {
                return Ok(());
            }
            let _ = visited.push(name)?;
            match fragment(world, name) {
                None => Ok(()),
                Some(fragment) => {
                    if !applies(world, fragment.definition.on.text.as_str(), object) {
                        return Ok(());
                    }
                    collect_set(world, object, &fragment.definition.set.items, visited, out)?;
                    Ok(())
                }
            }
        }
        Selection::Inline(inline) => {
            if !takes(world.variables, &inline.directives) {
                return Ok(());
            }
            if !is_applicable(world, &inline.on, object) {
                return Ok(());
            }
            collect_set(world, object, &inline.set.items, visited, out)?;
            Ok(())
        }
    }
}

fn taken_of(field: &Field) -> Taken<'_>
    ensures { asked_of result ≡ asked_in field.now }
{
    Taken {
        key: key_of(field),
        name: field.name.text.as_str(),
        arguments: &field.arguments,
        set: selections_below(&field.set),
    }
}
