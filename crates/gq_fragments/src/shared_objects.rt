//! Whether two types have a possible object type in common (GraphQL, October 2021, section 5.5.2.3).
ghost use Rattle.std.specs.Prelude.{◌≡◌, List, Some, IfOk};
ghost use Rattle.std.specs.List.{list_any};
ghost use Rattle.gq_types.specs.Entries.{EntryOf};
ghost use Rattle.gq_types.specs.Joined.{type_number};
ghost use Rattle.gq_types.specs.Look.{types_view};
ghost use Rattle.gq_types.specs.LookUps.{texts_of};
ghost use Rattle.gq_types.specs.SubtypesTests.{is_possible};
ghost use Rattle.gq_fragments.specs.Helping.FragmentPlaces.{share_object};
ghost use Rattle.gq_fragments.specs.Helping.SharedObjectsPlaces.{AreAnswers};

use gq_text::NoMemory;
use gq_types::{TypeKind, Types};
use std::alloc::Global;
use std::collections::HashMap;

/// For interfaces and unions that were asked for, by the numbers of their definitions, whether they have a possible
/// object type in common. Each pair is worked out once.
#[derive(Drop)]
pub(crate) struct SharedObjects {
    pub answers: HashMap<(usize, usize), bool>,
}

impl SharedObjects {
    /// Nothing was asked for yet.
    pub(crate) fn new(alloc: Global) -> SharedObjects
        ensures { (es : List EntryOf) → AreAnswers es result.answers }
    {
        SharedObjects {
            answers: HashMap::new(alloc),
        }
    }

    /// Whether the types have a possible object type in common.
    pub(crate) fn share_object(
        &mut self,
        alloc: Global,
        types: &Types,
        one: &str,
        other: &str,
    ) -> Result<bool, NoMemory>
        requires { AreAnswers (types_view types.now) self.old.answers }
        ensures answers { AreAnswers (types_view types.now) self.new.answers }
        ensures shared { IfOk result (λ is_shared. is_shared ≡ share_object (types_view types.now) one.now other.now) }
    {
        if types.has_kind(one, TypeKind::Object) {
            return Ok(types.applies(other, one));
        }
        if types.has_kind(other, TypeKind::Object) {
            return Ok(types.applies(one, other));
        }
        match (types.type_number(one), types.type_number(other)) {
            (Some(first), Some(second)) => {
                self.kept_or_new(alloc, types, one, other, (first, second))
            }
            _ => share_object(alloc, types, one, other),
        }
    }

    /// The same for types of these numbers: the answer that was kept, or one that is worked out and kept.
    fn kept_or_new(
        &mut self,
        alloc: Global,
        types: &Types,
        one: &str,
        other: &str,
        numbers: (usize, usize),
    ) -> Result<bool, NoMemory>
        requires first { type_number (types_view types.now) one.now ≡ Some numbers.0 }
        requires second { type_number (types_view types.now) other.now ≡ Some numbers.1 }
        requires answers { AreAnswers (types_view types.now) self.old.answers }
        ensures answers { AreAnswers (types_view types.now) self.new.answers }
        ensures shared { IfOk result (λ is_shared. is_shared ≡ share_object (types_view types.now) one.now other.now) }
    {
        if let Some(is_shared) = self.answers.get(&numbers) {
            return Ok(*is_shared);
        }
        let is_shared = share_object(alloc, types, one, other)?;
        self.answers.insert(numbers, is_shared)?;
        Ok(is_shared)
    }
}

/// Whether an object of that type may be where the type condition holds.
fn is_possible(types: &Types, condition: &str, object: &str) -> bool
    ensures { result ≡ is_possible (types_view types.now) condition.now object.now }
{
    types.applies(condition, object)
}

/// Whether one of these objects may be where the type condition holds.
fn is_one_possible(types: &Types, condition: &str, objects: &[&str]) -> bool
    ensures { result ≡ list_any (is_possible (types_view types.now) condition.now) (texts_of objects.now) }
{
    for object in objects {
        if is_possible(types, condition, object) {
            return true;
        }
    }
    false
}

/// Whether the types have a possible object type in common. It goes over the possible objects of that one of them which
/// has fewer names to go over.
fn share_object(alloc: Global, types: &Types, one: &str, other: &str) -> Result<bool, NoMemory>
    ensures { IfOk result (λ is_shared. is_shared ≡ share_object (types_view types.now) one.now other.now) }
{
    if extent(types, other) < extent(types, one) {
        let objects = types.possible(alloc, other)?;
        return Ok(is_one_possible(types, one, &objects));
    }
    let objects = types.possible(alloc, one)?;
    Ok(is_one_possible(types, other, &objects))
}

/// How many names are gone over to list the possible objects of a union or an interface.
fn extent(types: &Types, name: &str) -> usize {
    match types.type_number(name) {
        Some(number) if types.has_kind(name, TypeKind::Union) => {
            member_count(types, types.joined(number))
        }
        _ => types.declarers(name).len(),
    }
}

/// How many members the definitions and extensions with these numbers have.
fn member_count(types: &Types, parts: &[usize]) -> usize {
    let mut count: usize = 0;
    for part in parts {
        count = count.saturating_add(types.members_at(*part).len());
    }
    count
}
