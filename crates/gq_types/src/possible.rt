//! The objects that a value of a type may be (GraphQL, October 2021, section 5.5.2.3).
ghost use Rattle.std.specs.Prelude.{◌≡◌, ◌≢◌, ◌↔◌, ◌++◌, ◌∷◌, [], map, Contains, IfOk, OnOk, IsTrue};
ghost use Rattle.std.specs.List.{AllPairs};
ghost use Rattle.gq_tree.specs.Views.{name_of, type_system_view};
ghost use Rattle.gq_types.specs.Entries.{Text};
ghost use Rattle.gq_types.specs.Look.{types_view, text_of};
ghost use Rattle.gq_types.specs.LookUps.{has_kind, object_name, texts_of};
ghost use Rattle.gq_types.specs.Possible.{IsPossible};
ghost use Rattle.gq_types.specs.Helping.PossiblePlaces.{object_at, name_in, objects_at, object_after, objects_after, name_texts, member_texts, object_itself, object_members, possible_texts};
ghost use Rattle.gq_types.specs.SubtypesTests.{is_possible};

use crate::entry::TypeKind;
use crate::types::Types;
use gq_names::NameList;
use gq_text::NoMemory;
use gq_tree::{Name, TypeBody, TypeSystemDefinition};
use std::alloc::Global;

impl Types {
    /// Whether the type of that name is of that kind.
    pub fn has_kind(&self, name: &str, kind: TypeKind) -> bool
        ensures { result ≡ has_kind (types_view self.now) kind name.now }
    {
        match self.kind(name) {
            Some(found) => kind.is(found),
            None => false,
        }
    }

    /// Whether an object of that type may be where the type condition holds. It takes no memory.
    pub fn applies(&self, condition: &str, object: &str) -> bool
        ensures { IsTrue result ↔ IsPossible (types_view self.now) condition.now object.now }
    {
        is_possible(self, condition, object)
    }

    /// The names of the objects that a value of that type may be, each once. The work for a union is that of its members,
    /// for an interface that of the types that declare it.
    pub fn possible<'t>(&'t self, alloc: Global, type_name: &str) -> Result<Vec<&'t str>, NoMemory>
        ensures all { IfOk result (λ objects. (object : Text) → Contains (texts_of objects.items) object ↔ IsPossible (types_view self.now) type_name.now object) }
        ensures once { IfOk result (λ objects. AllPairs (λ a b. a ≢ b) (texts_of objects.items)) }
    {
        possible_texts(self, alloc, type_name)
    }
}

pub(crate) fn is_possible(types: &Types, type_name: &str, object: &str) -> bool
    ensures { result ≡ is_possible (types_view types.now) type_name.now object.now }
{
    if !types.has_kind(object, TypeKind::Object) {
        return false;
    }
    match types.kind(type_name) {
        Some(TypeKind::Object) => type_name == object,
        Some(TypeKind::Union) => types.has_member(type_name, object),
        Some(TypeKind::Interface) => types.declares(object, type_name),
        Some(TypeKind::Scalar) => false,
        Some(TypeKind::Enum) => false,
        Some(TypeKind::InputObject) => false,
        None => false,
    }
}

fn possible_texts<'t>(
    types: &'t Types,
    alloc: Global,
    type_name: &str,
) -> Result<Vec<&'t str>, NoMemory>
    ensures { IfOk result (λ texts. texts_of texts.items ≡ possible_texts (types_view types.now) type_name.now) }
{
    match types.kind(type_name) {
        Some(TypeKind::Object) => object_itself(types, alloc, types.type_number(type_name)),
        Some(TypeKind::Union) => object_members(types, alloc, types.type_number(type_name)),
        Some(TypeKind::Interface) => {
            let numbers = types.implementers(alloc, type_name)?;
            objects_at(types, alloc, &numbers)
        }
        Some(TypeKind::Scalar) => Ok(Vec::new(alloc)),
        Some(TypeKind::Enum) => Ok(Vec::new(alloc)),
        Some(TypeKind::InputObject) => Ok(Vec::new(alloc)),
        None => Ok(Vec::new(alloc)),
    }
}

fn object_itself(types: &Types, alloc: Global, number: Option<usize>) -> Result<Vec<&str>, NoMemory>
    ensures { IfOk result (λ texts. texts_of texts.items ≡ object_itself (types_view types.now) number) }
{
    match number {
        Some(number) => objects_at(types, alloc, &[number]),
        None => Ok(Vec::new(alloc)),
    }
}

fn objects_at<'t>(
    types: &'t Types,
    alloc: Global,
    numbers: &[usize],
) -> Result<Vec<&'t str>, NoMemory>
    ensures { IfOk result (λ texts. texts_of texts.items ≡ objects_at (types_view types.now) numbers.now) }
{
    let mut texts = Vec::new(alloc);
    for number in numbers {
        put_object_at(types, *number, &mut texts)?;
    }
    Ok(texts)
}

#[tactic(auto, using(gq_tree::proofs::Trees::gathers))]
fn put_object_at<'t>(
    types: &'t Types,
    number: usize,
    texts: &mut Vec<&'t str>,
) -> Result<(), NoMemory>
    ensures { OnOk result (texts_of texts.new.items ≡ texts_of texts.old.items ++ name_in (object_at (types_view types.now) number)) }
{
    match object_at(types, number) {
        Some(name) => {
            texts.push(name)?;
            Ok(())
        }
        None => Ok(()),
    }
}

pub(crate) fn object_at(types: &Types, number: usize) -> Option<&str>
    ensures { text_of result ≡ object_at (types_view types.now) number }
{
    match types.entries().get(number) {
        Some(entry) => object_name(&entry.definition),
        None => None,
    }
}

fn object_name(definition: &TypeSystemDefinition) -> Option<&str>
    ensures { text_of result ≡ object_name (type_system_view definition.now) }
{
    let TypeSystemDefinition::Type(one) = definition else {
        return None;
    };
    if one.extends {
        return None;
    }
    match one.body {
        TypeBody::Object(_) => Some(one.name.text.as_str()),
        TypeBody::Scalar
        | TypeBody::Interface(_)
        | TypeBody::Union(_)
        | TypeBody::Enum(_)
        | TypeBody::InputObject(_) => None,
    }
}

fn object_members(
    types: &Types,
    alloc: Global,
    number: Option<usize>,
) -> Result<Vec<&str>, NoMemory>
    ensures { IfOk result (λ texts. texts_of texts.items ≡ object_members (types_view types.now) number) }
{
    match number {
        Some(number) => members_of(types, alloc, types.joined(number)),
        None => Ok(Vec::new(alloc)),
    }
}

#[tactic(auto, using(crate::proofs::PossibleLemmas::memberwise))]
fn members_of<'t>(
    types: &'t Types,
    alloc: Global,
    parts: &[usize],
) -> Result<Vec<&'t str>, NoMemory>
    ensures { IfOk result (λ texts. texts_of texts.items ≡ objects_after (types_view types.now) [] (member_texts (types_view types.now) parts.now)) }
{
    let mut seen = NameList::new(alloc);
    let mut texts = Vec::new(alloc);
    for part in parts {
        put_members(types, types.members_at(*part), &mut seen, &mut texts)?;
    }
    Ok(texts)
}

#[tactic(auto, using(crate::proofs::PossibleLemmas::memberwise))]
fn put_members<'t>(
    types: &'t Types,
    members: &'t [Name],
    seen: &mut NameList,
    texts: &mut Vec<&'t str>,
) -> Result<(), NoMemory>
    ensures objects { OnOk result (texts_of texts.new.items ≡ texts_of texts.old.items ++ objects_after (types_view types.now) seen.old (name_texts (map name_of members.now))) }
    ensures all { OnOk result (seen.new ≡ seen.old ++ name_texts (map name_of members.now)) }
{
    for member in members {
        put_member(types, member.text.as_str(), seen, texts)?;
    }
    Ok(())
}

#[tactic(auto, using(gq_tree::proofs::Trees::gathers))]
fn put_member<'t>(
    types: &'t Types,
    member: &'t str,
    seen: &mut NameList,
    texts: &mut Vec<&'t str>,
) -> Result<(), NoMemory>
    ensures object { OnOk result (texts_of texts.new.items ≡ texts_of texts.old.items ++ object_after (types_view types.now) seen.old member.now) }
    ensures all { OnOk result (seen.new ≡ seen.old ++ member.now ∷ []) }
{
    if seen.push(member)? && types.has_kind(member, TypeKind::Object) {
        texts.push(member)?;
    }
    Ok(())
}
