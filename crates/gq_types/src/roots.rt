//! The entries for root operation types in schema definitions.
ghost use Rattle.std.specs.Prelude.{◌≡◌, IfOk, map, find};
ghost use Rattle.std.specs.Arc.{arc_value};
ghost use Rattle.std.specs.Option.{option_map};
ghost use Rattle.gq_tree.specs.Same.{same_kinds};
ghost use Rattle.gq_tree.specs.Views.{root_view, type_system_view};
ghost use Rattle.gq_types.specs.Entries.{entries_view};
ghost use Rattle.gq_types.specs.Helping.Index.{root_name, AreRoots};
ghost use Rattle.gq_types.specs.Look.{text_of};
ghost use Rattle.gq_types.specs.Roots.{default_name, roots_in};
ghost use Rattle.gq_types.specs.Helping.Tables.{root_at, first_root_at};

use crate::entry::Entry;
use gq_text::{NoMemory, SmallText};
use gq_tree::{OperationKind, RootOperationType, TypeSystemDefinition};
use std::alloc::Global;

/// What the schema definition and its extensions name for each kind of operation.
#[derive(Drop)]
pub(crate) struct RootNames {
    query: Option<SmallText>,
    mutation: Option<SmallText>,
    subscription: Option<SmallText>,
}

impl RootNames {
    /// What the first entry of each kind names in the schema definitions and extensions with these numbers.
    pub(crate) fn of(
        alloc: Global,
        entries: &[Entry],
        numbers: &[usize],
    ) -> Result<RootNames, NoMemory>
        ensures { IfOk result (AreRoots (entries_view entries.now) numbers.now) }
    {
        Ok(RootNames {
            query: kept_root(alloc, entries, numbers, OperationKind::Query)?,
            mutation: kept_root(alloc, entries, numbers, OperationKind::Mutation)?,
            subscription: kept_root(alloc, entries, numbers, OperationKind::Subscription)?,
        })
    }

    /// What is named for that kind.
    pub(crate) fn named(&self, kind: OperationKind) -> Option<&str>
        ensures { text_of result ≡ root_name self.now kind }
    {
        let name = match kind {
            OperationKind::Query => &self.query,
            OperationKind::Mutation => &self.mutation,
            OperationKind::Subscription => &self.subscription,
        };
        match name {
            Some(name) => Some(name.as_str()),
            None => None,
        }
    }
}

fn kept_root(
    alloc: Global,
    entries: &[Entry],
    numbers: &[usize],
    kind: OperationKind,
) -> Result<Option<SmallText>, NoMemory>
    ensures { IfOk result (λ name. name ≡ first_root_at (entries_view entries.now) kind numbers.now) }
{
    match first_root_at(entries, numbers, kind) {
        Some(name) => Ok(Some(SmallText::from_str(alloc, name)?)),
        None => Ok(None),
    }
}

/// What the first entry of that kind names in the schema definitions and extensions with these numbers.
fn first_root_at<'a>(
    entries: &'a [Entry],
    numbers: &[usize],
    kind: OperationKind,
) -> Option<&'a str>
    ensures { text_of result ≡ first_root_at (entries_view entries.now) kind numbers.now }
{
    for number in numbers {
        if let Some(name) = root_at(entries, *number, kind) {
            return Some(name);
        }
    }
    None
}

/// The name of the type that is the root of that kind without a schema definition.
pub(crate) fn default_name(kind: OperationKind) -> &'static str
    ensures { result.now ≡ default_name kind }
{
    match kind {
        OperationKind::Query => "Query",
        OperationKind::Mutation => "Mutation",
        OperationKind::Subscription => "Subscription",
    }
}

/// What the first entry of that kind names in the schema definition or extension with that number.
fn root_at(entries: &[Entry], number: usize, kind: OperationKind) -> Option<&str>
    ensures { text_of result ≡ root_at (entries_view entries.now) kind number }
{
    let entry = entries.get(number)?;
    first_root(roots_in(entry), kind)
}

/// The roots that a schema definition or extension gives.
fn roots_in(entry: &Entry) -> &[RootOperationType]
    ensures { map root_view result.now ≡ roots_in (type_system_view (arc_value entry.now.definition)) }
{
    match &*entry.definition {
        TypeSystemDefinition::Schema(one) => one.roots.as_slice(),
        _ => &[],
    }
}

/// What the first of these that is of that kind names.
fn first_root(roots: &[RootOperationType], kind: OperationKind) -> Option<&str>
    ensures { text_of result ≡ option_map (λ r. r.name.text) (find (λ r. same_kinds kind r.kind) (map root_view roots.now)) }
{
    for root in roots {
        if is_same(kind, root.kind) {
            return Some(root.name.text.as_str());
        }
    }
    None
}

/// Whether the two are the same kind.
fn is_same(a: OperationKind, b: OperationKind) -> bool
    ensures { result ≡ same_kinds a b }
{
    a == b
}
