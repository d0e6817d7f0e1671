//! Root operation types: each kind of operation has at most one, it is an object type, and all are different types.
ghost use Rattle.std.specs.Prelude.{◌≡◌, ◌++◌, OnOk, IfOk};
ghost use Rattle.gq_type_system.specs.Helping.Groups.{root_in, roots_in_view};
ghost use Rattle.gq_types.specs.Joined.{kind_named};
ghost use Rattle.gq_types.specs.Look.{types_view};
ghost use Rattle.gq_types.specs.Roots.{default_root};
ghost use Rattle.gq_type_system.specs.Helping.RootTypesPlaces.{taken_view, has_kind, has_text, taken_default, defaults, is_wrong_kind};
ghost use Rattle.gq_type_system.specs.Helping.RootTypesPlaces.{root_code, root_told, roots_told, taken_after, wrong_roots_of, wrong_roots};

use crate::root_entries::{RootIn, roots_of};
use gq_fault::{Code, Fault};
use gq_text::NoMemory;
use gq_tree::OperationKind;
use gq_types::{TypeKind, Types};
use std::alloc::Global;

/// A kind of operation that has a root, and the name of its type.
#[derive(Clone, Copy)]
pub struct Taken<'a> {
    pub kind: OperationKind,
    pub text: &'a str,
}

/// Whether a kind of operation has a root. There are at most three.
fn has_kind(taken: &[Taken<'_>], kind: OperationKind) -> bool
    ensures { result ≡ has_kind (taken_view taken.now) kind }
{
    for one in taken {
        if one.kind == kind {
            return true;
        }
    }
    false
}

/// Whether a type of that name is a root. There are at most three.
fn has_text(taken: &[Taken<'_>], text: &str) -> bool
    ensures { result ≡ has_text (taken_view taken.now) text.now }
{
    for one in taken {
        if one.text == text {
            return true;
        }
    }
    false
}

fn put_default<'a>(
    types: &Types,
    kind: OperationKind,
    taken: &mut Vec<Taken<'a>>,
) -> Result<(), NoMemory>
    ensures { OnOk result (taken_view taken.new.items ≡ taken_view taken.old.items ++ taken_default kind (default_root (types_view types.now) kind)) }
{
    match types.default_root(kind) {
        Some(text) => {
            taken.push(Taken { kind, text })?;
            Ok(())
        }
        None => Ok(()),
    }
}

/// The roots that stand without a schema definition.
#[tactic(auto, using(gq_tree::proofs::Trees::gathers))]
fn defaults<'a>(alloc: Global, types: &Types) -> Result<Vec<Taken<'a>>, NoMemory>
    ensures { IfOk result (λ taken. taken_view taken.items ≡ defaults (types_view types.now)) }
{
    let mut taken = Vec::new(alloc);
    put_default(types, OperationKind::Query, &mut taken)?;
    put_default(types, OperationKind::Mutation, &mut taken)?;
    put_default(types, OperationKind::Subscription, &mut taken)?;
    Ok(taken)
}

/// Whether the type of that name is known, and is no object type or is a root already.
fn is_wrong_kind(types: &Types, taken: &[Taken<'_>], name: &str) -> bool
    ensures { result ≡ is_wrong_kind (taken_view taken.now) name.now (kind_named (types_view types.now) name.now) }
{
    match types.kind(name) {
        Some(kind) => kind != TypeKind::Object || has_text(taken, name),
        None => false,
    }
}

/// What is wrong with an entry behind roots that are taken.
fn root_code(types: &Types, taken: &[Taken<'_>], root: &RootIn<'_>) -> Option<Code>
    ensures { result ≡ root_code (types_view types.now) (taken_view taken.now) (root_in root.now) }
{
    if has_kind(taken, root.root.kind) {
        Some(Code::EmptyOrRepeated)
    } else if is_wrong_kind(types, taken, root.root.name.text.as_str()) {
        Some(Code::WrongKindOfType)
    } else {
        None
    }
}

/// The fault of an entry behind roots that are taken, if something is wrong with it.
fn add_wrong_root(
    types: &Types,
    taken: &[Taken<'_>],
    root: &RootIn<'_>,
    faults: &mut Vec<Fault>,
) -> Result<(), NoMemory>
    ensures { OnOk result (faults.new.items ≡ faults.old.items ++ root_told (types_view types.now) (taken_view taken.now) (root_in root.now)) }
{
    match root_code(types, taken, root) {
        Some(code) => {
            faults.push(Fault {
                file: root.file,
                start: root.root.name.span.start,
                code,
                end: root.root.name.span.end,
            })?;
            Ok(())
        }
        None => Ok(()),
    }
}

/// Takes the root of an entry, unless its kind of operation has one.
#[tactic(auto, using(gq_tree::proofs::Trees::gathers))]
fn take<'a>(root: &RootIn<'a>, taken: &mut Vec<Taken<'a>>) -> Result<(), NoMemory>
    ensures { OnOk result (taken_view taken.new.items ≡ taken_after (taken_view taken.old.items) (root_in root.now)) }
{
    if !has_kind(taken, root.root.kind) {
        taken.push(Taken {
            kind: root.root.kind,
            text: root.root.name.text.as_str(),
        })?;
    }
    Ok(())
}

/// The faults of some entries behind roots that are taken.
#[tactic(auto, using(gq_tree::proofs::Trees::gathers))]
fn add_wrong_roots_in<'a>(
    types: &Types,
    roots: &[RootIn<'a>],
    taken: &mut Vec<Taken<'a>>,
    faults: &mut Vec<Fault>,
) -> Result<(), NoMemory>
    ensures { OnOk result (faults.new.items ≡ faults.old.items ++ roots_told (types_view types.now) (taken_view taken.old.items) (roots_in_view roots.now)) }
{
    for root in roots {
        add_wrong_root(types, taken, root, faults)?;
        take(root, taken)?;
    }
    Ok(())
}

/// The faults of the entries of a schema with its extensions.
fn add_wrong_roots_of(
    alloc: Global,
    types: &Types,
    number: usize,
    faults: &mut Vec<Fault>,
) -> Result<(), NoMemory>
    ensures { OnOk result (faults.new.items ≡ faults.old.items ++ wrong_roots_of (types_view types.now) number) }
{
    let roots = roots_of(alloc, types, number)?;
    let mut taken = defaults(alloc, types)?;
    add_wrong_roots_in(types, &roots, &mut taken, faults)
}

/// Each type of a root operation whose kind has a root already, and each that is no object type or is a root already
/// (section 3.3.1).
#[tactic(auto, using(gq_tree::proofs::Trees::gathers))]
pub fn add_wrong_roots(
    alloc: Global,
    types: &Types,
    faults: &mut Vec<Fault>,
) -> Result<(), NoMemory>
    ensures { OnOk result (faults.new.items ≡ faults.old.items ++ wrong_roots (types_view types.now)) }
{
    let entries = types.entries();
    for number in 0..entries.len() {
        add_wrong_roots_of(alloc, types, number, faults)?;
    }
    add_wrong_roots_of(alloc, types, entries.len(), faults)
}
