//! The response to an operation (GraphQL, October 2021, sections 6.1 and 7.1).
ghost use Rattle.std.specs.Prelude.{◌≡◌, find, unwrap_or, IfOk, [], Some, true, false, if◌then◌else◌};
ghost use Rattle.std.specs.Option.{option_map};
ghost use Rattle.gq_tree.specs.Forest.{none};
ghost use Rattle.gq_tree.specs.Views.{type_view};
ghost use Rattle.gq_meaning.specs.Views.{set_in};
ghost use Rattle.gq_types.specs.Look.{types_view, text_of};
ghost use Rattle.gq_types.specs.Roots.{root_of};
ghost use Rattle.gq_table.specs.Views.{entries_view, rows_view};
ghost use Rattle.gq_document.specs.Definitions.{operation_view, operations_view};
ghost use Rattle.gq_document.specs.Executable.{executable_view};
ghost use Rattle.gq_meaning.specs.Acyclic.{Rankable};
ghost use Rattle.gq_meaning.specs.Selected.{set_of};
ghost use Rattle.gq_meaning.specs.Response.{root_type, root_fields};
ghost use Rattle.gq_coerce.specs.Variables.{coerced_variables};
ghost use Rattle.gq_meaning.specs.Results as result_of;
ghost use Rattle.gq_executor.specs.Answers.{IsAnswer};
ghost use Rattle.gq_executor.specs.Operations.{is_called, only_operation, operation_of, fragments_in, IsResponse, IsAnswered, IsAnsweredBy, AreRankable};
ghost use Rattle.gq_collect.specs.World.{types_in, given_by, definitions_in};
ghost use Rattle.gq_response.specs.Views.{data_view, errors_view, response_view};

use crate::answer::answer_object;
use gq_coerce::{Coercion, Variables};
use gq_collect::collect::Taken;
use gq_collect::fragments::Fragments;
use gq_collect::world::{World, applies, is_composite, types};
use gq_document::{Executable, OperationEntry};
use gq_names::NameList;
use gq_response::{Data, Response, Step};
use gq_table::{Entry, Table};
use gq_text::{NoMemory, SmallText, Span};
use gq_tree::{Name, Selection, TypeRef};
use std::alloc::Global;

/// The response to the operation of that name, or to the only one, where these values are given for its variables.
pub fn respond(
    alloc: Global,
    x: Executable,
    name: Option<&str>,
    table: &Table,
    raw: &[Entry],
) -> Result<Response, NoMemory>
    requires { AreRankable (executable_view x) (text_of name) }
    ensures { IfOk result (λ r. IsResponse (executable_view x.entry) (rows_view table.now) (text_of name.entry) (entries_view raw.now) (response_view r)) }
{
    match operation(x, name) {
        None => Ok(Response::RequestError),
        Some(operation) => {
            let coercion = Coercion::of(x.types);
            match coercion.variables(alloc, &operation.definition.variables, raw)? {
                None => Ok(Response::RequestError),
                Some(variables) => {
                    let response = respond_with(alloc, x, coercion, operation, table, &variables)?;
                    Ok(response)
                }
            }
        }
    }
}

/// The operation of that name, or the only one (GetOperation, section 6.1).
pub fn operation<'a>(x: Executable<'a>, name: Option<&str>) -> Option<&'a OperationEntry<'a>>
    ensures { option_map (λ o. operation_view o.now) result ≡ operation_of (operations_view x.entry.operations.now) (text_of name.entry) }
{
    match name {
        None => only(x.operations),
        Some(name) => called(x.operations, name),
    }
}

fn only<'a>(operations: &'a [OperationEntry<'a>]) -> Option<&'a OperationEntry<'a>>
    ensures { option_map (λ o. operation_view o.now) result ≡ only_operation (operations_view operations.now) }
{
    match operations {
        [one] => Some(one),
        _ => None,
    }
}

fn called<'a>(operations: &'a [OperationEntry<'a>], name: &str) -> Option<&'a OperationEntry<'a>>
    ensures { option_map (λ o. operation_view o.now) result ≡ find (is_called name.now) (operations_view operations.now) }
{
    for operation in operations {
        if is_called(operation, name) {
            return Some(operation);
        }
    }
    None
}

fn is_called(operation: &OperationEntry<'_>, name: &str) -> bool
    ensures { result ≡ is_called name.now (operation_view operation.now) }
{
    match &operation.definition.name {
        Some(own) => name == own.text.as_str(),
        None => false,
    }
}

/// The response to one operation, where its variables have these values.
fn respond_with(
    alloc: Global,
    x: Executable,
    coercion: Coercion,
    operation: &OperationEntry<'_>,
    table: &Table,
    variables: &Variables,
) -> Result<Response, NoMemory>
    requires types { types_view coercion.types.now ≡ types_view x.types.now }
    requires ranked { Rankable (fragments_in (executable_view x)) (set_of (operation_view operation.now).set) }
    ensures { IfOk result (λ r. IsAnswered (executable_view x.entry) (rows_view table.now) (operation_view operation.now) (entries_view variables.now) (response_view r)) }
{
    let fragments = Fragments::of(alloc, x.fragments)?;
    let world = World {
        coercion,
        fragments: &fragments,
        variables,
        table,
    };
    let response = respond_in(alloc, world, operation)?;
    Ok(response)
}

/// The response from the root object of the operation.
fn respond_in(
    alloc: Global,
    world: World,
    operation: &OperationEntry<'_>,
) -> Result<Response, NoMemory>
    requires { Rankable (definitions_in world) (set_of (operation_view operation.now).set) }
    ensures { IfOk result (λ r. IsAnsweredBy (given_by world.entry) (definitions_in world.entry)
        (unwrap_or (root_of (types_in world.entry) (operation_view operation.now).kind) []) (set_of (operation_view operation.now).set) (response_view r)) }
{
    match types(world).root(operation.definition.kind) {
        None => respond_at(alloc, world, "", operation),
        Some(root) => respond_at(alloc, world, root, operation),
    }
}

/// The response from an object of that type, number 0.
fn respond_at(
    alloc: Global,
    world: World,
    root: &str,
    operation: &OperationEntry<'_>,
) -> Result<Response, NoMemory>
    requires { Rankable (definitions_in world) (set_of (operation_view operation.now).set) }
    ensures { IfOk result (λ r. IsAnsweredBy (given_by world.entry) (definitions_in world.entry) root.now (set_of (operation_view operation.now).set) (response_view r)) }
{
    let mut errors = Vec::new(alloc);
    if !is_root(world, root) {
        return Ok(Response::Answered {
            data: Data::Null,
            errors,
        });
    }
    let type_ref = named(alloc, root)?;
    let set = &operation.definition.set.items;
    let data = answer_root(alloc, world, &type_ref, root, set, &mut errors)?;
    Ok(Response::Answered { data, errors })
}

/// Whether an object of that type is one.
fn is_root(world: World, root: &str) -> bool
    ensures { result ≡ (if (given_by world.entry).is_composite root.now then (given_by world.entry).applies root.now root.now else false) }
{
    if is_composite(world, root) {
        applies(world, root, root)
    } else {
        false
    }
}

fn answer_root<'a>(
    alloc: Global,
    world: World<'a>,
    type_ref: &'a TypeRef,
    root: &'a str,
    set: &'a [Selection],
    errors: &mut Vec<Vec<Step>>,
) -> Result<Data, NoMemory>
    requires ranked { Rankable (definitions_in world) (set_in set.now) }
    requires type_is { type_view type_ref.now ≡ root_type root.now }
    requires is_root { (if (given_by world).is_composite root.now then (given_by world).applies root.now root.now else false) ≡ true }
    ensures { IfOk result (λ d. IsAnswer world.entry (Some (root_type root.now)) (Some (record { label = result_of.object root.now 0; below = none }))
        (root_fields (set_in set.now)) [] (errors_view errors.old.items) (errors_view errors.new.items) (data_view d)) }
{
    let group = [Taken {
        key: "",
        name: "",
        arguments: &[],
        set,
    }];
    let mut path = Vec::new(alloc);
    let mut visited = NameList::new(alloc);
    let data = answer_object(
        alloc,
        world,
        Some(type_ref),
        root,
        0,
        &group,
        &mut path,
        errors,
        &mut visited,
    )?;
    Ok(data)
}

/// The type of that name.
#[tactic(auto, using(gq_tree::proofs::Trees::types))]
fn named(alloc: Global, name: &str) -> Result<TypeRef, NoMemory>
    ensures { IfOk result (λ t. type_view t ≡ root_type name.now) }
{
    let text = SmallText::from_str(alloc, name)?;
    let span = Span { start: 0, end: 0 };
    Ok(TypeRef::Named(Name { text, span }))
}
