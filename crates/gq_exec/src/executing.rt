//! Operations of a valid project, executed (GraphQL, October 2021, section 6).
ghost use Rattle.std.specs.Prelude.{◌≡◌, IfOk, IfErr};
ghost use Rattle.std.specs.Option.{option_map};
ghost use Rattle.gq_types.specs.Look.{types_view, text_of};
ghost use Rattle.gq_table.specs.Views.{entries_view, rows_view};
ghost use Rattle.gq_tree.specs.Readings.{unshared_view};
ghost use Rattle.gq_document.specs.Definitions.{operation_view, operations_of, fragments_of, operations_view, fragments_view};
ghost use Rattle.gq_document.specs.Executable.{executable_view};
ghost use Rattle.gq_rules.specs.Project.{defined_in};
ghost use Rattle.gq_coerce.specs.Variables.{coerced_variables};
ghost use Rattle.gq_response.specs.Views.{response_view};
ghost use Rattle.gq_executor.specs.Operations.{IsResponse};
ghost use Rattle.gq_laws.specs.Rewriting.Executed.{IsExecuted};
ghost use Rattle.gq_exec.specs.Coerced.{AreCoerced, AreCoercedTo, IsRefused, coerced_in, ranked_in};

use crate::refusal::CoercionRefusal;
use gq_coerce::Coercion;
use gq_document::{Definitions, Executable, OperationEntry, type_system_entries};
use gq_executor::{operation, respond};
use gq_laws::validity::fragments_can_be_ranked;
use gq_parse::read;
use gq_response::Response;
use gq_rules::Valid;
use gq_table::{Entry, Table, Variables};
use gq_text::NoMemory;
use gq_tree::Parsed;
use gq_types::Types;
use std::alloc::Global;

/// The response to the operation of that name, or to the project's only one, where a table gives what resolvers answer
/// and these values are given for its variables (ExecuteRequest, section 6.1).
pub fn execute(
    alloc: Global,
    valid: &Valid,
    name: Option<&str>,
    table: &Table,
    variables: &Variables,
) -> Result<Response, NoMemory>
    ensures { IfOk result (λ response. IsExecuted valid.now (rows_view table.now) (text_of name.entry) (entries_view variables.now.entries.items) (response_view response)) }
{
    fragments_can_be_ranked();
    let project = valid.project();
    let readings = read(alloc, project.documents())?;
    let entries = type_system_entries(alloc, &readings)?;
    let response = by_readings(alloc, entries, &readings, name, table, &variables.entries)?;
    Ok(response)
}

/// The response by these definitions of the type system, and by what executable documents are read as.
fn by_readings(
    alloc: Global,
    entries: Vec<gq_types::Entry>,
    readings: &[Parsed],
    name: Option<&str>,
    table: &Table,
    raw: &[Entry],
) -> Result<Response, NoMemory>
    requires { ranked_in (operations_of (unshared_view readings.now)) (fragments_of (unshared_view readings.now)) (text_of name) }
    ensures { IfOk result (λ response. IsResponse (defined_in entries.items (unshared_view readings.now)) (rows_view table.now) (text_of name.entry) (entries_view raw.now) (response_view response)) }
{
    let types = Types::of(alloc, entries)?;
    let definitions = Definitions::of(alloc, readings)?;
    let x = Executable {
        types: &types,
        operations: &definitions.operations,
        fragments: &definitions.fragments,
    };
    let response = respond_in(alloc, x, name, table, raw)?;
    Ok(response)
}

/// The response over these types.
fn respond_in(
    alloc: Global,
    x: Executable<'_>,
    name: Option<&str>,
    table: &Table,
    raw: &[Entry],
) -> Result<Response, NoMemory>
    requires { ranked_in (operations_view x.operations.now) (fragments_view x.fragments.now) (text_of name) }
    ensures { IfOk result (λ response. IsResponse (executable_view x.entry) (rows_view table.now) (text_of name.entry) (entries_view raw.now) (response_view response)) }
{
    respond(alloc, x, name, table, raw)
}

/// The values of the variables of that operation, or of the project's only one, in the order of their names
/// (CoerceVariableValues, section 6.1.2). `RequestError` where there is no such operation or a value does not fit.
pub fn coerce_variables(
    alloc: Global,
    valid: &Valid,
    name: Option<&str>,
    variables: &Variables,
) -> Result<Variables, CoercionRefusal>
    ensures ok { IfOk result (λ coerced. AreCoerced valid.now (text_of name.entry) (entries_view variables.now.entries.items) (entries_view coerced.entries.items)) }
    ensures err { IfErr result (IsRefused valid.now (text_of name.entry) (entries_view variables.now.entries.items)) }
{
    match coerced(alloc, valid, name, &variables.entries)? {
        Some(entries) => Ok(Variables { entries }),
        None => Err(CoercionRefusal::RequestError),
    }
}

/// Those values, if they fit.
fn coerced(
    alloc: Global,
    valid: &Valid,
    name: Option<&str>,
    raw: &[Entry],
) -> Result<Option<Vec<Entry>>, NoMemory>
    ensures { IfOk result (λ found. AreCoercedTo valid.now (text_of name.entry) (entries_view raw.now) (option_map (λ es. entries_view es.items) found)) }
{
    let project = valid.project();
    let readings = read(alloc, project.documents())?;
    let entries = type_system_entries(alloc, &readings)?;
    let found = coerced_by_readings(alloc, entries, &readings, name, raw)?;
    Ok(found)
}

/// The same by these definitions of the type system, and by what executable documents are read as.
fn coerced_by_readings(
    alloc: Global,
    entries: Vec<gq_types::Entry>,
    readings: &[Parsed],
    name: Option<&str>,
    raw: &[Entry],
) -> Result<Option<Vec<Entry>>, NoMemory>
    ensures { IfOk result (λ found. option_map (λ es. entries_view es.items) found ≡
        coerced_in (defined_in entries.items (unshared_view readings.now)) (text_of name.entry) (entries_view raw.now)) }
{
    let types = Types::of(alloc, entries)?;
    let definitions = Definitions::of(alloc, readings)?;
    let x = Executable {
        types: &types,
        operations: &definitions.operations,
        fragments: &definitions.fragments,
    };
    let found = coerced_by(alloc, x, name, raw)?;
    Ok(found)
}

/// The same over these types.
fn coerced_by(
    alloc: Global,
    x: Executable<'_>,
    name: Option<&str>,
    raw: &[Entry],
) -> Result<Option<Vec<Entry>>, NoMemory>
    ensures { IfOk result (λ found. option_map (λ es. entries_view es.items) found ≡ coerced_in (executable_view x.entry) (text_of name.entry) (entries_view raw.now)) }
{
    match operation(x, name) {
        Some(operation) => coerced_of(alloc, x.types, operation, raw),
        None => Ok(None),
    }
}

/// The values of the variables of an operation, if they fit.
fn coerced_of(
    alloc: Global,
    types: &Types,
    operation: &OperationEntry<'_>,
    raw: &[Entry],
) -> Result<Option<Vec<Entry>>, NoMemory>
    ensures { IfOk result (λ found. option_map (λ es. entries_view es.items) found ≡ coerced_variables (types_view types.now) (operation_view operation.now).variables (entries_view raw.now)) }
{
    let coercion = Coercion::of(types);
    match coercion.variables(alloc, &operation.definition.variables, raw)? {
        Some(variables) => Ok(Some(variables.into_entries())),
        None => Ok(None),
    }
}
