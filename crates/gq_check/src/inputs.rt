//! The table and the variables of an execution, from the bytes of their files.
ghost use Rattle.std.specs.Prelude.{◌≡◌, Some, IfOk, IfErr, option_and_then};
ghost use Rattle.std.specs.Option.{option_map};
ghost use Rattle.serde_json.specs.View.{view};
ghost use Rattle.gq_rpc.specs.Decoding.{body_value};
ghost use Rattle.gq_table.specs.Views.{entries_view, rows_view};
ghost use Rattle.gq_table.specs.Json.{rows_of_json, variables_of_json};
ghost use Rattle.gq_check.specs.Helping.ExecVerdicts.{IsFaultOfTable, IsFaultOfVariables};
ghost use Rattle.gq_check.specs.Files.{content_of};
ghost use Rattle.gq_check.specs.Execution.{rows_in, variables_in, table_fault, variables_fault, IsExecFaultOr};

use crate::exec_fault::ExecFault;
use crate::fault::CheckFault;
use crate::files::File;
use gq_exec::{Table, TableFault, Variables, VariablesFault};
use gq_table_text::read_in_rows;
use gq_text::NoMemory;
use serde_json::Value as Json;
use std::alloc::Global;

/// The JSON that bytes are, if they are any.
fn json_in(alloc: Global, bytes: &[u8]) -> Result<Option<Json>, NoMemory>
    ensures { IfOk result (λ found. option_map (λ v. view v) found ≡ body_value bytes.now) }
{
    match Json::from_slice(alloc, bytes) {
        Ok(value) => Ok(Some(value)),
        Err(error) if error.is_memory() => Err(NoMemory),
        Err(_) => Ok(None),
    }
}

/// The table of a file.
pub(crate) fn read_table(alloc: Global, file: &File) -> Result<Table, ExecFault>
    ensures ok { IfOk result (λ table. option_and_then rows_in (content_of file.now) ≡ Some (rows_view table)) }
    ensures err { IfErr result (IsExecFaultOr (table_fault (content_of file.now))) }
{
    let Some(bytes) = file.content() else {
        return Err(ExecFault::Check(CheckFault::Device));
    };
    match read_in_rows(alloc, bytes)? {
        Some(table) => Ok(table),
        None => table_in(alloc, bytes),
    }
}

/// The table of these bytes, read as JSON as a whole.
fn table_in(alloc: Global, bytes: &[u8]) -> Result<Table, ExecFault>
    ensures ok { IfOk result (λ table. rows_in bytes.now ≡ Some (rows_view table)) }
    ensures err { IfErr result (IsFaultOfTable (rows_in bytes.now)) }
{
    match json_in(alloc, bytes)? {
        Some(json) => {
            let table = table_of(alloc, &json)?;
            Ok(table)
        }
        None => Err(ExecFault::BadTable),
    }
}

/// The table that JSON holds.
fn table_of(alloc: Global, json: &Json) -> Result<Table, ExecFault>
    ensures ok { IfOk result (λ table. rows_of_json (view json.now) ≡ Some (rows_view table)) }
    ensures err { IfErr result (IsFaultOfTable (rows_of_json (view json.now))) }
{
    match Table::read(alloc, json) {
        Ok(table) => Ok(table),
        Err(TableFault::Bad) => Err(ExecFault::BadTable),
        Err(TableFault::NoMemory) => Err(ExecFault::Check(CheckFault::NoMemory)),
    }
}

/// The variables of a file.
pub(crate) fn read_variables(alloc: Global, file: &File) -> Result<Variables, ExecFault>
    ensures ok { IfOk result (λ variables. option_and_then variables_in (content_of file.now) ≡ Some (entries_view variables.entries.items)) }
    ensures err { IfErr result (IsExecFaultOr (variables_fault (content_of file.now))) }
{
    let Some(bytes) = file.content() else {
        return Err(ExecFault::Check(CheckFault::Device));
    };
    match json_in(alloc, bytes)? {
        Some(json) => {
            let variables = variables_of(alloc, &json)?;
            Ok(variables)
        }
        None => Err(ExecFault::BadVariables),
    }
}

/// The variables that JSON holds.
fn variables_of(alloc: Global, json: &Json) -> Result<Variables, ExecFault>
    ensures ok { IfOk result (λ variables. variables_of_json (view json.now) ≡ Some (entries_view variables.entries.items)) }
    ensures err { IfErr result (IsFaultOfVariables (variables_of_json (view json.now))) }
{
    match Variables::read(alloc, json) {
        Ok(variables) => Ok(variables),
        Err(VariablesFault::Bad) => Err(ExecFault::BadVariables),
        Err(VariablesFault::NoMemory) => Err(ExecFault::Check(CheckFault::NoMemory)),
    }
}
