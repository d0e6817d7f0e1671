//! Tables of what resolvers answer (GraphQL, October 2021, section 6.4.2).
ghost use Rattle.std.specs.Prelude.{◌≡◌, ◌≤◌, Some, None, not, is_some, IfSome, IfOk, IfErr};
ghost use Rattle.std.specs.Option.{option_map};
ghost use Rattle.gq_meaning.specs.Depth.{depth};
ghost use Rattle.gq_table.specs.Rows.{row_of, deepest, has_repeated_call};
ghost use Rattle.serde_json.specs.View.{view};
ghost use Rattle.gq_table.specs.Json.{unless_repeated, rows_of_json};
ghost use Rattle.gq_table.specs.declared.faults.TableFault.TheVariants.{Bad};
ghost use Rattle.gq_table.specs.Helping.Index.{IsIndex};
ghost use Rattle.gq_table.specs.Views.{answer_view, rows_view, row_view, call_of};

use crate::calls::Call;
use crate::faults::TableFault;
use crate::index::Index;
use crate::json_rows::read_rows;
use crate::results::Outcome;
use crate::values::Entry;
use gq_text::{NoMemory, SmallText};
use serde_json::Value as Json;
use std::alloc::Global;
use std::marker::Model;

/// What the resolver of a field of an object answers for these arguments, which stand in the order of their names.
#[derive(Drop)]
pub struct Row {
    pub type_name: SmallText,
    pub number: u64,
    pub field: SmallText,
    pub arguments: Vec<Entry>,
    pub result: Outcome,
}

/// Rows, no two of one call. A row is found by a hash of its object and field; where rows share a bucket, by a hash of the
/// whole call.
#[derive(Drop)]
pub struct Table {
    rows: Vec<Row>,
    index: Index,
}

impl Model for Table {
    ghost use Rattle.std.specs.Prelude.{List};
    ghost use Rattle.std.specs.Coded.{codes};
    ghost use Rattle.gq_table.specs.contracts.table.Row as row;
    ghost use Rattle.gq_table.specs.declared.table.Row.{Row};
    ghost use Rattle.gq_table.specs.Views.{rows_view};
    ghost use Rattle.gq_table.specs.Helping.Index.{IsIndex};

    ghost Value = { List Row };

    ghost coded = { Prim.hlevel (codes, row.the_row.coded) };

    ghost view = { λ t. t.rows.items };

    ghost invariant = { λ t. IsIndex t.index (rows_view t.rows.items) (rows_view t.rows.items) };
}

impl Row {
    /// What it is the row of.
    pub(crate) fn call(&self) -> Call<'_>
        ensures { call_of result ≡ (row_view self.now).call }
    {
        Call {
            type_name: self.type_name.as_str(),
            number: self.number,
            field: self.field.as_str(),
            arguments: &self.arguments,
        }
    }
}

impl Table {
    /// The table of these rows; nothing where two of them are of one call.
    pub fn of(alloc: Global, rows: Vec<Row>) -> Result<Option<Table>, NoMemory>
        ensures some { IfOk result (λ o. is_some o ≡ not (has_repeated_call (rows_view rows.items))) }
        ensures is { IfOk result (λ o. IfSome o (λ table. table ≡ rows.items)) }
    {
        match index_of(alloc, &rows)? {
            Some(index) => Ok(Some(Table { rows, index })),
            None => Ok(None),
        }
    }

    /// The table that JSON holds: `{"rows":[{"type":"Query","object":0,"field":"a","args":{},"result":R},..]}`. `Bad` where it
    /// has another shape, or two of its rows are of one call.
    pub fn read(alloc: Global, value: &Json) -> Result<Table, TableFault>
        ensures ok { IfOk result (λ table. rows_of_json (view value.now) ≡ Some (rows_view table)) }
        ensures bad { IfErr result (λ fault. fault ≡ Bad → rows_of_json (view value.now) ≡ None) }
    {
        match read_table(alloc, value)? {
            Some(table) => Ok(table),
            None => Err(TableFault::Bad),
        }
    }

    /// The result of the row for this call, whose arguments stand in the order of their names.
    pub fn get(&self, alloc: Global, call: Call) -> Result<Option<&Outcome>, NoMemory>
        ensures is { IfOk result (λ o. option_map (λ r. answer_view r.now) o ≡ row_of (rows_view self.now) (call_of call.entry)) }
        ensures within { IfOk result (λ o. IfSome o (λ r. depth (answer_view r.now).below ≤ deepest (rows_view self.now))) }
    {
        self.index.get(alloc, &self.rows, call)
    }
}

/// The table that JSON holds, if it holds one.
fn read_table(alloc: Global, value: &Json) -> Result<Option<Table>, NoMemory>
    ensures { IfOk result (λ o. option_map (λ table. rows_view table) o ≡ rows_of_json (view value.now)) }
{
    match read_rows(alloc, value)? {
        Some(rows) => table_of(alloc, rows),
        None => Ok(None),
    }
}

/// The table of these rows, unless two of them are of one call.
fn table_of(alloc: Global, rows: Vec<Row>) -> Result<Option<Table>, NoMemory>
    ensures { IfOk result (λ o. option_map (λ table. rows_view table) o ≡ unless_repeated (rows_view rows.items)) }
{
    match Table::of(alloc, rows)? {
        Some(table) => Ok(Some(table)),
        None => Ok(None),
    }
}

/// The index of these rows; nothing where two of them are of one call.
fn index_of(alloc: Global, rows: &[Row]) -> Result<Option<Index>, NoMemory>
    ensures some { IfOk result (λ o. is_some o ≡ not (has_repeated_call (rows_view rows.now))) }
    ensures is { IfOk result (λ o. IfSome o (λ index. IsIndex index (rows_view rows.now) (rows_view rows.now))) }
{
    let mut index = Index::new(alloc, rows.len())?;
    for (number, row) in rows.iter().enumerate() {
        if !index.put(alloc, rows, number, row)? {
            return Ok(None);
        }
    }
    Ok(Some(index))
}
