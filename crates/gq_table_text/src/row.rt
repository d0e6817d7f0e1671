//! A row of a table.
ghost use Rattle.std.specs.Prelude.{IfOk, IfSome};
ghost use Rattle.gq_table.specs.Views.{row_view};
ghost use Rattle.gq_table_text.specs.Helping.ReadAs.{BeginsWithHead, BeginsWithRow};

use crate::arguments::arguments;
use crate::outcomes::outcome;
use crate::steps::{enter_member, leave_object, next_natural, next_text};
use gq_table::Row;
use gq_text::{NoMemory, SmallText};
use json::{Reader, Token};
use std::alloc::Global;

/// How deep what stands in a row may nest: JSON nests 127 deep, and a row is an object in an array in an object.
const PART_DEPTH: usize = 124;

/// What stands in a row in front of its arguments.
#[derive(Clone, Copy)]
struct Head<'a> {
    type_name: &'a str,
    number: u64,
    field: &'a str,
}

/// Goes to the arguments of a row whose first members are `type`, `object`, `field` and `args` in this order.
fn enter_row<'a>(reader: &mut Reader<'a>) -> Option<Head<'a>>
    ensures { IfSome result (λ h. BeginsWithHead reader.old reader.new h.type_name.now h.number h.field.now) }
{
    if !matches!(reader.next(), Some(Token::BeginObject)) || !enter_member(reader, "type") {
        return None;
    }
    let type_name = next_text(reader)?;
    if !enter_member(reader, "object") {
        return None;
    }
    let number = next_natural(reader)?;
    if !enter_member(reader, "field") {
        return None;
    }
    let field = next_text(reader)?;
    if !enter_member(reader, "args") {
        return None;
    }
    Some(Head {
        type_name,
        number,
        field,
    })
}

/// The next row, where its members are `type`, `object`, `field`, `args` and `result` in this order, and its arguments and its result
/// are as they mostly are. Else nothing, which says nothing of what stands there. Room for so many arguments is taken at once.
pub(crate) fn next_row(
    alloc: Global,
    reader: &mut Reader<'_>,
    room: usize,
) -> Result<Option<Row>, NoMemory>
    ensures { IfOk result (λ o. IfSome o (λ row. BeginsWithRow reader.old reader.new (row_view row))) }
{
    let Some(head) = enter_row(reader) else {
        return Ok(None);
    };
    let Some(arguments) = arguments(alloc, reader, PART_DEPTH, room)? else {
        return Ok(None);
    };
    if !enter_member(reader, "result") {
        return Ok(None);
    }
    let Some(result) = outcome(alloc, reader)? else {
        return Ok(None);
    };
    if !leave_object(reader) {
        return Ok(None);
    }
    Ok(Some(Row {
        type_name: SmallText::from_str(alloc, head.type_name)?,
        number: head.number,
        field: SmallText::from_str(alloc, head.field)?,
        arguments,
        result,
    }))
}
