//! How a row of a table is found by its call: in a bucket, by a number made of the object and the field, and where rows
//! share one, by texts.
ghost use Rattle.std.specs.Prelude.{◌≡◌, ◌<◌, List, ◌++◌, ◌∷◌, [], Some, true, not, is_some, slice_get, take, IfOk};
ghost use Rattle.std.specs.Option.{option_map};
ghost use Rattle.gq_names.specs.UnderNames.{items_under};
ghost use Rattle.gq_table.specs.Rows.{RowOf, row_of};
ghost use Rattle.gq_table.specs.Helping.CallTexts.{call_text};
ghost use Rattle.gq_table.specs.Helping.Index.{text_digest, call_digest, bucket_of, bucket_count, first_in, row_numbered, result_if, result_among, IsIndex, IsPutUnder};
ghost use Rattle.gq_table.specs.Views.{answer_view, rows_view, row_view, call_of};

use crate::calls::{Call, call_text, same_call};
use crate::results::Outcome;
use crate::table::Row;
use gq_names::ByName;
use gq_text::NoMemory;
use std::alloc::Global;

/// The numbers of rows: of each bucket that of the first row in it, and those of the others under texts.
#[derive(Drop)]
pub(crate) struct Index {
    firsts: Vec<Option<usize>>,
    others: ByName<usize>,
}

/// A number made of a number and a text.
fn text_digest(start: u64, text: &str) -> u64
    ensures { result ≡ text_digest start text.now }
{
    let mut number = start;
    for byte in text.as_bytes() {
        number = number.wrapping_mul(257).wrapping_add(u64::from(*byte));
    }
    number
}

/// A number made of the object and the field of a call. Most have one of their own.
fn call_digest(call: Call) -> u64
    ensures { result ≡ call_digest (call_of call.entry) }
{
    let number = call.number.wrapping_mul(11400714819323198485);
    let object = text_digest(number, call.type_name);
    text_digest(object.wrapping_mul(11400714819323198485), call.field)
}

/// How many buckets so many rows get: most rows have one of their own.
fn buckets_for(rows: usize) -> usize
    ensures { 0 < result }
{
    rows.saturating_mul(8).saturating_add(1)
}

fn row_at(rows: &[Row], number: usize) -> Option<&Row>
    ensures { option_map (λ r. row_view r.now) result ≡ slice_get (rows_view rows.now) number }
{
    rows.get(number)
}

fn result_of<'a>(row: &'a Row, call: Call) -> Option<&'a Outcome>
    ensures { option_map (λ r. answer_view r.now) result ≡ result_if (call_of call.entry) (Some (row_view row.now)) }
{
    if same_call(call, row.call()) {
        Some(&row.result)
    } else {
        None
    }
}

/// The result of the row with that number, if it is of this call.
fn result_at<'a>(rows: &'a [Row], number: usize, call: Call) -> Option<&'a Outcome>
    ensures { option_map (λ r. answer_view r.now) result ≡ result_if (call_of call.entry) (slice_get (rows_view rows.now) number) }
{
    match row_at(rows, number) {
        Some(row) => result_of(row, call),
        None => None,
    }
}

/// The result of the first of the rows with these numbers that is of this call.
fn result_among<'a>(rows: &'a [Row], numbers: &[usize], call: Call) -> Option<&'a Outcome>
    ensures { option_map (λ r. answer_view r.now) result ≡ result_among (rows_view rows.now) (call_of call.entry) numbers.now }
{
    for number in numbers {
        match result_at(rows, *number, call) {
            Some(result) => return Some(result),
            None => {}
        }
    }
    None
}

/// The result of the row of this call among the others.
fn result_under<'a>(
    alloc: Global,
    rows: &'a [Row],
    others: &ByName<usize>,
    call: Call,
) -> Result<Option<&'a Outcome>, NoMemory>
    ensures { IfOk result (λ o. option_map (λ r. answer_view r.now) o ≡ result_among (rows_view rows.now) (call_of call.entry) (items_under others.now (call_text (call_of call.entry)))) }
{
    let text = call_text(alloc, call)?;
    Ok(result_among(rows, others.get(text.as_str()), call))
}

/// Puts the number of a row among the others, unless one of them is of this call. Tells whether it was put.
fn put_under(
    alloc: Global,
    rows: &[Row],
    others: &mut ByName<usize>,
    number: usize,
    call: Call,
) -> Result<bool, NoMemory>
    ensures new { IfOk result (λ is_new. is_new ≡ not (is_some (result_among (rows_view rows.now) (call_of call.entry) (items_under others.old (call_text (call_of call.entry)))))) }
    ensures put { IfOk result (λ is_new. is_new ≡ true → IsPutUnder (call_of call.entry) number others.old others.new) }
{
    let text = call_text(alloc, call)?;
    let name = text.as_str();
    if result_among(rows, others.get(name), call).is_some() {
        return Ok(false);
    }
    others.put(name, number)?;
    Ok(true)
}

impl Index {
    /// The index of no rows, with buckets for so many.
    pub(crate) fn new(alloc: Global, rows: usize) -> Result<Index, NoMemory>
        ensures { IfOk result (λ index. (rows : List RowOf) → IsIndex index rows []) }
    {
        Ok(Index {
            firsts: vec![in alloc; None; buckets_for(rows)]?,
            others: ByName::new(alloc),
        })
    }

    /// The bucket of a call.
    fn bucket(&self, call: Call) -> usize
        requires { 0 < bucket_count self.now }
        ensures is { result ≡ bucket_of (bucket_count self.now) (call_of call.entry) }
        ensures within { result < bucket_count self.now }
    {
        (call_digest(call) % self.firsts.len() as u64) as usize
    }

    /// The first row in that bucket.
    fn first<'a>(&self, rows: &'a [Row], bucket: usize) -> Option<&'a Row>
        requires { bucket < bucket_count self.now }
        ensures { option_map (λ r. row_view r.now) result ≡ row_numbered (rows_view rows.now) (first_in self.now bucket) }
    {
        let number = self.firsts[bucket]?;
        row_at(rows, number)
    }

    /// The result of the row of this call among the rows, whose index this is.
    pub(crate) fn get<'a>(
        &self,
        alloc: Global,
        rows: &'a [Row],
        call: Call,
    ) -> Result<Option<&'a Outcome>, NoMemory>
        requires { IsIndex self.now (rows_view rows.now) (rows_view rows.now) }
        ensures { IfOk result (λ o. option_map (λ r. answer_view r.now) o ≡ row_of (rows_view rows.now) (call_of call.entry)) }
    {
        let Some(first) = self.first(rows, self.bucket(call)) else {
            return Ok(None);
        };
        match result_of(first, call) {
            Some(result) => Ok(Some(result)),
            None => result_under(alloc, rows, &self.others, call),
        }
    }

    /// Puts the next row, unless one before it is of its call. Tells whether it was put.
    pub(crate) fn put(
        &mut self,
        alloc: Global,
        rows: &[Row],
        number: usize,
        row: &Row,
    ) -> Result<bool, NoMemory>
        requires place { slice_get (rows_view rows.now) number ≡ Some (row_view row.now) }
        requires index { IsIndex self.now (rows_view rows.now) (take number (rows_view rows.now)) }
        ensures new { IfOk result (λ is_new. is_new ≡ not (is_some (row_of (take number (rows_view rows.now)) (row_view row.now).call))) }
        ensures index { IfOk result (λ is_new. is_new ≡ true → IsIndex self.new (rows_view rows.now) (take number (rows_view rows.now) ++ row_view row.now ∷ [])) }
    {
        let call = row.call();
        let bucket = self.bucket(call);
        match self.first(rows, bucket) {
            Some(first) => match result_of(first, call) {
                Some(_) => Ok(false),
                None => put_under(alloc, rows, &mut self.others, number, call),
            },
            None => {
                self.firsts[bucket] = Some(number);
                Ok(true)
            }
        }
    }
}
