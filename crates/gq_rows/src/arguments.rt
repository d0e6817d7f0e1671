//! Arguments and values that are the same, and the names of fragments in a document.
use crate::no_answer::NoAnswer;
use crate::row::Row;
use crate::telling::Telling;
use gq_parse::parse;
use gq_tree::{Argument, Definition, Document, Selection, are_same_arguments, fragment_names};
use std::alloc::Global;

/// The arguments of the first field of a document.
fn arguments(document: &Document) -> &[Argument] {
    match document.definitions.first() {
        Some(Definition::Operation(operation)) => match operation.set.items.first() {
            Some(Selection::Field(field)) => &field.arguments,
            _ => &[],
        },
        _ => &[],
    }
}

/// Whether the first fields of two texts have the same arguments.
fn are_same(alloc: Global, one: &str, other: &str) -> Result<bool, NoAnswer> {
    let one = parse(alloc, one)?;
    let other = parse(alloc, other)?;
    Ok(are_same_arguments(arguments(&one), arguments(&other)))
}

/// Tells whether the first field of a text has the same arguments as that of the given one.
pub fn tell_same_arguments(
    alloc: Global,
    row: &Row<'_>,
    telling: &mut Telling,
) -> Result<(), NoAnswer> {
    let given = row.given.first().ok_or(NoAnswer)?.text(alloc)?;
    let asked = row.asked(alloc)?;
    telling.put_yes_or_no(are_same(alloc, given.as_str(), asked.as_str())?);
    Ok(())
}

/// A text whose first field has that value as its argument.
fn with_argument(alloc: Global, value: &str) -> Result<String, NoAnswer> {
    Ok(format!(in alloc; "{{f(a:{value})}}")?)
}

/// Puts the numbers of the values, parted by blanks and counted from 0, that are the same as one.
fn put_same_as(
    alloc: Global,
    values: &str,
    one: &str,
    telling: &mut Telling,
) -> Result<(), NoAnswer> {
    let one = with_argument(alloc, one)?;
    for (number, other) in values.split(' ').enumerate() {
        if are_same(alloc, one.as_str(), with_argument(alloc, other)?.as_str())? {
            telling.put(if telling.is_empty() { "" } else { " " });
            telling.put_number(number);
        }
    }
    Ok(())
}

/// Tells, for each of the values that blanks part, the numbers of those that are the same.
pub fn tell_same_values(
    alloc: Global,
    row: &Row<'_>,
    telling: &mut Telling,
) -> Result<(), NoAnswer> {
    let values = row.asked(alloc)?;
    for one in values.as_str().split(' ') {
        put_same_as(alloc, values.as_str(), one, telling)?;
    }
    Ok(())
}

/// Tells the names of fragments in a text, each with its bytes.
pub fn tell_fragment_names(
    alloc: Global,
    row: &Row<'_>,
    telling: &mut Telling,
) -> Result<(), NoAnswer> {
    let text = row.asked(alloc)?;
    let document = parse(alloc, text.as_str())?;
    for name in &fragment_names(alloc, &document)? {
        telling.put(if telling.is_empty() { "" } else { " " });
        telling.put(name.text.as_str());
        telling.put_span(name.span.start, name.span.end);
    }
    Ok(())
}
