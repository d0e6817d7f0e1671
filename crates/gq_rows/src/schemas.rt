//! The schema of a project.
use crate::no_answer::NoAnswer;
use crate::row::{Row, project_of};
use crate::telling::Telling;
use gq_fault::Found;
use gq_schema::{Schema, SchemaFault};
use gq_tree::OperationKind;
use std::alloc::Global;

/// Tells that a project has no schema, and each fault: the name of its text, its code and its bytes.
fn tell_faults(found: &[Found], telling: &mut Telling) {
    telling.put("faults");
    for one in found {
        telling.put(" ");
        telling.put(one.key.as_str());
        telling.put(":");
        telling.put(one.code.as_str());
        telling.put_span(one.span.start, one.span.end);
    }
}

/// Tells whether the project has a schema; else what is wrong with it.
pub fn tell_schema(alloc: Global, row: &Row<'_>, telling: &mut Telling) -> Result<(), NoAnswer> {
    let project = project_of(alloc, &row.entries)?;
    match Schema::build(alloc, &project) {
        Ok(_schema) => telling.put("schema"),
        Err(SchemaFault::NoMemory) => return Err(NoAnswer),
        Err(SchemaFault::Faults(found)) => tell_faults(&found, telling),
    }
    Ok(())
}

/// What a schema answers to a question such as `field Query x`.
fn tell_of(
    alloc: Global,
    schema: &Schema,
    asked: &str,
    telling: &mut Telling,
) -> Result<(), NoAnswer> {
    let (method, words) = asked.split_once(' ').ok_or(NoAnswer)?;
    let (one, other) = words.split_once(' ').unwrap_or((words, ""));
    match method {
        "root" => telling.put(root(schema, one).unwrap_or("none")),
        "field" => telling.put_yes_or_no(schema.field(one, other).is_some()),
        "applies" => telling.put_yes_or_no(schema.applies(one, other)),
        "possible" => telling.put_words(&schema.possible(alloc, one)?),
        _ => return Err(NoAnswer),
    }
    Ok(())
}

fn root<'s>(schema: &'s Schema, kind: &str) -> Option<&'s str> {
    match kind {
        "query" => schema.root(OperationKind::Query),
        "mutation" => schema.root(OperationKind::Mutation),
        _ => schema.root(OperationKind::Subscription),
    }
}

/// Tells what the schema of the given texts answers to a question.
pub fn tell_answer(alloc: Global, row: &Row<'_>, telling: &mut Telling) -> Result<(), NoAnswer> {
    let asked = row.asked(alloc)?;
    let project = project_of(alloc, &row.given)?;
    match Schema::build(alloc, &project) {
        Ok(schema) => tell_of(alloc, &schema, asked.as_str(), telling),
        Err(_) => Err(NoAnswer),
    }
}
