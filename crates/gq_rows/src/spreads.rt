//! Which fragments an operation reaches, and where fragments of a name stand.
use crate::faults::{Documents, documents_of};
use crate::no_answer::NoAnswer;
use crate::row::Row;
use crate::telling::Telling;
use gq_document::Executable;
use gq_spreads::{FragmentNames, Spreads, reached_fragments};
use std::alloc::Global;

/// Tells the numbers of the fragments that the operation of that number reaches.
fn tell_reached(
    alloc: Global,
    documents: &Documents,
    number: usize,
    telling: &mut Telling,
) -> Result<(), NoAnswer> {
    let definitions = documents.definitions(alloc)?;
    let executable = Executable {
        types: &documents.types,
        operations: &definitions.operations,
        fragments: &definitions.fragments,
    };
    let spreads = Spreads::of(alloc, &executable)?;
    if number >= executable.operations.len() {
        return Err(NoAnswer);
    }
    telling.put_debug(&reached_fragments(alloc, &executable, &spreads, number)?);
    Ok(())
}

/// Tells the numbers of the fragments of that name, and whether there is one.
fn tell_named(
    alloc: Global,
    documents: &Documents,
    name: &str,
    telling: &mut Telling,
) -> Result<(), NoAnswer> {
    let definitions = documents.definitions(alloc)?;
    let names = FragmentNames::of(alloc, &definitions.fragments)?;
    let mut numbers = Vec::new(alloc);
    names.put_numbers(name, &mut numbers)?;
    telling.put_debug(&numbers);
    telling.put(" ");
    telling.put_yes_or_no(names.contains(name));
    Ok(())
}

/// Tells what the given texts answer to a question such as `reached 0` or `named A`.
pub fn tell_spreads(alloc: Global, row: &Row<'_>, telling: &mut Telling) -> Result<(), NoAnswer> {
    let asked = row.asked(alloc)?;
    let documents = documents_of(alloc, &row.given)?;
    match asked.as_str().split_once(' ') {
        Some(("reached", number)) => tell_reached(alloc, &documents, number.parse()?, telling),
        Some(("named", name)) => tell_named(alloc, &documents, name, telling),
        _ => Err(NoAnswer),
    }
}
