//! What texts define, and the faults that rules find in it.
use crate::no_answer::NoAnswer;
use crate::row::{self, Row};
use crate::telling::Telling;
use gq_document::{Definitions, Executable, type_system_entries};
use gq_fault::{Fault, put_in_order};
use gq_parse::{Parsed, parse};
use gq_spreads::Spreads;
use gq_types::Types;
use gq_variables::add_variable_faults;
use std::alloc::Global;

/// What texts define, each numbered by its place among them.
#[derive(Drop)]
pub struct Documents {
    pub types: Types,
    /// What is left of them beside the type system.
    readings: Vec<Parsed>,
}

impl Documents {
    /// The operations and fragments.
    pub fn definitions(&self, alloc: Global) -> Result<Definitions<'_>, NoAnswer> {
        Ok(Definitions::of(alloc, &self.readings)?)
    }
}

/// What texts are read as.
fn read_texts(alloc: Global, texts: &[row::Entry<'_>]) -> Result<Vec<Parsed>, NoAnswer> {
    let mut readings = Vec::new(alloc);
    for entry in texts {
        readings.push(Parsed::Tree(parse(alloc, entry.text(alloc)?.as_str())?))?;
    }
    Ok(readings)
}

/// What texts define.
pub fn documents_of(alloc: Global, texts: &[row::Entry<'_>]) -> Result<Documents, NoAnswer> {
    let readings = read_texts(alloc, texts)?;
    let entries = type_system_entries(alloc, &readings)?;
    Ok(Documents {
        types: Types::of(alloc, entries)?,
        readings,
    })
}

/// Tells faults in order, each as the name of its text, its code and its bytes, or `none`.
pub fn tell_in_order(row: &Row<'_>, faults: &mut Vec<Fault>, telling: &mut Telling) {
    put_in_order(faults);
    for fault in faults.iter() {
        if !telling.is_empty() {
            telling.put(" ");
        }
        row.put_key(fault.file, telling);
        telling.put(fault.code.as_str());
        telling.put_span(fault.start, fault.end);
    }
    if telling.is_empty() {
        telling.put("none");
    }
}

/// Tells what the rules of variables find in the texts of a row.
pub fn tell_variables(alloc: Global, row: &Row<'_>, telling: &mut Telling) -> Result<(), NoAnswer> {
    let documents = documents_of(alloc, &row.entries)?;
    tell_in_order(row, &mut variable_faults(alloc, &documents)?, telling);
    Ok(())
}

/// What the rules of variables find in documents.
fn variable_faults(alloc: Global, documents: &Documents) -> Result<Vec<Fault>, NoAnswer> {
    let definitions = documents.definitions(alloc)?;
    let executable = Executable {
        types: &documents.types,
        operations: &definitions.operations,
        fragments: &definitions.fragments,
    };
    let spreads = Spreads::of(alloc, &executable)?;
    let mut faults = Vec::new(alloc);
    add_variable_faults(alloc, &executable, &spreads, &mut faults)?;
    Ok(faults)
}
