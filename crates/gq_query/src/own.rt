//! The executable definitions of one document, and their numbers among those of all.
ghost use Rattle.std.specs.Prelude.{◌≡◌, ◌++◌, ◌-◌, ◌<◌, ◌≤◌, ◌^◌, List, IfOk, OnOk, map, slice_get};
ghost use Rattle.std.specs.Option.{option_map};
ghost use Rattle.gq_tree.specs.Views.{def_view};
ghost use Rattle.gq_tree.specs.Readings.{ParsedOf, definitions_read, parsed_view, readings_view};
ghost use Rattle.gq_index.specs.Indexed.{IsIndexOf};
ghost use Rattle.gq_index.specs.Occurrences.{executable_in, executables};
ghost use Rattle.gq_index.specs.Views.{definition_view, definitions_view};
ghost use Rattle.gq_query.specs.Helping.Own.{all_definitions, definitions_of, own_definitions, first_number};

use gq_index::{Executable, Index};
use gq_text::NoMemory;
use gq_tree::{Definition, Parsed};
use std::alloc::Global;
use std::sync::Arc;

/// The operations and fragments of the document of that number; none past the last document.
pub(crate) fn own_definitions<'a>(
    alloc: Global,
    readings: &'a [Arc<Parsed>],
    file: usize,
) -> Result<Vec<Executable<'a>>, NoMemory>
    ensures { IfOk result (λ own. definitions_view own.items ≡ own_definitions file (readings_view readings.now)) }
{
    let mut own = Vec::new(alloc);
    for definition in definitions_of(readings, file) {
        put_own(file, definition, &mut own)?;
    }
    Ok(own)
}

/// Puts a definition of that document behind the others, unless it is one of the type system.
fn put_own<'a>(
    file: usize,
    definition: &'a Definition,
    own: &mut Vec<Executable<'a>>,
) -> Result<(), NoMemory>
    ensures { OnOk result (definitions_view own.new.items ≡ definitions_view own.old.items ++ executable_in file (def_view definition.now)) }
{
    match definition {
        Definition::Operation(_) => own.push(Executable { file, definition })?,
        Definition::Fragment(_) => own.push(Executable { file, definition })?,
        Definition::TypeSystem(_) => {}
    }
    Ok(())
}

/// What the document of that number defines.
fn definitions_of<'a>(readings: &'a [Arc<Parsed>], file: usize) -> &'a [Definition]
    ensures { map def_view result.now ≡ definitions_of file (readings_view readings.now) }
{
    match readings.get(file) {
        Some(reading) => definitions_read(reading),
        None => &[],
    }
}

/// What a document defines that is read so.
fn definitions_read<'a>(reading: &'a Parsed) -> &'a [Definition]
    ensures { map def_view result.now ≡ definitions_read (parsed_view reading.now) }
{
    match reading {
        Parsed::Tree(document) => document.definitions.as_slice(),
        Parsed::Syntax { .. } => &[],
        Parsed::Limit { .. } => &[],
    }
}

/// The number of the first operation or fragment of the document of that number, by the index. It takes no memory.
pub(crate) fn first_number(index: &Index, file: usize) -> usize
    ensures bound { result < 2 ^ 63 }
    ensures number { (readings : List ParsedOf) → IsIndexOf (executables readings) index.now → result ≡ first_number file readings }
{
    index.places().partition_point(|place| place.file < file)
}

/// The operation or fragment of that number among those of all documents.
pub(crate) fn definition_at<'a>(
    alloc: Global,
    readings: &'a [Arc<Parsed>],
    index: &Index,
    number: usize,
) -> Result<Option<Executable<'a>>, NoMemory>
    ensures { IfOk result (λ found. IsIndexOf (all_definitions readings.now) index.now → option_map definition_view found ≡ slice_get (all_definitions readings.now) number) }
{
    match index.places().get(number) {
        Some(place) => {
            let own = own_definitions(alloc, readings, place.file)?;
            Ok(numbered(&own, first_number(index, place.file), number))
        }
        None => Ok(None),
    }
}

/// The one of that number among these, of which the first has the number `first`.
fn numbered<'a>(own: &[Executable<'a>], first: usize, number: usize) -> Option<Executable<'a>>
    ensures { first ≤ number → option_map definition_view result ≡ slice_get (definitions_view own.now) (number - first) }
{
    if number < first {
        return None;
    }
    own.get(number - first).copied()
}
