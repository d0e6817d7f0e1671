//! What an index keeps of the operations and fragments of a document: neither trees nor text.
ghost use Rattle.std.specs.Arc.{arc_value};
ghost use Rattle.std.specs.Prelude.{◌≡◌, ◌++◌, IfOk, OnOk, flat_map, map};
ghost use Rattle.gq_tree.specs.Names.{names_at};
ghost use Rattle.gq_tree.specs.Readings.{parsed_view, readings_view};
ghost use Rattle.gq_tree.specs.Views.{def_view};
ghost use Rattle.gq_index.specs.Helping.PartVariables.{AreVariablesNamed};
ghost use Rattle.gq_index.specs.Parts.{part_of, part_in, parts_in};
ghost use Rattle.gq_index.specs.Views.{names_view, part_view, parts_view, parts_held, parts_shared};

use crate::definitions::{copy_of, fragment_name, is_operation, place_of, spreads_in};
use crate::index::Variables;
use crate::part::Part;
use crate::places::places_of;
use crate::variables::{defined_variables, used_variables};
use gq_text::NoMemory;
use gq_tree::{Definition, Name, Parsed};
use std::alloc::Global;
use std::sync::Arc;

/// What an index keeps of the operations and fragments of a document.
#[derive(Drop)]
pub struct Parts {
    pub(crate) parts: Vec<Part>,
}

impl Parts {
    /// What is kept of a document that is read so, in the order of the text.
    pub fn of(alloc: Global, reading: &Parsed) -> Result<Parts, NoMemory>
        ensures { IfOk result (λ parts. parts_held parts ≡ parts_in (parsed_view reading.now)) }
    {
        let parts = parts_in(alloc, reading)?;
        Ok(Parts { parts })
    }

    /// The same, where it may have several owners.
    pub fn shared_of(alloc: Global, reading: &Parsed) -> Result<Arc<Parts>, NoMemory>
        ensures { IfOk result (λ parts. parts_held (arc_value parts) ≡ parts_in (parsed_view reading.now)) }
    {
        let parts = Parts::of(alloc, reading)?;
        Ok(Arc::new(alloc, parts)?)
    }
}

/// What is kept of each of these documents.
pub(crate) fn all_kept(alloc: Global, readings: &[Arc<Parsed>]) -> Result<Vec<Arc<Parts>>, NoMemory>
    ensures { IfOk result (λ all. parts_shared all.items ≡ map parts_in (readings_view readings.now)) }
{
    let mut all = Vec::with_capacity(alloc, readings.len())?;
    for reading in readings {
        all.push(Parts::shared_of(alloc, reading)?)?;
    }
    Ok(all)
}

fn parts_in(alloc: Global, reading: &Parsed) -> Result<Vec<Part>, NoMemory>
    ensures { IfOk result (λ parts. parts_view parts.items ≡ parts_in (parsed_view reading.now)) }
{
    match reading {
        Parsed::Tree(document) => parts_of(alloc, &document.definitions),
        Parsed::Syntax { .. } => Ok(Vec::new(alloc)),
        Parsed::Limit { .. } => Ok(Vec::new(alloc)),
    }
}

fn parts_of(alloc: Global, definitions: &[Definition]) -> Result<Vec<Part>, NoMemory>
    ensures { IfOk result (λ parts. parts_view parts.items ≡ flat_map part_in (map def_view definitions.now)) }
{
    let mut parts = Vec::new(alloc);
    for definition in definitions {
        put_part(alloc, definition, &mut parts)?;
    }
    Ok(parts)
}

fn put_part(alloc: Global, definition: &Definition, parts: &mut Vec<Part>) -> Result<(), NoMemory>
    ensures { OnOk result (parts_view parts.new.items ≡ parts_view parts.old.items ++ part_in (def_view definition.now)) }
{
    match definition {
        Definition::Operation(_) => parts.push(part_of(alloc, definition)?)?,
        Definition::Fragment(_) => parts.push(part_of(alloc, definition)?)?,
        Definition::TypeSystem(_) => {}
    }
    Ok(())
}

fn part_of(alloc: Global, definition: &Definition) -> Result<Part, NoMemory>
    ensures { IfOk result (λ part. part_view part ≡ part_of (def_view definition.now)) }
{
    let spreads = spreads_in(alloc, definition)?;
    let used = copied(alloc, &used_variables(alloc, definition)?)?;
    let defined = copied(alloc, &defined_variables(alloc, definition)?)?;
    let variables = variables_of(alloc, &used, &defined)?;
    Ok(Part {
        is_operation: is_operation(definition),
        place: place_of(definition),
        own_name: fragment_name(alloc, definition)?,
        spreads: copied(alloc, &spreads)?,
        used,
        defined,
        variables,
    })
}

/// The places of the variables of these names, by them.
fn variables_of(alloc: Global, used: &[Name], defined: &[Name]) -> Result<Variables, NoMemory>
    ensures { IfOk result (λ variables. AreVariablesNamed (names_view used.now) (names_view defined.now) variables) }
{
    Ok(Variables {
        uses: places_of(alloc, used)?,
        definitions: places_of(alloc, defined)?,
    })
}

/// Copies of these names.
fn copied(alloc: Global, names: &[&Name]) -> Result<Vec<Name>, NoMemory>
    ensures { IfOk result (λ copies. names_view copies.items ≡ names_at names.now) }
{
    let mut copies = Vec::with_capacity(alloc, names.len())?;
    for name in names {
        copies.push(copy_of(alloc, name)?)?;
    }
    Ok(copies)
}
