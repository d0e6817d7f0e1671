//! The parts of types: fields, input fields, values, members and interfaces.
ghost use Rattle.std.specs.Prelude.{◌≡◌, ◌++◌, [], IfOk, OnOk, map, get_or};
ghost use Rattle.gq_types.specs.Entries.{entries_view};
ghost use Rattle.gq_types.specs.Helping.Tables.{lists_of, places_from, no_parts, add_body, add_entry, parts_at, lists_in};
ghost use Rattle.gq_tree.specs.Views.{body_view};

use crate::entry::Entry;
use crate::table::Table;
use gq_names::NameList;
use gq_text::NoMemory;
use gq_tree::{EnumValueDefinition, InputValueDefinition, Name, TypeBody, TypeSystemDefinition};
use std::alloc::Global;

/// Where a field or an input field stands.
#[derive(Clone, Copy)]
pub(crate) struct Place {
    /// The number of the entry.
    pub(crate) entry: usize,
    /// Its number among the fields of the entry, from 0.
    pub(crate) index: usize,
}

/// The names of the parts of a type with its extensions, but for its fields, and the places of its input fields.
#[derive(Drop)]
pub(crate) struct Parts {
    pub(crate) inputs: Table<Place>,
    pub(crate) values: NameList,
    pub(crate) members: NameList,
    pub(crate) interfaces: NameList,
}

impl Parts {
    /// No parts. It takes no memory.
    fn new(alloc: Global) -> Parts
        ensures { lists_in result ≡ no_parts }
    {
        Parts {
            inputs: Table::new(alloc),
            values: NameList::new(alloc),
            members: NameList::new(alloc),
            interfaces: NameList::new(alloc),
        }
    }

    /// Puts the parts of the entry with that number behind the others.
    fn add_entry(&mut self, entries: &[Entry], number: usize) -> Result<(), NoMemory>
        ensures { OnOk result (lists_in self.new ≡ add_entry (entries_view entries.now) (lists_in self.old) number) }
    {
        let Some(entry) = entries.get(number) else {
            return Ok(());
        };
        match &*entry.definition {
            TypeSystemDefinition::Type(one) => self.add_body(number, &one.body),
            TypeSystemDefinition::Schema(_) => Ok(()),
            TypeSystemDefinition::Directive(_) => Ok(()),
        }
    }

    /// Puts the parts of a body behind the others.
    fn add_body(&mut self, number: usize, body: &TypeBody) -> Result<(), NoMemory>
        ensures { OnOk result (lists_in self.new ≡ add_body (lists_in self.old) number (body_view body.now)) }
    {
        match body {
            TypeBody::Scalar => {}
            TypeBody::Object(parts) => add_names(&mut self.interfaces, &parts.interfaces)?,
            TypeBody::Interface(parts) => add_names(&mut self.interfaces, &parts.interfaces)?,
            TypeBody::Union(members) => add_names(&mut self.members, members)?,
            TypeBody::Enum(values) => add_values(&mut self.values, values)?,
            TypeBody::InputObject(fields) => add_inputs(&mut self.inputs, number, fields)?,
        }
        Ok(())
    }
}

/// The list at that place, and past the last one no numbers.
pub(crate) fn numbers_at(joined: &[Vec<usize>], number: usize) -> &[usize]
    ensures { result.now ≡ get_or (lists_of joined.now) number [] }
{
    match joined.get(number) {
        Some(numbers) => numbers.as_slice(),
        None => &[],
    }
}

/// The parts of the entries with these numbers.
pub(crate) fn parts_of(
    alloc: Global,
    entries: &[Entry],
    numbers: &[usize],
) -> Result<Parts, NoMemory>
    ensures { IfOk result (λ parts. lists_in parts ≡ parts_at (entries_view entries.now) numbers.now) }
{
    let mut parts = Parts::new(alloc);
    for number in numbers {
        parts.add_entry(entries, *number)?;
    }
    Ok(parts)
}

fn add_inputs(
    table: &mut Table<Place>,
    entry: usize,
    fields: &[InputValueDefinition],
) -> Result<(), NoMemory>
    ensures names { OnOk result (table.new.names ≡ table.old.names ++ map (λ f. f.name.text) fields.now) }
    ensures places { OnOk result (table.new.values.items ≡ table.old.values.items ++ places_from entry 0 fields.now) }
{
    for (index, field) in fields.iter().enumerate() {
        table.push(field.name.text.as_str(), Place { entry, index })?;
    }
    Ok(())
}

fn add_values(list: &mut NameList, values: &[EnumValueDefinition]) -> Result<(), NoMemory>
    ensures { OnOk result (list.new ≡ list.old ++ map (λ v. v.name.text) values.now) }
{
    for value in values {
        list.add(value.name.text.as_str())?;
    }
    Ok(())
}

fn add_names(list: &mut NameList, names: &[Name]) -> Result<(), NoMemory>
    ensures { OnOk result (list.new ≡ list.old ++ map (λ n. n.text) names.now) }
{
    for name in names {
        list.add(name.text.as_str())?;
    }
    Ok(())
}
