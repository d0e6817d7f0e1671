//! What is kept of each entry, made in one pass: each definition is then at hand for all that look at it.
ghost use Rattle.std.specs.Prelude.{◌≡◌, ◌+◌, ◌<◌, IfOk, List, OnOk, length};
ghost use Rattle.gq_types.specs.Entries.{EntryOf, entries_view};
ghost use Rattle.gq_types.specs.Helping.Index.{AreTables, AreTablesBelow};
ghost use Rattle.gq_types.specs.Helping.Tables.{lists_of, AreJoined};

use crate::argument_names::{ArgumentNames, names_in};
use crate::entry::Entry;
use crate::fields::table_of;
use crate::locations::{distinct, locations_in};
use crate::parts::{Parts, Place, numbers_at, parts_of};
use crate::required::required_among;
use crate::roots::RootNames;
use crate::table::Table;
use crate::uses::Uses;
use gq_names::NameList;
use gq_text::NoMemory;
use gq_tree::DirectiveLocation;
use std::alloc::Global;

/// For each entry what is kept of it with those that belong to it: the table of its fields, its parts, the names of its required input
/// fields and of its arguments, and its locations.
#[derive(Drop)]
pub(crate) struct EntryTables {
    pub(crate) fields: Vec<Option<Box<Table<Place>>>>,
    pub(crate) parts: Vec<Parts>,
    pub(crate) required: Vec<NameList>,
    pub(crate) arguments: Vec<Vec<ArgumentNames>>,
    pub(crate) locations: Vec<Vec<DirectiveLocation>>,
}

impl EntryTables {
    /// What is kept of these entries, where each number has the numbers of the entries that belong to it.
    pub(crate) fn of(
        alloc: Global,
        entries: &[Entry],
        joined: &[Vec<usize>],
    ) -> Result<EntryTables, NoMemory>
        requires { AreJoined (entries_view entries.now) (lists_of joined.now) }
        ensures { IfOk result (AreTables (entries_view entries.now)) }
    {
        let mut tables = EntryTables::with_room(alloc, entries.len())?;
        for number in 0..entries.len() {
            tables.push(alloc, entries, joined, number)?;
        }
        Ok(tables)
    }

    /// Nothing yet, with room for so many entries.
    fn with_room(alloc: Global, count: usize) -> Result<EntryTables, NoMemory>
        ensures { IfOk result (λ tables. (es : List EntryOf) → AreTablesBelow es 0 tables) }
    {
        Ok(EntryTables {
            fields: Vec::with_capacity(alloc, count)?,
            parts: Vec::with_capacity(alloc, count)?,
            required: Vec::with_capacity(alloc, count)?,
            arguments: Vec::with_capacity(alloc, count)?,
            locations: Vec::with_capacity(alloc, count)?,
        })
    }

    /// Puts what is kept of the entry with that number behind what is kept of those before it.
    fn push(
        &mut self,
        alloc: Global,
        entries: &[Entry],
        joined: &[Vec<usize>],
        number: usize,
    ) -> Result<(), NoMemory>
        requires joined { AreJoined (entries_view entries.now) (lists_of joined.now) }
        requires number { number < length entries.now }
        requires below { AreTablesBelow (entries_view entries.now) number self.old }
        ensures { OnOk result (AreTablesBelow (entries_view entries.now) (number + 1) self.new) }
    {
        let numbers = numbers_at(joined, number);
        let entry = &entries[number];
        let table = table_of(alloc, entries, number, numbers)?;
        self.fields.push(table)?;
        let parts = parts_of(alloc, entries, numbers)?;
        self.parts.push(parts)?;
        let required = required_among(alloc, entries, numbers)?;
        self.required.push(required)?;
        let names = names_in(alloc, &entry.definition)?;
        self.arguments.push(names)?;
        let kept = distinct(alloc, locations_in(&entry.definition))?;
        self.locations.push(kept)?;
        Ok(())
    }

    /// The tables of fields, the parts, and the rest with these roots of the schema.
    pub(crate) fn split(
        self,
        roots: RootNames,
    ) -> (Vec<Option<Box<Table<Place>>>>, Vec<Parts>, Uses)
        ensures fields { result.0 ≡ self.fields }
        ensures parts { result.1 ≡ self.parts }
        ensures uses { result.2 ≡ record { required = self.required; arguments = self.arguments; locations = self.locations; roots = roots } }
    {
        let EntryTables {
            fields,
            parts,
            required,
            arguments,
            locations,
        } = self;
        let uses = Uses {
            required,
            arguments,
            locations,
            roots,
        };
        (fields, parts, uses)
    }
}
