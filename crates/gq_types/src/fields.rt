//! The fields of types, found by their names.
ghost use Rattle.std.specs.Prelude.{◌≡◌, ◌++◌, ◌∷◌, [], true, IfOk, OnOk, map, position};
ghost use Rattle.std.specs.Str.{bytes_eq};
ghost use Rattle.gq_types.specs.Entries.{entries_view};
ghost use Rattle.gq_types.specs.Helping.FieldTables.{field_names_at, field_places_at, IsTableOf, IsKeptFor};
ghost use Rattle.gq_types.specs.Helping.Tables.{places_from};
ghost use Rattle.gq_types.specs.Helping.UnderName.{under_name};

use crate::argument_names::FEW;
use crate::entry::Entry;
use crate::entry_parts::fields_among;
use crate::parts::Place;
use crate::table::Table;
use gq_text::NoMemory;
use gq_tree::FieldDefinition;
use std::alloc::Global;

/// The table of the fields of the entry with that number, to which those with these numbers belong. None is made where the entry is the only
/// one, and has few: these are found where they stand.
pub(crate) fn table_of(
    alloc: Global,
    entries: &[Entry],
    number: usize,
    numbers: &[usize],
) -> Result<Option<Box<Table<Place>>>, NoMemory>
    ensures { IfOk result (IsKeptFor (entries_view entries.now) number numbers.now) }
{
    if has_few(entries, number, numbers) {
        return Ok(None);
    }
    let table = table_for(alloc, entries, numbers)?;
    Ok(Some(Box::new(alloc, table)?))
}

/// Whether the entry is the only one of these, and has few fields.
fn has_few(entries: &[Entry], number: usize, numbers: &[usize]) -> bool
    ensures { result ≡ true → numbers.now ≡ number ∷ [] }
{
    numbers.len() == 1 && numbers[0] == number && fields_among(entries, number).len() <= FEW
}

/// The table of the fields of the entries with these numbers.
fn table_for(alloc: Global, entries: &[Entry], numbers: &[usize]) -> Result<Table<Place>, NoMemory>
    ensures { IfOk result (IsTableOf (entries_view entries.now) numbers.now) }
{
    let mut table = Table::new(alloc);
    for number in numbers {
        add_fields(&mut table, *number, fields_among(entries, *number))?;
    }
    Ok(table)
}

fn add_fields(
    table: &mut Table<Place>,
    entry: usize,
    fields: &[FieldDefinition],
) -> Result<(), NoMemory>
    ensures names { OnOk result (table.new.names ≡ table.old.names ++ map (λ f. f.name.text) fields.now) }
    ensures places { OnOk result (table.new.values.items ≡ table.old.values.items ++ places_from entry 0 fields.now) }
{
    for (index, field) in fields.iter().enumerate() {
        table.push(field.name.text.as_str(), Place { entry, index })?;
    }
    Ok(())
}

/// The place of the field of that name among those of one entry.
pub(crate) fn place_in(entries: &[Entry], entry: usize, name: &str) -> Option<Place>
    ensures { result ≡ under_name (field_names_at (entries_view entries.now) (entry ∷ [])) (field_places_at (entries_view entries.now) (entry ∷ [])) name.now }
{
    let index = index_in(fields_among(entries, entry), name)?;
    Some(Place { entry, index })
}

/// The number of the first field of that name, from 0.
fn index_in(fields: &[FieldDefinition], name: &str) -> Option<usize>
    ensures { result ≡ position (λ f. bytes_eq name.now f.name.text) fields.now }
{
    fields
        .iter()
        .position(|field| name == field.name.text.as_str())
}
