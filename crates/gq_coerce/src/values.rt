//! The values of variables and the entries of objects, found by their names.
ghost use Rattle.std.specs.Prelude.{◌≡◌, IfOk, map, find};
ghost use Rattle.std.specs.Option.{option_map};
ghost use Rattle.std.specs.Str.{bytes_eq};
ghost use Rattle.gq_meaning.specs.Directives.{entry_of};
ghost use Rattle.gq_table.specs.Views.{under, value_view, entries_view};

use gq_names::NameList;
use gq_table::{Entry, Value};
use gq_text::NoMemory;
use std::alloc::Global;
use std::marker::Model;

/// The values of variables. Contracts see them as a list of entries; one is found by its name.
#[derive(Drop)]
pub struct Variables {
    entries: Vec<Entry>,
    names: NameList,
}

impl Model for Variables {
    ghost use Rattle.std.specs.Prelude.{◌≡◌, List, map};
    ghost use Rattle.std.specs.Coded.{codes};
    ghost use Rattle.gq_table.specs.contracts.values.Entry as entry;
    ghost use Rattle.gq_table.specs.declared.values.Entry.{Entry};

    ghost Value = { List Entry };

    ghost coded = { Prim.hlevel (codes, entry.the_row.coded) };

    ghost view = { λ v. v.entries.items };

    ghost invariant = { λ v. v.names ≡ map (λ e. e.name) v.entries.items };
}

impl Variables {
    /// Variables with these values.
    pub fn of(alloc: Global, entries: Vec<Entry>) -> Result<Variables, NoMemory>
        ensures { IfOk result (λ variables. variables ≡ entries.items) }
    {
        let names = entry_names(alloc, &entries)?;
        Ok(Variables { entries, names })
    }

    /// The entries, in their order. It takes no memory.
    pub fn into_entries(self) -> Vec<Entry>
        ensures { result.items ≡ self }
    {
        self.entries
    }

    /// The value of the variable of that name.
    pub fn get(&self, name: &str) -> Option<&Value>
        ensures { option_map (λ v. under name.now (value_view v.now)) result ≡ entry_of name.now (entries_view self.now) }
    {
        entry_named(&self.entries, &self.names, name)
    }
}

/// The names of entries.
pub(crate) fn entry_names(alloc: Global, entries: &[Entry]) -> Result<NameList, NoMemory>
    ensures { IfOk result (λ names. names ≡ map (λ e. e.name) entries.now) }
{
    let mut names = NameList::new(alloc);
    for entry in entries {
        names.add(entry.name.as_str())?;
    }
    Ok(names)
}

/// The value of the first entry of that name, where these are the names of the entries.
pub(crate) fn entry_named<'a>(
    entries: &'a [Entry],
    names: &NameList,
    name: &str,
) -> Option<&'a Value>
    requires { names.now ≡ map (λ e. e.name) entries.now }
    ensures { option_map (λ v. under name.now (value_view v.now)) result ≡ entry_of name.now (entries_view entries.now) }
{
    match names.place(name) {
        Some(place) => Some(&entries[place].value),
        None => None,
    }
}
