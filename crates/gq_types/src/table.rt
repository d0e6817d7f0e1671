//! Names, and what is kept under each.
ghost use Rattle.std.specs.Prelude.{◌≡◌, ◌++◌, ◌∷◌, [], OnOk};
ghost use Rattle.gq_types.specs.Helping.UnderName.{under_name};

use gq_names::NameList;
use gq_text::NoMemory;
use std::alloc::Global;

/// Names in a row, and a value for each of them. Of equal names the first is found.
#[derive(Drop)]
pub(crate) struct Table<T: Copy + Drop> {
    names: NameList,
    values: Vec<T>,
}

impl<T: Copy + Drop> Table<T> {
    /// A table of no names. It takes no memory.
    pub(crate) fn new(alloc: Global) -> Table<T>
        ensures names { result.names ≡ [] }
        ensures values { result.values.items ≡ [] }
    {
        Table {
            names: NameList::new(alloc),
            values: Vec::new(alloc),
        }
    }

    /// Puts the name with its value behind the others.
    pub(crate) fn push(&mut self, name: &str, value: T) -> Result<(), NoMemory>
        ensures names { OnOk result (self.new.names ≡ self.old.names ++ name.now ∷ []) }
        ensures values { OnOk result (self.new.values.items ≡ self.old.values.items ++ value ∷ []) }
    {
        self.values.push(value)?;
        self.names.add(name)
    }

    /// The value under the name. It takes no memory.
    pub(crate) fn get(&self, name: &str) -> Option<T>
        ensures { result ≡ under_name self.now.names self.now.values.items name.now }
    {
        let place = self.names.place(name)?;
        self.values.get(place).copied()
    }
}
