//! Lists of items under names.
ghost use Rattle.std.specs.Prelude.{◌≡◌, ◌++◌, [], List, ℕ, OnOk, OnErr};
ghost use Rattle.std.specs.Str.{bytes_eq};
ghost use Rattle.gq_names.specs.UnderNames.{items_under, one_if};

use crate::list::NameList;
use gq_text::NoMemory;
use std::alloc::Global;
use std::marker::Model;

/// Names, and under each of them the items that were put there, in their order.
#[derive(Drop)]
pub struct ByName<T: Copy + Drop> {
    alloc: Global,
    names: NameList,
    lists: Vec<Vec<T>>,
}

impl<T: Copy + Drop> Model for ByName<T> {
    ghost use Rattle.std.specs.Prelude.{length, map, ◌≡◌};
    ghost use Rattle.gq_names.specs.UnderNames.{UnderNames};

    ghost Value = { UnderNames T };

    ghost view = { λ b. record { names = b.names; lists = map (λ v. v.items) b.lists.items } };

    ghost invariant = { λ b. length (map (λ v. v.items) b.lists.items) ≡ length b.names };
}

impl<T: Copy + Drop> ByName<T> {
    /// No items. It takes no memory.
    pub fn new(alloc: Global) -> ByName<T>
        ensures { (name : List ℕ) → items_under result name ≡ [] }
    {
        ByName {
            alloc,
            names: NameList::new(alloc),
            lists: Vec::new(alloc),
        }
    }

    /// Puts the item under the name, behind those that are there. An error leaves all as it was.
    pub fn put(&mut self, name: &str, item: T) -> Result<(), NoMemory>
        ensures ok { OnOk result ((text : List ℕ) → items_under self.new text ≡ items_under self.old text ++ one_if (bytes_eq text name.now) item) }
        ensures err { OnErr result (self.new ≡ self.old) }
    {
        match self.names.place(name) {
            Some(place) => {
                self.lists[place].push(item)?;
            }
            None => {
                let mut list = Vec::new(self.alloc);
                list.push(item)?;
                self.lists.reserve(1)?;
                self.names.put(name, true)?;
                self.lists.push_reserved(list);
            }
        }
        Ok(())
    }

    /// The items under the name, in the order in which they were put. It takes no memory.
    pub fn get(&self, name: &str) -> &[T]
        ensures { result.now ≡ items_under self.now name.now }
    {
        match self.names.place(name) {
            Some(place) => &self.lists[place],
            None => &[],
        }
    }
}
