//! Lists of names, in which a name is found by its text.
ghost use Rattle.std.specs.Prelude.{◌≡◌, ◌<◌, ◌≤◌, ◌++◌, ◌∷◌, [], List, ℕ, length, not, slice_index_or, position, IfOk, OnOk, OnErr};
ghost use Rattle.std.specs.List.{list_any};
ghost use Rattle.std.specs.Str.{bytes_eq};
ghost use Rattle.gq_names.specs.Helping.Places.{FindFirstPlaces};

use crate::places::{FEW, FirstPlaces};
use gq_text::{NoMemory, SmallText};
use std::alloc::Global;
use std::marker::Model;

/// Names in the order in which they were put. A name may come more than once; it is found at its first place.
#[derive(Drop)]
pub struct NameList {
    alloc: Global,
    names: Vec<SmallText>,
    first_places: FirstPlaces,
}

impl Model for NameList {
    ghost use Rattle.std.specs.Prelude.{List, ℕ, ◌<◌, length};
    ghost use Rattle.gq_names.specs.Helping.Places.{FindFirstPlaces};

    ghost Value = { List (List ℕ) };

    ghost view = { λ n. n.names.items };

    ghost invariant = { λ n. 16 < length n.names.items → FindFirstPlaces n.first_places n.names.items };
}

/// The first place of that name, found by going over the names.
fn place_among(names: &[SmallText], name: &str) -> Option<usize>
    ensures { result ≡ position (bytes_eq name.now) names.now }
{
    names.iter().position(|one| name == one.as_str())
}

impl NameList {
    /// A list of no names. It takes no memory.
    pub fn new(alloc: Global) -> NameList
        ensures { result ≡ [] }
    {
        NameList {
            alloc,
            names: Vec::new(alloc),
            first_places: FirstPlaces::new(alloc),
        }
    }

    /// A list of no names, with room for so many.
    pub fn with_capacity(alloc: Global, count: usize) -> Result<NameList, NoMemory>
        ensures { IfOk result (λ names. names ≡ []) }
    {
        Ok(NameList {
            alloc,
            names: Vec::with_capacity(alloc, count)?,
            first_places: FirstPlaces::new(alloc),
        })
    }

    /// How many names were put, each as often as it was.
    pub fn len(&self) -> usize
        ensures { result ≡ length self.now }
    {
        self.names.len()
    }

    /// Puts the name behind the others, and tells whether it is the first of its text. An error leaves the list as it was.
    pub fn push(&mut self, name: &str) -> Result<bool, NoMemory>
        ensures ok { OnOk result (self.new ≡ self.old ++ name.now ∷ []) }
        ensures first { IfOk result (λ is_first. is_first ≡ not (list_any (bytes_eq name.now) self.old)) }
        ensures err { OnErr result (self.new ≡ self.old) }
    {
        let is_first = !self.contains(name);
        self.put(name, is_first)?;
        Ok(is_first)
    }

    /// Puts the name behind the others. An error leaves the list as it was.
    pub fn add(&mut self, name: &str) -> Result<(), NoMemory>
        ensures ok { OnOk result (self.new ≡ self.old ++ name.now ∷ []) }
        ensures err { OnErr result (self.new ≡ self.old) }
    {
        let is_first = self.len() >= FEW && !self.contains(name);
        self.put(name, is_first)
    }

    /// Puts the name, which is the first of its text or not, behind the others; where these are few, that is not looked at. An error
    /// leaves the list as it was.
    pub(crate) fn put(&mut self, name: &str, is_first: bool) -> Result<(), NoMemory>
        requires { 16 ≤ length self.now → is_first ≡ not (list_any (bytes_eq name.now) self.now) }
        ensures ok { OnOk result (self.new ≡ self.old ++ name.now ∷ []) }
        ensures err { OnErr result (self.new ≡ self.old) }
    {
        let text = SmallText::from_str(self.alloc, name)?;
        self.names.reserve(1)?;
        self.first_places
            .put_behind(self.alloc, &self.names, name, is_first)?;
        self.names.push_reserved(text);
        Ok(())
    }

    /// The first place of that name, counted from 0. It takes no memory.
    pub fn place(&self, name: &str) -> Option<usize>
        ensures { result ≡ position (bytes_eq name.now) self.now }
    {
        if self.len() > FEW {
            self.first_places.get(&self.names, name)
        } else {
            place_among(&self.names, name)
        }
    }

    /// Whether that name was put. It takes no memory.
    pub fn contains(&self, name: &str) -> bool
        ensures { result ≡ list_any (bytes_eq name.now) self.now }
    {
        self.place(name).is_some()
    }

    /// The name at that place, counted from 0.
    pub fn get(&self, place: usize) -> &str
        requires { place < length self.now }
        ensures { result.now ≡ slice_index_or self.now place [] }
    {
        self.names[place].as_str()
    }
}
