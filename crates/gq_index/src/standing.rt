//! Where names of fragments stand, name by name.
ghost use Rattle.std.specs.Prelude.{◌≡◌, ◌≤◌, ◌++◌, List, Some, OnOk, IfOk, length, position, take};
ghost use Rattle.std.specs.Option.{option_map_or};
ghost use Rattle.std.specs.Str.{bytes_eq};
ghost use Rattle.gq_text.specs.declared.place.Span.{Span};
ghost use Rattle.gq_tree.specs.Plain.{NameOf};
ghost use Rattle.gq_types.specs.Entries.{Text};
ghost use Rattle.gq_index.specs.Helping.PlacedParts.{placed_part, placed_view};
ghost use Rattle.gq_index.specs.Helping.SpreadPlaces.{ArePlaces, AreStanding, KeepPlaces, numbers_at};
ghost use Rattle.gq_index.specs.Helping.StandingParts.{both, defined_at, if_so, spread_at, owns_stand, spreads_stand, part_stands};
ghost use Rattle.gq_index.specs.Standing.{named_view, nowhere, stands};
ghost use Rattle.gq_index.specs.Views.{names_view, own_names};

use crate::fragments::{Fragments, Named};
use crate::occurrence::Occurrence;
use crate::placed::Placed;
use gq_names::NameList;
use gq_text::NoMemory;
use gq_tree::Name;
use std::alloc::Global;

impl Named {
    /// Of a name that stands nowhere.
    fn new(alloc: Global) -> Named
        ensures { named_view result ≡ nowhere }
    {
        Named {
            definitions: Vec::new(alloc),
            spreads: Vec::new(alloc),
            occurrences: Vec::new(alloc),
            numbers: Vec::new(alloc),
        }
    }

    /// The name stands at one more definition, of the fragment of that number.
    fn define(&mut self, place: Occurrence, number: usize) -> Result<(), NoMemory>
        ensures { OnOk result (named_view self.new ≡ both (named_view self.old) (defined_at place number)) }
    {
        self.definitions.push(place)?;
        self.occurrences.push(place)?;
        self.numbers.push(number)?;
        Ok(())
    }

    /// The name stands in one more spread.
    fn spread(&mut self, place: Occurrence) -> Result<(), NoMemory>
        ensures { OnOk result (named_view self.new ≡ both (named_view self.old) (spread_at place)) }
    {
        self.spreads.push(place)?;
        self.occurrences.push(place)?;
        Ok(())
    }
}

impl Fragments {
    /// No names. It takes no memory.
    pub(crate) fn new(alloc: Global) -> Fragments
        ensures { (text : Text) → stands result text ≡ nowhere }
    {
        Fragments {
            alloc,
            names: NameList::new(alloc),
            named: Vec::new(alloc),
        }
    }

    /// The place of a name among the others. It is put behind them where it is new.
    fn place_of(&mut self, name: &str) -> Result<usize, NoMemory>
        ensures at { IfOk result (λ at. position (bytes_eq name.now) self.new.names ≡ Some at) }
        ensures same { OnOk result ((text : Text) → stands self.new text ≡ stands self.old text) }
        ensures kept { OnOk result (KeepPlaces self.old.names self.new.names) }
    {
        if let Some(at) = self.names.place(name) {
            return Ok(at);
        }
        let at = self.names.len();
        let named = Named::new(self.alloc);
        self.named.reserve(1)?;
        self.names.add(name)?;
        self.named.push_reserved(named);
        Ok(at)
    }

    /// The name stands at one more definition, of the fragment of that number.
    fn define(&mut self, name: &str, place: Occurrence, number: usize) -> Result<(), NoMemory>
        ensures stand { OnOk result ((text : Text) → stands self.new text ≡ both (stands self.old text) (if_so (bytes_eq text name.now) (defined_at place number))) }
        ensures kept { OnOk result (KeepPlaces self.old.names self.new.names) }
    {
        let at = self.place_of(name)?;
        self.named[at].define(place, number)
    }

    /// The name stands in one more spread. The answer is its place among the others.
    fn spread(&mut self, name: &str, place: Occurrence) -> Result<usize, NoMemory>
        ensures at { IfOk result (λ at. position (bytes_eq name.now) self.new.names ≡ Some at) }
        ensures stand { OnOk result ((text : Text) → stands self.new text ≡ both (stands self.old text) (if_so (bytes_eq text name.now) (spread_at place))) }
        ensures kept { OnOk result (KeepPlaces self.old.names self.new.names) }
    {
        let at = self.place_of(name)?;
        self.named[at].spread(place)?;
        Ok(at)
    }

    /// Where a name stands, if it stands somewhere. It takes no memory.
    fn get(&self, name: &str) -> Option<&Named>
        ensures { option_map_or (λ named. named_view named.now) result nowhere ≡ stands self.now name.now }
    {
        match self.names.place(name) {
            Some(at) => Some(&self.named[at]),
            None => None,
        }
    }

    /// Where it is defined. It takes no memory, nor do the next.
    pub(crate) fn definitions(&self, name: &str) -> &[Occurrence]
        ensures { result.now ≡ (stands self.now name.now).definitions }
    {
        match self.get(name) {
            Some(named) => named.definitions.as_slice(),
            None => &[],
        }
    }

    /// Where it is spread.
    pub(crate) fn spreads(&self, name: &str) -> &[Occurrence]
        ensures { result.now ≡ (stands self.now name.now).spreads }
    {
        match self.get(name) {
            Some(named) => named.spreads.as_slice(),
            None => &[],
        }
    }

    /// Both, in the order of the texts.
    pub(crate) fn occurrences(&self, name: &str) -> &[Occurrence]
        ensures { result.now ≡ (stands self.now name.now).occurrences }
    {
        match self.get(name) {
            Some(named) => named.occurrences.as_slice(),
            None => &[],
        }
    }

    /// The numbers of the fragments of the name that has that place among the others.
    pub(crate) fn numbers_at(&self, at: usize) -> &[usize]
        ensures { result.now ≡ numbers_at self.now at }
    {
        match self.named.get(at) {
            Some(named) => named.numbers.as_slice(),
            None => &[],
        }
    }
}

/// Puts in where a definition of that number defines a fragment, if it does.
fn put_own(
    file: usize,
    number: usize,
    name: &Option<Name>,
    all: &mut Fragments,
) -> Result<(), NoMemory>
    ensures stand { OnOk result ((text : Text) → stands all.new text ≡ both (stands all.old text) (owns_stand file number text (own_names name.now))) }
    ensures kept { OnOk result (KeepPlaces all.old.names all.new.names) }
{
    match name {
        Some(name) => {
            let span = name.span;
            all.define(name.text.as_str(), Occurrence { file, span }, number)
        }
        None => Ok(()),
    }
}

/// Puts in where these names stand in spreads of a document, and their places behind those of the spreads before.
fn put_spreads(
    file: usize,
    names: &[Name],
    all: &mut Fragments,
    places: &mut Vec<usize>,
) -> Result<(), NoMemory>
    ensures stand { OnOk result ((text : Text) → stands all.new text ≡ both (stands all.old text) (spreads_stand file text (names_view names.now))) }
    ensures places { OnOk result ((ns : List (NameOf Span)) → ArePlaces all.old.names ns places.old.items → ArePlaces all.new.names (ns ++ names_view names.now) places.new.items) }
{
    for name in names {
        let span = name.span;
        let at = all.spread(name.text.as_str(), Occurrence { file, span })?;
        places.push(at)?;
    }
    Ok(())
}

/// Puts in what stands in the definition of that number, and the places of the names in its spreads.
fn put_part(
    number: usize,
    one: &Placed<'_>,
    all: &mut Fragments,
    places: &mut Vec<usize>,
) -> Result<(), NoMemory>
    ensures stand { OnOk result ((text : Text) → stands all.new text ≡ both (stands all.old text) (part_stands number text (placed_part one.now))) }
    ensures places { OnOk result ((ns : List (NameOf Span)) → ArePlaces all.old.names ns places.old.items → ArePlaces all.new.names (ns ++ (placed_part one.now).part.spreads) places.new.items) }
{
    put_own(one.file, number, &one.part.own_name, all)?;
    put_spreads(one.file, one.spreads, all, places)
}

/// Puts in what stands in the parts from that number on, behind what stands in those before.
pub(crate) fn put_from(
    first: usize,
    parts: &[Placed<'_>],
    all: &mut Fragments,
    places: &mut Vec<usize>,
) -> Result<(), NoMemory>
    requires { first ≤ length parts.now }
    ensures { OnOk result (AreStanding (placed_view (take first parts.now)) all.old places.old.items → AreStanding (placed_view parts.now) all.new places.new.items) }
{
    for number in first..parts.len() {
        put_part(number, &parts[number], all, places)?;
    }
    Ok(())
}
