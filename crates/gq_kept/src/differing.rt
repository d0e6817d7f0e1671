//! In which fields two type systems differ.
ghost use Rattle.std.specs.Prelude.{◌≡◌, [], true, IfOk, IfSome, map};
ghost use Rattle.gq_tree.specs.Plain.{no_place, place_type_system};
ghost use Rattle.gq_tree.specs.Views.{type_system_view};
ghost use Rattle.gq_types.specs.Entries.{entries_view};
ghost use Rattle.gq_laws.specs.Placing.ObjectTypes.{DifferInObjects};
ghost use Rattle.gq_laws.specs.Placing.OtherFields.{definition_without, erase_without};
ghost use Rattle.gq_kept.specs.Helping.Compared.{IsCompared};
ghost use Rattle.gq_kept.specs.Helping.Gathered.{Gathered};
ghost use Rattle.gq_kept.specs.Helping.Texts.{texts_at};

use crate::gathering::gather_differing;
use crate::same_definitions::{defines_object, is_same_definition};
use gq_text::NoMemory;
use gq_tree::{Name, TypeSystemDefinition};
use gq_types::Entry;
use std::alloc::Global;

/// In what two type systems differ, where they differ in nothing else but places, documents and descriptions of types.
#[derive(Drop)]
pub(crate) struct Differing<'a> {
    /// The names of the fields in which they differ, sixteen at most. A field that differs is one that is added, that is gone, or of which something is
    /// another, and then it is named twice (sections 3.6 and 3.7).
    pub(crate) names: Vec<&'a Name>,
    /// The numbers of the definitions that differ in more than places and documents, in ascending order, as long as all are definitions of object types.
    pub(crate) numbers: Vec<usize>,
    pub(crate) are_objects: bool,
}

impl<'a> Differing<'a> {
    /// Nothing differs. It takes no memory.
    fn nothing(alloc: Global) -> Differing<'a>
        ensures names { result.names.items ≡ [] }
        ensures numbers { result.numbers.items ≡ [] }
    {
        Differing {
            names: Vec::new(alloc),
            numbers: Vec::new(alloc),
            are_objects: true,
        }
    }

    /// Compares the definitions of that number: false where they may differ in more than fields, and where the names are too many.
    fn compare(
        &mut self,
        number: usize,
        one: &'a TypeSystemDefinition,
        other: &'a TypeSystemDefinition,
    ) -> Result<bool, NoMemory>
        ensures names { IfOk result (λ done. done ≡ true → Gathered (texts_at self.old.names.items) (texts_at self.new.names.items) (λ texts.
            place_type_system no_place (definition_without texts (type_system_view one.now)) ≡ place_type_system no_place (definition_without texts (type_system_view other.now)))) }
        ensures objects { IfOk result (λ done. done ≡ true → self.new.are_objects ≡ true → (self.old.are_objects ≡ true)
            × IsCompared number (type_system_view one.now) (type_system_view other.now) self.old.numbers.items self.new.numbers.items) }
    {
        if is_same_definition(one, other) {
            return Ok(true);
        }
        if !gather_differing(one, other, &mut self.names)? {
            return Ok(false);
        }
        if defines_object(one) && defines_object(other) {
            self.numbers.push(number)?;
            return Ok(true);
        }
        self.are_objects = false;
        Ok(true)
    }
}

/// In what the two type systems differ: none, where they may differ in more than fields of types, and where there are more than sixteen names of these.
pub(crate) fn compare_types<'a>(
    alloc: Global,
    types: &'a [Entry],
    others: &'a [Entry],
) -> Result<Option<Differing<'a>>, NoMemory>
    ensures names { IfOk result (λ found. IfSome found (λ some.
        map (erase_without (texts_at some.names.items)) (entries_view types.now) ≡ map (erase_without (texts_at some.names.items)) (entries_view others.now))) }
    ensures objects { IfOk result (λ found. IfSome found (λ some. some.are_objects ≡ true → DifferInObjects 0 (entries_view types.now) (entries_view others.now) some.numbers.items)) }
{
    if types.len() != others.len() {
        return Ok(None);
    }
    let mut found = Differing::nothing(alloc);
    for i in 0..types.len() {
        let (one, other) = (&types[i].definition, &others[i].definition);
        if !found.compare(i, one, other)? {
            return Ok(None);
        }
    }
    Ok(Some(found))
}
