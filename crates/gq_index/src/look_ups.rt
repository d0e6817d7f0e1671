//! Where fragments and variables are defined and used.
ghost use Rattle.std.specs.Prelude.{◌≡◌, List};
ghost use Rattle.gq_index.specs.Indexed.{IsIndexOf};
ghost use Rattle.gq_index.specs.Occurrences.{DefinitionOf, fragment_definitions, fragment_spreads, fragment_occurrences, definition_places, variable_uses, variable_definitions};

use crate::index::Index;
use crate::occurrence::Occurrence;
use gq_text::Span;

impl Index {
    /// Where the fragments of that name are defined: the places of their names, in the order of documents and places. It takes no memory.
    pub fn definitions(&self, name: &str) -> &[Occurrence]
        ensures { (ds : List DefinitionOf) → IsIndexOf ds self.now → result.now ≡ fragment_definitions ds name.now }
    {
        self.tables.fragments.definitions(name)
    }

    /// Where the fragment of that name is spread: the places of its name, in the order of documents and places. It takes no memory.
    pub fn spreads(&self, name: &str) -> &[Occurrence]
        ensures { (ds : List DefinitionOf) → IsIndexOf ds self.now → result.now ≡ fragment_spreads ds name.now }
    {
        self.tables.fragments.spreads(name)
    }

    /// Where the name of that fragment stands: the places of its name at its definitions and in its spreads, in the order of documents and places. It takes no
    /// memory.
    pub fn occurrences(&self, name: &str) -> &[Occurrence]
        ensures { (ds : List DefinitionOf) → IsIndexOf ds self.now → result.now ≡ fragment_occurrences ds name.now }
    {
        self.tables.fragments.occurrences(name)
    }

    /// Where each operation and fragment stands, by its number: the place of all its tokens. It takes no memory.
    pub fn places(&self) -> &[Occurrence]
        ensures { (ds : List DefinitionOf) → IsIndexOf ds self.now → result.now ≡ definition_places ds }
    {
        self.tables.places.as_slice()
    }

    /// Where the variable of that name is used in the definition of that number: the places of its name, in order. Past the last
    /// definition there is none. It takes no memory.
    pub fn variable_uses(&self, definition: usize, name: &str) -> &[Span]
        ensures { (ds : List DefinitionOf) → IsIndexOf ds self.now → result.now ≡ variable_uses ds definition name.now }
    {
        match self.tables.variables(definition) {
            Some(variables) => variables.uses.get(name),
            None => &[],
        }
    }

    /// Where the variable of that name is defined in the definition of that number: the places of its name, in order. Past the last
    /// definition there is none. It takes no memory.
    pub fn variable_definitions(&self, definition: usize, name: &str) -> &[Span]
        ensures { (ds : List DefinitionOf) → IsIndexOf ds self.now → result.now ≡ variable_definitions ds definition name.now }
    {
        match self.tables.variables(definition) {
            Some(variables) => variables.definitions.get(name),
            None => &[],
        }
    }
}
