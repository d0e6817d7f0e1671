//! The arguments of a field or of a directive, found by their names (GraphQL, October 2021, section 3.6.1).
ghost use Rattle.std.specs.Prelude.{◌≡◌, map, position};
ghost use Rattle.std.specs.Option.{ForSome};
ghost use Rattle.std.specs.List.{list_any};
ghost use Rattle.std.specs.Str.{bytes_eq};
ghost use Rattle.gq_tree.specs.Views.{input_view};
ghost use Rattle.gq_types.specs.Arguments.{argument_texts};
ghost use Rattle.gq_types.specs.Look.{input_of};
ghost use Rattle.gq_types.specs.Names.{argument_named};
ghost use Rattle.gq_types.specs.Required.{is_missing, is_missing_by, is_any_missing};
ghost use Rattle.gq_types.specs.Helping.RequiredNames.{AreNamesOf};

use crate::argument_names::ArgumentNames;
use crate::required::{is_any_lacking, is_required};
use gq_names::NameList;
use gq_tree::InputValueDefinition;

/// Arguments in their order, each found by its name; of doubles the first is meant. It takes no memory.
#[derive(Clone, Copy)]
pub struct Arguments<'a> {
    all: &'a [InputValueDefinition],
    names: Option<&'a ArgumentNames>,
    ghost are_named: { ForSome names (λ n. AreNamesOf (map input_view all.now) n.now) },
}

impl<'a> Arguments<'a> {
    /// These arguments. A look-up goes over all of them.
    pub fn over(all: &'a [InputValueDefinition]) -> Arguments<'a>
        ensures { map input_view result.all.now ≡ map input_view all.now }
    {
        Arguments { all, names: None }
    }

    /// These arguments with their names, by which a look-up goes.
    pub(crate) fn by_names(
        all: &'a [InputValueDefinition],
        names: &'a ArgumentNames,
    ) -> Arguments<'a>
        requires { AreNamesOf (map input_view all.now) names.now }
        ensures { map input_view result.all.now ≡ map input_view all.now }
    {
        Arguments {
            all,
            names: Some(names),
        }
    }

    /// All of them, in their order.
    pub fn all(self) -> &'a [InputValueDefinition]
        ensures { map input_view result.now ≡ map input_view self.entry.all.now }
    {
        self.all
    }

    /// The argument of that name.
    pub fn named(self, name: &str) -> Option<&'a InputValueDefinition>
        ensures { input_of result ≡ argument_named (map input_view self.entry.all.now) name.now }
    {
        match self.place(name) {
            Some(place) => Some(&self.all[place]),
            None => None,
        }
    }

    /// Whether one that is required is not among the given names. The work is that for the given names, or for all
    /// arguments where these are few.
    pub fn is_any_missing(self, given: &NameList) -> bool
        ensures { result ≡ is_any_missing (map input_view self.entry.all.now) given.now }
    {
        match self.names {
            Some(names) => is_any_lacking(&names.required, given),
            None => self.is_missing_among(given),
        }
    }

    /// The same, found by going over all of them.
    fn is_missing_among(self, given: &NameList) -> bool
        ensures { result ≡ list_any (λ d. is_missing_by (map input_view self.entry.all.now) given.now (input_view d)) self.entry.all.now }
    {
        let all = self.all;
        for definition in all {
            if self.is_missing_by(given, definition) {
                return true;
            }
        }
        false
    }

    /// Whether an argument of this definition is required and not given. Of doubles the first is meant.
    fn is_missing_by(self, given: &NameList, definition: &InputValueDefinition) -> bool
        ensures { result ≡ is_missing_by (map input_view self.entry.all.now) given.now (input_view definition.now) }
    {
        is_required(definition) && self.is_missing(given, definition.name.text.as_str())
    }

    /// Whether the argument of that name is required and not given.
    fn is_missing(self, given: &NameList, name: &str) -> bool
        ensures { result ≡ is_missing (map input_view self.entry.all.now) given.now name.now }
    {
        match self.named(name) {
            Some(definition) => is_required(definition) && !given.contains(name),
            None => false,
        }
    }

    /// The place of the first argument of that name.
    fn place(self, name: &str) -> Option<usize>
        ensures { result ≡ position (bytes_eq name.now) (argument_texts (map input_view self.entry.all.now)) }
    {
        match self.names {
            Some(names) => names.all.place(name),
            None => place_among(self.all, name),
        }
    }
}

/// The place of the first of these arguments that has that name, found by going over them.
fn place_among(all: &[InputValueDefinition], name: &str) -> Option<usize>
    ensures { result ≡ position (λ i. bytes_eq name.now i.name.text) all.now }
{
    all.iter().position(|one| name == one.name.text.as_str())
}
