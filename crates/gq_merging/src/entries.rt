//! Arguments and the fields of an input object, looked at alike: as names with values, whose order says nothing.
ghost use Rattle.std.specs.Prelude.{◌≡◌, ◌<◌, length};
ghost use Rattle.gq_names.specs.Repeats.{StandsAt};
ghost use Rattle.gq_merging.specs.Helping.Entries.{entry_seen, entries_seen};

use gq_tree::{Argument, Name, ObjectField, Value};

/// A name with its value.
#[derive(Clone, Copy)]
pub(crate) struct Entry<'a> {
    pub(crate) name: &'a Name,
    pub(crate) value: &'a Value,
}

/// The arguments of a field, or the fields of an input object.
#[derive(Clone, Copy)]
pub(crate) enum Entries<'a> {
    Arguments(&'a [Argument]),
    Fields(&'a [ObjectField]),
}

impl<'a> Entries<'a> {
    /// How many there are.
    pub(crate) fn len(self) -> usize
        ensures { result ≡ length (entries_seen self.entry) }
    {
        match self {
            Entries::Arguments(arguments) => arguments.len(),
            Entries::Fields(fields) => fields.len(),
        }
    }

    /// The entry at that place.
    pub(crate) fn at(self, place: usize) -> Entry<'a>
        requires { place < length (entries_seen self) }
        ensures { StandsAt (entries_seen self.entry) place (entry_seen result) }
    {
        match self {
            Entries::Arguments(arguments) => {
                let argument = &arguments[place];
                Entry {
                    name: &argument.name,
                    value: &argument.value,
                }
            }
            Entries::Fields(fields) => {
                let field = &fields[place];
                Entry {
                    name: &field.name,
                    value: &field.value,
                }
            }
        }
    }
}
