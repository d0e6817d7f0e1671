//! What may come in the place of the definitions and extensions of a type system, where one type has other fields.
ghost use Rattle.std.specs.Prelude.{◌≡◌, IfOk};
ghost use Rattle.gq_types.specs.Entries.{entries_view};
ghost use Rattle.gq_types.specs.Look.{types_view};
ghost use Rattle.gq_types.specs.Outlines.{DiffersAt};
ghost use Rattle.gq_types.specs.Helping.Index.{AreFieldsAt};

use crate::argument_names::{ArgumentNames, names_in};
use crate::entry::Entry;
use crate::fields::table_of;
use crate::parts::Place;
use crate::table::Table;
use crate::types::Types;
use gq_text::NoMemory;
use std::alloc::Global;

/// Definitions and extensions, those that are built in first, and what is kept of the fields of one of them.
#[derive(Drop)]
pub struct Replacement {
    pub(crate) entries: Vec<Entry>,
    /// The number of that one.
    pub(crate) number: usize,
    pub(crate) fields: Option<Box<Table<Place>>>,
    pub(crate) arguments: Vec<ArgumentNames>,
    ghost are_kept: { ∥ AreFieldsAt (entries_view entries.items) number fields arguments.items ∥₁ },
}

impl Replacement {
    /// These definitions and extensions in the place of those of the type system, where the type with that number has other fields.
    pub fn of(
        alloc: Global,
        types: &Types,
        entries: Vec<Entry>,
        number: usize,
    ) -> Result<Replacement, NoMemory>
        requires { ∥ DiffersAt number (types_view types.now) (entries_view entries.items) ∥₁ }
        ensures entries { IfOk result (λ made. made.entries.items ≡ entries.items) }
        ensures number { IfOk result (λ made. made.number ≡ number) }
    {
        let fields = table_of(alloc, &entries, number, types.joined(number))?;
        let arguments = names_in(alloc, &entries[number].definition)?;
        Ok(Replacement {
            entries,
            number,
            fields,
            arguments,
        })
    }
}
