//! The object types that declare an interface (GraphQL, October 2021, section 3.6).
ghost use Rattle.std.specs.Prelude.{◌≡◌, false, IfOk, ◌&&◌};
ghost use Rattle.std.specs.Option.{option_map_or};
ghost use Rattle.gq_types.specs.Look.{types_view};
ghost use Rattle.gq_types.specs.LookUps.{is_first, declares_in, implementers};
ghost use Rattle.gq_types.specs.Helping.PossiblePlaces.{object_at};

use crate::possible::object_at;
use crate::types::Types;
use gq_text::NoMemory;
use std::alloc::Global;

impl Types {
    /// The numbers of the object types that declare the interface, in order. It goes once over the types that declare it.
    pub fn implementers(&self, alloc: Global, interface: &str) -> Result<Vec<usize>, NoMemory>
        ensures { IfOk result (λ numbers. numbers.items ≡ implementers (types_view self.now) interface.now) }
    {
        let mut numbers = Vec::new(alloc);
        for number in self.declarers(interface) {
            if is_implementer(self, *number, interface) {
                numbers.push(*number)?;
            }
        }
        Ok(numbers)
    }
}

/// Whether the entry with that number defines an object type that declares the interface.
fn is_implementer(types: &Types, number: usize, interface: &str) -> bool
    ensures { result ≡ option_map_or (λ text. is_first (types_view types.now) text number && declares_in (types_view types.now) number interface.now) (object_at (types_view types.now) number) false }
{
    match object_at(types, number) {
        Some(name) => is_first(types, number, name) && types.declares_in(number, interface),
        None => false,
    }
}

/// Whether a type of that name is first defined by the entry with that number.
fn is_first(types: &Types, number: usize, name: &str) -> bool
    ensures { result ≡ is_first (types_view types.now) name.now number }
{
    match types.type_number(name) {
        Some(first) => number == first,
        None => false,
    }
}
