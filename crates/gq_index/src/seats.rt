//! The variables of a definition, where they are kept with its document.
ghost use Rattle.std.specs.Arc.{arc_value};
ghost use Rattle.std.specs.Prelude.{◌≡◌, map};
ghost use Rattle.std.specs.Option.{option_map};
ghost use Rattle.gq_index.specs.Seats.{variables_at, variables_in};

use crate::index::{Seat, Tables, Variables};
use crate::parts::Parts;
use std::sync::Arc;

/// The variables of what is kept at that place, if something is.
fn variables_in(kept: &[Arc<Parts>], seat: Seat) -> Option<&Variables>
    ensures { option_map (λ v. v.now) result ≡ variables_in (map arc_value kept.now) seat }
{
    match kept.get(seat.file) {
        Some(parts) => match parts.parts.get(seat.offset) {
            Some(part) => Some(&part.variables),
            None => None,
        },
        None => None,
    }
}

impl Tables {
    /// The variables of the definition of that number, if there is one. It takes no memory.
    pub(crate) fn variables(&self, number: usize) -> Option<&Variables>
        ensures { option_map (λ v. v.now) result ≡ variables_at self.now number }
    {
        match self.seats.get(number) {
            Some(seat) => variables_in(&self.kept, *seat),
            None => None,
        }
    }
}
