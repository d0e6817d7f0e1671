//! Names that stand earlier in a list as well.
ghost use Rattle.std.specs.Prelude.{◌↔◌, ℕ, Contains, IfOk};
ghost use Rattle.std.specs.List.Sorted.{IsStrictlySortedBy};
ghost use Rattle.std.specs.Ordering.{nat_cmp};
ghost use Rattle.gq_names.specs.Repeats.{IsRepeatedPlace};

use crate::list::NameList;
use gq_text::NoMemory;
use std::alloc::Global;

/// The places, counted from 0 and ascending, of the names that stand at an earlier place too.
pub fn repeated_names(alloc: Global, names: &[&str]) -> Result<Vec<usize>, NoMemory>
    ensures repeated { IfOk result (λ places. (place : ℕ) → Contains places.items place ↔ IsRepeatedPlace (λ name. name.now) names.now place) }
    ensures ascending { IfOk result (λ places. IsStrictlySortedBy nat_cmp places.items) }
{
    let mut seen = NameList::new(alloc);
    let mut places = Vec::new(alloc);
    for (place, name) in names.iter().enumerate() {
        if !seen.push(name)? {
            places.push(place)?;
        }
    }
    Ok(places)
}
