//! Where entries stand, by their names: in many entries those of one name are found without a look at the others.
ghost use Rattle.std.specs.Prelude.{◌≡◌, ◌<◌, ℕ, Contains, IfOk};
ghost use Rattle.gq_names.specs.UnderNames.{items_under};
ghost use Rattle.gq_merging.specs.Helping.Entries.{entries_seen};
ghost use Rattle.gq_merging.specs.Helping.Places.{ArePlaced, places_for};

use crate::entries::Entries;
use gq_names::ByName;
use gq_text::NoMemory;
use std::alloc::Global;

/// The most entries that get no table of their names. To go over so few takes less time than to make one.
const FEW: usize = 16;

/// The places of all entries, where these are few; otherwise those of each name.
#[derive(Drop)]
pub(crate) enum Places {
    Few(Vec<usize>),
    Many(ByName<usize>),
}

/// All numbers below the count.
pub(crate) fn numbers_below(alloc: Global, count: usize) -> Result<Vec<usize>, NoMemory>
    ensures within { IfOk result (λ numbers. (j : ℕ) → Contains numbers.items j → j < count) }
    ensures each { IfOk result (λ numbers. (j : ℕ) → j < count → Contains numbers.items j) }
{
    let mut numbers = Vec::with_capacity(alloc, count)?;
    for number in 0..count {
        numbers.push(number)?;
    }
    Ok(numbers)
}

/// The places of the entries of each name.
fn places_by_name(alloc: Global, entries: Entries<'_>) -> Result<ByName<usize>, NoMemory>
    ensures { IfOk result (λ by_name. ArePlaced (entries_seen entries.entry) (items_under by_name)) }
{
    let mut by_name = ByName::new(alloc);
    for place in 0..entries.len() {
        let name = entries.at(place).name;
        by_name.put(name.text.as_str(), place)?;
    }
    Ok(by_name)
}

impl Places {
    /// Where these entries stand.
    pub(crate) fn of(alloc: Global, entries: Entries<'_>) -> Result<Places, NoMemory>
        ensures { IfOk result (λ places. ArePlaced (entries_seen entries.entry) (places_for places)) }
    {
        let count = entries.len();
        if count > FEW {
            let by_name = places_by_name(alloc, entries)?;
            return Ok(Places::Many(by_name));
        }
        let all = numbers_below(alloc, count)?;
        Ok(Places::Few(all))
    }

    /// The places of the entries of that name, maybe with others.
    pub(crate) fn with_name(&self, name: &str) -> &[usize]
        ensures { result.now ≡ places_for self.now name.now }
    {
        match self {
            Places::Few(all) => all,
            Places::Many(by_name) => by_name.get(name),
        }
    }
}
