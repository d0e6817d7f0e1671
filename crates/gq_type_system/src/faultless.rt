//! Single definitions and extensions in which no rule is broken.
ghost use Rattle.std.specs.Prelude.{◌≡◌, true, All, IfOk};
ghost use Rattle.gq_types.specs.Look.{types_view};
ghost use Rattle.gq_type_system.specs.FaultsAt.{IsFaultlessAt};

use crate::each_entry::is_untold;
use gq_text::NoMemory;
use gq_types::Types;
use std::alloc::Global;

/// Whether no rule is broken at that number.
fn is_faultless(alloc: Global, types: &Types, number: usize) -> Result<bool, NoMemory>
    ensures { IfOk result (λ faultless. faultless ≡ true → IsFaultlessAt (types_view types.now) number) }
{
    match types.entries().get(number) {
        Some(entry) => is_untold(alloc, types, number, entry),
        None => Ok(false),
    }
}

/// Whether no rule is broken at these numbers of definitions and extensions, counted from zero, each alone and with what
/// belongs to it (section 3). It is so where this answers `true`; `false` says nothing, and is the answer where no
/// definition or extension has one of the numbers. What several break together is passed over: roots, endless input
/// objects, and a query root that is missing. The work is that for these numbers alone, and for what belongs to them.
/// Nothing is changed, at `NoMemory` either.
pub fn are_faultless(alloc: Global, types: &Types, numbers: &[usize]) -> Result<bool, NoMemory>
    ensures { IfOk result (λ faultless. faultless ≡ true → All (IsFaultlessAt (types_view types.now)) numbers.now) }
{
    for number in numbers {
        if !is_faultless(alloc, types, *number)? {
            return Ok(false);
        }
    }
    Ok(true)
}
