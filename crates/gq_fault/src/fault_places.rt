//! The faults of rules at names and over places.
ghost use Rattle.std.specs.Prelude.{◌≡◌, ◌++◌, ◌∷◌, [], OnOk};
ghost use Rattle.gq_tree.specs.Views.{name_of};
ghost use Rattle.gq_fault.specs.FaultPlaces.{fault_at, fault_over, first_bytes};

use crate::code::Code;
use crate::fault::Fault;
use gq_text::{NoMemory, Span};
use gq_tree::Name;

/// The fault of a rule over a place.
pub fn fault_over(file: usize, code: Code, place: Span) -> Fault
    ensures { result ≡ fault_over file code place }
{
    Fault {
        file,
        start: place.start,
        code,
        end: place.end,
    }
}

/// The fault of a rule at a name.
pub fn fault_at(file: usize, code: Code, name: &Name) -> Fault
    ensures { result ≡ fault_at file code (name_of name.now) }
{
    fault_over(file, code, name.span)
}

/// The first so many bytes of a place, or all of it where it has fewer.
pub fn first_bytes(count: usize, place: Span) -> Span
    ensures { result ≡ first_bytes count place }
{
    Span {
        start: place.start,
        end: place.start.saturating_add(count).min(place.end),
    }
}

/// Adds a fault behind the others.
pub fn add_fault(fault: Fault, faults: &mut Vec<Fault>) -> Result<(), NoMemory>
    ensures { OnOk result (faults.new.items ≡ faults.old.items ++ fault ∷ []) }
{
    faults.push(fault)?;
    Ok(())
}

/// Adds the fault of a rule at a name behind the others.
pub fn add_fault_at(
    file: usize,
    code: Code,
    name: &Name,
    faults: &mut Vec<Fault>,
) -> Result<(), NoMemory>
    ensures { OnOk result (faults.new.items ≡ faults.old.items ++ fault_at file code (name_of name.now) ∷ []) }
{
    add_fault(fault_at(file, code, name), faults)
}
