//! The uses of variables in fragments, and how they are put together.
ghost use Rattle.std.specs.Prelude.{◌≡◌, ◌++◌, IfOk, OnOk, map, flat_map};
ghost use Rattle.gq_types.specs.Look.{types_view};
ghost use Rattle.gq_document.specs.Definitions.{fragments_view};
ghost use Rattle.gq_variables.specs.Helping.UsesPlaces.{fragment_uses, row_at, unless};
ghost use Rattle.gq_variables.specs.Helping.Views.{uses_view, rows_view};

use crate::selections::fragment_uses;
use crate::uses::Use;
use gq_document::FragmentEntry;
use gq_text::NoMemory;
use gq_types::Types;
use std::alloc::Global;

/// For each fragment the uses that stand in it.
#[tactic(auto, using(gq_tree::proofs::Trees::gathers))]
pub(crate) fn uses_of_fragments<'a>(
    alloc: Global,
    types: &'a Types,
    fragments: &'a [FragmentEntry<'a>],
) -> Result<Vec<Vec<Use<'a>>>, NoMemory>
    ensures { IfOk result (λ rows. rows_view rows.items ≡ map (fragment_uses (types_view types.now)) (fragments_view fragments.now)) }
{
    let mut rows = Vec::new(alloc);
    for fragment in fragments {
        rows.push(fragment_uses(alloc, types, fragment)?)?;
    }
    Ok(rows)
}

/// Puts the uses behind the others.
#[tactic(auto, using(gq_tree::proofs::Trees::gathers))]
pub(crate) fn put_all<'a>(more: &[Use<'a>], uses: &mut Vec<Use<'a>>) -> Result<(), NoMemory>
    ensures { OnOk result (uses_view uses.new.items ≡ uses_view uses.old.items ++ uses_view more.now) }
{
    for one in more {
        uses.push(*one)?;
    }
    Ok(())
}

/// Puts the uses of the fragment of that number behind the others.
fn put_row<'a>(
    rows: &[Vec<Use<'a>>],
    number: usize,
    uses: &mut Vec<Use<'a>>,
) -> Result<(), NoMemory>
    ensures { OnOk result (uses_view uses.new.items ≡ uses_view uses.old.items ++ row_at (rows_view rows.now) number) }
{
    match rows.get(number) {
        Some(row) => put_all(row, uses),
        None => Ok(()),
    }
}

/// Puts the uses of the fragments of these numbers behind the others.
#[tactic(auto, using(gq_tree::proofs::Trees::gathers))]
pub(crate) fn put_rows<'a>(
    rows: &[Vec<Use<'a>>],
    numbers: &[usize],
    uses: &mut Vec<Use<'a>>,
) -> Result<(), NoMemory>
    ensures { OnOk result (uses_view uses.new.items ≡ uses_view uses.old.items ++ flat_map (row_at (rows_view rows.now)) numbers.now) }
{
    for number in numbers {
        put_row(rows, *number, uses)?;
    }
    Ok(())
}

/// Puts the uses behind the others, unless their faults are known.
pub(crate) fn put_unless_known<'a>(
    are_known: bool,
    more: &[Use<'a>],
    uses: &mut Vec<Use<'a>>,
) -> Result<(), NoMemory>
    ensures { OnOk result (uses_view uses.new.items ≡ uses_view uses.old.items ++ unless are_known (uses_view more.now)) }
{
    if are_known {
        return Ok(());
    }
    put_all(more, uses)
}
